//! What a semaphore keeps: its counts, its line, and the wakers to wake.
ghost use Rattle.std.specs.Prelude.{◌≡◌, ◌+◌, ◌*◌, ◌<◌, ◌≤◌, ◌↔◌, false, length, IsTrue, true, pos, ◌+ℤ◌, IsOk, OnOk, OnErr, IsErrOf};
ghost use Rattle.std.specs.Bool.{OnTrue};
ghost use Rattle.band_balance.specs.Line.{total, available, drained, overflows, owes_too_much, is_served};
ghost use Rattle.band_line.specs.Visits.{Visits};
ghost use Rattle.band_sem.specs.Semaphore.{IsLike, HasSlot, is_granted, new_state, new_debts, serves, taken, given_back, forgotten, released, reduced, shut, without_request, TakesWake};
ghost use Rattle.band_sem.specs.Visits.{FewVisits};
ghost use Rattle.band_sem.specs.Kept.Store.{line_in, state_of, CountsFit, IsSound, Enters, EntersIn, PollsSlot};

use crate::ReduceError;
use crate::balance::Balance;
use band_base::{Steps, Waker};
use band_line::{WaitList, WaiterId};
use band_row::{Found, Row, WaitNode};
use std::alloc::{AllocError, Global};
use std::sync::ledger::Ledger;

/// How a first poll goes.
#[derive(Drop)]
pub(crate) enum Entrance {
    /// It has its permits.
    Served,
    /// It waits under this slot.
    Joined(WaiterId),
    /// The semaphore is closed.
    Closed,
}

/// The state of a semaphore.
#[derive(Drop)]
pub(crate) struct Store {
    free: Balance,
    number: u64,
    held: u64,
    row: Row,
    closed: bool,
}

// A semaphore in which nobody ever waited takes no more than this.
const _: () = prove!(size_of::<Store>() == 80);

// An enum around it grows by 8 bytes, and not by 16.
const _: () = prove!(align_of::<Store>() == 8);

impl Store {
    /// Nobody is in the line, and all permits are free.
    pub(crate) fn new(alloc: Global, number: u64, permits: u64) -> Store
        ensures state { state_of result ≡ new_state number permits }
        ensures sound { IsSound result }
    {
        Store {
            free: Balance::new(permits),
            number,
            held: 0,
            row: Row::new(alloc, permits),
            closed: false,
        }
    }

    pub(crate) fn number(&self) -> u64
        ensures { result ≡ self.now.number }
    {
        self.number
    }

    pub(crate) fn free(&self) -> i128
        ensures { result ≡ self.now.free }
    {
        self.free.get()
    }

    pub(crate) fn held(&self) -> u64
        ensures { result ≡ self.now.held }
    {
        self.held
    }

    pub(crate) fn granted_sum(&self) -> u64
        ensures { result ≡ total (line_in self.now).granted }
    {
        self.row.granted_sum()
    }

    pub(crate) fn waiting_count(&self) -> u64
        ensures { result ≡ length (line_in self.now).waiting }
    {
        self.row.waiting_count()
    }

    pub(crate) fn line(&self) -> &WaitList<WaitNode>
        ensures { result.now ≡ self.now.row.list }
    {
        self.row.list()
    }

    pub(crate) fn closed(&self) -> bool
        ensures { result ≡ self.now.closed }
    {
        self.closed
    }

    /// How many may be taken without waiting; where it is closed, by a drain alone.
    pub(crate) fn available(&self) -> u64
        requires { IsSound self.now }
        ensures { result ≡ available (line_in self.now) }
    {
        self.row.word()
    }

    /// Takes the oldest waker to wake.
    pub(crate) fn take_wake(&mut self) -> Option<Waker>
        requires { IsSound self.old }
        ensures woken { TakesWake (state_of self.old) result (state_of self.new) }
        ensures sound { IsSound self.new }
    {
        self.row.take_wake()
    }

    fn serves(&self, size: u64) -> bool
        requires { IsSound self.now }
        ensures { result ≡ is_served size (line_in self.now) }
    {
        size <= self.row.word()
    }

    fn serve(&mut self, size: u64)
        requires sound { IsSound self.old }
        requires served { IsTrue (is_served size (line_in self.old)) }
        ensures state { state_of self.new ≡ taken size (state_of self.old) }
        ensures sound { IsSound self.new }
    {
        self.row.draw(size);
        self.free = Balance::of(self.free() - i128::from(size));
        self.held += size;
    }

    /// Serves at once, or changes nothing.
    pub(crate) fn try_serve(&mut self, size: u64) -> bool
        requires { IsSound self.old }
        ensures served { result ≡ serves size (state_of self.old) }
        ensures yes { OnTrue result (state_of self.new ≡ taken size (state_of self.old)) }
        ensures no { result ≡ false → state_of self.new ≡ state_of self.old }
        ensures sound { IsSound self.new }
    {
        if !self.closed && self.serves(size) {
            self.serve(size);
            return true;
        }
        false
    }

    /// Takes of what is available.
    fn take(&mut self, count: u64)
        requires sound { IsSound self.old }
        requires there { count ≤ available (line_in self.old) }
        ensures state { state_of self.new ≡ reduced count (state_of self.old) }
        ensures sound { IsSound self.new }
    {
        self.row.draw(count);
        self.free = Balance::of(self.free() - i128::from(count));
    }

    /// Takes what is available, and no more than `up_to`.
    pub(crate) fn drain(&mut self, up_to: u64) -> u64
        requires { IsSound self.old }
        ensures count { result ≡ drained up_to (line_in self.old) }
        ensures state { state_of self.new ≡ reduced result (state_of self.old) }
        ensures sound { IsSound self.new }
    {
        let count = up_to.min(self.available());
        self.take(count);
        count
    }

    fn owes_too_much(&self, count: u64) -> bool
        requires { IsSound self.now }
        ensures { result ≡ owes_too_much count (line_in self.now) }
    {
        self.free() - i128::from(count) < -i128::from(u64::MAX)
    }

    /// Takes what is available, and owes the rest, where there is memory to keep the debt in.
    fn owe<L: Ledger>(&mut self, count: u64, steps: &mut Steps<L>) -> Result<(), AllocError>
        requires sound { IsSound self.old }
        requires more { available (line_in self.old) < count }
        requires debt { owes_too_much count (line_in self.old) ≡ false }
        ensures ok { OnOk result (state_of self.new ≡ reduced count (state_of self.old)) }
        ensures err { OnErr result (state_of self.new ≡ state_of self.old) }
        ensures sound { IsSound self.new }
        ensures visits { Visits 0 (2 * new_debts count (line_in self.old)) steps.old steps.new }
    {
        self.row.owe(count, steps)?;
        self.free = Balance::of(self.free() - i128::from(count));
        Ok(())
    }

    /// Takes permits from the free ones, into debt where there are not as many, or changes nothing.
    pub(crate) fn reduce<L: Ledger>(
        &mut self,
        count: u64,
        steps: &mut Steps<L>,
    ) -> Result<(), ReduceError>
        requires { IsSound self.old }
        ensures debt { IsErrOf result ReduceError.Debt ↔ IsTrue (owes_too_much count (line_in self.old)) }
        ensures no_memory { IsErrOf result ReduceError.NoMemory → available (line_in self.old) < count }
        ensures ok { OnOk result (state_of self.new ≡ reduced count (state_of self.old)) }
        ensures err { OnErr result (state_of self.new ≡ state_of self.old) }
        ensures sound { IsSound self.new }
        ensures visits { Visits 0 (2 * new_debts count (line_in self.old)) steps.old steps.new }
    {
        if self.owes_too_much(count) {
            return Err(ReduceError::Debt);
        }
        if count <= self.available() {
            self.take(count);
            return Ok(());
        }
        match self.owe(count, steps) {
            Ok(()) => Ok(()),
            Err(_) => Err(ReduceError::NoMemory),
        }
    }

    /// Serves a first poll at once, or lets it join under a new slot, unless the semaphore is closed.
    pub(crate) fn enter<L: Ledger>(
        &mut self,
        size: u64,
        waker: Waker,
        steps: &mut Steps<L>,
    ) -> Result<Entrance, AllocError>
        requires { IsSound self.old }
        ensures enters { Enters size waker.0 (state_of self.old) result (state_of self.new) }
        ensures sound { IsSound self.new }
        ensures visits { EntersIn result steps.old steps.new }
    {
        if self.closed {
            return Ok(Entrance::Closed);
        }
        if self.serves(size) {
            self.serve(size);
            return Ok(Entrance::Served);
        }
        let slot = self.row.enqueue(size, waker, steps)?;
        Ok(Entrance::Joined(slot))
    }

    /// All permits that there are: those free, granted and held.
    fn in_all(&self) -> i128
        requires { IsSound self.now }
        ensures { result ≡ self.now.free +ℤ pos (total (line_in self.now).granted + self.now.held) }
    {
        self.free() + i128::from(self.granted_sum()) + i128::from(self.held)
    }

    fn overflows(&self, count: u64) -> bool
        requires { IsSound self.now }
        ensures { result ≡ overflows count (line_in self.now) self.now.held }
    {
        self.in_all() + i128::from(count) > i128::from(u64::MAX)
    }

    /// Adds permits to the free ones. Then the line settles.
    fn add<L: Ledger>(&mut self, count: u64, steps: &mut Steps<L>)
        requires sound { IsSound self.old }
        requires fits { overflows count (line_in self.old) self.old.held ≡ false }
        ensures state { IsLike (released count (state_of self.old)) (state_of self.new) }
        ensures sound { IsSound self.new }
        ensures visits { FewVisits (state_of self.old) (state_of self.new) steps.old steps.new }
    {
        let all = self.in_all() + i128::from(count);
        self.row.pass_on(count, steps);
        self.free = self.free_of(all);
    }

    /// What is free where there are so many in all.
    fn free_of(&self, all: i128) -> Balance
        requires all { all ≡ (line_in self.now).free +ℤ pos (total (line_in self.now).granted + self.now.held) }
        requires fit { CountsFit self.now.held (line_in self.now).free (total (line_in self.now).granted) }
        ensures { result ≡ (line_in self.now).free }
    {
        Balance::of(all - i128::from(self.granted_sum()) - i128::from(self.held))
    }

    /// Adds permits, or changes nothing where they would be too many. Then the line settles.
    pub(crate) fn release<L: Ledger>(&mut self, count: u64, steps: &mut Steps<L>) -> bool
        requires { IsSound self.old }
        ensures overflow { result ≡ false ↔ IsTrue (overflows count (line_in self.old) self.old.held) }
        ensures yes { OnTrue result (IsLike (released count (state_of self.old)) (state_of self.new)) }
        ensures no { result ≡ false → state_of self.new ≡ state_of self.old }
        ensures sound { IsSound self.new }
        ensures visits { FewVisits (state_of self.old) (state_of self.new) steps.old steps.new }
    {
        if self.overflows(count) {
            return false;
        }
        self.add(count, steps);
        true
    }

    /// Permits that were held are no more.
    pub(crate) fn forget(&mut self, count: u64)
        requires sound { IsSound self.old }
        requires held { count ≤ self.old.held }
        ensures state { state_of self.new ≡ forgotten count (state_of self.old) }
        ensures sound { IsSound self.new }
    {
        self.held -= count;
    }

    /// Gives back permits that were held.
    pub(crate) fn give_back<L: Ledger>(&mut self, count: u64, steps: &mut Steps<L>)
        requires sound { IsSound self.old }
        requires held { count ≤ self.old.held }
        ensures state { IsLike (given_back count (state_of self.old)) (state_of self.new) }
        ensures sound { IsSound self.new }
        ensures visits { FewVisits (state_of self.old) (state_of self.new) steps.old steps.new }
    {
        self.forget(count);
        self.add(count, steps);
    }

    /// Whether the request under this slot was granted.
    pub(crate) fn is_granted<L: Ledger>(&self, slot: WaiterId, steps: &mut Steps<L>) -> bool
        requires { HasSlot slot (state_of self.now) }
        ensures granted { result ≡ is_granted slot (state_of self.now) }
        ensures visits { steps.new ≡ steps.old + 1 }
    {
        self.row.is_granted(slot, steps)
    }

    /// One that was granted takes its permits, whose count is told, one that was ended leaves, and one that waits leaves its new waker.
    pub(crate) fn poll<L: Ledger>(
        &mut self,
        slot: WaiterId,
        waker: Waker,
        steps: &mut Steps<L>,
    ) -> Found
        requires sound { IsSound self.old }
        requires here { HasSlot slot (state_of self.old) }
        ensures polls { PollsSlot slot waker.0 (state_of self.old) result (state_of self.new) }
        ensures sound { IsSound self.new }
        ensures visits { Visits 1 2 steps.old steps.new }
    {
        match self.row.poll(slot, waker, steps) {
            Found::Granted(size) => {
                self.held += size;
                Found::Granted(size)
            }
            Found::Waits => Found::Waits,
            Found::Ended => Found::Ended,
        }
    }

    /// Takes out the request under this slot. Then the line settles.
    pub(crate) fn cancel<L: Ledger>(&mut self, slot: WaiterId, steps: &mut Steps<L>)
        requires sound { IsSound self.old }
        requires here { HasSlot slot (state_of self.old) }
        ensures state { IsLike (without_request slot (state_of self.old)) (state_of self.new) }
        ensures sound { IsSound self.new }
        ensures visits { FewVisits (state_of self.old) (state_of self.new) steps.old steps.new }
    {
        let all = self.in_all();
        self.row.cancel(slot, steps);
        self.free = self.free_of(all);
    }

    /// Closes the semaphore, where it is open: all that wait are ended. It takes no memory.
    pub(crate) fn close<L: Ledger>(&mut self, steps: &mut Steps<L>)
        requires { IsSound self.old }
        ensures state { IsLike (shut (state_of self.old)) (state_of self.new) }
        ensures again { self.old.closed ≡ true → state_of self.new ≡ state_of self.old }
        ensures sound { IsSound self.new }
        ensures visits { FewVisits (state_of self.old) (state_of self.new) steps.old steps.new }
    {
        if self.closed {
            return;
        }
        self.closed = true;
        let free = self.free();
        self.row.close(free, steps);
    }
}
