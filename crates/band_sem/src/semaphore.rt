//! The semaphore.
ghost use Rattle.std.specs.Prelude.{◌≡◌, ℕ, ◌+◌, ◌-◌, ◌*◌, ◌<◌, ◌≤◌, ◌↔◌, length, true, IsTrue, IsSome, IfSome, OnSome, IfNone, IsErrOf, OnOk, OnErr};
ghost use Rattle.band_balance.specs.Line.{total, available, drained, overflows, owes_too_much};
ghost use Rattle.band_sem.specs.Permit.{new_permit};
ghost use Rattle.band_sem.specs.Request.{new_request};
ghost use Rattle.band_sem.specs.Laws.{KeepsOrder, LeavesOthers};
ghost use Rattle.band_sem.specs.Semaphore.{SemaphoreState, IsLike, IsLawful, HasSlot, is_granted, new_state, new_debts, serves, taken, given_back, forgotten, released, reduced, shut, without_request, TakesWake};
ghost use Rattle.band_line.specs.Visits.{Visits};
ghost use Rattle.band_sem.specs.Shown.{ShowsLine};
ghost use Rattle.band_sem.specs.Visits.{FewVisits};
ghost use Rattle.band_sem.specs.Kept.Store.{Enters, EntersIn, PollsSlot};
ghost use Rattle.band_sem.specs.Whole.{IsWhole, StaysWhole};

use crate::store::{Entrance, Store};
use crate::{Acquire, ReduceError, ReleaseError, SemaphorePermit};
use band_base::{Steps, Waker};
use band_line::{WaitList, WaiterId};
use band_row::{Found, WaitNode};
use std::alloc::{AllocError, Global};
use std::marker::Model;
use std::sync::ledger::Ledger;

/// A fair semaphore. Ports `Semaphore`, as a state that is changed by one call at a time.
#[derive(Drop)]
pub struct Semaphore {
    store: Store,
}

impl Model for Semaphore {
    ghost use Rattle.band_sem.specs.Semaphore.{SemaphoreState};
    ghost use Rattle.band_sem.specs.Kept.Store.{state_of, IsSound};

    ghost Value = { SemaphoreState };

    ghost view = { λ s. state_of s.store };

    ghost invariant = { λ s. IsSound s.store };
}

impl Semaphore {
    /// A semaphore of `permits`, which tokens know by `number`.
    pub fn new(alloc: Global, number: u64, permits: u64) -> Semaphore
        ensures start { result ≡ new_state number permits }
        ensures lawful { IsLawful result }
    {
        Semaphore {
            store: Store::new(alloc, number, permits),
        }
    }

    /// Its number.
    pub fn number(&self) -> u64
        ensures { result ≡ self.now.number }
    {
        self.store.number()
    }

    /// How many may be taken without waiting: none while a request waits. Where it is closed, only a drain takes them.
    pub fn available_permits(&self) -> u64
        ensures count { result ≡ available self.now.line }
        ensures lawful { IsLawful self.now }
    {
        self.store.available()
    }

    /// What nobody has, less what is owed.
    pub fn free(&self) -> i128
        ensures count { result ≡ self.now.line.free }
        ensures lawful { IsLawful self.now }
    {
        self.store.free()
    }

    /// How many requests wait.
    pub fn waiting_count(&self) -> u64
        ensures count { result ≡ length self.now.line.waiting }
        ensures lawful { IsLawful self.now }
    {
        self.store.waiting_count()
    }

    /// How many permits were granted to requests that have not polled since. It looks at no request.
    pub fn granted_permits(&self) -> u64
        ensures count { result ≡ total self.now.line.granted }
        ensures lawful { IsLawful self.now }
    {
        self.store.granted_sum()
    }

    /// How many permits tokens stand for.
    pub fn held_permits(&self) -> u64
        ensures count { result ≡ self.now.held }
        ensures lawful { IsLawful self.now }
    {
        self.store.held()
    }

    /// The nodes of the line: those linked, from the front on, are debts and requests that wait; the others were granted or ended.
    pub fn line(&self) -> &WaitList<WaitNode>
        ensures shows { ShowsLine self.now result.now }
        ensures lawful { IsLawful self.now }
    {
        self.store.line()
    }

    /// Was it closed?
    pub fn is_closed(&self) -> bool
        ensures closed { result ≡ self.now.closed }
        ensures lawful { IsLawful self.now }
    {
        self.store.closed()
    }

    /// A request for `n` permits, not polled yet.
    pub fn acquire(&self, n: u64) -> Acquire
        ensures { result ≡ new_request self.now.number n }
    {
        Acquire::new(self.number(), n)
    }

    /// Takes `n` permits if they are there, nobody waits and it is open. It never joins the line.
    pub fn try_acquire(&mut self, n: u64) -> Option<SemaphorePermit>
        ensures served { IsSome result ↔ IsTrue (serves n self.old) }
        ensures permit { IfSome result (λ permit. permit ≡ new_permit self.old.number n) }
        ensures some { OnSome result (self.new ≡ taken n self.old) }
        ensures none { IfNone result (self.new ≡ self.old) }
        ensures lawful { IsLawful self.new }
        ensures whole { StaysWhole self.old self.new }
    {
        if self.store.try_serve(n) {
            return Some(SemaphorePermit::new(self.number(), n));
        }
        None
    }

    /// Takes away what is available, `up_to` at most, and tells how many.
    pub fn drain_permits(&mut self, up_to: u64) -> u64
        ensures count { result ≡ drained up_to self.old.line }
        ensures state { self.new ≡ reduced result self.old }
        ensures lawful { IsLawful self.new }
        ensures whole { (m : ℕ) → IsWhole (m + result) self.old → IsWhole m self.new }
    {
        self.store.drain(up_to)
    }

    /// Adds `n` permits, which first pay what is owed. Then the line settles.
    pub fn release<L: Ledger>(&mut self, n: u64, steps: &mut Steps<L>) -> Result<(), ReleaseError>
        ensures overflow { IsErrOf result ReleaseError.Overflow
            ↔ IsTrue (overflows n self.old.line self.old.held) }
        ensures ok { OnOk result (IsLike (released n self.old) self.new) }
        ensures err { OnErr result (self.new ≡ self.old) }
        ensures order { KeepsOrder self.old.line self.new.line }
        ensures lawful { IsLawful self.new }
        ensures whole { OnOk result ((m : ℕ) → IsWhole m self.old → IsWhole (m + n) self.new) }
        ensures visits { FewVisits self.old self.new steps.old steps.new }
    {
        if self.store.release(n, steps) {
            Ok(())
        } else {
            Err(ReleaseError::Overflow)
        }
    }

    /// Takes `n` permits away, also from under the line. What is not there is owed.
    pub fn reduce_permits<L: Ledger>(
        &mut self,
        n: u64,
        steps: &mut Steps<L>,
    ) -> Result<(), ReduceError>
        ensures debt { IsErrOf result ReduceError.Debt ↔ IsTrue (owes_too_much n self.old.line) }
        ensures no_memory { IsErrOf result ReduceError.NoMemory → available self.old.line < n }
        ensures ok { OnOk result (self.new ≡ reduced n self.old) }
        ensures err { OnErr result (self.new ≡ self.old) }
        ensures lawful { IsLawful self.new }
        ensures visits { Visits 0 (2 * new_debts n self.old.line) steps.old steps.new }
    {
        self.store.reduce(n, steps)
    }

    /// Gives back what a permit has beyond `keep`. Then the line settles.
    pub fn shrink<L: Ledger>(
        &mut self,
        p: SemaphorePermit,
        keep: u64,
        steps: &mut Steps<L>,
    ) -> SemaphorePermit
        requires number { p.of ≡ self.old.number }
        requires held { p.count ≤ self.old.held }
        requires keep { keep ≤ p.count }
        ensures permit { result ≡ record p { count = keep } }
        ensures state { IsLike (given_back (p.count - keep) self.old) self.new }
        ensures order { KeepsOrder self.old.line self.new.line }
        ensures lawful { IsLawful self.new }
        ensures whole { StaysWhole self.old self.new }
        ensures visits { FewVisits self.old self.new steps.old steps.new }
    {
        self.store.give_back(p.permits() - keep, steps);
        let kept = SemaphorePermit::new(p.of(), keep);
        p.lose();
        kept
    }

    /// Ends a permit without giving it back: there are fewer permits from then on.
    pub fn forget(&mut self, p: SemaphorePermit)
        requires number { p.of ≡ self.old.number }
        requires held { p.count ≤ self.old.held }
        ensures state { self.new ≡ forgotten p.count self.old }
        ensures lawful { IsLawful self.new }
        ensures whole { (m : ℕ) → IsWhole (m + p.count) self.old → IsWhole m self.new }
    {
        self.store.forget(p.permits());
        p.lose();
    }

    /// Gives a permit back. Then the line settles.
    pub fn drop_permit<L: Ledger>(&mut self, p: SemaphorePermit, steps: &mut Steps<L>)
        requires number { p.of ≡ self.old.number }
        requires held { p.count ≤ self.old.held }
        ensures state { IsLike (given_back p.count self.old) self.new }
        ensures order { KeepsOrder self.old.line self.new.line }
        ensures lawful { IsLawful self.new }
        ensures whole { StaysWhole self.old self.new }
        ensures visits { FewVisits self.old self.new steps.old steps.new }
    {
        self.store.give_back(p.permits(), steps);
        p.lose();
    }

    /// Closes it: each request that waits is ended and is to be woken, in order, and its next poll answers `Closed`.
    /// First polls answer that too from now on, and tries get nothing. What was granted or is held stays, and comes back
    /// as ever. It takes no memory.
    pub fn close<L: Ledger>(&mut self, steps: &mut Steps<L>)
        ensures state { IsLike (shut self.old) self.new }
        // Where it was closed before, nothing changes.
        ensures again { self.old.closed ≡ true → self.new ≡ self.old }
        ensures lawful { IsLawful self.new }
        ensures visits { FewVisits self.old self.new steps.old steps.new }
    {
        self.store.close(steps);
    }

    /// Takes the oldest waker to wake, if there is one.
    pub fn take_wake(&mut self) -> Option<Waker>
        ensures woken { TakesWake self.old result self.new }
        ensures lawful { IsLawful self.new }
        ensures whole { StaysWhole self.old self.new }
    {
        self.store.take_wake()
    }

    /// A first poll: it is served at once, or it joins under a new slot, unless the semaphore is closed.
    pub(crate) fn enter<L: Ledger>(
        &mut self,
        size: u64,
        waker: Waker,
        steps: &mut Steps<L>,
    ) -> Result<Entrance, AllocError>
        ensures enters { Enters size waker.0 self.old result self.new }
        ensures lawful { IsLawful self.new }
        ensures visits { EntersIn result steps.old steps.new }
    {
        self.store.enter(size, waker, steps)
    }

    /// Whether the request under this slot was granted.
    pub(crate) fn is_granted<L: Ledger>(&self, slot: WaiterId, steps: &mut Steps<L>) -> bool
        requires { HasSlot slot self.now }
        ensures granted { result ≡ is_granted slot self.now }
        ensures visits { steps.new ≡ steps.old + 1 }
    {
        self.store.is_granted(slot, steps)
    }

    /// A later poll, which tells how many permits it takes if it was granted, and whether it was ended.
    pub(crate) fn poll_slot<L: Ledger>(
        &mut self,
        slot: WaiterId,
        waker: Waker,
        steps: &mut Steps<L>,
    ) -> Found
        requires here { HasSlot slot self.old }
        ensures polls { PollsSlot slot waker.0 self.old result self.new }
        ensures lawful { IsLawful self.new }
        ensures visits { Visits 1 2 steps.old steps.new }
    {
        self.store.poll(slot, waker, steps)
    }

    /// Takes out the request under this slot. Then the line settles.
    pub(crate) fn cancel<L: Ledger>(&mut self, slot: WaiterId, steps: &mut Steps<L>)
        requires here { HasSlot slot self.old }
        ensures state { IsLike (without_request slot self.old) self.new }
        ensures others { LeavesOthers slot self.old self.new }
        ensures order { KeepsOrder self.old.line self.new.line }
        ensures lawful { IsLawful self.new }
        ensures whole { StaysWhole self.old self.new }
        ensures visits { FewVisits self.old self.new steps.old steps.new }
    {
        self.store.cancel(slot, steps);
    }

    /// Does nothing: a caller that changes nothing learns that the line is lawful.
    pub(crate) fn touch(&self)
        ensures { IsLawful self.now }
    {
        let _ = &self.store;
    }
}
