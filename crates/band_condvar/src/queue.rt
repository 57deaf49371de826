//! Who waits for a condition variable, and whom to wake.
ghost use Rattle.std.specs.Prelude.{◌≡◌, ◌+◌, ◌*◌, ◌<◌, ◌≤◌, false, length, [], Some, OnOk, OnErr, IsSome, IsTrue, MatchBool, if◌then◌else◌};
ghost use Rattle.band_line.specs.Arena.{next_slot};
ghost use Rattle.band_line.specs.Visits.{Visits};
ghost use Rattle.band_line.specs.WaitList.{waiter_at, is_linked, first_waiter, IsUnlinked, IsWaitList};
ghost use Rattle.band_signal.specs.WaitQueue.{new_queue, place_at, HasNoRoom, with_wake_room, TakesWake};
ghost use Rattle.band_condvar.specs.Condvar.{IsCondvar, is_queued, is_chosen, all_notified, joined, gone, without, with_room, AllStay};
ghost use Rattle.band_condvar.specs.Waits.{Registered, LeavesOthers};
ghost use Rattle.band_condvar.specs.Kept.Queue.{HasRoom, CallsFirst, Looks};

use crate::place::Place;
use band_base::{Steps, WakeLine, Waker};
use band_line::{WaitList, WaiterId};
use std::alloc::{AllocError, Global};
use std::marker::Model;
use std::mem;
use std::sync::ledger::Ledger;

/// The waits of a condition variable, and the wakers to wake, with room for the wake of each that is in line.
#[derive(Drop)]
pub(crate) struct Queue {
    list: WaitList<Place>,
    waiting: u64,
    wakes: WakeLine,
}

impl Model for Queue {
    ghost use Rattle.std.specs.Prelude.{◌-◌};
    ghost use Rattle.band_condvar.specs.Condvar.{CondvarState};
    ghost use Rattle.band_condvar.specs.Kept.Queue.{IsKept};

    ghost Value = { CondvarState };

    ghost view = { λ q. record {
      line = q.list;
      wakes = q.wakes.wakers;
      room = q.wakes.spare - q.waiting;
    } };

    ghost invariant = { λ q. IsKept q.list q.waiting q.wakes.spare };
}

impl Queue {
    /// Nobody waits.
    pub(crate) fn new(alloc: Global) -> Queue
        ensures { result ≡ new_queue }
    {
        Queue {
            list: WaitList::new(alloc),
            waiting: 0,
            wakes: WakeLine::new(alloc),
        }
    }

    /// Does nothing: a caller that changes nothing learns who is queued.
    pub(crate) fn touch(&self)
        ensures { IsCondvar self.now }
    {
        self.list.spare();
    }

    /// Calls the first in line, and tells whether there was one.
    pub(crate) fn call_first<L: Ledger>(&mut self, place: Place, steps: &mut Steps<L>) -> bool
        requires { is_queued (Some place) ≡ false }
        ensures calls { CallsFirst (first_waiter self.old.line) place self.old result
            self.new }
        ensures stay { AllStay self.old self.new }
        ensures all { place ≡ Place.Released → all_notified self.new ≡ all_notified self.old }
        ensures empty { result ≡ false → self.new.line.linked ≡ [] }
        ensures fewer { IsTrue result
            → length self.new.line.linked + 1 ≡ length self.old.line.linked }
        ensures sound { IsCondvar self.new }
        ensures visits { MatchBool result (Visits 1 3 steps.old steps.new) (steps.new ≡ steps.old) }
    {
        let Some(first) = self.list.first() else {
            return false;
        };
        match call(&mut self.list, first, place, steps) {
            Place::Queued(waker) => {
                self.waiting -= 1;
                self.wakes.push(waker);
                self.touch();
                true
            }
            Place::Chosen | Place::Released => unreachable!(),
        }
    }

    /// Releases all in line, in its order.
    pub(crate) fn release_all<L: Ledger>(&mut self, steps: &mut Steps<L>)
        ensures state { self.new ≡ all_notified self.old }
        ensures stay { AllStay self.old self.new }
        ensures sound { IsCondvar self.new }
        ensures visits { Visits 0 (3 * length self.old.line.linked) steps.old steps.new }
    {
        while self.call_first(Place::Released, steps) {}
    }

    /// Makes room for the wake of one more.
    fn reserve_wake(&mut self) -> Result<(), AllocError>
        ensures room { OnOk result (0 < self.new.room) }
        ensures fits { OnOk result (length self.new.line.linked < u64.MAX) }
        ensures none { OnErr result (self.old.room ≡ 0) }
        ensures state { self.new ≡ with_wake_room self.new.room self.old }
        ensures sound { IsCondvar self.new }
    {
        self.touch();
        if self.waiting < self.wakes.spare() {
            return Ok(());
        }
        match self.waiting.checked_add(1) {
            Some(wanted) => self.wakes.reserve(wanted),
            None => Err(AllocError),
        }
    }

    /// Makes room for one more wait and for its wake.
    pub(crate) fn reserve(&mut self) -> Result<(), AllocError>
        ensures room { OnOk result (HasRoom self.new) }
        ensures ok { OnOk result
            (self.new ≡ with_room self.new.line.nodes.spare self.new.room self.old) }
        ensures none { OnErr result (HasNoRoom self.old) }
        ensures err { OnErr result (self.new ≡ with_wake_room self.new.room self.old) }
        ensures sound { IsCondvar self.new }
    {
        self.reserve_wake()?;
        self.list.reserve(1)
    }

    /// Puts a wait at the end of the line, in room that was made.
    pub(crate) fn join<L: Ledger>(&mut self, waker: Waker, steps: &mut Steps<L>) -> WaiterId
        requires { HasRoom self.old }
        ensures slot { result ≡ next_slot self.old.line.nodes }
        ensures vacant { place_at result self.old ≡ None }
        ensures state { self.new ≡ joined waker self.new.line.nodes.spare self.new.room self.old }
        ensures here { IsSome (place_at result self.new) }
        ensures others { LeavesOthers (Registered result) self.old self.new }
        ensures sound { IsCondvar self.new }
        ensures visits { Visits 1 2 steps.old steps.new }
    {
        self.waiting += 1;
        self.list.push_back(Place::Queued(waker), steps)
    }

    /// One that is queued leaves another waker. Where it was called, the answer is whether it was chosen.
    pub(crate) fn look<L: Ledger>(
        &mut self,
        id: WaiterId,
        waker: Waker,
        steps: &mut Steps<L>,
    ) -> Option<bool>
        requires { IsSome (place_at id self.old) }
        ensures looks { Looks (place_at id self.old) id waker self.old result self.new }
        ensures here { IsSome (place_at id self.new) }
        ensures room { HasRoom self.old → HasRoom self.new }
        ensures others { LeavesOthers (Registered id) self.old self.new }
        ensures sound { IsCondvar self.new }
        ensures visits { steps.new ≡ steps.old + 1 }
    {
        self.list.waiter_mut(id, steps).leave(waker)
    }

    /// Whether a wait is in line.
    pub(crate) fn is_queued<L: Ledger>(&mut self, id: WaiterId, steps: &mut Steps<L>) -> bool
        requires { IsSome (place_at id self.old) }
        ensures queued { result ≡ is_queued (place_at id self.old) }
        ensures same { self.new ≡ self.old }
        ensures visits { steps.new ≡ steps.old + 1 }
    {
        matches!(self.list.waiter_mut(id, steps), Place::Queued(_))
    }

    /// Takes a wait out that is not in line any more.
    pub(crate) fn remove<L: Ledger>(&mut self, id: WaiterId, steps: &mut Steps<L>)
        requires here { IsSome (place_at id self.old) }
        requires called { is_queued (place_at id self.old) ≡ false }
        ensures state { self.new ≡ gone id self.old }
        ensures room { HasRoom self.old → HasRoom self.new }
        ensures others { LeavesOthers (Registered id) self.old self.new }
        ensures sound { IsCondvar self.new }
        ensures visits { steps.new ≡ steps.old + 1 }
    {
        self.list.remove_unlinked_waiter(id, steps);
    }

    /// Takes a wait out, from the line too, and tells whether it was chosen.
    pub(crate) fn take_out<L: Ledger>(&mut self, id: WaiterId, steps: &mut Steps<L>) -> bool
        requires { IsSome (place_at id self.old) }
        ensures answer { result ≡ is_chosen (place_at id self.old) }
        ensures state { self.new ≡ without id self.old }
        ensures others { LeavesOthers (Registered id) self.old self.new }
        ensures sound { IsCondvar self.new }
        ensures visits { Visits 2 (if result then 3 else 5) steps.old steps.new }
    {
        let place = call(&mut self.list, id, Place::Released, steps);
        self.list.remove_unlinked_waiter(id, steps);
        match place {
            Place::Queued(_) => {
                self.waiting -= 1;
                false
            }
            Place::Chosen => true,
            Place::Released => false,
        }
    }

    /// Takes the oldest waker to wake, if there is one.
    pub(crate) fn take_wake(&mut self) -> Option<Waker>
        ensures woken { TakesWake self.old result self.new }
        ensures sound { IsCondvar self.new }
    {
        let waker = self.wakes.take_wake();
        self.touch();
        waker
    }
}

/// A wait is called, and in line no more. The answer is what it was.
fn call<L: Ledger>(
    list: &mut WaitList<Place>,
    id: WaiterId,
    place: Place,
    steps: &mut Steps<L>,
) -> Place
    requires { IsSome (waiter_at id list.old) }
    ensures was { waiter_at id list.old ≡ Some result }
    ensures state { IsUnlinked id place list.old list.new }
    ensures sound { IsWaitList list.old }
    ensures visits { Visits 1 4 steps.old steps.new }
    ensures first { first_waiter list.old ≡ Some id → steps.new ≤ steps.old + 3 }
    ensures already { is_linked id list.old ≡ false → steps.new ≤ steps.old + 2 }
{
    match list.unlink_waiter(id, |_| true, steps) {
        Some(current) => mem::replace(current, place),
        None => unreachable!(),
    }
}
