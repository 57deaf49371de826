//! Who waits for an event, in line or called.
ghost use Rattle.std.specs.Prelude.{◌≡◌, ◌+◌, ◌*◌, ◌<◌, ◌≤◌, length, [], false, Some, IsSome, IfOk, OnOk, OnErr, IsTrue, MatchBool, MatchResult, if◌then◌else◌};
ghost use Rattle.band_line.specs.Arena.{KeepsOthers};
ghost use Rattle.band_line.specs.Visits.{Visits};
ghost use Rattle.band_line.specs.WaitList.{waiter_at, is_linked, first_waiter, IsUnlinked, IsWaitList};
ghost use Rattle.band_event.specs.Event.{IsQueue, called, all_called, without, is_called, StayHere};
ghost use Rattle.band_signal.specs.WaitQueue.{new_queue, place_at, with_wake_room, TakesWake};
ghost use Rattle.band_event.specs.Kept.Queue.{CallsFirst, JoinsQueue, PollsPlace};

use crate::place::Place;
use band_base::{Steps, WakeLine, Waker};
use band_line::{WaitList, WaiterId};
use std::alloc::{AllocError, Global};
use std::marker::Model;
use std::mem;
use std::sync::ledger::Ledger;

/// The waits of an event, and the wakers to wake, with room for the wake of each that is in line.
#[derive(Drop)]
pub(crate) struct Queue {
    list: WaitList<Place>,
    waiting: u64,
    wakes: WakeLine,
}

impl Model for Queue {
    ghost use Rattle.band_event.specs.Event.{QueueState};
    ghost use Rattle.std.specs.Prelude.{◌-◌};
    ghost use Rattle.band_event.specs.Kept.Queue.{IsKept};

    ghost Value = { QueueState };

    ghost view = { λ q. record {
      line = q.list;
      wakes = q.wakes.wakers;
      room = q.wakes.spare - q.waiting;
    } };

    ghost invariant = { λ q. IsKept q.list q.waiting q.wakes.spare };
}

impl Queue {
    /// Nobody waits.
    pub(crate) fn new(alloc: Global) -> Queue
        ensures { result ≡ new_queue }
    {
        Queue {
            list: WaitList::new(alloc),
            waiting: 0,
            wakes: WakeLine::new(alloc),
        }
    }

    /// Does nothing: a caller that changes nothing learns who is queued.
    pub(crate) fn touch(&self)
        ensures { IsQueue self.now }
    {
        let _ = &self.list;
    }

    /// Calls the first in line, and tells whether there was one.
    pub(crate) fn call_first<L: Ledger>(&mut self, steps: &mut Steps<L>) -> bool
        ensures calls { CallsFirst (first_waiter self.old.line) self.old result self.new }
        ensures queued { IsQueue self.new }
        ensures stay { StayHere self.old self.new }
        ensures all { all_called self.new ≡ all_called self.old }
        ensures empty { result ≡ false → self.new.line.linked ≡ [] }
        ensures fewer { IsTrue result → length self.new.line.linked + 1 ≡ length self.old.line.linked }
        ensures visits { MatchBool result (Visits 1 3 steps.old steps.new) (steps.new ≡ steps.old) }
    {
        let Some(first) = self.list.first() else {
            return false;
        };
        match call(&mut self.list, first, steps) {
            Place::Queued(waker) => {
                self.waiting -= 1;
                self.wakes.push(waker);
                true
            }
            Place::Called => unreachable!(),
        }
    }

    /// Calls all in line, in its order.
    pub(crate) fn call_all<L: Ledger>(&mut self, steps: &mut Steps<L>)
        ensures calls { self.new ≡ all_called self.old }
        ensures stay { StayHere self.old self.new }
        ensures queued { IsQueue self.new }
        ensures visits { Visits 0 (3 * length self.old.line.linked) steps.old steps.new }
    {
        while self.call_first(steps) {}
    }

    /// Makes room for the wake of one more.
    fn reserve_wake(&mut self) -> Result<(), AllocError>
        ensures room { OnOk result (0 < self.new.room) }
        ensures fits { OnOk result (length self.new.line.linked < u64.MAX) }
        ensures none { OnErr result (self.old.room ≡ 0) }
        ensures state { self.new ≡ with_wake_room self.new.room self.old }
        ensures queued { IsQueue self.new }
    {
        if self.waiting < self.wakes.spare() {
            return Ok(());
        }
        match self.waiting.checked_add(1) {
            Some(wanted) => self.wakes.reserve(wanted),
            None => Err(AllocError),
        }
    }

    /// Puts a wait at the end of the line.
    pub(crate) fn join<L: Ledger>(
        &mut self,
        waker: Waker,
        steps: &mut Steps<L>,
    ) -> Result<WaiterId, AllocError>
        ensures joins { JoinsQueue waker self.old result self.new }
        ensures here { IfOk result (λ slot. IsSome (place_at slot self.new)) }
        ensures others { IfOk result (λ slot. KeepsOthers slot self.old.line.nodes self.new.line.nodes) }
        ensures queued { IsQueue self.new }
        ensures visits { MatchResult result
            (λ _. Visits 1 2 steps.old steps.new)
            (λ _. steps.new ≡ steps.old) }
    {
        self.reserve_wake()?;
        self.list.reserve(1)?;
        self.waiting += 1;
        Ok(self.list.push_back(Place::Queued(waker), steps))
    }

    /// Tells whether a wait was called, which is gone then. Else it leaves a waker.
    pub(crate) fn poll<L: Ledger>(
        &mut self,
        id: WaiterId,
        waker: Waker,
        steps: &mut Steps<L>,
    ) -> bool
        requires { IsSome (place_at id self.old) }
        ensures polls { PollsPlace (place_at id self.old) id waker self.old result self.new }
        ensures others { KeepsOthers id self.old.line.nodes self.new.line.nodes }
        ensures queued { IsQueue self.new }
        ensures visits { Visits 1 2 steps.old steps.new }
    {
        let was_called = self.list.waiter_mut(id, steps).leave(waker);
        if was_called {
            self.list.remove_unlinked_waiter(id, steps);
        }
        was_called
    }

    /// Takes a wait out, and tells whether it had been called.
    pub(crate) fn cancel<L: Ledger>(&mut self, id: WaiterId, steps: &mut Steps<L>) -> bool
        requires { IsSome (place_at id self.old) }
        ensures answer { result ≡ is_called (place_at id self.old) }
        ensures state { self.new ≡ without id self.old }
        ensures others { KeepsOthers id self.old.line.nodes self.new.line.nodes }
        ensures queued { IsQueue self.new }
        ensures visits { Visits 2 (if result then 3 else 5) steps.old steps.new }
    {
        let place = call(&mut self.list, id, steps);
        self.list.remove_unlinked_waiter(id, steps);
        match place {
            Place::Queued(_) => {
                self.waiting -= 1;
                false
            }
            Place::Called => true,
        }
    }

    /// Takes the oldest waker to wake, if there is one.
    pub(crate) fn take_wake(&mut self) -> Option<Waker>
        ensures woken { TakesWake self.old result self.new }
        ensures queued { IsQueue self.new }
    {
        self.wakes.take_wake()
    }
}

/// A wait is called and in line no more. The answer is what it was.
fn call<L: Ledger>(list: &mut WaitList<Place>, id: WaiterId, steps: &mut Steps<L>) -> Place
    requires { IsSome (waiter_at id list.old) }
    ensures was { waiter_at id list.old ≡ Some result }
    ensures state { IsUnlinked id Place.Called list.old list.new }
    ensures sound { IsWaitList list.old }
    ensures visits { Visits 1 4 steps.old steps.new }
    ensures first { first_waiter list.old ≡ Some id → steps.new ≤ steps.old + 3 }
    ensures already { is_linked id list.old ≡ false → steps.new ≤ steps.old + 2 }
{
    match list.unlink_waiter(id, |_| true, steps) {
        Some(place) => mem::replace(place, Place::Called),
        None => unreachable!(),
    }
}
