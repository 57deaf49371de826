//! The wait group.
ghost use Rattle.std.specs.Prelude.{◌≡◌, ◌<◌, ◌↔◌, ◌+◌, IsErr, IfOk, OnOk, OnErr};
ghost use Rattle.band_signal.specs.Group.{new_group, is_deserted, with_handle, without_handle};
ghost use Rattle.band_signal.specs.Waits.{NotPolled, TakesWake, IsOwn, Polls, LeavesOthers, cancelled, visits_of, visits_out};

use crate::{CountFull, Registration, WaitSet};
use band_base::{Poll, PollError, Steps, Waker};
use std::alloc::Global;
use std::marker::Model;
use std::sync::ledger::Ledger;

/// Handles that are counted, and who waits until none is left. Ports the state that a group's handles share.
#[derive(Drop)]
pub struct WaitGroupState {
    number: u64,
    handles: u64,
    waits: WaitSet,
}

impl Model for WaitGroupState {
    ghost use Rattle.band_signal.specs.Group.{Group};

    ghost Value = { Group };

    ghost view = { λ g. record { number = g.number; handles = g.handles; waits = g.waits } };
}

/// A handle of a group. It must be ended, by `drop_handle`, `into_future` or `lose`. Ports `WaitGroup`.
pub struct WaitGroup {
    of: u64,
}

impl Model for WaitGroup {
    ghost use Rattle.std.specs.Prelude.{ℕ};

    ghost Value = { ℕ };

    ghost view = { λ h. h.of };
}

/// A wait until a group has no handle. It must be ended by `cancel` or `lose`. Ports `Wait`.
pub struct Wait {
    registration: Registration,
}

impl Model for Wait {
    ghost use Rattle.band_signal.specs.Waits.{Life};

    ghost Value = { Life };

    ghost view = { λ w. w.registration };
}

impl WaitGroup {
    /// A group with one handle, which knows it by `number`.
    pub fn new(alloc: Global, number: u64) -> (WaitGroupState, WaitGroup)
        ensures state { result.0 ≡ new_group number }
        ensures handle { result.1 ≡ number }
    {
        (
            WaitGroupState {
                number,
                handles: 1,
                waits: WaitSet::new(alloc),
            },
            WaitGroup { of: number },
        )
    }

    /// The number of its group.
    pub fn of(&self) -> u64
        ensures { result ≡ self.now }
    {
        self.of
    }

    /// Ends the handle and leaves it counted, for a group that ends too.
    pub fn lose(self) {
        let WaitGroup { of: _ } = self;
    }
}

impl WaitGroupState {
    /// One handle more.
    pub fn clone_handle(&mut self, h: &WaitGroup) -> Result<WaitGroup, CountFull>
        requires number { h.now ≡ self.old.number }
        requires counted { 0 < self.old.handles }
        ensures full { IsErr result ↔ (self.old.handles ≡ u64.MAX) }
        ensures handle { IfOk result (λ handle. handle ≡ self.old.number) }
        ensures ok { OnOk result (self.new ≡ with_handle self.old) }
        ensures err { OnErr result (self.new ≡ self.old) }
    {
        if self.handles == u64::MAX {
            return Err(CountFull);
        }
        self.handles += 1;
        Ok(WaitGroup { of: h.of })
    }

    /// Ends a handle. The last one wakes all that wait.
    pub fn drop_handle(&mut self, h: WaitGroup)
        requires number { h ≡ self.old.number }
        requires counted { 0 < self.old.handles }
        ensures { self.new ≡ without_handle self.old }
    {
        h.lose();
        self.handles -= 1;
        if self.handles == 0 {
            self.waits.wake_all();
        }
    }

    /// Ends a handle, and waits for the others to end.
    pub fn into_future(&mut self, h: WaitGroup) -> Wait
        requires number { h ≡ self.old.number }
        requires counted { 0 < self.old.handles }
        ensures state { self.new ≡ without_handle self.old }
        ensures wait { result ≡ NotPolled }
    {
        self.drop_handle(h);
        Wait::new()
    }

    /// Takes the oldest waker to wake, if there is one.
    pub fn take_wake(&mut self) -> Option<Waker>
        ensures woken { TakesWake self.old.waits result self.new.waits }
        ensures same { self.new ≡ record self.old { waits = self.new.waits } }
    {
        self.waits.take_wake()
    }
}

impl Wait {
    pub(crate) fn new() -> Wait
        ensures { result ≡ NotPolled }
    {
        Wait {
            registration: Registration::new(),
        }
    }

    /// Another wait for the same, not polled yet.
    pub fn clone(&self) -> Wait
        ensures { result ≡ NotPolled }
    {
        Wait::new()
    }

    /// Asks whether no handle is left. The first time it may take memory.
    pub fn poll<L: Ledger>(
        &mut self,
        group: &mut WaitGroupState,
        waker: Waker,
        steps: &mut Steps<L>,
    ) -> Result<Poll<()>, PollError>
        requires { IsOwn (is_deserted group.old) self.old group.old.waits }
        ensures polls { Polls (is_deserted group.old) tt self.old waker
            group.old.waits result self.new group.new.waits }
        ensures same { group.new ≡ record group.old { waits = group.new.waits } }
        ensures own { IsOwn (is_deserted group.new) self.new group.new.waits }
        ensures others { LeavesOthers self.old group.old.waits group.new.waits }
        ensures visits { steps.new ≡ steps.old + visits_of result }
    {
        self.registration
            .poll(&mut group.waits, group.handles == 0, waker, steps)
    }

    /// Ends the wait. Its registration is taken out, if it has one.
    pub fn cancel<L: Ledger>(self, group: &mut WaitGroupState, steps: &mut Steps<L>)
        requires { IsOwn (is_deserted group.old) self group.old.waits }
        ensures state { group.new ≡ record group.old {
          waits = cancelled (is_deserted group.old) self group.old.waits;
        } }
        ensures others { LeavesOthers self group.old.waits group.new.waits }
        ensures visits { steps.new ≡ steps.old + visits_out (is_deserted group.old) self }
    {
        let Wait { registration } = self;
        registration.cancel(&mut group.waits, group.handles == 0, steps);
    }

    /// Ends the wait and leaves its registration, for a group that ends too.
    pub fn lose(self) {
        let Wait { registration } = self;
        registration.lose();
    }
}
