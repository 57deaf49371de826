//! The latch.
ghost use Rattle.std.specs.Prelude.{◌≡◌, ◌↔◌, ◌+◌, IsOk, IfErr};
ghost use Rattle.band_signal.specs.Countdown.{new_countdown, is_at_zero, arrived};
ghost use Rattle.band_signal.specs.Waits.{NotPolled, TakesWake, IsOwn, Polls, LeavesOthers, cancelled, visits_of, visits_out};

use crate::{CountdownState, Registration};
use band_base::{Poll, PollError, Steps, Waker};
use std::alloc::Global;
use std::marker::Model;
use std::sync::ledger::Ledger;

/// A count that falls to 0 once, and wakes all that wait for that. Ports `Latch`.
#[derive(Drop)]
pub struct Latch {
    countdown: CountdownState,
}

impl Model for Latch {
    ghost use Rattle.band_signal.specs.Countdown.{Countdown};

    ghost Value = { Countdown };

    ghost view = { λ l. l.countdown };
}

/// A wait for a latch. It must be ended by `cancel` or `lose`. Ports the future of `wait`.
pub struct LatchWait {
    registration: Registration,
}

impl Model for LatchWait {
    ghost use Rattle.band_signal.specs.Waits.{Life};

    ghost Value = { Life };

    ghost view = { λ w. w.registration };
}

impl Latch {
    /// A latch that begins at `count`.
    pub fn new(alloc: Global, count: u32) -> Latch
        ensures { result ≡ new_countdown count }
    {
        Latch {
            countdown: CountdownState::new(alloc, count),
        }
    }

    /// The count.
    pub fn count(&self) -> u32
        ensures { result ≡ self.now.count }
    {
        self.countdown.state()
    }

    /// Whether the count is 0, and what it is else.
    pub fn try_wait(&self) -> Result<(), u32>
        ensures zero { IsOk result ↔ (self.now.count ≡ 0) }
        ensures left { IfErr result (λ count. count ≡ self.now.count) }
    {
        self.countdown.try_wait()
    }

    /// Lowers the count by one.
    pub fn count_down(&mut self)
        ensures { self.new ≡ arrived 1 self.old }
    {
        self.arrive(1);
    }

    /// Lowers the count by `n`, and wakes all where that comes to 0. At 0 it does nothing.
    pub fn arrive(&mut self, n: u32)
        ensures { self.new ≡ arrived n self.old }
    {
        if self.countdown.decrement(n) {
            self.countdown.wake_all();
        }
    }

    /// A wait for 0, not polled yet.
    pub fn wait(&self) -> LatchWait
        ensures { result ≡ NotPolled }
    {
        LatchWait {
            registration: Registration::new(),
        }
    }

    /// Takes the oldest waker to wake, if there is one.
    pub fn take_wake(&mut self) -> Option<Waker>
        ensures woken { TakesWake self.old.waits result self.new.waits }
        ensures count { self.new.count ≡ self.old.count }
    {
        self.countdown.take_wake()
    }
}

impl LatchWait {
    /// Asks whether the count is 0. The first time it may take memory.
    pub fn poll<L: Ledger>(
        &mut self,
        latch: &mut Latch,
        waker: Waker,
        steps: &mut Steps<L>,
    ) -> Result<Poll<()>, PollError>
        requires { IsOwn (is_at_zero latch.old) self.old latch.old.waits }
        ensures polls { Polls (is_at_zero latch.old) tt self.old waker
            latch.old.waits result self.new latch.new.waits }
        ensures count { latch.new.count ≡ latch.old.count }
        ensures own { IsOwn (is_at_zero latch.new) self.new latch.new.waits }
        ensures others { LeavesOthers self.old latch.old.waits latch.new.waits }
        ensures visits { steps.new ≡ steps.old + visits_of result }
    {
        latch.countdown.poll(&mut self.registration, waker, steps)
    }

    /// Ends the wait. Its registration is taken out, if it has one.
    pub fn cancel<L: Ledger>(self, latch: &mut Latch, steps: &mut Steps<L>)
        requires { IsOwn (is_at_zero latch.old) self latch.old.waits }
        ensures state { latch.new ≡ record latch.old {
          waits = cancelled (is_at_zero latch.old) self latch.old.waits;
        } }
        ensures others { LeavesOthers self latch.old.waits latch.new.waits }
        ensures visits { steps.new ≡ steps.old + visits_out (is_at_zero latch.old) self }
    {
        let LatchWait { registration } = self;
        latch.countdown.cancel(registration, steps);
    }

    /// Ends the wait and leaves its registration, for a latch that ends too.
    pub fn lose(self) {
        let LatchWait { registration } = self;
        registration.lose();
    }
}
