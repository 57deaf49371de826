//! The countdown.
ghost use Rattle.std.specs.Prelude.{◌≡◌, ◌↔◌, ◌+◌, IsTrue, IsOk, IfErr, None};
ghost use Rattle.band_signal.specs.Countdown.{new_countdown, is_at_zero, comes_to_zero, decremented};
ghost use Rattle.band_signal.specs.Waits.{all_woken, TakesWake, IsOwn, Polls, PollsToken, LeavesOthers, life_of, cancelled, visits_of, visits_out};

use crate::{Registration, WaitSet};
use band_base::{Poll, PollError, Steps, Waker};
use band_line::WakerToken;
use std::alloc::Global;
use std::marker::Model;
use std::sync::ledger::Ledger;

/// A count that falls to 0, and who waits for that. Ports `CountdownState`.
#[derive(Drop)]
pub struct CountdownState {
    count: u32,
    waits: WaitSet,
}

impl Model for CountdownState {
    ghost use Rattle.band_signal.specs.Countdown.{Countdown};

    ghost Value = { Countdown };

    ghost view = { λ c. record { count = c.count; waits = c.waits } };
}

impl CountdownState {
    /// A countdown that begins at `count`.
    pub fn new(alloc: Global, count: u32) -> CountdownState
        ensures { result ≡ new_countdown count }
    {
        CountdownState {
            count,
            waits: WaitSet::new(alloc),
        }
    }

    /// The count.
    pub fn state(&self) -> u32
        ensures { result ≡ self.now.count }
    {
        self.count
    }

    /// Whether the count is 0, and what it is else.
    pub fn try_wait(&self) -> Result<(), u32>
        ensures zero { IsOk result ↔ (self.now.count ≡ 0) }
        ensures left { IfErr result (λ count. count ≡ self.now.count) }
    {
        if self.count == 0 {
            Ok(())
        } else {
            Err(self.count)
        }
    }

    /// Lowers the count, and tells whether that came to 0 from above. Then it is for the caller to wake all.
    pub fn decrement(&mut self, n: u32) -> bool
        ensures state { self.new ≡ decremented n self.old }
        ensures zero { result ≡ comes_to_zero n self.old }
    {
        let before = self.count;
        self.count = before.saturating_sub(n);
        before > 0 && before <= n
    }

    /// Wakes all that wait. Above 0 the tokens of those woken have no registration: set each to None before it is
    /// polled again or unregistered.
    pub fn wake_all(&mut self)
        ensures { self.new ≡ record self.old { waits = all_woken self.old.waits } }
    {
        self.waits.wake_all();
    }

    /// Polls a wait that has this token, or none yet.
    pub fn poll_wait<L: Ledger>(
        &mut self,
        token: &mut Option<WakerToken>,
        waker: Waker,
        steps: &mut Steps<L>,
    ) -> Result<Poll<()>, PollError>
        requires { IsOwn (is_at_zero self.old) (life_of token.old) self.old.waits }
        ensures polls { PollsToken (is_at_zero self.old) token.old waker
            self.old.waits result token.new self.new.waits }
        ensures count { self.new.count ≡ self.old.count }
        ensures own { IsOwn (is_at_zero self.new) (life_of token.new) self.new.waits }
        ensures others { LeavesOthers (life_of token.old) self.old.waits self.new.waits }
        ensures visits { steps.new ≡ steps.old + visits_of result }
    {
        if self.count == 0 {
            *token = None;
            return Ok(Poll::Ready(()));
        }
        match self.waits.register(token, waker, steps) {
            Ok(()) => Ok(Poll::Pending),
            Err(_) => Err(PollError::NoMemory),
        }
    }

    /// Ends the registration under a token. At 0 there is none, and the set stays.
    pub fn unregister<L: Ledger>(&mut self, token: &mut Option<WakerToken>, steps: &mut Steps<L>)
        requires { IsOwn (is_at_zero self.old) (life_of token.old) self.old.waits }
        ensures state { self.new ≡ record self.old {
          waits = cancelled (is_at_zero self.old) (life_of token.old) self.old.waits;
        } }
        ensures token { token.new ≡ None }
        ensures others { LeavesOthers (life_of token.old) self.old.waits self.new.waits }
        ensures visits { steps.new ≡ steps.old + visits_out (is_at_zero self.old) (life_of token.old) }
    {
        if self.count == 0 {
            *token = None;
        } else {
            self.waits.unregister(token, steps);
        }
    }

    /// Polls a wait for 0.
    pub(crate) fn poll<L: Ledger>(
        &mut self,
        wait: &mut Registration,
        waker: Waker,
        steps: &mut Steps<L>,
    ) -> Result<Poll<()>, PollError>
        requires { IsOwn (is_at_zero self.old) wait.old self.old.waits }
        ensures polls { Polls (is_at_zero self.old) tt wait.old waker
            self.old.waits result wait.new self.new.waits }
        ensures count { self.new.count ≡ self.old.count }
        ensures own { IsOwn (is_at_zero self.new) wait.new self.new.waits }
        ensures others { LeavesOthers wait.old self.old.waits self.new.waits }
        ensures visits { steps.new ≡ steps.old + visits_of result }
    {
        wait.poll(&mut self.waits, self.count == 0, waker, steps)
    }

    /// Ends a wait for 0.
    pub(crate) fn cancel<L: Ledger>(&mut self, wait: Registration, steps: &mut Steps<L>)
        requires { IsOwn (is_at_zero self.old) wait self.old.waits }
        ensures state { self.new ≡ record self.old {
          waits = cancelled (is_at_zero self.old) wait self.old.waits;
        } }
        ensures others { LeavesOthers wait self.old.waits self.new.waits }
        ensures visits { steps.new ≡ steps.old + visits_out (is_at_zero self.old) wait }
    {
        wait.cancel(&mut self.waits, self.count == 0, steps);
    }

    /// Takes the oldest waker to wake, if there is one.
    pub fn take_wake(&mut self) -> Option<Waker>
        ensures woken { TakesWake self.old.waits result self.new.waits }
        ensures count { self.new.count ≡ self.old.count }
    {
        self.waits.take_wake()
    }
}
