//! A wait's life.
ghost use Rattle.std.specs.Prelude.{◌≡◌, ◌↔◌, ◌+◌, IsTrue};
ghost use Rattle.band_signal.specs.Waits.{NotPolled, Finished, Polls, IsOwn, LeavesOthers, cancelled, visits_of, visits_out};

use crate::WaitSet;
use band_base::{Poll, PollError, Steps, Waker};
use band_line::WakerToken;
use std::marker::Model;
use std::sync::ledger::Ledger;

/// What a wait has come to: it was not polled yet, it is registered, or it is finished.
pub struct Registration {
    token: Option<WakerToken>,
    is_finished: bool,
}

impl Model for Registration {
    ghost use Rattle.band_signal.specs.Waits.{Life};
    ghost use Rattle.band_signal.specs.Kept.Registration.{life_at};

    ghost Value = { Life };

    ghost view = { λ r. life_at r.is_finished r.token };
}

impl Registration {
    /// One of a wait that was not polled yet.
    pub fn new() -> Registration
        ensures { result ≡ NotPolled }
    {
        Registration {
            token: None,
            is_finished: false,
        }
    }

    /// Whether the wait was not polled yet.
    pub fn is_not_polled(&self) -> bool
        ensures { IsTrue result ↔ (self.now ≡ NotPolled) }
    {
        !self.is_finished && self.token.is_none()
    }

    /// The wait is over by this poll itself. What it had registered stays.
    pub fn finish(&mut self)
        ensures { self.new ≡ Finished }
    {
        self.is_finished = true;
    }

    /// Polls a wait whose event has come, or not. The first time it may take memory.
    pub fn poll<L: Ledger>(
        &mut self,
        waits: &mut WaitSet,
        is_over: bool,
        waker: Waker,
        steps: &mut Steps<L>,
    ) -> Result<Poll<()>, PollError>
        requires own { IsOwn is_over self.old waits.old }
        ensures polls { Polls is_over tt self.old waker waits.old result self.new waits.new }
        ensures own { IsOwn is_over self.new waits.new }
        ensures others { LeavesOthers self.old waits.old waits.new }
        ensures visits { steps.new ≡ steps.old + visits_of result }
    {
        if self.is_finished {
            return Err(PollError::Finished);
        }
        if is_over {
            self.is_finished = true;
            return Ok(Poll::Ready(()));
        }
        match waits.register(&mut self.token, waker, steps) {
            Ok(()) => Ok(Poll::Pending),
            Err(_) => Err(PollError::NoMemory),
        }
    }

    /// Ends the wait, and takes its registration out unless its event has come.
    pub fn cancel<L: Ledger>(mut self, waits: &mut WaitSet, is_over: bool, steps: &mut Steps<L>)
        requires own { IsOwn is_over self waits.old }
        ensures state { waits.new ≡ cancelled is_over self waits.old }
        ensures others { LeavesOthers self waits.old waits.new }
        ensures visits { steps.new ≡ steps.old + visits_out is_over self }
    {
        if !is_over && !self.is_finished {
            waits.unregister(&mut self.token, steps);
        }
        self.lose();
    }

    /// Ends the wait and leaves its registration, for a state that ends too.
    pub fn lose(self) {
        let Registration {
            token: _,
            is_finished: _,
        } = self;
    }
}
