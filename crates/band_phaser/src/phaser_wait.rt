//! A wait for the end of a phase.
ghost use Rattle.std.specs.Prelude.{◌≡◌, ◌+◌};
ghost use Rattle.band_phaser.specs.Phaser.{PollsPhase, is_over};
ghost use Rattle.band_signal.specs.Waits.{NotPolled, IsOwn, LeavesOthers, cancelled, visits_of, visits_out};

use crate::{Closed, Phaser};
use band_base::{Poll, PollError, Steps, Waker};
use band_signal::Registration;
use std::marker::Model;
use std::sync::ledger::Ledger;

/// A wait for the end of a phase. It must be ended by `cancel` or `lose`. Ports the future of `wait`.
pub struct PhaserWait {
    observed: u64,
    registration: Registration,
}

impl Model for PhaserWait {
    ghost use Rattle.band_phaser.specs.Phaser.{PhaserWaitState};

    ghost Value = { PhaserWaitState };

    ghost view = { λ w. record { observed = w.observed; life = w.registration } };
}

impl PhaserWait {
    pub(crate) fn new(observed: u64) -> PhaserWait
        ensures { result ≡ record { observed = observed; life = NotPolled } }
    {
        PhaserWait {
            observed,
            registration: Registration::new(),
        }
    }

    /// Asks whether the phase has ended, or the phaser is closed. The first time it may take memory.
    pub fn poll<L: Ledger>(
        &mut self,
        ph: &mut Phaser,
        waker: Waker,
        steps: &mut Steps<L>,
    ) -> Result<Poll<Result<u64, Closed>>, PollError>
        requires { IsOwn (is_over self.old.observed ph.old) self.old.life ph.old.waits }
        ensures polls { PollsPhase self.old.observed self.old.life waker ph.old result self.new.life ph.new }
        ensures observed { self.new.observed ≡ self.old.observed }
        ensures own { IsOwn (is_over self.new.observed ph.new) self.new.life ph.new.waits }
        ensures others { LeavesOthers self.old.life ph.old.waits ph.new.waits }
        ensures visits { steps.new ≡ steps.old + visits_of result }
    {
        ph.poll_phase(self.observed, &mut self.registration, waker, steps)
    }

    /// Ends the wait. Its registration is taken out, if it has one.
    pub fn cancel<L: Ledger>(self, ph: &mut Phaser, steps: &mut Steps<L>)
        requires { IsOwn (is_over self.observed ph.old) self.life ph.old.waits }
        ensures state { ph.new ≡ record ph.old {
          waits = cancelled (is_over self.observed ph.old) self.life ph.old.waits;
        } }
        ensures others { LeavesOthers self.life ph.old.waits ph.new.waits }
        ensures visits { steps.new ≡ steps.old + visits_out (is_over self.observed ph.old) self.life }
    {
        let PhaserWait {
            observed,
            registration,
        } = self;
        ph.cancel_phase(observed, registration, steps);
    }

    /// Ends the wait and leaves its registration, for a phaser that ends too.
    pub fn lose(self) {
        let PhaserWait {
            observed: _,
            registration,
        } = self;
        registration.lose();
    }
}
