//! A participant, and its wait.
ghost use Rattle.std.specs.Prelude.{◌≡◌, ◌==◌, ◌<◌, ◌≤◌, ◌+◌, Some, None, OnOk, OnErr};
ghost use Rattle.band_phaser.specs.Phaser.{new_participant, IsCounted, answer_of, arrived, withdrawn, is_over, IsPendingFor, PollsParticipant, PollsPending, ArrivesFirst};
ghost use Rattle.band_signal.specs.Waits.{NotPolled, IsOwn, LeavesOthers, cancelled, visits_of, visits_out};

use crate::{Closed, Phaser};
use band_base::{Poll, PollError, Steps, Waker};
use band_signal::Registration;
use std::marker::Model;
use std::sync::ledger::Ledger;

/// One that is registered. It must be ended by `deregister` or `lose`. Ports `PhaserParticipant`.
pub struct PhaserParticipant {
    of: u64,
    /// The phase in which it arrived last, until a wait has told of its end.
    pending: Option<u64>,
}

impl Model for PhaserParticipant {
    ghost use Rattle.band_phaser.specs.Phaser.{Participant};

    ghost Value = { Participant };

    ghost view = { λ p. record { of = p.of; pending = p.pending } };
}

/// A participant's wait for the end of the phase in which it arrives. It must be ended by `cancel` or `lose`. Ports
/// the future of `PhaserParticipant::wait`.
pub struct ParticipantWait {
    observed: u64,
    registration: Registration,
}

impl Model for ParticipantWait {
    ghost use Rattle.band_phaser.specs.Phaser.{PhaserWaitState};

    ghost Value = { PhaserWaitState };

    ghost view = { λ w. record { observed = w.observed; life = w.registration } };
}

impl PhaserParticipant {
    pub(crate) fn new(of: u64) -> PhaserParticipant
        ensures { result ≡ new_participant of }
    {
        PhaserParticipant { of, pending: None }
    }

    /// The number of its phaser.
    pub fn of(&self) -> u64
        ensures { result ≡ self.now.of }
    {
        self.of
    }

    /// Arrives, and answers the phase in which it did. It counts once in a phase.
    pub fn arrive(&mut self, ph: &mut Phaser) -> Result<u64, Closed>
        requires number { self.old.of ≡ ph.old.number }
        requires counted { IsCounted self.old.pending ph.old }
        ensures answer { result ≡ answer_of ph.old }
        ensures ok { OnOk result
            ((ph.new ≡ arrived self.old.pending ph.old)
            × (self.new ≡ record self.old { pending = Some ph.old.phase })) }
        ensures err { OnErr result ((ph.new ≡ ph.old) × (self.new ≡ self.old)) }
        ensures counted { IsCounted self.new.pending ph.new }
    {
        if ph.is_closed() {
            return Err(Closed);
        }
        let phase = ph.phase();
        ph.arrive(self.pending);
        self.pending = Some(phase);
        Ok(phase)
    }

    /// A wait for the end of the phase in which it arrived last or is to arrive, not polled yet.
    pub fn wait(&self) -> ParticipantWait
        ensures { result ≡ record { observed = 0; life = NotPolled } }
    {
        ParticipantWait {
            observed: 0,
            registration: Registration::new(),
        }
    }

    /// Ends the participant, which is registered no more, also where the phaser is closed. The answer is the phase in
    /// which it left.
    pub fn deregister(self, ph: &mut Phaser) -> Result<u64, Closed>
        requires number { self.of ≡ ph.old.number }
        requires counted { IsCounted self.pending ph.old }
        ensures answer { result ≡ answer_of ph.old }
        ensures state { ph.new ≡ withdrawn self.pending ph.old }
    {
        let answer = if ph.is_closed() {
            Err(Closed)
        } else {
            Ok(ph.phase())
        };
        ph.withdraw(self.pending);
        self.lose();
        answer
    }

    /// Ends the participant and leaves it registered, for a phaser that ends too.
    pub fn lose(self) {
        let PhaserParticipant { of: _, pending: _ } = self;
    }
}

impl ParticipantWait {
    /// Arrives, the first time and where nothing is pending, and asks whether the phase has ended. The first time it
    /// may take memory.
    pub fn poll<L: Ledger>(
        &mut self,
        p: &mut PhaserParticipant,
        ph: &mut Phaser,
        waker: Waker,
        steps: &mut Steps<L>,
    ) -> Result<Poll<Result<u64, Closed>>, PollError>
        requires number { p.old.of ≡ ph.old.number }
        requires counted { IsCounted p.old.pending ph.old }
        requires pending { IsPendingFor self.old.life self.old.observed p.old.pending }
        requires own { IsOwn (is_over self.old.observed ph.old) self.old.life ph.old.waits }
        ensures polls { PollsParticipant self.old.life self.old p.old waker
            ph.old result self.new p.new ph.new }
        ensures own { IsOwn (is_over self.new.observed ph.new) self.new.life ph.new.waits }
        ensures pending { IsPendingFor self.new.life self.new.observed p.new.pending }
        ensures counted { IsCounted p.new.pending ph.new }
        ensures others { ph.new.phase ≡ ph.old.phase → LeavesOthers self.old.life ph.old.waits ph.new.waits }
        ensures visits { steps.new ≡ steps.old + visits_of result }
    {
        if !self.registration.is_not_polled() {
            return self.poll_pending(self.observed, p, ph, waker, steps);
        }
        match p.pending {
            Some(observed) => self.poll_pending(observed, p, ph, waker, steps),
            None => self.arrive(p, ph, waker, steps),
        }
    }

    fn poll_pending<L: Ledger>(
        &mut self,
        observed: u64,
        p: &mut PhaserParticipant,
        ph: &mut Phaser,
        waker: Waker,
        steps: &mut Steps<L>,
    ) -> Result<Poll<Result<u64, Closed>>, PollError>
        requires { IsOwn (is_over observed ph.old) self.old.life ph.old.waits }
        ensures polls { PollsPending observed self.old p.old waker ph.old result self.new p.new ph.new }
        ensures own { IsOwn (is_over observed ph.new) self.new.life ph.new.waits }
        ensures others { LeavesOthers self.old.life ph.old.waits ph.new.waits }
        ensures visits { steps.new ≡ steps.old + visits_of result }
    {
        let answer = ph.poll_phase(observed, &mut self.registration, waker, steps)?;
        self.observed = observed;
        if let Poll::Ready(Ok(_)) = &answer {
            p.pending = None;
        }
        Ok(answer)
    }

    fn arrive<L: Ledger>(
        &mut self,
        p: &mut PhaserParticipant,
        ph: &mut Phaser,
        waker: Waker,
        steps: &mut Steps<L>,
    ) -> Result<Poll<Result<u64, Closed>>, PollError>
        requires new { self.old.life ≡ NotPolled }
        requires none { p.old.pending ≡ None }
        requires counted { 0 < ph.old.outstanding }
        ensures polls { ArrivesFirst ph.old.is_closed (ph.old.outstanding == 1)
            self.old p.old waker ph.old result self.new p.new ph.new }
        ensures own { IsOwn (is_over self.new.observed ph.new) self.new.life ph.new.waits }
        ensures pending { IsPendingFor self.new.life self.new.observed p.new.pending }
        ensures others { ph.new.phase ≡ ph.old.phase → LeavesOthers self.old.life ph.old.waits ph.new.waits }
        ensures sound { ph.old.outstanding ≤ ph.old.registered }
        ensures visits { steps.new ≡ steps.old + visits_of result }
    {
        let unarrived = ph.unarrived_parties();
        if ph.is_closed() {
            self.registration.finish();
            return Ok(Poll::Ready(Err(Closed)));
        }
        if unarrived == 1 {
            ph.arrive(None);
            self.registration.finish();
            return Ok(Poll::Ready(Ok(ph.phase())));
        }
        ph.register_arrival(&mut self.registration, waker, steps)?;
        self.observed = ph.phase();
        p.pending = Some(self.observed);
        Ok(Poll::Pending)
    }

    /// Ends the wait. Its registration is taken out, if it has one, and its arrival stays pending.
    pub fn cancel<L: Ledger>(self, ph: &mut Phaser, steps: &mut Steps<L>)
        requires { IsOwn (is_over self.observed ph.old) self.life ph.old.waits }
        ensures state { ph.new ≡ record ph.old {
          waits = cancelled (is_over self.observed ph.old) self.life ph.old.waits;
        } }
        ensures others { LeavesOthers self.life ph.old.waits ph.new.waits }
        ensures visits { steps.new ≡ steps.old + visits_out (is_over self.observed ph.old) self.life }
    {
        let ParticipantWait {
            observed,
            registration,
        } = self;
        ph.cancel_phase(observed, registration, steps);
    }

    /// Ends the wait and leaves its registration, for a phaser that ends too.
    pub fn lose(self) {
        let ParticipantWait {
            observed: _,
            registration,
        } = self;
        registration.lose();
    }
}
