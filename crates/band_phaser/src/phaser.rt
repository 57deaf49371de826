//! The phaser.
ghost use Rattle.std.specs.Prelude.{◌≡◌, ◌+◌, ◌-◌, ◌<◌, ◌≤◌, ◌↔◌, IsErrOf, IfOk, OnOk, OnErr, IsTrue, Some, true, false, is_ok, if◌then◌else◌};
ghost use Rattle.band_phaser.specs.Phaser.{new_phaser, new_participant, settled, arrived, withdrawn, with_parties, without_parties, closed_after, IsCounted, is_over, told, PollsPhase};
ghost use Rattle.band_phaser.specs.Kept.{RegistersArrival};
ghost use Rattle.band_signal.specs.Waits.{NotPolled, TakesWake, IsOwn, LeavesOthers, cancelled, visits_of, visits_out};

use crate::{Closed, PhaserError, PhaserParticipant, PhaserParticipants, PhaserWait};
use band_base::{Poll, PollError, Steps, Waker};
use band_signal::{Registration, WaitSet};
use std::alloc::Global;
use std::marker::Model;
use std::sync::ledger::Ledger;

/// Phases that end once all that are registered have arrived. Ports `Phaser`, as a state that is changed by one call at
/// a time.
#[derive(Drop)]
pub struct Phaser {
    number: u64,
    phase: u64,
    is_closed: bool,
    registered: u64,
    outstanding: u64,
    waits: WaitSet,
}

impl Model for Phaser {
    ghost use Rattle.std.specs.Prelude.{◌≤◌};
    ghost use Rattle.band_phaser.specs.Phaser.{PhaserState};

    ghost Value = { PhaserState };

    ghost view = { λ p. record {
      number = p.number;
      phase = p.phase;
      is_closed = p.is_closed;
      registered = p.registered;
      outstanding = p.outstanding;
      waits = p.waits;
    } };

    ghost invariant = { λ p. p.outstanding ≤ p.registered };
}

impl Phaser {
    /// A phaser at phase 0, which tokens know by `number`.
    pub fn new(alloc: Global, number: u64) -> Phaser
        ensures { result ≡ new_phaser number 0 }
    {
        Phaser::at_phase(alloc, number, 0)
    }

    /// A phaser that begins at this phase.
    pub fn at_phase(alloc: Global, number: u64, phase: u64) -> Phaser
        ensures { result ≡ new_phaser number phase }
    {
        Phaser {
            number,
            phase,
            is_closed: false,
            registered: 0,
            outstanding: 0,
            waits: WaitSet::new(alloc),
        }
    }

    /// The phase.
    pub fn phase(&self) -> u64
        ensures { result ≡ self.now.phase }
    {
        self.phase
    }

    /// Whether it is closed.
    pub fn is_closed(&self) -> bool
        ensures { result ≡ self.now.is_closed }
    {
        self.is_closed
    }

    /// How many are registered.
    pub fn registered_parties(&self) -> u64
        ensures { result ≡ self.now.registered }
    {
        self.registered
    }

    /// How many of them have arrived in this phase.
    pub fn arrived_parties(&self) -> u64
        ensures count { result ≡ self.now.registered - self.now.outstanding }
        ensures sound { self.now.outstanding ≤ self.now.registered }
    {
        self.registered - self.outstanding
    }

    /// How many of them have not.
    pub fn unarrived_parties(&self) -> u64
        ensures count { result ≡ self.now.outstanding }
        ensures sound { self.now.outstanding ≤ self.now.registered }
    {
        self.outstanding
    }

    /// Closes the phaser, which wakes all that wait. Later it does nothing.
    pub fn close(&mut self)
        ensures { self.new ≡ closed_after self.old }
    {
        if !self.is_closed {
            self.is_closed = true;
            self.waits.wake_all();
        }
    }

    /// Registers one participant, which has not arrived.
    pub fn register_one(&mut self) -> Result<PhaserParticipant, PhaserError>
        ensures closed { IsErrOf result PhaserError.Closed ↔ (self.old.is_closed ≡ true) }
        ensures full { IsErrOf result PhaserError.CountFull
            ↔ ((self.old.is_closed ≡ false) × (u64.MAX < self.old.registered + 1)) }
        ensures participant { IfOk result (λ party. party ≡ new_participant self.old.number) }
        ensures ok { OnOk result (self.new ≡ with_parties 1 self.old) }
        ensures err { OnErr result (self.new ≡ self.old) }
    {
        self.add(1)?;
        Ok(PhaserParticipant::new(self.number))
    }

    /// Registers participants, which have not arrived.
    pub fn register(&mut self, parties: u64) -> Result<PhaserParticipants, PhaserError>
        ensures closed { IsErrOf result PhaserError.Closed ↔ (self.old.is_closed ≡ true) }
        ensures full { IsErrOf result PhaserError.CountFull
            ↔ ((self.old.is_closed ≡ false) × (u64.MAX < self.old.registered + parties)) }
        ensures participants { IfOk result (λ batch.
            batch ≡ record { of = self.old.number; remaining = parties }) }
        ensures ok { OnOk result (self.new ≡ with_parties parties self.old) }
        ensures err { OnErr result (self.new ≡ self.old) }
    {
        self.add(parties)?;
        Ok(PhaserParticipants::new(self.number, parties))
    }

    fn add(&mut self, parties: u64) -> Result<(), PhaserError>
        ensures closed { IsErrOf result PhaserError.Closed ↔ (self.old.is_closed ≡ true) }
        ensures full { IsErrOf result PhaserError.CountFull
            ↔ ((self.old.is_closed ≡ false) × (u64.MAX < self.old.registered + parties)) }
        ensures ok { OnOk result (self.new ≡ with_parties parties self.old) }
        ensures err { OnErr result (self.new ≡ self.old) }
    {
        if self.is_closed {
            return Err(PhaserError::Closed);
        }
        match self.registered.checked_add(parties) {
            Some(registered) => {
                self.registered = registered;
                self.outstanding += parties;
                Ok(())
            }
            None => Err(PhaserError::CountFull),
        }
    }

    /// A wait for the end of the phase `observed`, not polled yet.
    pub fn wait(&self, observed: u64) -> PhaserWait
        ensures { result ≡ record { observed = observed; life = NotPolled } }
    {
        PhaserWait::new(observed)
    }

    /// Takes the oldest waker to wake, if there is one.
    pub fn take_wake(&mut self) -> Option<Waker>
        ensures woken { TakesWake self.old.waits result self.new.waits }
        ensures same { self.new ≡ record self.old { waits = self.new.waits } }
    {
        self.waits.take_wake()
    }

    /// One that is outstanding arrives, or has arrived before in this phase.
    pub(crate) fn arrive(&mut self, pending: Option<u64>)
        requires { IsCounted pending self.old }
        ensures state { self.new ≡ arrived pending self.old }
        ensures counted { IsCounted (Some self.old.phase) self.new }
    {
        if pending != Some(self.phase) {
            self.outstanding -= 1;
        }
        self.settle();
    }

    /// One is registered no more.
    pub(crate) fn withdraw(&mut self, pending: Option<u64>)
        requires { IsCounted pending self.old }
        ensures { self.new ≡ withdrawn pending self.old }
    {
        if pending != Some(self.phase) {
            self.outstanding -= 1;
        }
        self.registered -= 1;
        self.settle();
    }

    /// So many that have not arrived are registered no more.
    pub(crate) fn withdraw_all(&mut self, parties: u64)
        requires { parties ≤ self.old.outstanding }
        ensures { self.new ≡ without_parties parties self.old }
    {
        if parties > 0 {
            self.outstanding -= parties;
            self.registered -= parties;
            self.settle();
        }
    }

    fn settle(&mut self)
        ensures { self.new ≡ settled self.old }
    {
        if !self.is_closed && self.outstanding == 0 {
            self.phase = self.phase.wrapping_add(1);
            self.outstanding = self.registered;
            self.waits.wake_all();
        }
    }

    fn is_over(&self, observed: u64) -> bool
        ensures { result ≡ is_over observed self.now }
    {
        self.is_closed || self.phase != observed
    }

    fn told(&self, observed: u64) -> Result<u64, Closed>
        ensures { result ≡ told observed self.now }
    {
        if self.phase == observed {
            Err(Closed)
        } else {
            Ok(self.phase)
        }
    }

    /// Polls a wait for the end of the phase `observed`.
    pub(crate) fn poll_phase<L: Ledger>(
        &mut self,
        observed: u64,
        wait: &mut Registration,
        waker: Waker,
        steps: &mut Steps<L>,
    ) -> Result<Poll<Result<u64, Closed>>, PollError>
        requires { IsOwn (is_over observed self.old) wait.old self.old.waits }
        ensures polls { PollsPhase observed wait.old waker self.old result wait.new self.new }
        ensures own { IsOwn (is_over observed self.new) wait.new self.new.waits }
        ensures others { LeavesOthers wait.old self.old.waits self.new.waits }
        ensures visits { steps.new ≡ steps.old + visits_of result }
    {
        let is_over = self.is_over(observed);
        match wait.poll(&mut self.waits, is_over, waker, steps) {
            Ok(Poll::Ready(())) => Ok(Poll::Ready(self.told(observed))),
            Ok(Poll::Pending) => Ok(Poll::Pending),
            Err(error) => Err(error),
        }
    }

    /// Ends a wait for the end of the phase `observed`.
    pub(crate) fn cancel_phase<L: Ledger>(
        &mut self,
        observed: u64,
        wait: Registration,
        steps: &mut Steps<L>,
    )
        requires { IsOwn (is_over observed self.old) wait self.old.waits }
        ensures state { self.new ≡ record self.old {
          waits = cancelled (is_over observed self.old) wait self.old.waits;
        } }
        ensures others { LeavesOthers wait self.old.waits self.new.waits }
        ensures visits { steps.new ≡ steps.old + visits_out (is_over observed self.old) wait }
    {
        let is_over = self.is_over(observed);
        wait.cancel(&mut self.waits, is_over, steps);
    }

    /// Registers the wait of one that arrives before the last.
    pub(crate) fn register_arrival<L: Ledger>(
        &mut self,
        wait: &mut Registration,
        waker: Waker,
        steps: &mut Steps<L>,
    ) -> Result<(), PollError>
        requires new { wait.old ≡ NotPolled }
        requires open { self.old.is_closed ≡ false }
        requires others { 1 < self.old.outstanding }
        ensures arrives { RegistersArrival waker self.old result wait.new self.new }
        ensures own { IsOwn (is_over self.new.phase self.new) wait.new self.new.waits }
        ensures others { LeavesOthers wait.old self.old.waits self.new.waits }
        ensures visits { steps.new ≡ steps.old + (if is_ok result then 1 else 0) }
    {
        wait.poll(&mut self.waits, false, waker, steps)?;
        self.outstanding -= 1;
        Ok(())
    }
}
