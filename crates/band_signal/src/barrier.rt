//! The barrier.
ghost use Rattle.std.specs.Prelude.{◌≡◌, ◌<◌, ◌+◌, true, false};
ghost use Rattle.band_signal.specs.Barrier.{new_barrier, new_barrier_wait, has_ended, is_next_last, next_generation, last_generation, PollsBarrier, Arrives};
ghost use Rattle.band_signal.specs.Waits.{NotPolled, TakesWake, IsOwn, LeavesOthers, cancelled, visits_of, visits_out};

use crate::{Registration, WaitSet};
use band_base::{Poll, PollError, Steps, Waker};
use std::alloc::Global;
use std::marker::Model;
use std::sync::ledger::Ledger;

/// Who arrives waits until `n` have arrived, and then the next generation begins. Ports `Barrier`.
#[derive(Drop)]
pub struct Barrier {
    size: u32,
    arrived: u32,
    generation: u64,
    waits: WaitSet,
}

impl Model for Barrier {
    ghost use Rattle.std.specs.Prelude.{◌<◌};
    ghost use Rattle.band_signal.specs.Barrier.{BarrierState};

    ghost Value = { BarrierState };

    ghost view = { λ b. record {
      size = b.size;
      arrived = b.arrived;
      generation = b.generation;
      waits = b.waits;
    } };

    ghost invariant = { λ b. b.arrived < b.size };
}

/// A wait at a barrier. It must be ended by `cancel` or `lose`. Ports the future of `wait`.
pub struct BarrierWait {
    generation: u64,
    registration: Registration,
}

impl Model for BarrierWait {
    ghost use Rattle.band_signal.specs.Barrier.{BarrierWaitState};

    ghost Value = { BarrierWaitState };

    ghost view = { λ w. record { generation = w.generation; life = w.registration } };
}

/// What a wait at a barrier answers: whether it was the last to arrive in its generation.
#[derive(Drop)]
pub struct BarrierWaitResult(bool);

impl Model for BarrierWaitResult {
    ghost use Rattle.std.specs.Prelude.{Bool};

    ghost Value = { Bool };

    ghost view = { λ r. r.0 };
}

impl BarrierWaitResult {
    /// Whether it is the leader of its generation.
    pub fn is_leader(&self) -> bool
        ensures { result ≡ self.now }
    {
        self.0
    }
}

impl Barrier {
    /// A barrier for `n`, where 0 is as 1.
    pub fn new(alloc: Global, n: u32) -> Barrier
        ensures { result ≡ new_barrier n }
    {
        Barrier {
            size: if n == 0 { 1 } else { n },
            arrived: 0,
            generation: 0,
            waits: WaitSet::new(alloc),
        }
    }

    /// A wait that has not arrived yet.
    pub fn wait(&self) -> BarrierWait
        ensures state { result ≡ new_barrier_wait }
        ensures sound { self.now.arrived < self.now.size }
    {
        let _ = &self.size;
        BarrierWait {
            generation: 0,
            registration: Registration::new(),
        }
    }

    /// Takes the oldest waker to wake, if there is one.
    pub fn take_wake(&mut self) -> Option<Waker>
        ensures woken { TakesWake self.old.waits result self.new.waits }
        ensures same { self.new ≡ record self.old { waits = self.new.waits } }
    {
        self.waits.take_wake()
    }

    fn is_next_last(&self) -> bool
        ensures { result ≡ is_next_last self.now }
    {
        self.size - self.arrived <= 1
    }

    fn end_generation(&mut self)
        requires { self.old.generation < last_generation }
        ensures { self.new ≡ next_generation self.old }
    {
        self.arrived = 0;
        self.generation += 1;
        self.waits.wake_all();
    }
}

impl BarrierWait {
    /// Arrives, the first time, for which it may take memory. Later it asks whether its generation has ended.
    pub fn poll<L: Ledger>(
        &mut self,
        barrier: &mut Barrier,
        waker: Waker,
        steps: &mut Steps<L>,
    ) -> Result<Poll<BarrierWaitResult>, PollError>
        requires { IsOwn (has_ended self.old barrier.old) self.old.life barrier.old.waits }
        ensures polls { PollsBarrier self.old.life self.old waker barrier.old result self.new barrier.new }
        ensures own { IsOwn (has_ended self.new barrier.new) self.new.life barrier.new.waits }
        ensures others { barrier.new.generation ≡ barrier.old.generation
            → LeavesOthers self.old.life barrier.old.waits barrier.new.waits }
        ensures visits { steps.new ≡ steps.old + visits_of result }
    {
        if self.registration.is_not_polled() {
            return self.arrive(barrier, waker, steps);
        }
        let is_over = self.generation != barrier.generation;
        match self
            .registration
            .poll(&mut barrier.waits, is_over, waker, steps)
        {
            Ok(Poll::Ready(())) => Ok(Poll::Ready(BarrierWaitResult(false))),
            Ok(Poll::Pending) => Ok(Poll::Pending),
            Err(error) => Err(error),
        }
    }

    fn arrive<L: Ledger>(
        &mut self,
        barrier: &mut Barrier,
        waker: Waker,
        steps: &mut Steps<L>,
    ) -> Result<Poll<BarrierWaitResult>, PollError>
        requires { self.old.life ≡ NotPolled }
        ensures polls { Arrives (is_next_last barrier.old) self.old waker
            barrier.old result self.new barrier.new }
        ensures own { IsOwn (has_ended self.new barrier.new) self.new.life barrier.new.waits }
        ensures others { barrier.new.generation ≡ barrier.old.generation
            → LeavesOthers self.old.life barrier.old.waits barrier.new.waits }
        ensures visits { steps.new ≡ steps.old + visits_of result }
    {
        if barrier.is_next_last() {
            if barrier.generation == u64::MAX {
                return Err(PollError::CountFull);
            }
            barrier.end_generation();
            self.registration.finish();
            return Ok(Poll::Ready(BarrierWaitResult(true)));
        }
        match self
            .registration
            .poll(&mut barrier.waits, false, waker, steps)
        {
            Ok(_) => {
                barrier.arrived += 1;
                self.generation = barrier.generation;
                Ok(Poll::Pending)
            }
            Err(error) => Err(error),
        }
    }

    /// Ends the wait. Its registration is taken out, if it has one, and its arrival still counts.
    pub fn cancel<L: Ledger>(self, barrier: &mut Barrier, steps: &mut Steps<L>)
        requires { IsOwn (has_ended self barrier.old) self.life barrier.old.waits }
        ensures state { barrier.new ≡ record barrier.old {
          waits = cancelled (has_ended self barrier.old) self.life barrier.old.waits;
        } }
        ensures others { LeavesOthers self.life barrier.old.waits barrier.new.waits }
        ensures visits { steps.new ≡ steps.old + visits_out (has_ended self barrier.old) self.life }
    {
        let BarrierWait {
            generation,
            registration,
        } = self;
        let is_over = generation != barrier.generation;
        registration.cancel(&mut barrier.waits, is_over, steps);
    }

    /// Ends the wait and leaves its registration, for a barrier that ends too.
    pub fn lose(self) {
        let BarrierWait {
            generation: _,
            registration,
        } = self;
        registration.lose();
    }
}
