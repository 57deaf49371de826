//! A wait for a condition variable.
ghost use Rattle.std.specs.Prelude.{◌≡◌, ◌+◌, ◌++◌, ◌≤◌, false, IsErrOf};
ghost use Rattle.band_base.specs.declared.poll.Poll.TheVariants as poll;
ghost use Rattle.band_condvar.specs.Condvar.{IsCondvar};
ghost use Rattle.band_condvar.specs.Kept.Queue.{HasRoom};
ghost use Rattle.band_condvar.specs.Kept.Stage.{AcquireVisits};
ghost use Rattle.band_condvar.specs.Waits.{Enqueue, Finished, IsHere, woken_by, LeavesMutex, IsRegistered, has_turn, monitor, Registers, Acquires, Polls, LeavesOthers, OthersStay, LetsGo, GivesGuard, has_guard, cancelled, PollVisits, CancelVisits, unlock_visits};
ghost use Rattle.band_sem.specs.Laws.{KeepsOrder};
ghost use Rattle.band_line.specs.Visits.{Visits};
ghost use Rattle.band_sem.specs.Semaphore.{IsLawful};
ghost use Rattle.band_sem.specs.Whole.{IsWhole};

use crate::Condvar;
use crate::queue::Queue;
use crate::stage::{Polled, Stage, put, register};
use band_base::{Poll, PollError, Steps, Waker};
use band_lock::{LockGuard, MutexState};
use std::marker::Model;
use std::mem;
use std::sync::ledger::Ledger;

/// A wait, which gives a guard back and has one again in the end. It must be ended by `cancel` or `lose`. Ports the
/// future of `wait`.
pub struct CondWait {
    of: u64,
    stage: Stage,
}

impl Model for CondWait {
    ghost use Rattle.band_condvar.specs.Waits.{Wait};
    ghost use Rattle.band_condvar.specs.Kept.Stage.{stage_of, Fits};

    ghost Value = { Wait };

    ghost view = { λ w. record { of = w.of; stage = stage_of w.stage } };

    ghost invariant = { λ w. Fits w.of w.stage };
}

impl CondWait {
    pub(crate) fn new(guard: LockGuard) -> CondWait
        ensures { result ≡ record { of = guard.of; stage = Enqueue guard } }
    {
        CondWait {
            of: guard.of(),
            stage: Stage::Enqueue(guard),
        }
    }

    /// The number of its mutex.
    pub fn of(&self) -> u64
        ensures { result ≡ self.now.of }
    {
        self.of
    }

    /// Registers the wait and unlocks the mutex, the first time. Later it asks whether it was called, and then for the
    /// mutex. Who registers or asks for the mutex first may take memory.
    pub fn poll<L: Ledger>(
        &mut self,
        cv: &mut Condvar,
        m: &mut MutexState,
        waker: Waker,
        steps: &mut Steps<L>,
    ) -> Result<Poll<LockGuard>, PollError>
        requires number { self.old.of ≡ m.old.number }
        requires here { IsHere self.old.stage cv.old m.old }
        ensures polls { Polls self.old waker (monitor cv.old m.old) result self.new (monitor cv.new m.new) }
        // Its mutex is never closed.
        ensures never_closed { IsErrOf result PollError.Closed → ⊥ }
        ensures guard { GivesGuard result m.new }
        ensures goes_on { result ≡ Ok poll.Pending → has_guard self.new.stage ≡ false }
        ensures here { IsHere self.new.stage cv.new m.new }
        ensures others { LeavesOthers self.old.stage cv.old cv.new }
        ensures number { m.new.number ≡ m.old.number }
        ensures order { KeepsOrder m.old.line m.new.line }
        ensures sound { IsCondvar cv.new }
        ensures lawful { IsLawful m.new }
        ensures whole { IsWhole 1 m.new }
        ensures visits { PollVisits self.old.stage m.old m.new steps.old steps.new }
    {
        let stage = mem::replace(&mut self.stage, Stage::Finished);
        let Polled { next, answer } = stage.poll(&mut cv.queue, m, waker, steps);
        put(&mut self.stage, next);
        answer
    }

    /// Whether a poll has the guard, where it finds memory to wait again.
    pub(crate) fn has_turn<L: Ledger>(
        &self,
        queue: &mut Queue,
        m: &MutexState,
        steps: &mut Steps<L>,
    ) -> bool
        requires number { self.now.of ≡ m.now.number }
        requires here { IsHere self.now.stage queue.old m.now }
        ensures turn { result ≡ has_turn self.now.stage (monitor queue.old m.now) }
        ensures same { queue.new ≡ queue.old }
        ensures visits { Visits 0 1 steps.old steps.new }
    {
        self.stage.has_turn(queue, m, steps)
    }

    /// Has the guard, or polls for it. Room that was made is still there.
    pub(crate) fn acquire<L: Ledger>(
        &mut self,
        queue: &mut Queue,
        m: &mut MutexState,
        waker: Waker,
        steps: &mut Steps<L>,
    ) -> Result<Poll<LockGuard>, PollError>
        requires number { self.old.of ≡ m.old.number }
        requires here { IsHere self.old.stage queue.old m.old }
        ensures of { self.new.of ≡ self.old.of }
        ensures acquires { Acquires self.old.stage self.old.of waker (monitor queue.old m.old)
            result self.new.stage (monitor queue.new m.new) }
        ensures never_closed { IsErrOf result PollError.Closed → ⊥ }
        ensures guard { GivesGuard result m.new }
        ensures here { IsHere self.new.stage queue.new m.new }
        ensures others { LeavesOthers self.old.stage queue.old queue.new }
        ensures room { HasRoom queue.old → HasRoom queue.new }
        ensures number { m.new.number ≡ m.old.number }
        ensures order { KeepsOrder m.old.line m.new.line }
        ensures sound { IsCondvar queue.new }
        ensures lawful { IsLawful m.new }
        ensures whole { IsWhole 1 m.new }
        ensures visits { AcquireVisits self.old.stage steps.old steps.new }
    {
        let stage = mem::replace(&mut self.stage, Stage::Finished);
        let Polled { next, answer } = stage.acquire(queue, m, waker, steps);
        put(&mut self.stage, next);
        answer
    }

    /// Waits again, in room that was made, and gives the guard back.
    pub(crate) fn register<L: Ledger>(
        &mut self,
        guard: LockGuard,
        queue: &mut Queue,
        m: &mut MutexState,
        waker: Waker,
        steps: &mut Steps<L>,
    )
        requires finished { self.old.stage ≡ Finished }
        requires number { guard.of ≡ m.old.number }
        requires held { guard.count ≤ m.old.held }
        requires room { HasRoom queue.old }
        ensures of { self.new.of ≡ self.old.of }
        ensures registers { Registers guard waker (monitor queue.old m.old)
            (Ok poll.Pending) self.new.stage (monitor queue.new m.new) }
        ensures here { IsHere self.new.stage queue.new m.new }
        ensures others { LeavesOthers (Enqueue guard) queue.old queue.new }
        ensures number { m.new.number ≡ m.old.number }
        ensures order { KeepsOrder m.old.line m.new.line }
        ensures sound { IsCondvar queue.new }
        ensures lawful { IsLawful m.new }
        ensures whole { IsWhole 1 m.new }
        ensures visits { Visits 0 (unlock_visits m.old m.new + 2) steps.old steps.new }
    {
        let id = register(guard, queue, m, waker, steps);
        put(&mut self.stage, Stage::Registered(id));
    }

    /// Ends the wait, and what it has of the mutex. One that has the baton then hands it on to the first in line.
    pub fn cancel<L: Ledger>(self, cv: &mut Condvar, m: &mut MutexState, steps: &mut Steps<L>)
        requires number { self.of ≡ m.old.number }
        requires here { IsHere self.stage cv.old m.old }
        ensures state { cv.new ≡ cancelled self.stage cv.old }
        ensures lets_go { LetsGo self.stage m.old m.new }
        ensures wakes { cv.new.wakes ≡ cv.old.wakes ++ woken_by self.stage cv.old }
        ensures leaves { LeavesMutex self.stage m.old m.new }
        ensures others { OthersStay self.stage cv.old cv.new }
        ensures number { m.new.number ≡ m.old.number }
        ensures order { KeepsOrder m.old.line m.new.line }
        ensures sound { IsCondvar cv.new }
        ensures lawful { IsLawful m.new }
        ensures whole { IsWhole 1 m.new }
        ensures visits { CancelVisits self.stage m.old m.new steps.old steps.new }
    {
        let CondWait { of: _, stage } = self;
        stage.cancel(&mut cv.queue, m, steps);
    }

    /// Ends the wait and leaves what it stands for, for a condition variable and a mutex that end too.
    pub fn lose(self) {
        let CondWait { of: _, stage } = self;
        stage.lose();
    }
}
