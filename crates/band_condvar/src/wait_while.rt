//! A wait for as long as a condition answers true.
ghost use Rattle.std.specs.Prelude.{◌≡◌, ◌+◌, ◌++◌, ◌≤◌, false, IsTrue, IsErrOf};
ghost use Rattle.band_base.specs.declared.poll.Poll.TheVariants as poll;
ghost use Rattle.band_condvar.specs.Condvar.{IsCondvar};
ghost use Rattle.band_condvar.specs.Kept.Queue.{HasRoom};
ghost use Rattle.band_condvar.specs.Waits.{Enqueue, Finished, IsHere, woken_by, LeavesMutex, has_turn, monitor, test, Answers, Asks, PollsWhile, LeavesOthers, OthersStay, LetsGo, GivesGuard, has_guard, cancelled, TakesAtMut, WhileVisits, CancelVisits, unlock_visits};
ghost use Rattle.band_sem.specs.Laws.{KeepsOrder};
ghost use Rattle.band_line.specs.Visits.{Visits};
ghost use Rattle.band_sem.specs.Semaphore.{IsLawful};
ghost use Rattle.band_sem.specs.Whole.{IsWhole};

use crate::queue::Queue;
use crate::stage::touch;
use crate::{CondWait, Condvar};
use band_base::{Poll, PollError, Steps, Waker};
use band_lock::{LockGuard, MutexState};
use std::marker::Model;
use std::sync::ledger::Ledger;

/// A wait with its condition. It must be ended by `cancel` or `lose`. Ports the future of `wait_while`.
pub struct CondWaitWhile<F> {
    condition: F,
    wait: CondWait,
}

impl<F> Model for CondWaitWhile<F> {
    ghost use Rattle.band_condvar.specs.Waits.{WaitWhile};

    ghost Value = { WaitWhile F };

    ghost view = { λ w. record { condition = w.condition; wait = w.wait } };
}

impl<F> CondWaitWhile<F> {
    pub(crate) fn new(wait: CondWait, condition: F) -> CondWaitWhile<F>
        ensures { result ≡ record { condition = condition; wait = wait } }
    {
        CondWaitWhile { condition, wait }
    }

    /// The number of its mutex.
    pub fn of(&self) -> u64
        ensures { result ≡ self.now.wait.of }
    {
        self.wait.of()
    }

    /// Asks the condition about the value whenever the mutex is had: it is ready where that answers false, and else it
    /// waits. A poll in its turn makes all its room before, for which it may take memory.
    pub fn poll<T, L: Ledger>(
        &mut self,
        cv: &mut Condvar,
        m: &mut MutexState,
        value: &mut T,
        waker: Waker,
        steps: &mut Steps<L>,
    ) -> Result<Poll<LockGuard>, PollError>
    where
        F: FnMut(&mut T) -> bool,
        requires number { self.old.wait.of ≡ m.old.number }
        requires here { IsHere self.old.wait.stage cv.old m.old }
        requires callable { IsTrue (has_turn self.old.wait.stage (monitor cv.old m.old))
            → TakesAtMut F.FnMut self.old.condition value.old }
        ensures polls { PollsWhile F.FnMut self.old.wait waker (test self.old.condition value.old)
            (monitor cv.old m.old) result (test self.new.condition value.new) self.new.wait
            (monitor cv.new m.new) }
        // Its mutex is never closed.
        ensures never_closed { IsErrOf result PollError.Closed → ⊥ }
        ensures guard { GivesGuard result m.new }
        ensures goes_on { result ≡ Ok poll.Pending → has_guard self.new.wait.stage ≡ false }
        ensures here { IsHere self.new.wait.stage cv.new m.new }
        ensures others { LeavesOthers self.old.wait.stage cv.old cv.new }
        ensures number { m.new.number ≡ m.old.number }
        ensures order { KeepsOrder m.old.line m.new.line }
        ensures sound { IsCondvar cv.new }
        ensures lawful { IsLawful m.new }
        ensures whole { IsWhole 1 m.new }
        ensures visits { WhileVisits m.old m.new steps.old steps.new }
    {
        if !self.wait.has_turn(&mut cv.queue, m, steps) {
            return self.wait.poll(cv, m, waker, steps);
        }
        if cv.queue.reserve().is_err() {
            touch(&cv.queue, m);
            return Err(PollError::NoMemory);
        }
        match self.wait.acquire(&mut cv.queue, m, waker, steps)? {
            Poll::Ready(guard) => Ok(self.ask(guard, &mut cv.queue, m, value, waker, steps)),
            Poll::Pending => unreachable!(),
        }
    }

    /// What the condition answers about the value.
    fn goes_on<T>(&mut self, value: &mut T) -> bool
    where
        F: FnMut(&mut T) -> bool,
        requires { TakesAtMut F.FnMut self.old.condition value.old }
        ensures answers { Answers F.FnMut (test self.old.condition value.old) result
            (test self.new.condition value.new) }
        ensures wait { self.new.wait ≡ self.old.wait }
    {
        (self.condition)(value)
    }

    /// Asks the condition, and waits again where it answers true.
    fn ask<T, L: Ledger>(
        &mut self,
        guard: LockGuard,
        queue: &mut Queue,
        m: &mut MutexState,
        value: &mut T,
        waker: Waker,
        steps: &mut Steps<L>,
    ) -> Poll<LockGuard>
    where
        F: FnMut(&mut T) -> bool,
        requires finished { self.old.wait.stage ≡ Finished }
        requires number { guard.of ≡ m.old.number }
        requires held { guard.count ≤ m.old.held }
        requires room { HasRoom queue.old }
        requires callable { TakesAtMut F.FnMut self.old.condition value.old }
        ensures of { self.new.wait.of ≡ self.old.wait.of }
        ensures asks { Asks F.FnMut guard waker (test self.old.condition value.old)
            (monitor queue.old m.old) (Ok result) (test self.new.condition value.new)
            self.new.wait.stage (monitor queue.new m.new) }
        ensures guard { GivesGuard (Ok result) m.new }
        ensures goes_on { result ≡ poll.Pending → has_guard self.new.wait.stage ≡ false }
        ensures here { IsHere self.new.wait.stage queue.new m.new }
        ensures others { LeavesOthers (Enqueue guard) queue.old queue.new }
        ensures number { m.new.number ≡ m.old.number }
        ensures sound { IsCondvar queue.new }
        ensures lawful { IsLawful m.new }
        ensures whole { IsWhole 1 m.new }
        ensures visits { Visits 0 (unlock_visits m.old m.new + 2) steps.old steps.new }
    {
        if self.goes_on(value) {
            self.wait.register(guard, queue, m, waker, steps);
            return Poll::Pending;
        }
        touch(queue, m);
        Poll::Ready(guard)
    }
}

impl<F: Drop> CondWaitWhile<F> {
    /// Ends the wait, and what it has of the mutex. One that has the baton then hands it on to the first in line.
    pub fn cancel<L: Ledger>(self, cv: &mut Condvar, m: &mut MutexState, steps: &mut Steps<L>)
        requires number { self.wait.of ≡ m.old.number }
        requires here { IsHere self.wait.stage cv.old m.old }
        ensures state { cv.new ≡ cancelled self.wait.stage cv.old }
        ensures lets_go { LetsGo self.wait.stage m.old m.new }
        ensures wakes { cv.new.wakes ≡ cv.old.wakes ++ woken_by self.wait.stage cv.old }
        ensures leaves { LeavesMutex self.wait.stage m.old m.new }
        ensures others { OthersStay self.wait.stage cv.old cv.new }
        ensures number { m.new.number ≡ m.old.number }
        ensures order { KeepsOrder m.old.line m.new.line }
        ensures sound { IsCondvar cv.new }
        ensures lawful { IsLawful m.new }
        ensures whole { IsWhole 1 m.new }
        ensures visits { CancelVisits self.wait.stage m.old m.new steps.old steps.new }
    {
        let CondWaitWhile { condition: _, wait } = self;
        wait.cancel(cv, m, steps);
    }

    /// Ends the wait and leaves what it stands for, for a condition variable and a mutex that end too.
    pub fn lose(self) {
        let CondWaitWhile { condition: _, wait } = self;
        wait.lose();
    }
}
