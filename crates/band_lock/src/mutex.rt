//! The mutex.
ghost use Rattle.std.specs.Prelude.{◌≡◌, ◌+◌, ◌≤◌, ◌↔◌, IsTrue, IsSome, IfSome, OnSome, IfNone, IsErrOf};
ghost use Rattle.band_balance.specs.Line.{is_served};
ghost use Rattle.band_sem.specs.Laws.{KeepsOrder, Leaves};
ghost use Rattle.band_sem.specs.Permit.{new_permit};
ghost use Rattle.band_sem.specs.Request.{new_request};
ghost use Rattle.band_sem.specs.Semaphore.{IsLike, IsLawful, IsOwn, Polls, new_state, taken, given_back, cancelled, was_granted, TakesWake};
ghost use Rattle.band_sem.specs.Visits.{FewVisits, PollVisits, slots};
ghost use Rattle.band_sem.specs.Whole.{IsWhole};

use band_base::{Poll, PollError, Steps, Waker};
use band_sem::{Acquire, Semaphore, SemaphorePermit};
use std::alloc::Global;
use std::marker::Model;
use std::sync::ledger::Ledger;

/// A mutex without its value. Ports the core of `Mutex`, as a state that is changed by one call at a time.
#[derive(Drop)]
pub struct MutexState {
    semaphore: Semaphore,
}

impl Model for MutexState {
    ghost use Rattle.band_sem.specs.Semaphore.{SemaphoreState};
    ghost use Rattle.band_sem.specs.Whole.{IsWhole};

    ghost Value = { SemaphoreState };

    ghost view = { λ m. m.semaphore };

    ghost invariant = { λ m. IsWhole 1 m.semaphore };
}

/// A request for a mutex. It must be ended by `cancel` or `lose`. Ports the future of `lock`.
pub struct LockRequest {
    request: Acquire,
}

impl Model for LockRequest {
    ghost use Rattle.std.specs.Prelude.{◌≡◌};
    ghost use Rattle.band_sem.specs.Request.{Request};

    ghost Value = { Request };

    ghost view = { λ r. r.request };

    ghost invariant = { λ r. r.request.size ≡ 1 };
}

/// A mutex that is locked. It goes back by `MutexState::drop_guard`, and must.
pub struct LockGuard {
    permit: SemaphorePermit,
}

impl Model for LockGuard {
    ghost use Rattle.std.specs.Prelude.{◌≡◌};
    ghost use Rattle.band_sem.specs.Permit.{Permit};

    ghost Value = { Permit };

    ghost view = { λ g. g.permit };

    ghost invariant = { λ g. g.permit.count ≡ 1 };
}

impl MutexState {
    /// A mutex that nobody has locked, which tokens know by `number`.
    pub fn new(alloc: Global, number: u64) -> MutexState
        ensures start { result ≡ new_state number 1 }
        ensures lawful { IsLawful result }
        ensures whole { IsWhole 1 result }
    {
        MutexState {
            semaphore: Semaphore::new(alloc, number, 1),
        }
    }

    /// Its one share as a semaphore, for its figures.
    pub fn semaphore(&self) -> &Semaphore
        ensures share { result.now ≡ self.now }
        ensures whole { IsWhole 1 self.now }
    {
        &self.semaphore
    }

    /// A request for it, not polled yet.
    pub fn lock(&self) -> LockRequest
        ensures { result ≡ new_request self.now.number 1 }
    {
        LockRequest {
            request: self.semaphore.acquire(1),
        }
    }

    /// Locks it if it is free and nobody waits. It never joins the line.
    pub fn try_lock(&mut self) -> Option<LockGuard>
        ensures served { IsSome result ↔ IsTrue (is_served 1 self.old.line) }
        ensures guard { IfSome result (λ guard. guard ≡ new_permit self.old.number 1) }
        ensures some { OnSome result (self.new ≡ taken 1 self.old) }
        ensures none { IfNone result (self.new ≡ self.old) }
        ensures lawful { IsLawful self.new }
        ensures whole { IsWhole 1 self.new }
    {
        let permit = self.semaphore.try_acquire(1)?;
        Some(LockGuard { permit })
    }

    /// Unlocks it. Then the line settles.
    pub fn drop_guard<L: Ledger>(&mut self, g: LockGuard, steps: &mut Steps<L>)
        requires number { g.of ≡ self.old.number }
        requires held { g.count ≤ self.old.held }
        ensures one { g.count ≡ 1 }
        ensures state { IsLike (given_back 1 self.old) self.new }
        ensures order { KeepsOrder self.old.line self.new.line }
        ensures lawful { IsLawful self.new }
        ensures whole { IsWhole 1 self.new }
        ensures visits { FewVisits self.old self.new steps.old steps.new }
    {
        self.semaphore.drop_permit(g.into_permit(), steps);
    }

    /// Takes the oldest waker to wake, if there is one.
    pub fn take_wake(&mut self) -> Option<Waker>
        ensures woken { TakesWake self.old result self.new }
        ensures lawful { IsLawful self.new }
        ensures whole { IsWhole 1 self.new }
    {
        self.semaphore.take_wake()
    }
}

impl LockRequest {
    /// The number of its mutex.
    pub fn of(&self) -> u64
        ensures { result ≡ self.now.of }
    {
        self.request.of()
    }

    /// Asks for the mutex: the first time it may join the line, and later it asks whether it was granted.
    pub fn poll_once<L: Ledger>(
        &mut self,
        m: &mut MutexState,
        waker: Waker,
        steps: &mut Steps<L>,
    ) -> Result<Poll<LockGuard>, PollError>
        requires number { self.old.of ≡ m.old.number }
        requires own { IsOwn self.old.stage self.old.size m.old }
        ensures one { self.old.size ≡ 1 }
        ensures polls { Polls self.old waker.0 m.old result self.new m.new }
        // Its semaphore is never closed.
        ensures never_closed { IsErrOf result PollError.Closed → ⊥ }
        ensures order { KeepsOrder m.old.line m.new.line }
        ensures lawful { IsLawful m.new }
        ensures whole { IsWhole 1 m.new }
        ensures visits { PollVisits self.old.stage result steps.old steps.new }
    {
        match self.request.poll_once(&mut m.semaphore, waker, steps)? {
            Poll::Ready(permit) => Ok(Poll::Ready(LockGuard { permit })),
            Poll::Pending => Ok(Poll::Pending),
        }
    }

    /// Whether it was granted, and has not taken the mutex yet. It leaves no waker.
    pub fn is_granted<L: Ledger>(&self, m: &MutexState, steps: &mut Steps<L>) -> bool
        requires number { self.now.of ≡ m.now.number }
        requires own { IsOwn self.now.stage self.now.size m.now }
        ensures granted { result ≡ was_granted self.now.stage m.now }
        ensures visits { steps.new ≡ steps.old + slots self.now.stage }
    {
        self.request.is_granted(&m.semaphore, steps)
    }

    /// Ends the request. One that waits leaves the line, and one that was granted unlocks. Then the line settles.
    pub fn cancel<L: Ledger>(self, m: &mut MutexState, steps: &mut Steps<L>)
        requires number { self.of ≡ m.old.number }
        requires own { IsOwn self.stage self.size m.old }
        ensures state { IsLike (cancelled self.stage m.old) m.new }
        ensures others { Leaves self.stage m.old m.new }
        ensures order { KeepsOrder m.old.line m.new.line }
        ensures lawful { IsLawful m.new }
        ensures whole { IsWhole 1 m.new }
        ensures visits { FewVisits m.old m.new steps.old steps.new }
    {
        let LockRequest { request } = self;
        request.cancel(&mut m.semaphore, steps);
    }

    /// Ends the state and leaves what it stands for in the line, for a mutex that ends too.
    pub fn lose(self) {
        let LockRequest { request } = self;
        request.lose();
    }
}

impl LockGuard {
    /// The number of its mutex.
    pub fn of(&self) -> u64
        ensures { result ≡ self.now.of }
    {
        self.permit.of()
    }

    fn into_permit(self) -> SemaphorePermit
        ensures permit { result ≡ self }
        ensures one { self.count ≡ 1 }
    {
        let LockGuard { permit } = self;
        permit
    }

    /// Ends the guard and leaves the mutex locked, for a mutex that ends too.
    pub fn lose(self) {
        let LockGuard { permit } = self;
        permit.lose();
    }
}
