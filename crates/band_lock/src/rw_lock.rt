//! The reader-writer lock.
ghost use Rattle.std.specs.Prelude.{◌≡◌, ◌-◌, ◌<◌, ◌≤◌, ◌^◌, ◌↔◌, IsTrue, IsSome, IfSome, OnSome, IfNone, IsErrOf};
ghost use Rattle.band_balance.specs.Line.{is_served};
ghost use Rattle.band_sem.specs.Laws.{KeepsOrder, Leaves};
ghost use Rattle.band_sem.specs.Permit.{new_permit};
ghost use Rattle.band_sem.specs.Request.{new_request};
ghost use Rattle.band_sem.specs.Semaphore.{IsLawful, IsOwn, Polls, taken, given_back, cancelled, TakesWake};
ghost use Rattle.band_sem.specs.Visits.{FewVisits, PollVisits};
ghost use Rattle.band_lock.specs.ReaderWriter.{new_lock, on_shares, IsLikeLock, IsWholeLock};

use band_base::{Poll, PollError, Steps, Waker};
use band_sem::{Acquire, Semaphore, SemaphorePermit};
use std::alloc::Global;
use std::marker::Model;
use std::sync::ledger::Ledger;

/// A reader-writer lock without its value. Ports the core of `RwLock`, as a state that is changed by one call at a time.
#[derive(Drop)]
pub struct RwLockState {
    max_readers: u64,
    semaphore: Semaphore,
}

impl Model for RwLockState {
    ghost use Rattle.band_lock.specs.ReaderWriter.{ReaderWriter, IsWholeLock};

    ghost Value = { ReaderWriter };

    ghost view = { λ l. record { max = l.max_readers; shares = l.semaphore } };

    ghost invariant = { λ l. IsWholeLock (record { max = l.max_readers; shares = l.semaphore }) };
}

/// A request to read. It must be ended by `cancel` or `lose`. Ports the future of `read`.
pub struct ReadRequest {
    request: Acquire,
}

impl Model for ReadRequest {
    ghost use Rattle.std.specs.Prelude.{◌≡◌};
    ghost use Rattle.band_sem.specs.Request.{Request};

    ghost Value = { Request };

    ghost view = { λ r. r.request };

    ghost invariant = { λ r. r.request.size ≡ 1 };
}

/// A request to write. It must be ended by `cancel` or `lose`. Ports the future of `write`.
pub struct WriteRequest {
    request: Acquire,
}

impl Model for WriteRequest {
    ghost use Rattle.std.specs.Prelude.{◌<◌};
    ghost use Rattle.band_sem.specs.Request.{Request};

    ghost Value = { Request };

    ghost view = { λ r. r.request };

    ghost invariant = { λ r. 0 < r.request.size };
}

/// The right to read. It goes back by `RwLockState::drop_read`, and must.
pub struct ReadAccess {
    permit: SemaphorePermit,
}

impl Model for ReadAccess {
    ghost use Rattle.std.specs.Prelude.{◌≡◌};
    ghost use Rattle.band_sem.specs.Permit.{Permit};

    ghost Value = { Permit };

    ghost view = { λ a. a.permit };

    ghost invariant = { λ a. a.permit.count ≡ 1 };
}

/// The right to write. It goes back by `RwLockState::drop_write`, and must.
pub struct WriteAccess {
    permit: SemaphorePermit,
}

impl Model for WriteAccess {
    ghost use Rattle.std.specs.Prelude.{◌<◌};
    ghost use Rattle.band_sem.specs.Permit.{Permit};

    ghost Value = { Permit };

    ghost view = { λ a. a.permit };

    ghost invariant = { λ a. 0 < a.permit.count };
}

/// The most readers where none are named: half of all numbers.
const MAX_READERS: u64 = u64::MAX >> 1;

impl RwLockState {
    /// A lock that nobody has, for as many readers as there can be, which tokens know by `number`.
    pub fn new(alloc: Global, number: u64) -> RwLockState
        ensures start { result ≡ new_lock number (2 ^ 63 - 1) }
        ensures lawful { IsLawful result.shares }
        ensures whole { IsWholeLock result }
    {
        RwLockState::with_max_readers(alloc, number, MAX_READERS)
    }

    /// The same for at most `max_readers` at a time.
    pub fn with_max_readers(alloc: Global, number: u64, max_readers: u64) -> RwLockState
        requires { 0 < max_readers }
        ensures start { result ≡ new_lock number max_readers }
        ensures lawful { IsLawful result.shares }
        ensures whole { IsWholeLock result }
    {
        RwLockState {
            max_readers,
            semaphore: Semaphore::new(alloc, number, max_readers),
        }
    }

    /// The most readers at a time.
    pub fn max_readers(&self) -> u64
        ensures max { result ≡ self.now.max }
        ensures some { 0 < result }
    {
        self.max_readers
    }

    /// Its shares as a semaphore, for its figures.
    pub fn semaphore(&self) -> &Semaphore
        ensures shares { result.now ≡ self.now.shares }
        ensures whole { IsWholeLock self.now }
    {
        &self.semaphore
    }

    /// A request to read, not polled yet.
    pub fn read(&self) -> ReadRequest
        ensures { result ≡ new_request self.now.shares.number 1 }
    {
        ReadRequest {
            request: self.semaphore.acquire(1),
        }
    }

    /// A request to write, not polled yet.
    pub fn write(&self) -> WriteRequest
        ensures { result ≡ new_request self.now.shares.number self.now.max }
    {
        WriteRequest {
            request: self.semaphore.acquire(self.max_readers),
        }
    }

    /// Takes the right to read if there is one and nobody waits. It never joins the line.
    pub fn try_read(&mut self) -> Option<ReadAccess>
        ensures served { IsSome result ↔ IsTrue (is_served 1 self.old.shares.line) }
        ensures access { IfSome result (λ access. access ≡ new_permit self.old.shares.number 1) }
        ensures some { OnSome result (self.new ≡ on_shares (taken 1) self.old) }
        ensures none { IfNone result (self.new ≡ self.old) }
        ensures lawful { IsLawful self.new.shares }
        ensures whole { IsWholeLock self.new }
    {
        let permit = self.semaphore.try_acquire(1)?;
        Some(ReadAccess { permit })
    }

    /// Takes the right to write if nobody has the lock and nobody waits. It never joins the line.
    pub fn try_write(&mut self) -> Option<WriteAccess>
        ensures served { IsSome result ↔ IsTrue (is_served self.old.max self.old.shares.line) }
        ensures access { IfSome result (λ access. access ≡ new_permit self.old.shares.number self.old.max) }
        ensures some { OnSome result (self.new ≡ on_shares (taken self.old.max) self.old) }
        ensures none { IfNone result (self.new ≡ self.old) }
        ensures lawful { IsLawful self.new.shares }
        ensures whole { IsWholeLock self.new }
    {
        let permit = self.semaphore.try_acquire(self.max_readers)?;
        Some(WriteAccess { permit })
    }

    /// Gives the right to read back. Then the line settles.
    pub fn drop_read<L: Ledger>(&mut self, a: ReadAccess, steps: &mut Steps<L>)
        requires number { a.of ≡ self.old.shares.number }
        requires held { a.count ≤ self.old.shares.held }
        ensures one { a.count ≡ 1 }
        ensures state { IsLikeLock (on_shares (given_back 1) self.old) self.new }
        ensures order { KeepsOrder self.old.shares.line self.new.shares.line }
        ensures lawful { IsLawful self.new.shares }
        ensures whole { IsWholeLock self.new }
        ensures visits { FewVisits self.old.shares self.new.shares steps.old steps.new }
    {
        self.semaphore.drop_permit(a.into_permit(), steps);
    }

    /// Gives the right to write back, which is all shares. Then the line settles.
    pub fn drop_write<L: Ledger>(&mut self, a: WriteAccess, steps: &mut Steps<L>)
        requires number { a.of ≡ self.old.shares.number }
        requires held { a.count ≤ self.old.shares.held }
        requires all { a.count ≡ self.old.max }
        ensures state { IsLikeLock (on_shares (given_back self.old.max) self.old) self.new }
        ensures order { KeepsOrder self.old.shares.line self.new.shares.line }
        ensures lawful { IsLawful self.new.shares }
        ensures whole { IsWholeLock self.new }
        ensures visits { FewVisits self.old.shares self.new.shares steps.old steps.new }
    {
        self.semaphore.drop_permit(a.into_permit(), steps);
    }

    /// Makes the right to write one to read: all shares but one go back. Then the line settles.
    pub fn downgrade<L: Ledger>(&mut self, a: WriteAccess, steps: &mut Steps<L>) -> ReadAccess
        requires number { a.of ≡ self.old.shares.number }
        requires held { a.count ≤ self.old.shares.held }
        requires all { a.count ≡ self.old.max }
        ensures access { result ≡ new_permit a.of 1 }
        ensures state { IsLikeLock (on_shares (given_back (self.old.max - 1)) self.old) self.new }
        ensures order { KeepsOrder self.old.shares.line self.new.shares.line }
        ensures lawful { IsLawful self.new.shares }
        ensures whole { IsWholeLock self.new }
        ensures visits { FewVisits self.old.shares self.new.shares steps.old steps.new }
    {
        let permit = self.semaphore.shrink(a.into_permit(), 1, steps);
        ReadAccess { permit }
    }

    /// Takes the oldest waker to wake, if there is one.
    pub fn take_wake(&mut self) -> Option<Waker>
        ensures woken { TakesWake self.old.shares result self.new.shares }
        ensures max { self.new.max ≡ self.old.max }
        ensures lawful { IsLawful self.new.shares }
        ensures whole { IsWholeLock self.new }
    {
        self.semaphore.take_wake()
    }
}

impl ReadRequest {
    /// The number of its lock.
    pub fn of(&self) -> u64
        ensures { result ≡ self.now.of }
    {
        self.request.of()
    }

    /// Asks for the right to read: the first time it may join the line, and later it asks whether it was granted.
    pub fn poll_once<L: Ledger>(
        &mut self,
        l: &mut RwLockState,
        waker: Waker,
        steps: &mut Steps<L>,
    ) -> Result<Poll<ReadAccess>, PollError>
        requires number { self.old.of ≡ l.old.shares.number }
        requires own { IsOwn self.old.stage self.old.size l.old.shares }
        ensures one { self.old.size ≡ 1 }
        ensures polls { Polls self.old waker.0 l.old.shares result self.new l.new.shares }
        // Its semaphore is never closed.
        ensures never_closed { IsErrOf result PollError.Closed → ⊥ }
        ensures max { l.new.max ≡ l.old.max }
        ensures order { KeepsOrder l.old.shares.line l.new.shares.line }
        ensures lawful { IsLawful l.new.shares }
        ensures whole { IsWholeLock l.new }
        ensures visits { PollVisits self.old.stage result steps.old steps.new }
    {
        match self.request.poll_once(&mut l.semaphore, waker, steps)? {
            Poll::Ready(permit) => Ok(Poll::Ready(ReadAccess { permit })),
            Poll::Pending => Ok(Poll::Pending),
        }
    }

    /// Ends the request. One that waits leaves the line, and one that was granted gives its share back. Then the line settles.
    pub fn cancel<L: Ledger>(self, l: &mut RwLockState, steps: &mut Steps<L>)
        requires number { self.of ≡ l.old.shares.number }
        requires own { IsOwn self.stage self.size l.old.shares }
        ensures state { IsLikeLock (on_shares (cancelled self.stage) l.old) l.new }
        ensures others { Leaves self.stage l.old.shares l.new.shares }
        ensures order { KeepsOrder l.old.shares.line l.new.shares.line }
        ensures lawful { IsLawful l.new.shares }
        ensures whole { IsWholeLock l.new }
        ensures visits { FewVisits l.old.shares l.new.shares steps.old steps.new }
    {
        let ReadRequest { request } = self;
        request.cancel(&mut l.semaphore, steps);
    }

    /// Ends the state and leaves what it stands for in the line, for a lock that ends too.
    pub fn lose(self) {
        let ReadRequest { request } = self;
        request.lose();
    }
}

impl WriteRequest {
    /// The number of its lock.
    pub fn of(&self) -> u64
        ensures { result ≡ self.now.of }
    {
        self.request.of()
    }

    /// Asks for the right to write: the first time it may join the line, and later it asks whether it was granted.
    pub fn poll_once<L: Ledger>(
        &mut self,
        l: &mut RwLockState,
        waker: Waker,
        steps: &mut Steps<L>,
    ) -> Result<Poll<WriteAccess>, PollError>
        requires number { self.old.of ≡ l.old.shares.number }
        requires own { IsOwn self.old.stage self.old.size l.old.shares }
        requires all { self.old.size ≡ l.old.max }
        ensures polls { Polls self.old waker.0 l.old.shares result self.new l.new.shares }
        // Its semaphore is never closed.
        ensures never_closed { IsErrOf result PollError.Closed → ⊥ }
        ensures max { l.new.max ≡ l.old.max }
        ensures order { KeepsOrder l.old.shares.line l.new.shares.line }
        ensures lawful { IsLawful l.new.shares }
        ensures whole { IsWholeLock l.new }
        ensures visits { PollVisits self.old.stage result steps.old steps.new }
    {
        match self.request.poll_once(&mut l.semaphore, waker, steps)? {
            Poll::Ready(permit) => Ok(Poll::Ready(WriteAccess { permit })),
            Poll::Pending => Ok(Poll::Pending),
        }
    }

    /// Ends the request. One that waits leaves the line, and one that was granted gives all shares back. Then the line settles.
    pub fn cancel<L: Ledger>(self, l: &mut RwLockState, steps: &mut Steps<L>)
        requires number { self.of ≡ l.old.shares.number }
        requires own { IsOwn self.stage self.size l.old.shares }
        ensures state { IsLikeLock (on_shares (cancelled self.stage) l.old) l.new }
        ensures others { Leaves self.stage l.old.shares l.new.shares }
        ensures order { KeepsOrder l.old.shares.line l.new.shares.line }
        ensures lawful { IsLawful l.new.shares }
        ensures whole { IsWholeLock l.new }
        ensures visits { FewVisits l.old.shares l.new.shares steps.old steps.new }
    {
        let WriteRequest { request } = self;
        request.cancel(&mut l.semaphore, steps);
    }

    /// Ends the state and leaves what it stands for in the line, for a lock that ends too.
    pub fn lose(self) {
        let WriteRequest { request } = self;
        request.lose();
    }
}

impl ReadAccess {
    /// The number of its lock.
    pub fn of(&self) -> u64
        ensures { result ≡ self.now.of }
    {
        self.permit.of()
    }

    fn into_permit(self) -> SemaphorePermit
        ensures permit { result ≡ self }
        ensures one { self.count ≡ 1 }
    {
        let ReadAccess { permit } = self;
        permit
    }

    /// Ends the token and leaves its share held, for a lock that ends too.
    pub fn lose(self) {
        let ReadAccess { permit } = self;
        permit.lose();
    }
}

impl WriteAccess {
    /// The number of its lock.
    pub fn of(&self) -> u64
        ensures { result ≡ self.now.of }
    {
        self.permit.of()
    }

    fn into_permit(self) -> SemaphorePermit
        ensures permit { result ≡ self }
        ensures some { 0 < self.count }
    {
        let WriteAccess { permit } = self;
        permit
    }

    /// Ends the token and leaves its shares held, for a lock that ends too.
    pub fn lose(self) {
        let WriteAccess { permit } = self;
        permit.lose();
    }
}
