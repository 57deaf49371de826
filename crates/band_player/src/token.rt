//! A request, or what is held of an object, as the names keep it.
ghost use Rattle.std.specs.Prelude.{◌≡◌, ◌+◌, ◌-◌, ◌<◌, ◌≤◌, IsOk, IfOk, OnErr, Some, MatchResult, Err};
ghost use Rattle.band_balance.specs.Object.{Permit, Read, Write};
ghost use Rattle.band_player.specs.Token.{Holding, ended, thing_of, count_of, counted, IsHeld};

use crate::Reply;
use crate::object::{Object, Primitive};
use band_base::{Poll, PollError, Steps, Waker};
use band_lock::{LockGuard, LockRequest, ReadAccess, ReadRequest, WriteAccess, WriteRequest};
use band_sem::{Acquire, MergeError, Refusal, SemaphorePermit};
use std::alloc::AllocError;
use std::marker::Model;
use std::sync::ledger::Ledger;

/// What a token is.
pub(crate) enum AnyToken {
    /// A request that has ended, in the place of a token that is elsewhere.
    Ended,
    SemaphorePermit(SemaphorePermit),
    LockGuard(LockGuard),
    ReadAccess(ReadAccess),
    WriteAccess(WriteAccess),
    Acquire(Acquire),
    LockRequest(LockRequest),
    ReadRequest(ReadRequest),
    WriteRequest(WriteRequest),
}

/// What a live name is that is no object: a request of one, or what is held of one.
pub(crate) struct Token {
    pub(crate) any: AnyToken,
}

// A script keeps so many bytes for each request or holding, beside its name.
const _: () = prove!(size_of::<Token>() == 32);

impl Model for Token {
    ghost use Rattle.band_player.specs.Token.{TokenState, token_of};

    ghost Value = { TokenState };

    ghost view = { λ t. token_of t.any };
}

/// Adds a permit of the same semaphore.
fn add_permit(permit: &mut SemaphorePermit, more: SemaphorePermit)
    requires same { permit.old.of ≡ more.of }
    requires fits { permit.old.count + more.count ≤ u64.MAX }
    ensures { permit.new ≡ record permit.old { count = permit.old.count + more.count } }
{
    match permit.merge(more) {
        Ok(()) => {}
        Err(MergeError::OtherSemaphore(other)) => other.lose(),
    }
}

impl Token {
    ghost use Rattle.band_sem.specs.Semaphore.{forgotten};
    ghost use Rattle.band_sem.specs.Visits.{Pays, burden};
    ghost use Rattle.band_player.specs.Objects.{shares_of, on_semaphore, IsLikeObject, IsSteady};
    ghost use Rattle.band_player.specs.Moves.{CanPoll, PollsToken, WasPolled, FitsToken, dropped, downgraded, held_as, HeldAt};
    ghost use Rattle.band_player.specs.Thing.{place_at};

    /// A request that has ended.
    pub(crate) fn ended() -> Token
        ensures { result ≡ ended }
    {
        let any = AnyToken::Ended;
        Token { any }
    }

    /// Polls the request that this is. What is held can't be polled.
    pub(crate) fn poll<L: Ledger>(
        self,
        object: &mut Object,
        waker: Waker,
        steps: &mut Steps<L>,
    ) -> Result<(Token, Reply), AllocError>
        requires { CanPoll object.old self }
        ensures ok { IfOk result (λ polled. PollsToken self waker.0 object.old polled.0 polled.1 object.new) }
        ensures err { OnErr result (object.new ≡ object.old) }
        // Only a first poll wants memory.
        ensures later { WasPolled self → IsOk result }
        ensures visits { Pays (burden (shares_of object.old)) (burden (shares_of object.new))
            steps.old steps.new }
        ensures waits { IfOk result (λ polled. polled.1 ≡ Reply.Pending → steps.old < steps.new) }
    {
        let Token { any } = self;
        match (any, &mut object.primitive) {
            (AnyToken::Acquire(mut request), Primitive::Semaphore(semaphore)) => {
                match request.poll_once(semaphore, waker, steps) {
                    Ok(Poll::Ready(permit)) => {
                        request.lose();
                        let any = AnyToken::SemaphorePermit(permit);
                        Ok((Token { any }, Reply::Ready))
                    }
                    Ok(Poll::Pending) => {
                        let any = AnyToken::Acquire(request);
                        Ok((Token { any }, Reply::Pending))
                    }
                    Err(PollError::Closed) => {
                        let any = AnyToken::Acquire(request);
                        Ok((Token { any }, Reply::Closed))
                    }
                    Err(_) => {
                        request.lose();
                        Err(AllocError)
                    }
                }
            }
            (AnyToken::LockRequest(mut request), Primitive::Mutex(mutex)) => {
                match request.poll_once(mutex, waker, steps) {
                    Ok(Poll::Ready(guard)) => {
                        request.lose();
                        let any = AnyToken::LockGuard(guard);
                        Ok((Token { any }, Reply::Ready))
                    }
                    Ok(Poll::Pending) => {
                        let any = AnyToken::LockRequest(request);
                        Ok((Token { any }, Reply::Pending))
                    }
                    Err(_) => {
                        request.lose();
                        Err(AllocError)
                    }
                }
            }
            (AnyToken::ReadRequest(mut request), Primitive::ReaderWriter(lock)) => {
                match request.poll_once(lock, waker, steps) {
                    Ok(Poll::Ready(access)) => {
                        request.lose();
                        let any = AnyToken::ReadAccess(access);
                        Ok((Token { any }, Reply::Ready))
                    }
                    Ok(Poll::Pending) => {
                        let any = AnyToken::ReadRequest(request);
                        Ok((Token { any }, Reply::Pending))
                    }
                    Err(_) => {
                        request.lose();
                        Err(AllocError)
                    }
                }
            }
            (AnyToken::WriteRequest(mut request), Primitive::ReaderWriter(lock)) => {
                match request.poll_once(lock, waker, steps) {
                    Ok(Poll::Ready(access)) => {
                        request.lose();
                        let any = AnyToken::WriteAccess(access);
                        Ok((Token { any }, Reply::Ready))
                    }
                    Ok(Poll::Pending) => {
                        let any = AnyToken::WriteRequest(request);
                        Ok((Token { any }, Reply::Pending))
                    }
                    Err(_) => {
                        request.lose();
                        Err(AllocError)
                    }
                }
            }
            (any, _) => Ok((Token { any }, Reply::Refused(Refusal::Finished))),
        }
    }

    /// Gives back what is held, or cancels the request.
    pub(crate) fn drop_to<L: Ledger>(self, object: &mut Object, steps: &mut Steps<L>)
        requires { FitsToken (Some object.old) self }
        ensures state { IsLikeObject (dropped self object.old) object.new }
        ensures steady { IsSteady object.new }
        ensures visits { Pays (burden (shares_of object.old)) (burden (shares_of object.new))
            steps.old steps.new }
    {
        let Token { any } = self;
        match (any, &mut object.primitive) {
            (AnyToken::SemaphorePermit(permit), Primitive::Semaphore(semaphore)) => {
                semaphore.drop_permit(permit, steps)
            }
            (AnyToken::LockGuard(guard), Primitive::Mutex(mutex)) => mutex.drop_guard(guard, steps),
            (AnyToken::ReadAccess(access), Primitive::ReaderWriter(lock)) => {
                lock.drop_read(access, steps)
            }
            (AnyToken::WriteAccess(access), Primitive::ReaderWriter(lock)) => {
                lock.drop_write(access, steps)
            }
            (AnyToken::Acquire(request), Primitive::Semaphore(semaphore)) => {
                request.cancel(semaphore, steps)
            }
            (AnyToken::LockRequest(request), Primitive::Mutex(mutex)) => {
                request.cancel(mutex, steps)
            }
            (AnyToken::ReadRequest(request), Primitive::ReaderWriter(lock)) => {
                request.cancel(lock, steps)
            }
            (AnyToken::WriteRequest(request), Primitive::ReaderWriter(lock)) => {
                request.cancel(lock, steps)
            }
            _ => unreachable!(),
        }
    }

    /// The place of the object that this is of.
    pub(crate) fn place(&self) -> u64
        ensures { result ≡ place_at (thing_of self.now) }
    {
        match &self.any {
            AnyToken::Ended => 0,
            AnyToken::SemaphorePermit(permit) => permit.of(),
            AnyToken::LockGuard(guard) => guard.of(),
            AnyToken::ReadAccess(access) => access.of(),
            AnyToken::WriteAccess(access) => access.of(),
            AnyToken::Acquire(request) => request.of(),
            AnyToken::LockRequest(request) => request.of(),
            AnyToken::ReadRequest(request) => request.of(),
            AnyToken::WriteRequest(request) => request.of(),
        }
    }

    /// The place of the object that this is a permit of.
    pub(crate) fn permit_of(&self) -> Result<u64, Refusal>
        ensures { MatchResult result
            (λ place. HeldAt Permit (Some (thing_of self.now)) place)
            (λ refusal. held_as Permit (Some (thing_of self.now)) ≡ Err refusal) }
    {
        match &self.any {
            AnyToken::SemaphorePermit(permit) => Ok(permit.of()),
            _ => Err(Refusal::Kind),
        }
    }

    /// How many permits this has.
    pub(crate) fn permits(&self) -> u64
        requires { IsHeld Permit self.now }
        ensures { result ≡ count_of self.now }
    {
        match &self.any {
            AnyToken::SemaphorePermit(permit) => permit.permits(),
            _ => unreachable!(),
        }
    }

    /// The place of the object that this is the right to write of.
    pub(crate) fn writer_of(&self) -> Result<u64, Refusal>
        ensures { MatchResult result
            (λ place. HeldAt Write (Some (thing_of self.now)) place)
            (λ refusal. held_as Write (Some (thing_of self.now)) ≡ Err refusal) }
    {
        match &self.any {
            AnyToken::WriteAccess(access) => Ok(access.of()),
            _ => Err(Refusal::Kind),
        }
    }

    /// Ends a permit, and nothing comes back.
    pub(crate) fn forget_at(self, object: &mut Object)
        requires mode { IsHeld Permit self }
        requires fits { FitsToken (Some object.old) self }
        ensures state { object.new ≡ on_semaphore (forgotten (count_of self)) object.old }
        ensures steady { IsSteady object.new }
    {
        let Token { any } = self;
        match (any, &mut object.primitive) {
            (AnyToken::SemaphorePermit(permit), Primitive::Semaphore(semaphore)) => {
                semaphore.forget(permit)
            }
            (any, _) => Token { any }.lose(),
        }
    }

    /// Makes the right to write one to read.
    pub(crate) fn downgrade_at<L: Ledger>(self, object: &mut Object, steps: &mut Steps<L>) -> Token
        requires mode { IsHeld Write self }
        requires fits { FitsToken (Some object.old) self }
        ensures some { 0 < count_of self }
        ensures reader { result ≡ Holding (record { mode = Read; of = place_at (thing_of self); count = 1 }) }
        ensures state { IsLikeObject (downgraded (count_of self) object.old) object.new }
        ensures steady { IsSteady object.new }
        ensures visits { Pays (burden (shares_of object.old)) (burden (shares_of object.new))
            steps.old steps.new }
    {
        let Token { any } = self;
        let any = match (any, &mut object.primitive) {
            (AnyToken::WriteAccess(access), Primitive::ReaderWriter(lock)) => {
                AnyToken::ReadAccess(lock.downgrade(access, steps))
            }
            (any, _) => any,
        };
        Token { any }
    }

    /// Takes `n` of a permit's into another one.
    pub(crate) fn split(&mut self, n: u64) -> Token
        requires mode { IsHeld Permit self.old }
        requires enough { n ≤ count_of self.old }
        ensures part { result ≡ counted n self.old }
        ensures left { self.new ≡ counted (count_of self.old - n) self.old }
    {
        match &mut self.any {
            AnyToken::SemaphorePermit(permit) => {
                let any = AnyToken::SemaphorePermit(permit.split(n).unwrap());
                Token { any }
            }
            _ => unreachable!(),
        }
    }

    /// Adds another permit of the same semaphore.
    pub(crate) fn join(&mut self, more: Token)
        requires mode { IsHeld Permit self.old }
        requires more { IsHeld Permit more }
        requires same { place_at (thing_of self.old) ≡ place_at (thing_of more) }
        requires fits { count_of self.old + count_of more ≤ u64.MAX }
        ensures { self.new ≡ counted (count_of self.old + count_of more) self.old }
    {
        let Token { any } = more;
        match (&mut self.any, any) {
            (AnyToken::SemaphorePermit(permit), AnyToken::SemaphorePermit(more)) => {
                add_permit(permit, more)
            }
            (_, any) => Token { any }.lose(),
        }
    }

    /// Ends what this is and leaves it counted, for a table that ends too.
    pub(crate) fn lose(self) {
        let Token { any } = self;
        match any {
            AnyToken::Ended => {}
            AnyToken::SemaphorePermit(permit) => permit.lose(),
            AnyToken::LockGuard(guard) => guard.lose(),
            AnyToken::ReadAccess(access) => access.lose(),
            AnyToken::WriteAccess(access) => access.lose(),
            AnyToken::Acquire(request) => request.lose(),
            AnyToken::LockRequest(request) => request.lose(),
            AnyToken::ReadRequest(request) => request.lose(),
            AnyToken::WriteRequest(request) => request.lose(),
        }
    }
}
