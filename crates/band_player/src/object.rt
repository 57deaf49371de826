//! The objects of a script.
ghost use Rattle.std.specs.Prelude.{◌≡◌};
ghost use Rattle.band_rules.specs.Plan.{most_readers};

use crate::token::{AnyToken, Token};
use band_base::{Steps, Waker};
use band_lock::{MutexState, RwLockState};
use band_sem::{ReduceError, ReleaseError, Semaphore};
use std::alloc::Global;
use std::marker::Model;
use std::sync::ledger::Ledger;

/// What an object is.
#[derive(Drop)]
pub(crate) enum Primitive {
    Semaphore(Semaphore),
    Mutex(MutexState),
    ReaderWriter(RwLockState),
}

/// What a call makes.
#[derive(Clone, Copy)]
pub(crate) enum New {
    Semaphore(u64),
    Mutex,
    ReaderWriter(Option<u64>),
}

/// What a call asks an object for.
#[derive(Clone, Copy)]
pub(crate) enum Want {
    Permits(u64),
    Lock,
    Read,
    Write,
}

/// An object of a script.
#[derive(Drop)]
pub(crate) struct Object {
    pub(crate) primitive: Primitive,
}

/// The most readers of a lock where its line names none.
const MAX_READERS: u64 = u64::MAX >> 1;

/// The most readers of a lock.
fn most_readers(n: Option<u64>) -> u64
    ensures { result ≡ most_readers n }
{
    match n {
        None => MAX_READERS,
        Some(n) => n,
    }
}

// A script keeps so many bytes for each object, beside its name.
const _: () = prove!(size_of::<Object>() == 96);

impl Model for Object {
    ghost use Rattle.band_player.specs.Objects.{ObjectState, state_of};

    ghost Value = { ObjectState };

    ghost view = { λ o. state_of o.primitive };
}

impl Object {
    ghost use Rattle.std.specs.Prelude.{◌≡◌, ◌<◌, ◌↔◌, IsTrue, IsSome, IfSome, OnSome, IfNone, IsErrOf, OnOk, OnErr};
    ghost use Rattle.band_balance.specs.Line.{drained, overflows, owes_too_much, is_served};
    ghost use Rattle.band_balance.specs.Object.{Permit};
    ghost use Rattle.band_balance.specs.Object as kinds;
    ghost use Rattle.band_sem.specs.Semaphore.{new_state, serves, taken, released, reduced, shut};
    ghost use Rattle.band_sem.specs.Visits.{Pays, burden};
    ghost use Rattle.band_player.specs.Objects.{of_kind, shares_of, on_semaphore, IsLikeObject, IsSteady, TakesWakeOf};
    ghost use Rattle.band_player.specs.Moves.{mode_of, size_for, asked_first, had_of, kind_made, count_made};
    ghost use Rattle.band_balance.specs.Laws.{HasAShare};
    ghost use Rattle.band_balance.specs.Object.{is_of};
    ghost use Rattle.band_player.specs.Token.{Request, Holding};

    /// A new object with this number.
    pub(crate) fn new(alloc: Global, number: u64, new: New) -> Object
        requires { HasAShare (kind_made new) }
        ensures start { result ≡ of_kind (kind_made new) (new_state number (count_made new)) }
        ensures steady { IsSteady result }
    {
        match new {
            New::Semaphore(n) => Object::new_semaphore(alloc, number, n),
            New::Mutex => Object::new_mutex(alloc, number),
            New::ReaderWriter(n) => Object::new_reader_writer(alloc, number, most_readers(n)),
        }
    }

    fn new_semaphore(alloc: Global, number: u64, n: u64) -> Object
        ensures start { result ≡ of_kind kinds.Semaphore (new_state number n) }
        ensures steady { IsSteady result }
    {
        let primitive = Primitive::Semaphore(Semaphore::new(alloc, number, n));
        Object { primitive }
    }

    fn new_mutex(alloc: Global, number: u64) -> Object
        ensures start { result ≡ of_kind kinds.Mutex (new_state number 1) }
        ensures steady { IsSteady result }
    {
        let primitive = Primitive::Mutex(MutexState::new(alloc, number));
        Object { primitive }
    }

    fn new_reader_writer(alloc: Global, number: u64, max: u64) -> Object
        requires { 0 < max }
        ensures start { result ≡ of_kind (kinds.ReaderWriter max) (new_state number max) }
        ensures steady { IsSteady result }
    {
        let lock = RwLockState::with_max_readers(alloc, number, max);
        let primitive = Primitive::ReaderWriter(lock);
        Object { primitive }
    }

    /// Its permits or shares.
    pub(crate) fn semaphore(&self) -> &Semaphore
        ensures { result.now ≡ shares_of self.now }
    {
        match &self.primitive {
            Primitive::Semaphore(semaphore) => semaphore,
            Primitive::Mutex(mutex) => mutex.semaphore(),
            Primitive::ReaderWriter(lock) => lock.semaphore(),
        }
    }

    /// Whether this can be asked of it.
    pub(crate) fn offers(&self, want: Want) -> bool
        ensures { result ≡ is_of self.now.kind (mode_of want) }
    {
        matches!(
            (&self.primitive, want),
            (Primitive::Semaphore(_), Want::Permits(_))
                | (Primitive::Mutex(_), Want::Lock)
                | (Primitive::ReaderWriter(_), Want::Read | Want::Write)
        )
    }

    /// A request for what it offers, not polled yet.
    pub(crate) fn request(&self, want: Want) -> Token
        requires { IsTrue (is_of self.now.kind (mode_of want)) }
        ensures { result ≡ Request (asked_first want self.now) }
    {
        let any = match (&self.primitive, want) {
            (Primitive::Semaphore(semaphore), Want::Permits(n)) => {
                AnyToken::Acquire(semaphore.acquire(n))
            }
            (Primitive::Mutex(mutex), Want::Lock) => AnyToken::LockRequest(mutex.lock()),
            (Primitive::ReaderWriter(lock), Want::Read) => AnyToken::ReadRequest(lock.read()),
            (Primitive::ReaderWriter(lock), Want::Write) => AnyToken::WriteRequest(lock.write()),
            _ => unreachable!(),
        };
        Token { any }
    }

    /// How many of its permits or shares this is.
    fn size(&self, want: Want) -> u64
        ensures { result ≡ size_for want self.now.kind }
    {
        match (&self.primitive, want) {
            (_, Want::Permits(n)) => n,
            (Primitive::ReaderWriter(lock), Want::Write) => lock.max_readers(),
            _ => 1,
        }
    }

    /// Whether it was closed.
    pub(crate) fn is_closed(&self) -> bool
        ensures { result ≡ self.now.closed }
    {
        self.semaphore().is_closed()
    }

    /// Whether it could be had without waiting, be the object closed or not.
    pub(crate) fn would_serve(&self, want: Want) -> bool
        ensures { result ≡ is_served (size_for want self.now.kind) self.now.line }
    {
        self.size(want) <= self.semaphore().available_permits()
    }

    /// Takes what it offers without waiting.
    pub(crate) fn try_take(&mut self, want: Want) -> Option<Token>
        requires { IsTrue (is_of self.old.kind (mode_of want)) }
        ensures served { IsSome result ↔ IsTrue (serves (size_for want self.old.kind) (shares_of self.old)) }
        ensures token { IfSome result (λ token. token ≡ Holding (had_of want self.old)) }
        ensures some { OnSome result (self.new
            ≡ on_semaphore (taken (size_for want self.old.kind)) self.old) }
        ensures none { IfNone result (self.new ≡ self.old) }
        ensures steady { IsSteady self.new }
    {
        let any = match (&mut self.primitive, want) {
            (Primitive::Semaphore(semaphore), Want::Permits(n)) => {
                AnyToken::SemaphorePermit(semaphore.try_acquire(n)?)
            }
            (Primitive::Mutex(mutex), Want::Lock) => AnyToken::LockGuard(mutex.try_lock()?),
            (Primitive::ReaderWriter(lock), Want::Read) => AnyToken::ReadAccess(lock.try_read()?),
            (Primitive::ReaderWriter(lock), Want::Write) => AnyToken::WriteAccess(
                lock.try_write()?,
            ),
            _ => unreachable!(),
        };
        Some(Token { any })
    }

    /// Adds permits to a semaphore.
    pub(crate) fn release<L: Ledger>(
        &mut self,
        n: u64,
        steps: &mut Steps<L>,
    ) -> Result<(), ReleaseError>
        requires { IsTrue (is_of self.old.kind Permit) }
        ensures overflow { IsErrOf result ReleaseError.Overflow
            ↔ IsTrue (overflows n self.old.line self.old.held) }
        ensures ok { OnOk result (IsLikeObject (on_semaphore (released n) self.old) self.new) }
        ensures err { OnErr result (self.new ≡ self.old) }
        ensures steady { IsSteady self.new }
        ensures visits { Pays (burden (shares_of self.old)) (burden (shares_of self.new))
            steps.old steps.new }
    {
        match &mut self.primitive {
            Primitive::Semaphore(semaphore) => semaphore.release(n, steps),
            _ => unreachable!(),
        }
    }

    /// Takes permits away from a semaphore.
    pub(crate) fn reduce<L: Ledger>(
        &mut self,
        n: u64,
        steps: &mut Steps<L>,
    ) -> Result<(), ReduceError>
        requires { IsTrue (is_of self.old.kind Permit) }
        ensures debt { IsErrOf result ReduceError.Debt ↔ IsTrue (owes_too_much n self.old.line) }
        ensures ok { OnOk result (self.new ≡ on_semaphore (reduced n) self.old) }
        ensures err { OnErr result (self.new ≡ self.old) }
        ensures steady { IsSteady self.new }
        ensures visits { Pays (burden (shares_of self.old)) (burden (shares_of self.new))
            steps.old steps.new }
    {
        match &mut self.primitive {
            Primitive::Semaphore(semaphore) => semaphore.reduce_permits(n, steps),
            _ => unreachable!(),
        }
    }

    /// Closes a semaphore.
    pub(crate) fn close<L: Ledger>(&mut self, steps: &mut Steps<L>)
        requires { IsTrue (is_of self.old.kind Permit) }
        ensures state { IsLikeObject (on_semaphore shut self.old) self.new }
        ensures steady { IsSteady self.new }
        ensures visits { Pays (burden (shares_of self.old)) (burden (shares_of self.new))
            steps.old steps.new }
    {
        match &mut self.primitive {
            Primitive::Semaphore(semaphore) => semaphore.close(steps),
            _ => unreachable!(),
        }
    }

    /// Takes away what a semaphore has available.
    pub(crate) fn drain(&mut self, n: u64) -> u64
        requires { IsTrue (is_of self.old.kind Permit) }
        ensures count { result ≡ drained n self.old.line }
        ensures state { self.new ≡ on_semaphore (reduced result) self.old }
        ensures steady { IsSteady self.new }
    {
        match &mut self.primitive {
            Primitive::Semaphore(semaphore) => semaphore.drain_permits(n),
            _ => unreachable!(),
        }
    }

    /// Takes the oldest waker to wake.
    pub(crate) fn take_wake(&mut self) -> Option<Waker>
        ensures woken { TakesWakeOf self.old result self.new }
        ensures steady { IsSteady self.new }
    {
        match &mut self.primitive {
            Primitive::Semaphore(semaphore) => semaphore.take_wake(),
            Primitive::Mutex(mutex) => mutex.take_wake(),
            Primitive::ReaderWriter(lock) => lock.take_wake(),
        }
    }
}
