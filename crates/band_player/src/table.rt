//! What the player keeps: the names, and the objects by place.
ghost use Rattle.std.specs.Prelude.{◌≡◌, ◌<◌, ◌∷◌, [], IfOk, OnErr, Ok, Err, IsOk, MatchOption, MatchResult};
ghost use Rattle.band_script.specs.Call.{ForReaders};
ghost use Rattle.band_script.specs.declared.call.Call.TheVariants as calls;
ghost use Rattle.band_player.specs.Names.{thing_at};
ghost use Rattle.band_player.specs.Moves.{mode_of, mergeable, make_call, ask_call, try_call};
ghost use Rattle.band_sem.specs.Visits.{Pays};
ghost use Rattle.band_player.specs.Player.{TakesNoMemory};
ghost use Rattle.band_player.specs.Visits.{load};
ghost use Rattle.band_player.specs.Kept.{TableStandsFor, StandsForSome, Asks, TableFollows, TableStays, Answered, Wanting, Offered, offering_at, wakes_left};

use crate::names::Names;
use crate::object::{New, Object, Want};
use crate::{Call, Name, Reply};
use band_base::{Steps, Waker};
use band_sem::{ReduceError, Refusal};
use std::alloc::{AllocError, Global};
use std::sync::ledger::Ledger;

/// The names, the objects, and which of the objects was called last.
pub(crate) struct Table {
    names: Names,
    objects: Vec<Object>,
    last: u64,
}

/// The same name again, for a map to keep. It takes no memory.
fn copy_of(name: &Name) -> Name
    ensures { result ≡ name.now }
{
    name.clone().unwrap()
}

/// The place of the object of two permits that can become one.
fn mergeable(names: &Names, kept: &Name, spent: &Name) -> Result<u64, Refusal>
    ensures { result ≡ mergeable kept.now spent.now (thing_at names.now kept.now)
        (thing_at names.now spent.now) }
{
    match (names.permit_at(kept), names.permit_at(spent)) {
        (Err(Refusal::Unknown), _) | (_, Err(Refusal::Unknown)) => Err(Refusal::Unknown),
        (Err(refusal), _) | (_, Err(refusal)) => Err(refusal),
        (Ok(_), Ok(_)) if kept == spent => Err(Refusal::Same),
        (Ok(first), Ok(second)) if first == second => Ok(first),
        _ => Err(Refusal::Other),
    }
}

impl Table {
    /// No name and no object.
    pub(crate) fn new(alloc: Global) -> Table
        ensures sound { StandsForSome result }
        ensures start { TableStandsFor result [] }
        ensures wakes { wakes_left result ≡ [] }
        ensures load { load result.objects.items ≡ 0 }
    {
        Table {
            names: Names::new(alloc),
            objects: Vec::new(alloc),
            last: 0,
        }
    }

    /// The place of the object with this name, of which this can be asked.
    fn object_for(&self, name: &Name, want: Want) -> Result<u64, Refusal>
        requires { StandsForSome self.now }
        ensures { MatchResult result (λ place. Offered (mode_of want) self.now name.now place)
            (λ refusal. offering_at (mode_of want) self.now name.now ≡ Err refusal) }
    {
        let place = self.names.object_at(name)?;
        if self.objects[place as usize].offers(want) {
            Ok(place)
        } else {
            Err(Refusal::Kind)
        }
    }

    /// Makes an object.
    pub(crate) fn make(&mut self, alloc: Global, made: &Name, new: New) -> Result<Reply, AllocError>
        requires sound { StandsForSome self.old }
        requires quiet { wakes_left self.old ≡ [] }
        requires readers { ForReaders (make_call new made.now) }
        ensures answered { IfOk result (λ reply. Answered (make_call new made.now) self.old reply self.new) }
        ensures wanting { OnErr result (Wanting (make_call new made.now) self.old self.new) }
        ensures load { load self.new.objects.items ≡ load self.old.objects.items }
    {
        if self.names.is_live(made) {
            return Ok(Reply::Refused(Refusal::Taken));
        }
        let place = self.objects.len() as u64;
        self.objects.reserve(1)?;
        self.names.add_object(copy_of(made), place)?;
        self.objects.push(Object::new(alloc, place, new)).unwrap();
        Ok(Reply::Done)
    }

    /// Makes a request of an object and polls it first.
    pub(crate) fn ask<L: Ledger>(
        &mut self,
        want: Want,
        made: &Name,
        of: &Name,
        waker: Waker,
        steps: &mut Steps<L>,
    ) -> Result<Reply, AllocError>
        requires sound { StandsForSome self.old }
        requires quiet { wakes_left self.old ≡ [] }
        ensures answered { IfOk result (λ reply.
            Answered (ask_call want made.now of.now waker.0) self.old reply self.new) }
        ensures wanting { OnErr result (Wanting (ask_call want made.now of.now waker.0) self.old self.new) }
        ensures visits { Pays (load self.old.objects.items) (load self.new.objects.items)
            steps.old steps.new }
        ensures waits { result ≡ Ok Reply.Pending → steps.old < steps.new }
    {
        let place = match self.object_for(of, want) {
            Ok(place) => place,
            Err(refusal) => return Ok(Reply::Refused(refusal)),
        };
        if self.names.is_live(made) {
            return Ok(Reply::Refused(Refusal::Taken));
        }
        let object = &mut self.objects[place as usize];
        if object.is_closed() {
            return Ok(Reply::Refused(Refusal::Closed));
        }
        let reply = self.names.ask(object, want, copy_of(made), waker, steps)?;
        self.last = place;
        Ok(reply)
    }

    /// Polls what a name is.
    pub(crate) fn poll<L: Ledger>(
        &mut self,
        name: &Name,
        waker: Waker,
        steps: &mut Steps<L>,
    ) -> Reply
        requires sound { StandsForSome self.old }
        requires quiet { wakes_left self.old ≡ [] }
        ensures answered { Answered (calls.Poll name.now waker.0) self.old result self.new }
        ensures visits { Pays (load self.old.objects.items) (load self.new.objects.items)
            steps.old steps.new }
    {
        let Some(boxed) = self.names.tokens.get_mut(name) else {
            return match self.names.object_at(name) {
                Ok(_) => Reply::Refused(Refusal::Kind),
                Err(refusal) => Reply::Refused(refusal),
            };
        };
        let token = boxed.take();
        let place = token.place();
        let object = &mut self.objects[place as usize];
        match token.poll(object, waker, steps) {
            Ok((token, reply)) => {
                boxed.fill(token);
                self.names.end_closed(name, &reply);
                self.last = place;
                reply
            }
            Err(_) => unreachable!(),
        }
    }

    /// Lets go of the request or permit that a name is.
    pub(crate) fn drop_name<L: Ledger>(&mut self, name: &Name, steps: &mut Steps<L>) -> Reply
        requires sound { StandsForSome self.old }
        requires quiet { wakes_left self.old ≡ [] }
        ensures answered { Answered (calls.Drop name.now) self.old result self.new }
        ensures visits { Pays (load self.old.objects.items) (load self.new.objects.items)
            steps.old steps.new }
    {
        if self.names.is_object(name) {
            return Reply::Refused(Refusal::Kind);
        }
        let Some(token) = self.names.remove(name) else {
            return Reply::Refused(Refusal::Unknown);
        };
        let place = token.place();
        self.last = place;
        token.drop_to(&mut self.objects[place as usize], steps);
        Reply::Done
    }

    /// Takes permits or a guard without waiting.
    pub(crate) fn try_for(
        &mut self,
        want: Want,
        made: &Name,
        of: &Name,
    ) -> Result<Reply, AllocError>
        requires sound { StandsForSome self.old }
        requires quiet { wakes_left self.old ≡ [] }
        ensures answered { IfOk result (λ reply.
            Answered (try_call want made.now of.now) self.old reply self.new) }
        ensures wanting { OnErr result (Wanting (try_call want made.now of.now) self.old self.new) }
        ensures load { load self.new.objects.items ≡ load self.old.objects.items }
    {
        let place = match self.object_for(of, want) {
            Ok(place) => place,
            Err(refusal) => return Ok(Reply::Refused(refusal)),
        };
        if self.names.is_live(made) {
            return Ok(Reply::Refused(Refusal::Taken));
        }
        let object = &mut self.objects[place as usize];
        if object.is_closed() {
            return Ok(Reply::Refused(Refusal::Closed));
        }
        if !object.would_serve(want) {
            return Ok(Reply::Nothing);
        }
        self.names.take(object, want, copy_of(made))?;
        self.last = place;
        Ok(Reply::Done)
    }

    /// Adds permits to a semaphore.
    pub(crate) fn release<L: Ledger>(&mut self, of: &Name, n: u64, steps: &mut Steps<L>) -> Reply
        requires sound { StandsForSome self.old }
        requires quiet { wakes_left self.old ≡ [] }
        ensures answered { Answered (calls.Release of.now n) self.old result self.new }
        ensures visits { Pays (load self.old.objects.items) (load self.new.objects.items)
            steps.old steps.new }
    {
        let place = match self.object_for(of, Want::Permits(n)) {
            Ok(place) => place,
            Err(refusal) => return Reply::Refused(refusal),
        };
        self.last = place;
        let object = &mut self.objects[place as usize];
        match object.release(n, steps) {
            Ok(()) => Reply::Done,
            Err(_) => Reply::Refused(Refusal::Overflow),
        }
    }

    /// Takes permits away from a semaphore.
    pub(crate) fn reduce<L: Ledger>(
        &mut self,
        of: &Name,
        n: u64,
        steps: &mut Steps<L>,
    ) -> Result<Reply, AllocError>
        requires sound { StandsForSome self.old }
        requires quiet { wakes_left self.old ≡ [] }
        ensures answered { IfOk result (λ reply. Answered (calls.Reduce of.now n) self.old reply self.new) }
        ensures wanting { OnErr result (Wanting (calls.Reduce of.now n) self.old self.new) }
        ensures visits { Pays (load self.old.objects.items) (load self.new.objects.items)
            steps.old steps.new }
    {
        let place = match self.object_for(of, Want::Permits(n)) {
            Ok(place) => place,
            Err(refusal) => return Ok(Reply::Refused(refusal)),
        };
        self.last = place;
        let object = &mut self.objects[place as usize];
        match object.reduce(n, steps) {
            Ok(()) => Ok(Reply::Done),
            Err(ReduceError::Debt) => Ok(Reply::Refused(Refusal::Debt)),
            Err(ReduceError::NoMemory) => Err(AllocError),
        }
    }

    /// Takes away what a semaphore has available.
    pub(crate) fn drain(&mut self, of: &Name, n: u64) -> Reply
        requires sound { StandsForSome self.old }
        requires quiet { wakes_left self.old ≡ [] }
        ensures answered { Answered (calls.Drain of.now n) self.old result self.new }
        ensures load { load self.new.objects.items ≡ load self.old.objects.items }
    {
        let place = match self.object_for(of, Want::Permits(n)) {
            Ok(place) => place,
            Err(refusal) => return Reply::Refused(refusal),
        };
        self.last = place;
        let object = &mut self.objects[place as usize];
        Reply::Drained(object.drain(n))
    }

    /// Closes a semaphore.
    pub(crate) fn close<L: Ledger>(&mut self, of: &Name, steps: &mut Steps<L>) -> Reply
        requires sound { StandsForSome self.old }
        requires quiet { wakes_left self.old ≡ [] }
        ensures answered { Answered (calls.Close of.now) self.old result self.new }
        ensures visits { Pays (load self.old.objects.items) (load self.new.objects.items)
            steps.old steps.new }
    {
        let place = match self.object_for(of, Want::Permits(0)) {
            Ok(place) => place,
            Err(refusal) => return Reply::Refused(refusal),
        };
        self.last = place;
        self.objects[place as usize].close(steps);
        Reply::Done
    }

    /// The figures of an object.
    pub(crate) fn status(&self, name: &Name) -> Reply
        requires sound { StandsForSome self.now }
        requires quiet { wakes_left self.now ≡ [] }
        ensures { TableFollows (calls.Status name.now) self.now result self.now }
    {
        let place = match self.names.object_at(name) {
            Ok(place) => place,
            Err(refusal) => return Reply::Refused(refusal),
        };
        let semaphore = self.objects[place as usize].semaphore();
        Reply::Figures {
            available: semaphore.available_permits(),
            free: semaphore.free(),
            waiting: semaphore.waiting_count(),
            granted: semaphore.granted_permits(),
            held: semaphore.held_permits(),
        }
    }

    /// Ends the permit that a name is, and nothing comes back.
    pub(crate) fn forget(&mut self, name: &Name) -> Reply
        requires sound { StandsForSome self.old }
        requires quiet { wakes_left self.old ≡ [] }
        ensures answered { Answered (calls.Forget name.now) self.old result self.new }
        ensures load { load self.new.objects.items ≡ load self.old.objects.items }
    {
        if let Err(refusal) = self.names.permit_at(name) {
            return Reply::Refused(refusal);
        }
        let permit = self.names.remove(name).unwrap();
        let place = permit.place();
        self.last = place;
        permit.forget_at(&mut self.objects[place as usize]);
        Reply::Done
    }

    /// Moves permits of the one that a name is to a new one.
    pub(crate) fn split(&mut self, name: &Name, made: &Name, n: u64) -> Result<Reply, AllocError>
        requires sound { StandsForSome self.old }
        requires quiet { wakes_left self.old ≡ [] }
        ensures answered { IfOk result (λ reply.
            Answered (calls.Split name.now made.now n) self.old reply self.new) }
        ensures wanting { OnErr result (Wanting (calls.Split name.now made.now n) self.old self.new) }
        ensures load { load self.new.objects.items ≡ load self.old.objects.items }
    {
        let permits = match self.names.permits(name) {
            Ok(permits) => permits,
            Err(refusal) => return Ok(Reply::Refused(refusal)),
        };
        if self.names.is_live(made) {
            return Ok(Reply::Refused(Refusal::Taken));
        }
        if permits < n {
            return Ok(Reply::Nothing);
        }
        let place = self.names.split(name, copy_of(made), n)?;
        self.last = place;
        Ok(Reply::Done)
    }

    /// Moves all permits of the second name to the first.
    pub(crate) fn merge(&mut self, kept: &Name, spent: &Name) -> Reply
        requires sound { StandsForSome self.old }
        requires quiet { wakes_left self.old ≡ [] }
        ensures answered { Answered (calls.Merge kept.now spent.now) self.old result self.new }
        ensures load { load self.new.objects.items ≡ load self.old.objects.items }
    {
        let place = match mergeable(&self.names, kept, spent) {
            Ok(place) => place,
            Err(refusal) => return Reply::Refused(refusal),
        };
        let more = self.names.remove(spent).unwrap();
        self.names.grow(kept, more);
        self.last = place;
        Reply::Done
    }

    /// Makes the right to write that a name is one to read.
    pub(crate) fn downgrade<L: Ledger>(&mut self, name: &Name, steps: &mut Steps<L>) -> Reply
        requires sound { StandsForSome self.old }
        requires quiet { wakes_left self.old ≡ [] }
        ensures answered { Answered (calls.Downgrade name.now) self.old result self.new }
        ensures visits { Pays (load self.old.objects.items) (load self.new.objects.items)
            steps.old steps.new }
    {
        if let Err(refusal) = self.names.writer_at(name) {
            return Reply::Refused(refusal);
        }
        let boxed = self.names.tokens.get_mut(name).unwrap();
        let writer = boxed.take();
        let place = writer.place();
        let object = &mut self.objects[place as usize];
        boxed.fill(writer.downgrade_at(object, steps));
        self.last = place;
        Reply::Done
    }

    /// Does what a call says.
    pub(crate) fn run<L: Ledger>(
        &mut self,
        alloc: Global,
        call: &Call,
        steps: &mut Steps<L>,
    ) -> Result<Reply, AllocError>
        requires sound { StandsForSome self.old }
        requires quiet { wakes_left self.old ≡ [] }
        requires readers { ForReaders call.now }
        ensures answered { IfOk result (λ reply. Answered call.now self.old reply self.new) }
        ensures wanting { OnErr result (Wanting call.now self.old self.new) }
        ensures succeeds { TakesNoMemory call.now → IsOk result }
        ensures visits { Pays (load self.old.objects.items) (load self.new.objects.items)
            steps.old steps.new }
        // A new request that waits was visited.
        ensures waits { Asks call.now → result ≡ Ok Reply.Pending → steps.old < steps.new }
    {
        match call {
            Call::Sem { made, n } => self.make(alloc, made, New::Semaphore(*n)),
            Call::Mutex { made } => self.make(alloc, made, New::Mutex),
            Call::Rw { made, n } => self.make(alloc, made, New::ReaderWriter(*n)),
            Call::Ask { made, of, n, waker } => {
                self.ask(Want::Permits(*n), made, of, Waker(*waker), steps)
            }
            Call::Lock { made, of, waker } => {
                self.ask(Want::Lock, made, of, Waker(*waker), steps)
            }
            Call::Read { made, of, waker } => {
                self.ask(Want::Read, made, of, Waker(*waker), steps)
            }
            Call::Write { made, of, waker } => {
                self.ask(Want::Write, made, of, Waker(*waker), steps)
            }
            Call::Poll { name, waker } => Ok(self.poll(name, Waker(*waker), steps)),
            Call::Drop { name } => Ok(self.drop_name(name, steps)),
            Call::Try { made, of, n } => self.try_for(Want::Permits(*n), made, of),
            Call::TryLock { made, of } => self.try_for(Want::Lock, made, of),
            Call::TryRead { made, of } => self.try_for(Want::Read, made, of),
            Call::TryWrite { made, of } => self.try_for(Want::Write, made, of),
            Call::Release { of, n } => Ok(self.release(of, *n, steps)),
            Call::Reduce { of, n } => self.reduce(of, *n, steps),
            Call::Drain { of, n } => Ok(self.drain(of, *n)),
            Call::Close { of } => Ok(self.close(of, steps)),
            Call::Downgrade { name } => Ok(self.downgrade(name, steps)),
            Call::Status { name } => Ok(self.status(name)),
            Call::Forget { name } => Ok(self.forget(name)),
            Call::Split { name, made, n } => self.split(name, made, *n),
            Call::Merge { kept, spent } => Ok(self.merge(kept, spent)),
        }
    }

    /// Takes the oldest waker to wake of the object that was called last.
    pub(crate) fn take_wake(&mut self) -> Option<Waker>
        requires { StandsForSome self.old }
        ensures woken { MatchOption result
            ((wakes_left self.old ≡ []) × (wakes_left self.new ≡ []))
            (λ waker. wakes_left self.old ≡ waker.0 ∷ wakes_left self.new) }
        ensures state { TableStays self.old self.new }
        ensures sound { StandsForSome self.new }
        ensures load { load self.new.objects.items ≡ load self.old.objects.items }
    {
        let last = self.last as usize;
        if last < self.objects.len() {
            return self.objects[last].take_wake();
        }
        None
    }

    /// Loses every token.
    pub(crate) fn lose(self) {
        let Table {
            names,
            objects: _,
            last: _,
        } = self;
        names.lose();
    }
}
