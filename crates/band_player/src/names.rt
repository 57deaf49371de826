//! The names: what each live name is.
ghost use Rattle.std.proofs.Props.{props};
ghost use Rattle.band_player.specs.Apart.{AreApart};

use crate::boxed_token::BoxedToken;
use crate::object::{Object, Want};
use crate::token::Token;
use crate::{Name, Reply};
use band_base::{Steps, Waker};
use band_sem::Refusal;
use std::alloc::{AllocError, Global};
use std::collections::BTreeMap;
use std::collections::btree_map::Entry;
use std::sync::ledger::Ledger;

/// What each live name is: an object, by its place, or a token. An object takes no room for a token, and for each token
/// there is room before it is made.
pub(crate) struct Names {
    objects: BTreeMap<Name, u64>,
    pub(crate) tokens: BTreeMap<Name, BoxedToken>,
    alloc: Global,
    ghost apart: { AreApart objects tokens } by { Prim.hlevel props },
}

impl Names {
    ghost use Rattle.std.specs.Prelude.{◌≡◌, ℕ, ◌-◌, ◌<◌, ◌≤◌, ◌↔◌, List, None, Some, Ok, Err, IsSome, IfOk, OnOk, OnErr, IsOk, IsTrue, MatchResult, false, option_map};
    ghost use Rattle.band_balance.specs.Object.{Mode, Permit, Write, is_of};
    ghost use Rattle.band_sem.specs.Semaphore.{serves, taken};
    ghost use Rattle.band_sem.specs.Visits.{Pays, burden};
    ghost use Rattle.band_player.specs.Objects.{shares_of, on_semaphore, IsSteady};
    ghost use Rattle.band_player.specs.Thing as things;
    ghost use Rattle.band_player.specs.Token.{ended, thing_of, count_of, counted, IsHeld};
    ghost use Rattle.band_player.specs.Names.{thing_at, AreSame, Updated, is_object};
    ghost use Rattle.band_player.specs.Moves.{AsksName, mode_of, size_for, had_of, object_place, held_as, HeldAt, HasCount, HasPermits, SplitsTo, CanGrow, Grows, left_by};

    /// No name.
    pub(crate) fn new(alloc: Global) -> Names
        ensures { (name : List ℕ) → thing_at result name ≡ None }
    {
        Names {
            objects: BTreeMap::new(alloc),
            tokens: BTreeMap::new(alloc),
            alloc,
        }
    }

    /// Whether a name is live.
    pub(crate) fn is_live(&self, name: &Name) -> bool
        ensures { IsTrue result ↔ IsSome (thing_at self.now name.now) }
    {
        self.objects.contains_key(name) || self.tokens.contains_key(name)
    }

    /// Whether a name is an object's.
    pub(crate) fn is_object(&self, name: &Name) -> bool
        ensures { result ≡ is_object (thing_at self.now name.now) }
    {
        self.objects.contains_key(name)
    }

    /// The place of the object with this name.
    pub(crate) fn object_at(&self, name: &Name) -> Result<u64, Refusal>
        ensures { result ≡ object_place (thing_at self.now name.now) }
    {
        match self.objects.get(name) {
            Some(place) => Ok(*place),
            None if self.tokens.contains_key(name) => Err(Refusal::Kind),
            None => Err(Refusal::Unknown),
        }
    }

    /// The token with this name.
    fn token(&self, name: &Name) -> Result<&Token, Refusal>
        ensures { MatchResult result
            (λ token. thing_at self.now name.now ≡ Some (thing_of token.now))
            (λ refusal. (mode : Mode) → held_as mode (thing_at self.now name.now) ≡ Err refusal) }
    {
        match self.tokens.get(name) {
            Some(boxed) => Ok(boxed.get()),
            None if self.objects.contains_key(name) => Err(Refusal::Kind),
            None => Err(Refusal::Unknown),
        }
    }

    /// The place of the object of the permit with this name.
    pub(crate) fn permit_at(&self, name: &Name) -> Result<u64, Refusal>
        ensures { MatchResult result
            (λ place. HeldAt Permit (thing_at self.now name.now) place)
            (λ refusal. held_as Permit (thing_at self.now name.now) ≡ Err refusal) }
    {
        self.token(name)?.permit_of()
    }

    /// The place of the object of the right to write with this name.
    pub(crate) fn writer_at(&self, name: &Name) -> Result<u64, Refusal>
        ensures { MatchResult result
            (λ place. HeldAt Write (thing_at self.now name.now) place)
            (λ refusal. held_as Write (thing_at self.now name.now) ≡ Err refusal) }
    {
        self.token(name)?.writer_of()
    }

    /// How many permits the one with this name has.
    pub(crate) fn permits(&self, name: &Name) -> Result<u64, Refusal>
        ensures { MatchResult result
            (λ count. HasCount (thing_at self.now name.now) count)
            (λ refusal. held_as Permit (thing_at self.now name.now) ≡ Err refusal) }
    {
        let token = self.token(name)?;
        token.permit_of()?;
        Ok(token.permits())
    }

    /// Adds a name that isn't live, for the object at a place.
    pub(crate) fn add_object(&mut self, name: Name, place: u64) -> Result<(), AllocError>
        requires { thing_at self.old name ≡ None }
        ensures ok { OnOk result (Updated (thing_at self.old) (thing_at self.new) name
            (Some (things.Object place))) }
        ensures err { OnErr result (AreSame self.old self.new) }
    {
        match self.objects.insert(name, place) {
            Ok(_) => Ok(()),
            Err(_) => Err(AllocError),
        }
    }

    /// Adds a name that isn't live, for a request of an object, and polls it first.
    pub(crate) fn ask<L: Ledger>(
        &mut self,
        object: &mut Object,
        want: Want,
        name: Name,
        waker: Waker,
        steps: &mut Steps<L>,
    ) -> Result<Reply, AllocError>
        requires free { thing_at self.old name ≡ None }
        requires offered { IsTrue (is_of object.old.kind (mode_of want)) }
        ensures ok { IfOk result (λ reply.
            AsksName name want waker.0 (thing_at self.old) (thing_at self.new) object.old object.new reply) }
        ensures err { OnErr result (AreSame self.old self.new × (object.new ≡ object.old)) }
        ensures visits { Pays (burden (shares_of object.old)) (burden (shares_of object.new))
            steps.old steps.new }
        ensures waits { result ≡ Ok Reply.Pending → steps.old < steps.new }
    {
        let room = BoxedToken::new(self.alloc)?;
        let Ok(Entry::Vacant(entry)) = self.tokens.entry(name) else {
            room.lose();
            return Err(AllocError);
        };
        let (token, reply) = match object.request(want).poll(object, waker, steps) {
            Ok(made) => made,
            Err(error) => {
                // It is filled and taken out, since an entry that is let go says nothing of its map.
                entry.insert_entry(room).remove().lose();
                return Err(error);
            }
        };
        let _ = entry.insert(room.filled(token));
        Ok(reply)
    }

    /// Adds a name that isn't live, for what an object offers and can give without waiting.
    pub(crate) fn take(
        &mut self,
        object: &mut Object,
        want: Want,
        name: Name,
    ) -> Result<(), AllocError>
        requires free { thing_at self.old name ≡ None }
        requires offered { IsTrue (is_of object.old.kind (mode_of want)) }
        requires served { IsTrue (serves (size_for want object.old.kind) (shares_of object.old)) }
        ensures ok { OnOk result (Updated (thing_at self.old) (thing_at self.new) name
            (Some (things.Holding (had_of want object.old)))) }
        ensures taken { OnOk result (object.new
            ≡ on_semaphore (taken (size_for want object.old.kind)) object.old) }
        ensures steady { OnOk result (IsSteady object.new) }
        ensures err { OnErr result (AreSame self.old self.new × (object.new ≡ object.old)) }
    {
        let room = BoxedToken::new(self.alloc)?;
        let Ok(Entry::Vacant(entry)) = self.tokens.entry(name) else {
            room.lose();
            return Err(AllocError);
        };
        let token = object.try_take(want).unwrap();
        let _ = entry.insert(room.filled(token));
        Ok(())
    }

    /// Adds a name that isn't live, for `n` of a permit's.
    fn add_part(&mut self, permit: &mut Token, name: Name, n: u64) -> Result<(), AllocError>
        requires free { thing_at self.old name ≡ None }
        requires mode { IsHeld Permit permit.old }
        requires enough { n ≤ count_of permit.old }
        ensures ok { OnOk result (Updated (thing_at self.old) (thing_at self.new) name
            (Some (thing_of (counted n permit.old)))) }
        ensures parted { OnOk result (permit.new ≡ counted (count_of permit.old - n) permit.old) }
        ensures err { OnErr result (AreSame self.old self.new × (permit.new ≡ permit.old)) }
    {
        let room = BoxedToken::new(self.alloc)?;
        let Ok(Entry::Vacant(entry)) = self.tokens.entry(name) else {
            room.lose();
            return Err(AllocError);
        };
        let part = permit.split(n);
        let _ = entry.insert(room.filled(part));
        Ok(())
    }

    /// Moves `n` permits of the one with this name to a new one, and answers the place of their object.
    pub(crate) fn split(&mut self, name: &Name, made: Name, n: u64) -> Result<u64, AllocError>
        requires free { thing_at self.old made ≡ None }
        requires enough { HasPermits (thing_at self.old name.now) n }
        ensures ok { IfOk result (λ place. SplitsTo name.now made n (thing_at self.old)
            (thing_at self.new) place) }
        ensures err { OnErr result (AreSame self.old self.new) }
    {
        let mut permit = self.take_out(name);
        let place = permit.place();
        let added = self.add_part(&mut permit, made, n);
        self.put_back(name, permit);
        added?;
        Ok(place)
    }

    /// Takes the permit with this name out of the table. A request that has ended is in its place.
    fn take_out(&mut self, name: &Name) -> Token
        requires { IsOk (held_as Permit (thing_at self.old name.now)) }
        ensures permit { thing_at self.old name.now ≡ Some (thing_of result) }
        ensures mode { IsHeld Permit result }
        ensures updated { Updated (thing_at self.old) (thing_at self.new) name.now (Some (thing_of ended)) }
    {
        let boxed = self.tokens.get_mut(name).unwrap();
        boxed.take()
    }

    /// Puts a token back into the table, in the place of a request that has ended.
    fn put_back(&mut self, name: &Name, token: Token)
        requires { thing_at self.old name.now ≡ Some (thing_of ended) }
        ensures { Updated (thing_at self.old) (thing_at self.new) name.now (Some (thing_of token)) }
    {
        let boxed = self.tokens.get_mut(name).unwrap();
        boxed.fill(token);
    }

    /// Ends a name that is no object, and answers what it was.
    pub(crate) fn remove(&mut self, name: &Name) -> Option<Token>
        requires { is_object (thing_at self.old name.now) ≡ false }
        ensures before { option_map thing_of result ≡ thing_at self.old name.now }
        ensures updated { Updated (thing_at self.old) (thing_at self.new) name.now None }
    {
        let boxed = self.tokens.remove(name)?;
        Some(boxed.into_token())
    }

    /// Ends the name of a request that was answered that its semaphore is closed, and of no other.
    pub(crate) fn end_closed(&mut self, name: &Name, reply: &Reply)
        requires { is_object (thing_at self.old name.now) ≡ false }
        ensures { Updated (thing_at self.old) (thing_at self.new) name.now
            (left_by reply.now (thing_at self.old name.now)) }
    {
        if let Reply::Closed = reply {
            if let Some(token) = self.remove(name) {
                token.lose();
            }
        }
    }

    /// Adds a permit to the one with this name.
    pub(crate) fn grow(&mut self, name: &Name, more: Token)
        requires { CanGrow (thing_at self.old name.now) more }
        ensures { Grows name.now (thing_at self.old) (thing_at self.new) more }
    {
        let boxed = self.tokens.get_mut(name).unwrap();
        let mut permit = boxed.take();
        permit.join(more);
        boxed.fill(permit);
    }

    /// Loses every token.
    pub(crate) fn lose(self) {
        let Names {
            objects: _,
            mut tokens,
            alloc: _,
        } = self;
        while let Some((_, token)) = tokens.pop_first() {
            token.lose();
        }
        tokens.destroy_empty();
    }
}
