//! Wakers that are registered, each under a token.
ghost use Rattle.std.specs.Prelude.{◌≡◌, ◌≢◌, ℕ, ◌+◌, ◌*◌, ◌<◌, ◌≤◌, min, max, Some, None, IsSome, IsOk, IsErr, IfOk, OnOk, IsNone, is_some, is_ok, if◌then◌else◌, length};
ghost use Rattle.std.specs.Option.{ForSome, option_and_then, option_map_or};
ghost use Rattle.band_line.specs.Arena.{IsSoundArena, empty_arena, value_at, KeepsValues, KeepsOthers, values, occupied_len, removed, with_room, slot_limit};
ghost use Rattle.band_line.specs.Wakers.{pushed_all};
ghost use Rattle.band_line.specs.WakerSet.{Registers};

use crate::register::replace_waker;
use crate::{Arena, ArenaIter, SlotId};
use band_base::{Steps, WakeLine, Waker};
use std::alloc::{AllocError, Global};
use std::marker::Model;
use std::sync::ledger::Ledger;

/// The registration of one waker in a set, until it is unregistered or the set's wakers are all taken. Ports
/// `WakerToken`.
#[derive(Drop)]
pub struct WakerToken {
    slot: SlotId,
}

impl Model for WakerToken {
    ghost use Rattle.std.specs.Prelude.{ℕ};

    ghost Value = { ℕ };

    ghost view = { λ token. token.slot };
}

/// Registered wakers, seen as an arena of them. Ports `WakerSet`.
#[derive(Drop)]
pub struct WakerSet {
    wakers: Arena<Waker>,
}

impl Model for WakerSet {
    ghost use Rattle.band_base.specs.declared.waker.Waker.{Waker};
    ghost use Rattle.band_line.specs.Arena.{ArenaState, IsSoundArena};

    ghost Value = { ArenaState Waker };

    ghost view = { λ set. set.wakers };

    ghost invariant = { λ set. IsSoundArena set.wakers };
}

impl WakerSet {
    /// No waker, and no room.
    pub fn new(alloc: Global) -> WakerSet
        ensures empty { result ≡ empty_arena }
        ensures sound { IsSoundArena result }
    {
        WakerSet {
            wakers: Arena::new(alloc),
        }
    }

    /// No waker, with room for `n`.
    pub fn with_capacity(alloc: Global, n: u64) -> Result<WakerSet, AllocError>
        ensures empty { IfOk result (λ set. set ≡ with_room set.spare empty_arena) }
        ensures room { IfOk result (λ set. set.spare ≡ n) }
        ensures none { n ≡ 0 → IsOk result }
        ensures limit { slot_limit < n → IsErr result }
        ensures sound { IfOk result IsSoundArena }
    {
        Ok(WakerSet {
            wakers: Arena::with_capacity(alloc, n)?,
        })
    }

    /// How many wakers are registered.
    pub fn len(&self) -> u64
        ensures len { result ≡ occupied_len self.now }
        ensures below { result ≤ slot_limit }
        ensures sound { IsSoundArena self.now }
    {
        self.wakers.len()
    }

    /// Leaves a waker: with a token in place of the one under it, and else under a new token, for which it
    /// may take memory.
    pub fn register<L: Ledger>(
        &mut self,
        token: &mut Option<WakerToken>,
        waker: Waker,
        steps: &mut Steps<L>,
    ) -> Result<Option<Waker>, AllocError>
        requires { ForSome token.old (λ id. IsSome (value_at id self.old)) }
        ensures registers { Registers token.old waker self.old result self.new token.new }
        ensures here { OnOk result (ForSome token.new (λ id. value_at id self.new ≡ Some waker)) }
        ensures others { ForSome token.new (λ id. KeepsOthers id self.old self.new) }
        ensures keeps { IsNone token.old → KeepsValues self.old self.new }
        ensures len { OnOk result
            (occupied_len self.new ≡ occupied_len self.old + (if is_some token.old then 0 else 1)) }
        ensures enough { 0 < self.old.spare → IsOk result }
        ensures no_more { 0 < self.old.spare →
            self.new.spare + (if is_some token.old then 0 else 1) ≡ self.old.spare }
        ensures twofold { OnOk result (IsNone token.old → self.old.spare ≡ 0 →
            min slot_limit (2 * occupied_len self.old) ≤ occupied_len self.new + self.new.spare) }
        ensures most { OnOk result (IsNone token.old → self.old.spare ≡ 0 →
            occupied_len self.new + self.new.spare
            ≤ max (occupied_len self.old + 1) (2 * occupied_len self.old)) }
        ensures sound { IsSoundArena self.new }
        ensures visits { steps.new ≡ steps.old + (if is_ok result then 1 else 0) }
    {
        match token {
            Some(token) => Ok(replace_waker(self.wakers.occupied_mut(token.slot, steps), waker)),
            None => {
                self.wakers.reserve(1)?;
                *token = Some(WakerToken {
                    slot: self.wakers.insert(waker, steps),
                });
                Ok(None)
            }
        }
    }

    /// Takes the waker under a token out, and the token is spent.
    pub fn unregister<L: Ledger>(
        &mut self,
        token: &mut Option<WakerToken>,
        steps: &mut Steps<L>,
    ) -> Option<Waker>
        requires { ForSome token.old (λ id. IsSome (value_at id self.old)) }
        ensures answer { result ≡ option_and_then (λ id. value_at id self.old) token.old }
        ensures state { self.new ≡ option_map_or (λ id. removed id self.old) token.old self.old }
        ensures token { token.new ≡ None }
        ensures vacant { ForSome token.old (λ id. value_at id self.new ≡ None) }
        ensures others { ForSome token.old (λ id. KeepsOthers id self.old self.new) }
        ensures len { occupied_len self.new + (if is_some token.old then 1 else 0) ≡ occupied_len self.old }
        ensures sound { IsSoundArena self.new }
        ensures visits { steps.new ≡ steps.old + (if is_some token.old then 1 else 0) }
    {
        match token.take() {
            Some(token) => Some(self.wakers.remove(token.slot, steps)),
            None => None,
        }
    }

    /// Adds all wakers to those to wake, by their slots. The set is as new, and no token has a registration.
    pub fn take_all(&mut self, out: &mut WakeLine)
        requires { occupied_len self.old ≤ out.old.spare }
        ensures woken { out.new ≡ pushed_all (values self.old) out.old }
        ensures state { self.new ≡ empty_arena }
        ensures sound { IsSoundArena self.new }
    {
        wake_each(self.wakers.take_all(), out);
    }

    /// The same of a set that ends.
    pub fn wake_all(self, out: &mut WakeLine)
        requires { occupied_len self ≤ out.old.spare }
        ensures { out.new ≡ pushed_all (values self) out.old }
    {
        wake_each(self.wakers.into_iter(), out);
    }
}

fn wake_each(wakers: ArenaIter<Waker>, out: &mut WakeLine)
    requires { length wakers ≤ out.old.spare }
    ensures { out.new ≡ pushed_all wakers out.old }
{
    for waker in wakers {
        out.push(waker);
    }
}
