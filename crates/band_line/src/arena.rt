//! The arena: values in slots whose numbers stay theirs.
ghost use Rattle.std.specs.Prelude.{◌≡◌, ◌≢◌, ℕ, ◌+◌, ◌*◌, ◌<◌, ◌≤◌, ◌↔◌, Some, None, option_copied, IsTrue, IsSome, is_some, IsOk, IsErr, OnOk, OnErr, IfOk, min, max};
ghost use Rattle.std.specs.Option.{option_copied_mut};
ghost use Rattle.std.specs.Borrow.{sem};
ghost use Rattle.band_line.specs.Arena.{IsSoundArena, IsRewritten, with_value, empty_arena, value_at, KeepsValues, KeepsOthers, values, occupied_len, next_slot, inserted, removed, with_room, slot_limit};

use crate::store::{Node, Slot, Store};
use crate::{ArenaIter, SlotId};
use band_base::Steps;
use std::alloc::{AllocError, Global};
use std::marker::Model;
use std::mem;
use std::sync::ledger::Ledger;

/// Values in slots, each found by the number of its slot. A slot that was vacated is given again, the latest
/// first. Ports `Arena`.
#[derive(Drop)]
pub struct Arena<T> {
    store: Store<(), T>,
}

const _: () = prove!(size_of::<Arena<u64>>() == 32);

const _: () = prove!(size_of::<Slot<(), u64>>() == 16);

const _: () = prove!(size_of::<Slot<(), u128>>() == 32);

impl<T> Model for Arena<T> {
    ghost use Rattle.band_line.specs.Arena.{ArenaState};

    ghost Value = { ArenaState T };

    ghost use Rattle.band_line.specs.Store.{node_values};

    ghost view = { λ arena. node_values arena.store };
}

impl<T> Arena<T> {
    ghost use Rattle.band_line.specs.ArenaLends.{lends_value, lends_occupied};

    /// An arena without slots, which takes no memory before the first `reserve`.
    pub fn new(alloc: Global) -> Arena<T>
        ensures empty { result ≡ empty_arena }
        ensures sound { IsSoundArena result }
    {
        Arena {
            store: Store::new(alloc),
        }
    }

    /// An arena without slots, with room for `n` values.
    pub fn with_capacity(alloc: Global, n: u64) -> Result<Arena<T>, AllocError>
        ensures empty { IfOk result (λ arena. arena ≡ with_room arena.spare empty_arena) }
        ensures room { IfOk result (λ arena. arena.spare ≡ n) }
        ensures none { n ≡ 0 → IsOk result }
        ensures limit { slot_limit < n → IsErr result }
        ensures sound { IfOk result IsSoundArena }
    {
        Ok(Arena {
            store: Store::with_capacity(alloc, n)?,
        })
    }

    /// Makes room, so that `n` inserts need no memory. Where it must grow, it grows at least twofold,
    /// up to the most slots that there may be.
    pub fn reserve(&mut self, n: u64) -> Result<(), AllocError>
        ensures same { self.new ≡ with_room self.new.spare self.old }
        ensures room { OnOk result (n ≤ self.new.spare) }
        ensures no_less { self.old.spare ≤ self.new.spare }
        ensures err { OnErr result (self.new ≡ self.old) }
        ensures enough { n ≤ self.old.spare → IsOk result }
        ensures no_more { n ≤ self.old.spare → self.new ≡ self.old }
        ensures twofold { OnOk result (self.old.spare < n →
            min slot_limit (2 * (occupied_len self.old + self.old.spare))
            ≤ occupied_len self.old + self.new.spare) }
        ensures most { OnOk result (occupied_len self.old + self.new.spare
            ≤ max (occupied_len self.old + n) (2 * (occupied_len self.old + self.old.spare))) }
        ensures limit { slot_limit < occupied_len self.old + n → IsErr result }
        ensures sound { IsSoundArena self.new }
    {
        self.store.reserve(n)
    }

    /// How many inserts need no memory.
    pub fn spare(&self) -> u64
        ensures spare { result ≡ self.now.spare }
        ensures limit { occupied_len self.now + result ≤ slot_limit }
        ensures sound { IsSoundArena self.now }
    {
        self.store.spare()
    }

    /// How many values there are.
    pub fn len(&self) -> u64
        ensures len { result ≡ occupied_len self.now }
        ensures below { result ≤ slot_limit }
        ensures sound { IsSoundArena self.now }
    {
        self.store.len()
    }

    /// Whether there is no value.
    pub fn is_empty(&self) -> bool
        ensures { IsTrue result ↔ (occupied_len self.now ≡ 0) }
    {
        self.len() == 0
    }

    /// Puts a value into a slot, in room that was reserved.
    pub fn insert<L: Ledger>(&mut self, value: T, steps: &mut Steps<L>) -> SlotId
        requires { 0 < self.old.spare }
        ensures slot { result ≡ next_slot self.old }
        ensures state { self.new ≡ inserted value self.old }
        ensures vacant { value_at result self.old ≡ None }
        ensures here { value_at result self.new ≡ Some value }
        ensures others { KeepsOthers result self.old self.new }
        ensures keeps { KeepsValues self.old self.new }
        ensures len { occupied_len self.new ≡ occupied_len self.old + 1 }
        ensures sound { IsSoundArena self.new }
        ensures visits { steps.new ≡ steps.old + 1 }
    {
        self.store.insert(Node { links: (), value }, steps)
    }

    /// The value in a slot, if there is one.
    pub fn get<L: Ledger>(&self, id: SlotId, steps: &mut Steps<L>) -> Option<&T>
        ensures value { option_copied result ≡ value_at id self.now }
        ensures visits { steps.new ≡ steps.old + 1 }
    {
        self.store.get(id, steps)
    }

    /// The value in a slot for writing, if there is one.
    pub fn get_mut<L: Ledger>(&mut self, id: SlotId, steps: &mut Steps<L>) -> Option<&mut T>
        ensures* writes_back { sem 𝓛 (lends_value T.row self.entry id result) }
        ensures value { option_copied_mut result ≡ value_at id self.old }
        ensures written { IsSome (value_at id self.old) → (last : T) →
            IsRewritten id last self.old (with_value id last self.old) }
        ensures visits { steps.new ≡ steps.old + 1 }
    {
        if self.get(id, steps).is_some() {
            Some(self.value_mut(id))
        } else {
            None
        }
    }

    /// The value in a slot that has one, for writing.
    pub(crate) fn occupied_mut<L: Ledger>(&mut self, id: SlotId, steps: &mut Steps<L>) -> &mut T
        requires { IsSome (value_at id self.old) }
        ensures* writes_back { sem 𝓛 (lends_occupied T.row self.entry id result) }
        ensures value { value_at id self.old ≡ Some result.now }
        ensures visits { steps.new ≡ steps.old + 1 }
    {
        steps.tick();
        self.value_mut(id)
    }

    fn value_mut(&mut self, id: SlotId) -> &mut T
        requires { IsSome (value_at id self.old) }
        ensures* writes_back { sem 𝓛 (lends_occupied T.row self.entry id result) }
        ensures value { value_at id self.old ≡ Some result.now }
    {
        self.store.value_mut(id)
    }

    #[cfg(test)]
    pub(crate) fn has(&self, id: SlotId) -> bool
        ensures { result ≡ is_some (value_at id self.now) }
    {
        self.store.has(id)
    }

    /// Takes the value out of a slot. The room for it stays.
    pub fn remove<L: Ledger>(&mut self, id: SlotId, steps: &mut Steps<L>) -> T
        requires { IsSome (value_at id self.old) }
        ensures value { value_at id self.old ≡ Some result }
        ensures state { self.new ≡ removed id self.old }
        ensures vacant { value_at id self.new ≡ None }
        ensures others { KeepsOthers id self.old self.new }
        ensures len { occupied_len self.new + 1 ≡ occupied_len self.old }
        ensures sound { IsSoundArena self.new }
        ensures visits { steps.new ≡ steps.old + 1 }
    {
        self.store.remove(id, steps).value
    }

    /// Takes all values out, by their slots. The arena is as new.
    pub fn take_all(&mut self) -> ArenaIter<T>
        ensures values { result ≡ values self.old }
        ensures state { self.new ≡ empty_arena }
        ensures sound { IsSoundArena self.new }
    {
        let alloc = *self.store.slots.allocator();
        let store = mem::replace(&mut self.store, Store::new(alloc));
        ArenaIter::new(store.slots)
    }
}

impl<T: Drop> IntoIterator for Arena<T> {
    type Item = T;

    type IntoIter = ArenaIter<T>;

    ghost into_iter_gives = { λ arena iter. iter ≡ values arena };

    /// The values, by their slots.
    fn into_iter(self) -> ArenaIter<T> {
        ArenaIter::new(self.store.slots)
    }
}
