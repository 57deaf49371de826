//! The store: values in slots whose numbers stay theirs, each with what links it.
ghost use Rattle.std.specs.Prelude.{◌≡◌, ℕ, ◌+◌, ◌-◌, ◌*◌, ◌<◌, ◌≤◌, [], Some, None, option_copied, IsSome, is_some, IsOk, IsErr, OnOk, OnErr, IfOk, min, max};
ghost use Rattle.std.specs.Option.{option_map};
ghost use Rattle.std.specs.Borrow.{sem};
ghost use Rattle.band_line.specs.Arena.{IsSoundArena, empty_arena, value_at, KeepsValues, KeepsOthers, occupied_len, next_slot, inserted, removed, with_room, slot_limit};
ghost use Rattle.band_line.specs.Slots.{node_of};
ghost use Rattle.band_line.specs.Store.{node_value, node_links};

use crate::SlotId;
use crate::link::Link;
use band_base::Steps;
use std::alloc::{AllocError, Global};
use std::marker::Model;
use std::mem;
use std::sync::ledger::Ledger;

/// A value, and what links it: in a line the slots that it stands between, in an arena nothing.
#[derive(Drop)]
pub(crate) struct Node<K, T> {
    pub(crate) links: K,
    pub(crate) value: T,
}

/// The links stand beside the tag, where a value of a large alignment leaves room for them.
#[derive(Drop)]
pub(crate) enum Slot<K, T> {
    /// With the slot that was vacated before it, if that is vacant still.
    Vacant(Link),
    Occupied(K, T),
}

/// Nodes in slots. A slot that was vacated is given again, the latest first.
#[derive(Drop)]
pub(crate) struct Store<K, T> {
    pub(crate) slots: Vec<Slot<K, T>>,
    /// The slot that was vacated last.
    vacant: Link,
    len: u32,
}

impl<K, T> Model for Store<K, T> {
    ghost use Rattle.std.specs.Prelude.{vec_capacity};
    ghost use Rattle.band_line.specs.Arena.{ArenaState};
    ghost use Rattle.band_line.specs.declared.store.Node.{Node};

    ghost Value = { ArenaState (Node K T) };

    ghost use Rattle.band_line.specs.Slots.{state_of, IsStore};

    ghost view = { λ store. state_of store.slots.items (vec_capacity store.slots) store.len store.vacant };

    ghost invariant = { λ store.
        IsStore store.slots.items (vec_capacity store.slots) store.len store.vacant };
}

impl<K, T> Slot<K, T> {
    ghost use Rattle.band_line.specs.StoreLends.{lends_slot_value, lends_slot_links};

    fn value_mut(&mut self) -> &mut T
        requires { IsSome (node_of self.old) }
        ensures* lends { sem 𝓛 (lends_slot_value K.row T.row self.entry result) }
        ensures value { node_value (node_of self.old) ≡ Some result.now }
    {
        match self {
            Slot::Occupied(_, value) => value,
            Slot::Vacant(_) => unreachable!(),
        }
    }

    fn links_mut(&mut self) -> &mut K
        requires { IsSome (node_of self.old) }
        ensures* lends { sem 𝓛 (lends_slot_links K.row T.row self.entry result) }
        ensures links { node_links (node_of self.old) ≡ Some result.now }
    {
        match self {
            Slot::Occupied(links, _) => links,
            Slot::Vacant(_) => unreachable!(),
        }
    }
}

impl<K, T> Store<K, T> {
    ghost use Rattle.band_line.specs.StoreLends.{lends_value, lends_links};

    /// A store without slots, which takes no memory before the first `reserve`.
    pub(crate) fn new(alloc: Global) -> Store<K, T>
        ensures empty { result ≡ empty_arena }
        ensures sound { IsSoundArena result }
    {
        Store {
            slots: Vec::new(alloc),
            vacant: Link::none(),
            len: 0,
        }
    }

    /// A store without slots, with room for `n` nodes.
    pub(crate) fn with_capacity(alloc: Global, n: u64) -> Result<Store<K, T>, AllocError>
        ensures empty { IfOk result (λ store. store ≡ with_room store.spare empty_arena) }
        ensures room { IfOk result (λ store. store.spare ≡ n) }
        ensures none { n ≡ 0 → IsOk result }
        ensures limit { slot_limit < n → IsErr result }
        ensures sound { IfOk result IsSoundArena }
    {
        if n > SlotId::LIMIT {
            return Err(AllocError);
        }
        Ok(Store {
            slots: Vec::with_capacity(alloc, n as usize)?,
            vacant: Link::none(),
            len: 0,
        })
    }

    /// Makes room, so that `n` inserts need no memory. Where it must grow, it grows at least twofold,
    /// up to the most slots that there may be.
    pub(crate) fn reserve(&mut self, n: u64) -> Result<(), AllocError>
        ensures same { self.new ≡ with_room self.new.spare self.old }
        ensures room { OnOk result (n ≤ self.new.spare) }
        ensures no_less { self.old.spare ≤ self.new.spare }
        ensures err { OnErr result (self.new ≡ self.old) }
        ensures enough { n ≤ self.old.spare → IsOk result }
        ensures no_more { n ≤ self.old.spare → self.new ≡ self.old }
        ensures twofold { OnOk result (self.old.spare < n →
            min slot_limit (2 * (occupied_len self.old + self.old.spare))
            ≤ occupied_len self.old + self.new.spare) }
        ensures most { OnOk result (occupied_len self.old + self.new.spare
            ≤ max (occupied_len self.old + n) (2 * (occupied_len self.old + self.old.spare))) }
        ensures limit { slot_limit < occupied_len self.old + n → IsErr result }
        ensures sound { IsSoundArena self.new }
    {
        let capacity = self.slots.capacity();
        let len = u64::from(self.len);
        if n <= capacity as u64 - len {
            return Ok(());
        }
        if n > SlotId::LIMIT - len {
            return Err(AllocError);
        }
        let wanted = (len + n).max(2 * capacity as u64).min(SlotId::LIMIT);
        self.slots.reserve_exact(wanted as usize - self.slots.len())
    }

    /// How many inserts need no memory.
    pub(crate) fn spare(&self) -> u64
        ensures spare { result ≡ self.now.spare }
        ensures limit { occupied_len self.now + result ≤ slot_limit }
        ensures sound { IsSoundArena self.now }
    {
        self.slots.capacity() as u64 - u64::from(self.len)
    }

    /// How many nodes there are.
    pub(crate) fn len(&self) -> u64
        ensures len { result ≡ occupied_len self.now }
        ensures below { result ≤ slot_limit }
        ensures sound { IsSoundArena self.now }
    {
        u64::from(self.len)
    }

    /// Puts a node into a slot, in room that was reserved.
    pub(crate) fn insert<L: Ledger>(&mut self, node: Node<K, T>, steps: &mut Steps<L>) -> SlotId
        requires { 0 < self.old.spare }
        ensures slot { result ≡ next_slot self.old }
        ensures state { self.new ≡ inserted node self.old }
        ensures vacant { value_at result self.old ≡ None }
        ensures here { value_at result self.new ≡ Some node }
        ensures others { KeepsOthers result self.old self.new }
        ensures keeps { KeepsValues self.old self.new }
        ensures len { occupied_len self.new ≡ occupied_len self.old + 1 }
        ensures sound { IsSoundArena self.new }
        ensures visits { steps.new ≡ steps.old + 1 }
    {
        steps.tick();
        self.len += 1;
        let Node { links, value } = node;
        match self.vacant.get() {
            Some(id) => {
                match mem::replace(&mut self.slots[id.index()], Slot::Occupied(links, value)) {
                    Slot::Vacant(next) => self.vacant = next,
                    Slot::Occupied(_, _) => unreachable!(),
                }
                id
            }
            None => {
                let id = SlotId::at(self.slots.len() as u32);
                self.slots.push_reserved(Slot::Occupied(links, value));
                id
            }
        }
    }

    /// The value in a slot, if there is one.
    pub(crate) fn get<L: Ledger>(&self, id: SlotId, steps: &mut Steps<L>) -> Option<&T>
        ensures value { option_copied result ≡ node_value (value_at id self.now) }
        ensures visits { steps.new ≡ steps.old + 1 }
    {
        steps.tick();
        match self.slots.get(id.index()) {
            Some(Slot::Occupied(_, value)) => Some(value),
            _ => None,
        }
    }

    #[cfg(test)]
    pub(crate) fn has(&self, id: SlotId) -> bool
        ensures { result ≡ is_some (value_at id self.now) }
    {
        matches!(self.slots.get(id.index()), Some(Slot::Occupied(_, _)))
    }

    /// The value of the node in a slot that has one.
    pub(crate) fn value_mut(&mut self, id: SlotId) -> &mut T
        requires { IsSome (value_at id self.old) }
        ensures* lends { sem 𝓛 (lends_value K.row T.row self.entry id result) }
        ensures value { node_value (value_at id self.old) ≡ Some result.now }
    {
        self.slots[id.index()].value_mut()
    }

    /// The links of the node in a slot that has one.
    pub(crate) fn links_mut<L: Ledger>(&mut self, id: SlotId, steps: &mut Steps<L>) -> &mut K
        requires { IsSome (value_at id self.old) }
        ensures* lends { sem 𝓛 (lends_links K.row T.row self.entry id result) }
        ensures links { node_links (value_at id self.old) ≡ Some result.now }
        ensures visits { steps.new ≡ steps.old + 1 }
    {
        steps.tick();
        self.slots[id.index()].links_mut()
    }

    /// Takes the node out of a slot. The room for it stays.
    pub(crate) fn remove<L: Ledger>(&mut self, id: SlotId, steps: &mut Steps<L>) -> Node<K, T>
        requires { IsSome (value_at id self.old) }
        ensures value { value_at id self.old ≡ Some result }
        ensures state { self.new ≡ removed id self.old }
        ensures vacant { value_at id self.new ≡ None }
        ensures others { KeepsOthers id self.old self.new }
        ensures len { occupied_len self.new + 1 ≡ occupied_len self.old }
        ensures sound { IsSoundArena self.new }
        ensures visits { steps.new ≡ steps.old + 1 }
    {
        steps.tick();
        self.len -= 1;
        let before = mem::replace(&mut self.vacant, Link::to(id));
        match mem::replace(&mut self.slots[id.index()], Slot::Vacant(before)) {
            Slot::Occupied(links, value) => Node { links, value },
            Slot::Vacant(_) => unreachable!(),
        }
    }

    /// Ends a store without slots, also where its nodes may not be dropped.
    pub(crate) fn destroy_empty(self)
        requires { self.slots ≡ [] }
    {
        let Store {
            slots,
            vacant: _,
            len: _,
        } = self;
        slots.destroy_empty();
    }
}
