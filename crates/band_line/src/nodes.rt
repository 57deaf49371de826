//! The nodes of a line, in an arena.
ghost use Rattle.std.specs.Prelude.{◌≡◌, ℕ, ◌+◌, false, true, Some, None, IsSome, OnSome, IfSome, IfNone, MatchOption, is_some, if◌then◌else◌};
ghost use Rattle.std.specs.Option.{ForSome, option_map};
ghost use Rattle.std.specs.Fn.{FnOnceTakesAtMut, FnOnceReturnsAtMut};
ghost use Rattle.std.specs.Borrow.{sem};
ghost use Rattle.band_line.specs.Arena.{value_at};
ghost use Rattle.band_line.specs.WaitList.{AnswersLeaving};
ghost use Rattle.band_line.specs.Slots.{node_of};
ghost use Rattle.band_line.specs.Store.{node_value, changed_at};
ghost use Rattle.band_line.specs.Line.{links_in, links_at, asked, pointed_next, pointed_prev, closed, closed_front, closed_back, gap_visits};

use crate::SlotId;
use crate::link::{Link, Links};
use crate::store::{Slot, Store};
use band_base::{Steps, Waker};
use std::mem;
use std::sync::ledger::Ledger;

const _: () = prove!(size_of::<Slot<Links, u64>>() == 24);

const _: () = prove!(size_of::<Slot<Links, (u64, u64, Option<Waker>)>>() == 48);

/// A value that is aligned to 16 has 16 bytes beside it: 4 for the slot and 8 for the links, rounded up.
const _: () = prove!(size_of::<Slot<Links, u128>>() == 32);

/// Detaches a node with these links if `f` answers true about its value, and answers what they were.
fn detach_if<T, F: FnOnce(&mut T) -> bool>(links: &mut Links, value: &mut T, f: F) -> Option<Links>
    requires { FnOnceTakesAtMut F.FnOnce f value.old }
    ensures asked { FnOnceReturnsAtMut F.FnOnce f value.old (is_some result) value.new }
    ensures links { links.new ≡ (if is_some result then None else links.old) }
    ensures had { IfSome result (λ had. had ≡ links.old) }
{
    if f(value) {
        Some(mem::replace(links, Links::detached()))
    } else {
        None
    }
}

impl<T> Slot<Links, T> {
    /// Asks `f` about the value of a node. Where it answers true, the node is detached, and the answer is
    /// what its links were.
    fn ask<F: FnOnce(&mut T) -> bool>(&mut self, f: F) -> Option<Links>
        requires here { IsSome (node_of self.old) }
        requires callable { ForSome (node_value (node_of self.old)) (FnOnceTakesAtMut F.FnOnce f) }
        ensures asked { (left : T)
            × AnswersLeaving F.FnOnce f (node_value (node_of self.old)) (is_some result) left
            × (node_of self.new ≡ option_map (asked (is_some result) left) (node_of self.old)) }
        ensures had { IfSome result (λ links. links ≡ links_in (node_of self.old)) }
    {
        match self {
            Slot::Occupied(links, value) => detach_if(links, value, f),
            Slot::Vacant(_) => unreachable!(),
        }
    }
}

impl<T> Store<Links, T> {
    ghost use Rattle.band_line.specs.NodeLends.{lends_value_in};

    /// The value of the node in a slot that has one.
    pub(crate) fn waiter_mut<L: Ledger>(&mut self, id: SlotId, steps: &mut Steps<L>) -> &mut T
        requires { IsSome (value_at id self.old) }
        ensures* lends { sem 𝓛 (lends_value_in T.row self.entry id result) }
        ensures value { node_value (value_at id self.old) ≡ Some result.now }
        ensures visits { steps.new ≡ steps.old + 1 }
    {
        steps.tick();
        self.value_mut(id)
    }

    /// Asks `f` about the value of the node in a slot that has one. Where it answers true, the node is
    /// detached, and the answer is what its links were.
    pub(crate) fn ask<F: FnOnce(&mut T) -> bool, L: Ledger>(
        &mut self,
        id: SlotId,
        f: F,
        steps: &mut Steps<L>,
    ) -> Option<Links>
        requires here { IsSome (value_at id self.old) }
        requires callable { ForSome (node_value (value_at id self.old)) (FnOnceTakesAtMut F.FnOnce f) }
        ensures asked { (left : T)
            × AnswersLeaving F.FnOnce f (node_value (value_at id self.old)) (is_some result) left
            × (self.new ≡ changed_at id (asked (is_some result) left) self.old) }
        ensures had { IfSome result (λ links. links ≡ links_at self.old id) }
        ensures visits { steps.new ≡ steps.old + 1 }
    {
        steps.tick();
        self.slots[id.index()].ask(f)
    }

    /// Who stands after `prev` is `next`. Where there is no `prev`, `next` is the front.
    pub(crate) fn point_next<L: Ledger>(
        &mut self,
        front: &mut Link,
        prev: Link,
        next: Link,
        steps: &mut Steps<L>,
    )
        requires { ForSome prev (λ id. IsSome (value_at id self.old)) }
        ensures nodes { self.new ≡ pointed_next prev next self.old }
        ensures front { front.new ≡ (if is_some prev then front.old else next) }
        ensures visits { steps.new ≡ steps.old + (if is_some prev then 1 else 0) }
    {
        match prev.get() {
            Some(id) => self.links_mut(id, steps).set_next(next),
            None => *front = next,
        }
    }

    /// Who stands before `next` is `prev`. Where there is no `next`, `prev` is the back.
    pub(crate) fn point_prev<L: Ledger>(
        &mut self,
        back: &mut Link,
        next: Link,
        prev: Link,
        steps: &mut Steps<L>,
    )
        requires here { ForSome next (λ id. IsSome (value_at id self.old)) }
        requires linked { ForSome next (λ id. IsSome (links_at self.old id)) }
        ensures nodes { self.new ≡ pointed_prev next prev self.old }
        ensures back { back.new ≡ (if is_some next then back.old else prev) }
        ensures visits { steps.new ≡ steps.old + (if is_some next then 1 else 0) }
    {
        match next.get() {
            Some(id) => self.links_mut(id, steps).set_prev(prev),
            None => *back = prev,
        }
    }

    /// Those who stood beside a node with these links, if it was linked, stand beside each other.
    pub(crate) fn close_gap<L: Ledger>(
        &mut self,
        front: &mut Link,
        back: &mut Link,
        gap: Links,
        steps: &mut Steps<L>,
    )
        requires prev { ForSome gap (λ links. ForSome links.prev (λ id. IsSome (links_at self.old id))) }
        requires next { ForSome gap (λ links. ForSome links.next (λ id. IsSome (links_at self.old id))) }
        ensures nodes { self.new ≡ closed gap self.old }
        ensures front { front.new ≡ closed_front gap front.old }
        ensures back { back.new ≡ closed_back gap back.old }
        ensures visits { steps.new ≡ steps.old + gap_visits gap }
    {
        if let Some(between) = gap.get() {
            self.point_next(front, between.prev, between.next, steps);
            self.point_prev(back, between.next, between.prev, steps);
        }
    }
}
