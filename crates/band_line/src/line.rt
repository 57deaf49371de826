//! Nodes of which some are linked to a line.
ghost use Rattle.std.specs.Prelude.{◌≡◌, ◌≢◌, ℕ, ◌+◌, ◌*◌, ◌<◌, ◌≤◌, ◌↔◌, false, true, [], Some, None, IsTrue, IsSome, IfSome, IfNone, min, max, OnOk, OnErr, IsOk, IsErr, IfOk, MatchOption, is_some, option_copied, if◌then◌else◌};
ghost use Rattle.std.specs.Option.{ForSome};
ghost use Rattle.std.specs.Fn.{FnOnceTakesAtMut};
ghost use Rattle.std.specs.Borrow.{sem};
ghost use Rattle.band_line.specs.Arena.{IsSoundArena, KeepsValues, KeepsOthers, occupied_len, next_slot, slot_limit};
ghost use Rattle.band_line.specs.Visits.{Visits};
ghost use Rattle.band_line.specs.WaitList.{Joins, IsWritten, with_waiter, empty_list, waiter_at, is_linked, first_waiter, IsWaitList, first_value, pushed_front, pushed_back, removed_waiter, with_list_room, AnswersLeaving};

use crate::SlotId;
use crate::link::{Link, Links};
use crate::store::{Node, Store};
use band_base::Steps;
use std::alloc::{AllocError, Global};
use std::marker::Model;
use std::sync::ledger::Ledger;

/// Nodes of which some are linked to a line.
#[derive(Drop)]
pub(crate) struct Line<T> {
    nodes: Store<Links, T>,
    front: Link,
    back: Link,
}

impl<T> Model for Line<T> {
    ghost use Rattle.band_line.specs.WaitList.{WaitListState};

    ghost Value = { WaitListState T };

    ghost use Rattle.band_line.specs.Line.{list_of, IsWaitLine};

    ghost view = { λ line. list_of line.nodes line.front };

    ghost invariant = { λ line. IsWaitLine line.nodes line.front line.back };
}

const _: () = prove!(size_of::<Line<u64>>() == 40);

impl<T> Line<T> {
    ghost use Rattle.band_line.specs.LineLends.{lends_waiter, lends_unlinked};

    pub(crate) fn new(alloc: Global) -> Line<T>
        ensures { result ≡ empty_list }
    {
        Line {
            nodes: Store::new(alloc),
            front: Link::none(),
            back: Link::none(),
        }
    }

    pub(crate) fn reserve(&mut self, n: u64) -> Result<(), AllocError>
        ensures same { self.new ≡ with_list_room self.new.nodes.spare self.old }
        ensures room { OnOk result (n ≤ self.new.nodes.spare) }
        ensures no_less { self.old.nodes.spare ≤ self.new.nodes.spare }
        ensures err { OnErr result (self.new ≡ self.old) }
        ensures enough { n ≤ self.old.nodes.spare → IsOk result }
        ensures no_more { n ≤ self.old.nodes.spare → self.new ≡ self.old }
        ensures twofold { OnOk result (self.old.nodes.spare < n →
            min slot_limit (2 * (occupied_len self.old.nodes + self.old.nodes.spare))
            ≤ occupied_len self.old.nodes + self.new.nodes.spare) }
        ensures most { OnOk result (occupied_len self.old.nodes + self.new.nodes.spare
            ≤ max (occupied_len self.old.nodes + n)
            (2 * (occupied_len self.old.nodes + self.old.nodes.spare))) }
        ensures limit { slot_limit < occupied_len self.old.nodes + n → IsErr result }
        ensures sound { IsWaitList self.new }
        ensures nodes { IsSoundArena self.new.nodes }
    {
        self.nodes.reserve(n)
    }

    /// A line without nodes in memory of its own, with room for `n`.
    pub(crate) fn boxed(alloc: Global, n: u64) -> Result<Box<Line<T>>, AllocError>
        ensures empty { IfOk result (λ line. line.value ≡ with_list_room line.value.nodes.spare empty_list) }
        ensures room { IfOk result (λ line. line.value.nodes.spare ≡ n) }
        ensures limit { slot_limit < n → IsErr result }
        ensures sound { IfOk result (λ line. IsWaitList line.value) }
        ensures nodes { IfOk result (λ line. IsSoundArena line.value.nodes) }
    {
        match Box::new(alloc, Line::new(alloc)) {
            Ok(mut line) => match line.reserve(n) {
                Ok(()) => Ok(line),
                Err(error) => {
                    Box::into_inner(line).destroy_empty();
                    Err(error)
                }
            },
            Err(refused) => {
                refused.value.destroy_empty();
                Err(AllocError)
            }
        }
    }

    /// Ends a line without slots, also where its values may not be dropped.
    fn destroy_empty(self)
        requires { self.nodes.slots ≡ [] }
    {
        let Line {
            nodes,
            front: _,
            back: _,
        } = self;
        nodes.destroy_empty();
    }

    pub(crate) fn spare(&self) -> u64
        ensures spare { result ≡ self.now.nodes.spare }
        ensures limit { occupied_len self.now.nodes + result ≤ slot_limit }
        ensures sound { IsWaitList self.now }
        ensures nodes { IsSoundArena self.now.nodes }
    {
        self.nodes.spare()
    }

    pub(crate) fn occupied_len(&self) -> u64
        ensures len { result ≡ occupied_len self.now.nodes }
        ensures below { result ≤ slot_limit }
    {
        self.nodes.len()
    }

    pub(crate) fn first(&self) -> Option<SlotId>
        ensures first { result ≡ first_waiter self.now }
        ensures here { IfSome result (λ id. IsSome (waiter_at id self.now)) }
        ensures linked { IfSome result (λ id. is_linked id self.now ≡ true) }
        ensures nobody { IfNone result (self.now.linked ≡ []) }
        ensures sound { IsWaitList self.now }
    {
        self.front.get()
    }

    #[cfg(test)]
    pub(crate) fn has(&self, id: SlotId) -> bool
        ensures { result ≡ is_some (waiter_at id self.now) }
    {
        self.nodes.has(id)
    }

    pub(crate) fn push_front<L: Ledger>(&mut self, value: T, steps: &mut Steps<L>) -> SlotId
        requires { 0 < self.old.nodes.spare }
        ensures slot { result ≡ next_slot self.old.nodes }
        ensures state { self.new ≡ pushed_front value self.old }
        ensures vacant { waiter_at result self.old ≡ None }
        ensures here { waiter_at result self.new ≡ Some value }
        ensures others { KeepsOthers result self.old.nodes self.new.nodes }
        ensures keeps { KeepsValues self.old.nodes self.new.nodes }
        ensures joins { Joins result self.old self.new }
        ensures len { occupied_len self.new.nodes ≡ occupied_len self.old.nodes + 1 }
        ensures sound { IsWaitList self.new }
        ensures nodes { IsSoundArena self.new.nodes }
        ensures visits { Visits 1 2 steps.old steps.new }
        ensures counted { steps.new ≡ steps.old + (if is_some (first_waiter self.old) then 2 else 1) }
    {
        let next = self.front;
        let links = Links::between(Link::none(), next);
        let id = self.nodes.insert(Node { links, value }, steps);
        let new = Link::to(id);
        self.nodes.point_prev(&mut self.back, next, new, steps);
        self.front = new;
        id
    }

    pub(crate) fn push_back<L: Ledger>(&mut self, value: T, steps: &mut Steps<L>) -> SlotId
        requires { 0 < self.old.nodes.spare }
        ensures slot { result ≡ next_slot self.old.nodes }
        ensures state { self.new ≡ pushed_back value self.old }
        ensures vacant { waiter_at result self.old ≡ None }
        ensures here { waiter_at result self.new ≡ Some value }
        ensures others { KeepsOthers result self.old.nodes self.new.nodes }
        ensures keeps { KeepsValues self.old.nodes self.new.nodes }
        ensures joins { Joins result self.old self.new }
        ensures len { occupied_len self.new.nodes ≡ occupied_len self.old.nodes + 1 }
        ensures sound { IsWaitList self.new }
        ensures nodes { IsSoundArena self.new.nodes }
        ensures visits { Visits 1 2 steps.old steps.new }
        ensures counted { steps.new ≡ steps.old + (if is_some (first_waiter self.old) then 2 else 1) }
    {
        let prev = self.back;
        let links = Links::between(prev, Link::none());
        let id = self.nodes.insert(Node { links, value }, steps);
        let new = Link::to(id);
        self.nodes.point_next(&mut self.front, prev, new, steps);
        self.back = new;
        id
    }

    pub(crate) fn waiter<L: Ledger>(&self, id: SlotId, steps: &mut Steps<L>) -> Option<&T>
        ensures value { option_copied result ≡ waiter_at id self.now }
        ensures visits { steps.new ≡ steps.old + 1 }
    {
        self.nodes.get(id, steps)
    }

    pub(crate) fn waiter_mut<L: Ledger>(&mut self, id: SlotId, steps: &mut Steps<L>) -> &mut T
        requires { IsSome (waiter_at id self.old) }
        ensures* writes_back { sem 𝓛 (lends_waiter T.row self.entry id result) }
        ensures value { waiter_at id self.old ≡ Some result.now }
        ensures written { (last : T) → IsWritten id last self.old (with_waiter id last self.old) }
        ensures sound { IsWaitList self.old }
        ensures visits { steps.new ≡ steps.old + 1 }
    {
        self.nodes.waiter_mut(id, steps)
    }

    pub(crate) fn unlink<F: FnOnce(&mut T) -> bool, L: Ledger>(
        &mut self,
        id: SlotId,
        f: F,
        steps: &mut Steps<L>,
    ) -> Option<&mut T>
        requires here { IsSome (waiter_at id self.old) }
        requires callable { ForSome (waiter_at id self.old) (FnOnceTakesAtMut F.FnOnce f) }
        ensures* writes_back { sem 𝓛 (lends_unlinked T.row F.FnOnce f self.entry id result) }
        ensures left { IfSome result (λ value.
            AnswersLeaving F.FnOnce f (waiter_at id self.old) true value.now) }
        ensures sound { IsWaitList self.old }
        ensures visits { MatchOption result
            (steps.new ≡ steps.old + 1)
            (λ _. Visits 1 4 steps.old steps.new) }
        ensures first { first_waiter self.old ≡ Some id → steps.new ≤ steps.old + 3 }
        ensures already { is_linked id self.old ≡ false → steps.new ≤ steps.old + 2 }
    {
        let gap = self.nodes.ask(id, f, steps)?;
        self.nodes
            .close_gap(&mut self.front, &mut self.back, gap, steps);
        Some(self.nodes.waiter_mut(id, steps))
    }

    pub(crate) fn remove<L: Ledger>(&mut self, id: SlotId, steps: &mut Steps<L>) -> T
        requires here { IsSome (waiter_at id self.old) }
        requires detached { is_linked id self.old ≡ false }
        ensures value { waiter_at id self.old ≡ Some result }
        ensures state { self.new ≡ removed_waiter id self.old }
        ensures vacant { waiter_at id self.new ≡ None }
        ensures others { KeepsOthers id self.old.nodes self.new.nodes }
        ensures len { occupied_len self.new.nodes + 1 ≡ occupied_len self.old.nodes }
        ensures sound { IsWaitList self.new }
        ensures nodes { IsSoundArena self.new.nodes }
        ensures visits { steps.new ≡ steps.old + 1 }
    {
        let Node { links: _, value } = self.nodes.remove(id, steps);
        value
    }
}
