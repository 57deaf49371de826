//! The wait list: waiters in a line, which stay readable once they are detached.
ghost use Rattle.std.specs.Prelude.{◌≡◌, ◌≢◌, ℕ, ◌+◌, ◌*◌, ◌<◌, ◌≤◌, ◌↔◌, false, true, [], Some, None, IsTrue, IsSome, IfSome, IfNone, min, max, OnOk, OnErr, IsOk, IsErr, MatchOption, is_some, option_copied, if◌then◌else◌};
ghost use Rattle.std.specs.Option.{ForSome};
ghost use Rattle.std.specs.Fn.{FnOnceTakesAtMut};
ghost use Rattle.std.specs.Borrow.{sem, Lends};
ghost use Rattle.std.specs.contracts.option.Option.{the_row};
ghost use Rattle.band_line.specs.Arena.{IsSoundArena, KeepsValues, KeepsOthers, occupied_len, next_slot, slot_limit};
ghost use Rattle.band_line.specs.Visits.{Visits};
ghost use Rattle.band_line.specs.WaitList.{Joins, IsWritten, with_waiter, empty_list, waiter_at, is_linked, first_waiter, IsWaitList, IsDetached, first_value, pushed_front, pushed_back, removed_waiter, with_list_room, AnswersLeaving};

use crate::SlotId;
use crate::line::Line;
use band_base::Steps;
use std::alloc::{AllocError, Global};
use std::marker::Model;
use std::mem;
use std::sync::ledger::Ledger;

/// The number of a node of a wait list, which it keeps until it is removed. Ports `WaiterId`.
#[derive(Clone, Copy, PartialEq, Eq)]
pub struct WaiterId {
    slot: SlotId,
}

impl Model for WaiterId {
    ghost use Rattle.std.specs.Prelude.{ℕ};

    ghost Value = { ℕ };

    ghost view = { λ id. id.slot };

    ghost inverse = { λ slot. record { slot = slot } };
}

/// Waiters in a line. One that is unlinked is detached: it stays readable until it is removed. Ports
/// `WaitList`.
///
/// It takes 16 bytes, and no memory before the first `reserve` that asks for room.
#[derive(Drop)]
pub struct WaitList<T> {
    line: Option<Box<Line<T>>>,
    alloc: Global,
}

impl<T> Model for WaitList<T> {
    ghost use Rattle.band_line.specs.WaitList.{WaitListState};

    ghost Value = { WaitListState T };

    ghost use Rattle.band_line.specs.Line.{list_in, IsMade};

    ghost view = { λ list. list_in list.line };

    ghost invariant = { λ list. IsMade list.line };
}

const _: () = prove!(size_of::<WaitList<u64>>() == 16);

impl<T> WaitList<T> {
    ghost use Rattle.band_line.specs.WaitListLends.{lends_waiter, lends_unlinked, lends_unlinked_first};

    /// Nobody waits, and there is no room.
    pub fn new(alloc: Global) -> WaitList<T>
        ensures empty { result ≡ empty_list }
        ensures sound { IsWaitList result }
        ensures nodes { IsSoundArena result.nodes }
    {
        WaitList { line: None, alloc }
    }

    /// Makes room, so that `n` pushes need no memory. Where it must grow, it grows at least twofold,
    /// up to the most nodes that there may be.
    pub fn reserve(&mut self, n: u64) -> Result<(), AllocError>
        ensures same { self.new ≡ with_list_room self.new.nodes.spare self.old }
        ensures room { OnOk result (n ≤ self.new.nodes.spare) }
        ensures no_less { self.old.nodes.spare ≤ self.new.nodes.spare }
        ensures err { OnErr result (self.new ≡ self.old) }
        ensures enough { n ≤ self.old.nodes.spare → IsOk result }
        ensures no_more { n ≤ self.old.nodes.spare → self.new ≡ self.old }
        ensures twofold { OnOk result (self.old.nodes.spare < n →
            min slot_limit (2 * (occupied_len self.old.nodes + self.old.nodes.spare))
            ≤ occupied_len self.old.nodes + self.new.nodes.spare) }
        ensures most { OnOk result (occupied_len self.old.nodes + self.new.nodes.spare
            ≤ max (occupied_len self.old.nodes + n)
            (2 * (occupied_len self.old.nodes + self.old.nodes.spare))) }
        ensures limit { slot_limit < occupied_len self.old.nodes + n → IsErr result }
        ensures sound { IsWaitList self.new }
        ensures nodes { IsSoundArena self.new.nodes }
    {
        if n <= self.spare() {
            return Ok(());
        }
        if let Some(line) = &mut self.line {
            return line.reserve(n);
        }
        let line = Line::boxed(self.alloc, n)?;
        match mem::replace(&mut self.line, Some(line)) {
            None => Ok(()),
            Some(_) => unreachable!(),
        }
    }

    /// How many pushes need no memory.
    pub fn spare(&self) -> u64
        ensures spare { result ≡ self.now.nodes.spare }
        ensures limit { occupied_len self.now.nodes + result ≤ slot_limit }
        ensures sound { IsWaitList self.now }
        ensures nodes { IsSoundArena self.now.nodes }
    {
        match &self.line {
            Some(line) => line.spare(),
            None => 0,
        }
    }

    /// How many nodes there are, linked and detached.
    pub fn occupied_len(&self) -> u64
        ensures len { result ≡ occupied_len self.now.nodes }
        ensures below { result ≤ slot_limit }
    {
        match &self.line {
            Some(line) => line.occupied_len(),
            None => 0,
        }
    }

    /// Whether no node is linked.
    pub fn is_empty(&self) -> bool
        ensures { IsTrue result ↔ (self.now.linked ≡ []) }
    {
        self.first().is_none()
    }

    /// The node at the front of the line. It makes no visit.
    pub fn first(&self) -> Option<WaiterId>
        ensures first { result ≡ first_waiter self.now }
        ensures here { IfSome result (λ id. IsSome (waiter_at id self.now)) }
        ensures linked { IfSome result (λ id. is_linked id self.now ≡ true) }
        ensures nobody { IfNone result (self.now.linked ≡ []) }
        ensures sound { IsWaitList self.now }
    {
        match &self.line {
            Some(line) => match line.first() {
                Some(slot) => Some(WaiterId { slot }),
                None => None,
            },
            None => None,
        }
    }

    #[cfg(test)]
    pub(crate) fn has(&self, id: WaiterId) -> bool
        ensures { result ≡ is_some (waiter_at id self.now) }
    {
        match &self.line {
            Some(line) => line.has(id.slot),
            None => false,
        }
    }

    /// Links a new node at the front, in room that was reserved.
    pub fn push_front<L: Ledger>(&mut self, value: T, steps: &mut Steps<L>) -> WaiterId
        requires { 0 < self.old.nodes.spare }
        ensures slot { result ≡ next_slot self.old.nodes }
        ensures state { self.new ≡ pushed_front value self.old }
        ensures vacant { waiter_at result self.old ≡ None }
        ensures here { waiter_at result self.new ≡ Some value }
        ensures others { KeepsOthers result self.old.nodes self.new.nodes }
        ensures keeps { KeepsValues self.old.nodes self.new.nodes }
        ensures joins { Joins result self.old self.new }
        ensures len { occupied_len self.new.nodes ≡ occupied_len self.old.nodes + 1 }
        ensures sound { IsWaitList self.new }
        ensures nodes { IsSoundArena self.new.nodes }
        ensures visits { Visits 1 2 steps.old steps.new }
        ensures counted { steps.new ≡ steps.old + (if is_some (first_waiter self.old) then 2 else 1) }
    {
        WaiterId {
            slot: made(&mut self.line).push_front(value, steps),
        }
    }

    /// Links a new node at the back, in room that was reserved.
    pub fn push_back<L: Ledger>(&mut self, value: T, steps: &mut Steps<L>) -> WaiterId
        requires { 0 < self.old.nodes.spare }
        ensures slot { result ≡ next_slot self.old.nodes }
        ensures state { self.new ≡ pushed_back value self.old }
        ensures vacant { waiter_at result self.old ≡ None }
        ensures here { waiter_at result self.new ≡ Some value }
        ensures others { KeepsOthers result self.old.nodes self.new.nodes }
        ensures keeps { KeepsValues self.old.nodes self.new.nodes }
        ensures joins { Joins result self.old self.new }
        ensures len { occupied_len self.new.nodes ≡ occupied_len self.old.nodes + 1 }
        ensures sound { IsWaitList self.new }
        ensures nodes { IsSoundArena self.new.nodes }
        ensures visits { Visits 1 2 steps.old steps.new }
        ensures counted { steps.new ≡ steps.old + (if is_some (first_waiter self.old) then 2 else 1) }
    {
        WaiterId {
            slot: made(&mut self.line).push_back(value, steps),
        }
    }

    /// The value of a node, linked or detached, if there is one.
    pub fn waiter<L: Ledger>(&self, id: WaiterId, steps: &mut Steps<L>) -> Option<&T>
        ensures value { option_copied result ≡ waiter_at id self.now }
        ensures visits { Visits 0 1 steps.old steps.new }
        ensures counted { IsSome (waiter_at id self.now) → steps.new ≡ steps.old + 1 }
    {
        match &self.line {
            Some(line) => line.waiter(id.slot, steps),
            None => None,
        }
    }

    /// The value of a node, linked or detached, for writing.
    pub fn waiter_mut<L: Ledger>(&mut self, id: WaiterId, steps: &mut Steps<L>) -> &mut T
        requires { IsSome (waiter_at id self.old) }
        ensures* writes_back { sem 𝓛 (lends_waiter T.row self.entry id result) }
        ensures value { waiter_at id self.old ≡ Some result.now }
        ensures written { (last : T) → IsWritten id last self.old (with_waiter id last self.old) }
        ensures sound { IsWaitList self.old }
        ensures visits { steps.new ≡ steps.old + 1 }
    {
        made(&mut self.line).waiter_mut(id.slot, steps)
    }

    /// Asks `f` about the value of a node. Where it answers true, the node is detached, and the answer is its
    /// value.
    ///
    /// A node that is detached already is asked too, and its links stay as they are.
    pub fn unlink_waiter<F: FnOnce(&mut T) -> bool, L: Ledger>(
        &mut self,
        id: WaiterId,
        f: F,
        steps: &mut Steps<L>,
    ) -> Option<&mut T>
        requires here { IsSome (waiter_at id self.old) }
        requires callable { ForSome (waiter_at id self.old) (FnOnceTakesAtMut F.FnOnce f) }
        ensures* writes_back { sem 𝓛 (lends_unlinked T.row F.FnOnce f self.entry id result) }
        ensures left { IfSome result (λ value.
            AnswersLeaving F.FnOnce f (waiter_at id self.old) true value.now) }
        ensures sound { IsWaitList self.old }
        ensures visits { MatchOption result
            (steps.new ≡ steps.old + 1)
            (λ _. Visits 1 4 steps.old steps.new) }
        ensures first { first_waiter self.old ≡ Some id → steps.new ≤ steps.old + 3 }
        ensures already { is_linked id self.old ≡ false → steps.new ≤ steps.old + 2 }
    {
        made(&mut self.line).unlink(id.slot, f, steps)
    }

    /// Asks `f` about the value at the front. Where it answers true, the node is detached, and the answer is
    /// its value.
    ///
    /// Which node that is, `first` tells before the call. Where nobody is linked, nobody is asked, and the
    /// answer is `None`.
    pub fn unlink_first_waiter<F: FnOnce(&mut T) -> bool + Drop, L: Ledger>(
        &mut self,
        f: F,
        steps: &mut Steps<L>,
    ) -> Option<&mut T>
        requires { ForSome (first_value self.old) (FnOnceTakesAtMut F.FnOnce f) }
        ensures* writes_back { sem 𝓛 (lends_unlinked_first T.row F.FnOnce f self.entry result) }
        ensures left { IfSome result (λ value.
            AnswersLeaving F.FnOnce f (first_value self.old) true value.now) }
        ensures sound { IsWaitList self.old }
        ensures visits { MatchOption result
            (steps.new ≡ steps.old + (if is_some (first_waiter self.old) then 1 else 0))
            (λ _. Visits 1 3 steps.old steps.new) }
    {
        match self.first() {
            Some(id) => self.unlink_waiter(id, f, steps),
            None => None,
        }
    }

    /// Takes the value of a detached node out. The room for it stays.
    pub fn remove_unlinked_waiter<L: Ledger>(&mut self, id: WaiterId, steps: &mut Steps<L>) -> T
        requires { IsDetached id self.old }
        ensures value { waiter_at id self.old ≡ Some result }
        ensures state { self.new ≡ removed_waiter id self.old }
        ensures vacant { waiter_at id self.new ≡ None }
        ensures others { KeepsOthers id self.old.nodes self.new.nodes }
        ensures len { occupied_len self.new.nodes + 1 ≡ occupied_len self.old.nodes }
        ensures sound { IsWaitList self.new }
        ensures nodes { IsSoundArena self.new.nodes }
        ensures visits { steps.new ≡ steps.old + 1 }
    {
        made(&mut self.line).remove(id.slot, steps)
    }
}

/// What was made, where it was.
fn made<X>(slot: &mut Option<X>) -> &mut X
    requires { IsSome slot.old }
    ensures* lends { sem 𝓛 (Lends (the_row X.row) X.row slot.entry result Some) }
    ensures value { slot.old ≡ Some result.now }
{
    match slot {
        Some(made) => made,
        None => unreachable!(),
    }
}
