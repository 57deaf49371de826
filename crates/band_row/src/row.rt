//! The row: what is available, the nodes, and the wakers to wake.
ghost use Rattle.std.specs.Prelude.{◌≡◌, ◌+◌, ◌*◌, ◌<◌, ◌≤◌, ◌↔◌, ◌≤ℤ◌, pos, neg_ℤ, length, [], Some, IsSome, IfSome, IfNone, OnOk, OnErr, MatchOption, None, is_some};
ghost use Rattle.band_balance.specs.Line.{total, u64_max, entry_named};
ghost use Rattle.band_line.specs.Visits.{Visits};
ghost use Rattle.band_line.specs.WaitList.{IsWaitList, waiter_at, first_waiter};
ghost use Rattle.band_partial.specs.PartialLine.{AreAlikeParts, IsSettled, debts, free_of, requests_of};
ghost use Rattle.band_partial.specs.Moves.{open_part, draw, give_out, pass_on};
ghost use Rattle.band_row.specs.Row.{is_slot, IsRow, part, ended_of, HasRequest, Holds, Enqueues, Owes, SameEnded, PollsNode, Cancels, EndsAll, TakesWake, served};
ghost use Rattle.band_row.specs.Kept.Serves.{Ends, EndsNode, EndsFirst, Serves, ServesNode, IsGone};

use crate::WaitNode;
use crate::counts::Counts;
use band_base::{Steps, Waker};
use band_line::{WaitList, WaiterId};
use std::alloc::{AllocError, Global};
use std::marker::Model;
use std::mem;
use std::sync::ledger::Ledger;

/// What a later poll finds.
#[derive(Drop)]
pub enum Found {
    /// It waits, and left its new waker.
    Waits,
    /// It was granted so many, and is gone.
    Granted(u64),
    /// It was ended, and is gone.
    Ended,
}

/// What is available and who waits for more, or is owed some, in a line.
#[derive(Drop)]
pub struct Row {
    word: u64,
    list: WaitList<WaitNode>,
    counts: Counts,
}

impl Model for Row {
    ghost use Rattle.band_row.specs.Row.{RowState};
    ghost use Rattle.band_row.specs.Kept.Counts.{IsKept};

    ghost Value = { RowState };

    ghost view = { λ row.
        record { word = row.word; list = row.list; wakes = row.counts.wakes.wakers } };

    ghost invariant = { λ row.
        IsKept (record { word = row.word; list = row.list; wakes = row.counts.wakes.wakers }) row.counts };
}

// One in which nobody ever waited takes no more than this.
const _: () = prove!(size_of::<Row>() == 40);

impl Row {
    /// All permits are available.
    pub fn new(alloc: Global, permits: u64) -> Row
        ensures part { part result ≡ open_part permits }
        ensures ended { ended_of result.list ≡ [] }
        ensures row { IsRow result }
    {
        Row {
            word: permits,
            list: WaitList::new(alloc),
            counts: Counts::new(alloc),
        }
    }

    /// How many permits are available.
    pub fn word(&self) -> u64
        ensures word { result ≡ self.now.word }
        ensures row { IsRow self.now }
    {
        self.word
    }

    /// The nodes: those linked, those granted and those ended.
    pub fn list(&self) -> &WaitList<WaitNode>
        ensures list { result.now ≡ self.now.list }
        ensures row { IsRow self.now }
    {
        &self.list
    }

    /// How many requests wait.
    pub fn waiting_count(&self) -> u64
        ensures { result ≡ length (requests_of (part self.now).nodes) }
    {
        self.counts.waiting()
    }

    /// How many permits were granted and not collected since.
    pub fn granted_sum(&self) -> u64
        ensures { result ≡ total (part self.now).granted }
    {
        self.counts.granted_sum()
    }

    /// Takes `n` of what is available.
    pub fn draw(&mut self, n: u64)
        requires { n ≤ self.old.word }
        ensures part { part self.new ≡ draw n (part self.old) }
        ensures ended { SameEnded self.old self.new }
        ensures row { IsRow self.new }
    {
        self.word -= n;
    }

    /// A request that asks for more than is available takes that as its share, and waits at the end.
    pub fn enqueue<L: Ledger>(
        &mut self,
        size: u64,
        waker: Waker,
        steps: &mut Steps<L>,
    ) -> Result<WaiterId, AllocError>
        requires more { self.old.word < size }
        requires settled { IsSettled (part self.old) }
        ensures joins { Enqueues size waker.0 self.old result self.new }
        ensures ended { SameEnded self.old self.new }
        ensures settled { IsSettled (part self.new) }
        ensures row { IsRow self.new }
        ensures visits { OnOk result (Visits 1 2 steps.old steps.new) }
        ensures no_visit { OnErr result (steps.new ≡ steps.old) }
    {
        self.counts.reserve()?;
        self.list.reserve(1)?;
        self.counts.join();
        let needed = size - mem::replace(&mut self.word, 0);
        Ok(
            self.list
                .push_back(WaitNode::request(size, needed, waker), steps),
        )
    }

    /// What is available is gone, and the rest of `n` is owed, before all that wait.
    pub fn owe<L: Ledger>(&mut self, n: u64, steps: &mut Steps<L>) -> Result<WaiterId, AllocError>
        requires more { self.old.word < n }
        requires settled { IsSettled (part self.old) }
        ensures owes { Owes n (part self.old) result (part self.new) }
        ensures ended { SameEnded self.old self.new }
        ensures settled { IsSettled (part self.new) }
        ensures row { IsRow self.new }
        ensures visits { OnOk result (Visits 1 2 steps.old steps.new) }
        ensures no_visit { OnErr result (steps.new ≡ steps.old) }
    {
        self.list.reserve(1)?;
        let needed = n - mem::replace(&mut self.word, 0);
        Ok(self.list.push_front(WaitNode::debt(n, needed), steps))
    }

    /// Whether a request was granted.
    pub fn is_granted<L: Ledger>(&self, id: WaiterId, steps: &mut Steps<L>) -> bool
        requires here { HasRequest id self.now }
        ensures granted { result ≡ is_some (entry_named (is_slot id) (part self.now).granted) }
        ensures visits { steps.new ≡ steps.old + 1 }
    {
        match self.list.waiter(id, steps) {
            Some(node) => node.needed == 0,
            None => unreachable!(),
        }
    }

    /// A request that was granted or ended leaves. One that waits leaves its new waker.
    pub fn poll<L: Ledger>(&mut self, id: WaiterId, waker: Waker, steps: &mut Steps<L>) -> Found
        requires here { HasRequest id self.old }
        ensures polls { PollsNode id waker.0 self.old result self.new }
        ensures row { IsRow self.new }
        ensures visits { Visits 1 2 steps.old steps.new }
    {
        if self.list.waiter_mut(id, steps).leaves_waker(waker) {
            return Found::Waits;
        }
        let node = self.list.remove_unlinked_waiter(id, steps);
        if node.ended {
            return Found::Ended;
        }
        self.counts.collect(node.size);
        Found::Granted(node.size)
    }

    /// Takes a request out. What it was granted, or else its share, is given out.
    pub fn cancel<L: Ledger>(&mut self, id: WaiterId, steps: &mut Steps<L>)
        requires here { HasRequest id self.old }
        requires holds { Holds 0 (part self.old) }
        requires settled { IsSettled (part self.old) }
        ensures cancels { Cancels id self.old self.new }
        ensures settled { IsSettled (part self.new) }
        ensures row { IsRow self.new }
        ensures debts { debts (part self.new).nodes ≤ debts (part self.old).nodes }
        ensures visits { Visits 2 (4 * served (part self.old) (part self.new) + 6) steps.old steps.new }
    {
        self.word += self.take_out(id, steps);
        self.give_out(steps);
    }

    /// Gives `n` out, from the front on. What nobody needs is available.
    pub fn pass_on<L: Ledger>(&mut self, n: u64, steps: &mut Steps<L>)
        requires holds { Holds n (part self.old) }
        requires settled { IsSettled (part self.old) }
        ensures part { AreAlikeParts (pass_on n (part self.old)) (part self.new) }
        ensures ended { SameEnded self.old self.new }
        ensures settled { IsSettled (part self.new) }
        ensures row { IsRow self.new }
        ensures debts { debts (part self.new).nodes ≤ debts (part self.old).nodes }
        ensures visits { Visits 0 (4 * served (part self.old) (part self.new) + 1) steps.old steps.new }
    {
        self.word += n;
        self.give_out(steps);
    }

    /// Ends all that wait, each of whom is to be woken. `free` is what is free of the row, or owed where it is
    /// negative, and stays so. It takes no memory.
    pub fn close<L: Ledger>(&mut self, free: i128, steps: &mut Steps<L>)
        requires free { free ≡ free_of self.old.word (part self.old).nodes }
        requires owed { neg_ℤ (pos u64_max) ≤ℤ free }
        requires fits { free ≤ℤ pos u64_max }
        ensures ends { EndsAll self.old self.new }
        ensures settled { IsSettled (part self.new) }
        ensures row { IsRow self.new }
        ensures visits { Visits 0 (4 * served (part self.old) (part self.new) + 6) steps.old steps.new }
    {
        self.end_linked(steps);
        let amount = free.unsigned_abs() as u64;
        if free >= 0 {
            self.word = amount;
            return;
        }
        self.word = 0;
        self.list.push_front(WaitNode::debt(amount, amount), steps);
    }

    /// Takes a request out, and tells what it had: what it was granted, or else its share, and nothing where it was
    /// ended.
    fn take_out<L: Ledger>(&mut self, id: WaiterId, steps: &mut Steps<L>) -> u64
        requires here { HasRequest id self.old }
        ensures ends { Ends id self.old result self.new }
        ensures visits { Visits 2 5 steps.old steps.new }
    {
        let node = leave(&mut self.list, id, steps);
        if node.waker.is_some() {
            self.counts.leave();
            return node.size - node.needed;
        }
        if node.ended {
            return 0;
        }
        self.counts.collect(node.size);
        node.size
    }

    /// No node is linked afterwards: those that waited are ended, and what was owed is gone.
    fn end_linked<L: Ledger>(&mut self, steps: &mut Steps<L>)
        ensures ends { EndsFirst self.old self.new steps.old steps.new }
        ensures none { (part self.new).nodes ≡ [] }
        ensures row { IsRow self.new }
    {
        while let Some(first) = self.list.first() {
            self.end_first(first, steps);
        }
    }

    /// The node in front leaves: a request is ended and is to be woken, and a debt is gone.
    fn end_first<L: Ledger>(&mut self, first: WaiterId, steps: &mut Steps<L>)
        requires { first_waiter self.old.list ≡ Some first }
        ensures ends { EndsFirst self.old self.new steps.old steps.new }
        ensures fewer { length self.new.list.linked < length self.old.list.linked }
        ensures row { IsRow self.new }
    {
        let node = end(&mut self.list, first, steps);
        match node.waker {
            Some(waker) => self.counts.call(waker),
            None => {
                self.list.remove_unlinked_waiter(first, steps);
            }
        }
    }

    /// The node in front, where anything is available to serve it with.
    fn first_to_serve(&self) -> Option<WaiterId>
        ensures first { IfSome result (λ id. first_waiter self.now.list ≡ Some id) }
        ensures some { IsSome result → 0 < self.now.word }
        ensures none { IfNone result (0 < self.now.word → (part self.now).nodes ≡ []) }
        ensures row { IsRow self.now }
    {
        if self.word == 0 {
            return None;
        }
        self.list.first()
    }

    /// Gives out what is available, from the front on.
    fn give_out<L: Ledger>(&mut self, steps: &mut Steps<L>)
        requires holds { Holds 0 (part self.old) }
        ensures part { AreAlikeParts (give_out (part self.old)) (part self.new) }
        ensures ended { SameEnded self.old self.new }
        ensures settled { IsSettled (part self.new) }
        ensures row { IsRow self.new }
        ensures debts { debts (part self.new).nodes ≤ debts (part self.old).nodes }
        ensures visits { Visits 0 (4 * served (part self.old) (part self.new) + 1) steps.old steps.new }
    {
        while let Some(first) = self.first_to_serve() {
            self.serve(first, steps);
        }
    }

    /// The node in front gets all that it needs and leaves, or it gets all that is available.
    fn serve<L: Ledger>(&mut self, first: WaiterId, steps: &mut Steps<L>)
        requires first { first_waiter self.old.list ≡ Some first }
        requires some { 0 < self.old.word }
        requires holds { Holds 0 (part self.old) }
        ensures serves { Serves (part self.old) (part self.new) steps.old steps.new }
        ensures ended { SameEnded self.old self.new }
        ensures holds { Holds 0 (part self.new) }
        ensures less { self.new.word < self.old.word }
    {
        let Some(node) = serve_first(&mut self.list, first, self.word, steps) else {
            self.word = 0;
            return;
        };
        self.word -= node.needed;
        match node.waker {
            Some(waker) => self.counts.grant(node.size, waker),
            None => {
                self.list.remove_unlinked_waiter(first, steps);
            }
        }
    }

    /// Takes the oldest waker to wake, if there is one.
    pub fn take_wake(&mut self) -> Option<Waker>
        ensures woken { TakesWake (part self.old) result (part self.new) }
        ensures ended { SameEnded self.old self.new }
        ensures row { IsRow self.new }
    {
        self.counts.take_wake()
    }
}

/// Takes a node out, linked or not.
fn leave<L: Ledger>(list: &mut WaitList<WaitNode>, id: WaiterId, steps: &mut Steps<L>) -> WaitNode
    requires { IsSome (waiter_at id list.old) }
    ensures value { waiter_at id list.old ≡ Some result }
    ensures gone { IsGone id list.old list.new }
    ensures visits { Visits 2 5 steps.old steps.new }
{
    match list.unlink_waiter(id, |_| true, steps) {
        Some(_) => list.remove_unlinked_waiter(id, steps),
        None => unreachable!(),
    }
}

/// The node in front leaves the line where `permits` are all that it needs, and the answer is what it was. Else
/// it has them from now on.
fn serve_first<L: Ledger>(
    list: &mut WaitList<WaitNode>,
    first: WaiterId,
    permits: u64,
    steps: &mut Steps<L>,
) -> Option<WaitNode>
    requires first { first_waiter list.old ≡ Some first }
    requires here { IsSome (waiter_at first list.old) }
    ensures serves { ServesNode first permits list.old result list.new }
    ensures sound { IsWaitList list.old }
    ensures visits { MatchOption result (steps.new ≡ steps.old + 1) (λ _. Visits 1 3 steps.old steps.new) }
{
    match list.unlink_waiter(first, |node| node.is_served(permits), steps) {
        Some(node) => {
            let granted = WaitNode::granted(node.size);
            Some(mem::replace(node, granted))
        }
        None => None,
    }
}

/// The node in front leaves the line as one that was ended, and the answer is what it was.
fn end<L: Ledger>(list: &mut WaitList<WaitNode>, first: WaiterId, steps: &mut Steps<L>) -> WaitNode
    requires first { first_waiter list.old ≡ Some first }
    requires here { IsSome (waiter_at first list.old) }
    ensures ends { EndsNode first list.old result list.new }
    ensures sound { IsWaitList list.old }
    ensures visits { Visits 1 3 steps.old steps.new }
{
    match list.unlink_waiter(first, |_| true, steps) {
        Some(node) => {
            let ended = WaitNode::ended(node.size, node.needed);
            mem::replace(node, ended)
        }
        None => unreachable!(),
    }
}
