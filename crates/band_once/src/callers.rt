//! Calls as the tests make them, two of one cell at a time.
ghost use Rattle.std.specs.Prelude.{◌≡◌};
ghost use Rattle.band_sem.specs.Semaphore.{SemaphoreState, TakesWake};
ghost use Rattle.band_once.specs.Claims.{Claim, Nothing, IsCounted, AreApart, KeepsCounted, claim_of};
ghost use Rattle.band_once.specs.Lazy.{MayStart};

use crate::plan::Plan;
use crate::{CellInit, CellInsert, CellTryInit, Force, LazyCell, Once, OnceCall, OnceCell};
use band_base::{Poll, PollError, Steps, Waker};
use std::sync::ledger::Ledger;

/// A cell with a permit.
pub(crate) trait Cell {
    ghost permit: { Self → SemaphoreState };

    /// What a poll asks of it.
    ghost may: { Self → Type 0 };

    /// Whether it has what its calls make.
    fn is_filled(&self) -> bool;

    /// Takes the oldest waker.
    fn wakes(&mut self) -> Option<u64>
        ensures counted { (claim : Claim) → IsCounted claim (permit self.old)
            → IsCounted claim (permit self.new) }
        ensures may { may self.old → may self.new };
}

/// A call of a cell that asks for the permit.
pub(crate) trait Call<C: Cell> {
    ghost claim: { Self → Claim };

    /// Whether it is over by this poll; none where it fails.
    fn polls<L: Ledger>(&mut self, cell: &mut C, waker: u64, steps: &mut Steps<L>) -> Option<bool>
        requires counted { IsCounted (claim self.old) (C.permit cell.old) }
        requires may { C.may cell.old }
        ensures counted { KeepsCounted (claim self.old) (claim self.new) (C.permit cell.old) (C.permit cell.new) }
        ensures may { C.may cell.new };

    fn cancels<L: Ledger>(self, cell: &mut C, steps: &mut Steps<L>)
        requires { IsCounted (claim self) (C.permit cell.old) }
        ensures counted { KeepsCounted (claim self) Nothing (C.permit cell.old) (C.permit cell.new) }
        ensures may { C.may cell.old → C.may cell.new };
}

/// Whether a call is over by this answer; none where it fails.
pub(crate) fn over<T: Drop>(answer: Result<Poll<T>, PollError>) -> Option<bool> {
    match answer {
        Ok(Poll::Ready(_)) => Some(true),
        Ok(Poll::Pending) => Some(false),
        Err(_) => None,
    }
}

/// One of two is polled.
pub(crate) fn polls<C: Cell, K: Call<C>, O: Call<C>, L: Ledger>(
    cell: &mut C,
    mine: &mut K,
    other: &O,
    waker: u64,
    steps: &mut Steps<L>,
) -> Option<bool>
    requires may { C.may cell.old }
    requires mine { IsCounted (K.claim mine.old) (C.permit cell.old) }
    requires other { IsCounted (O.claim other.now) (C.permit cell.old) }
    requires apart { AreApart (K.claim mine.old) (O.claim other.now) }
    ensures may { C.may cell.new }
    ensures mine { IsCounted (K.claim mine.new) (C.permit cell.new) }
    ensures other { IsCounted (O.claim other.now) (C.permit cell.new) }
    ensures apart { AreApart (K.claim mine.new) (O.claim other.now) }
    ensures back { AreApart (O.claim other.now) (K.claim mine.new) }
{
    mine.polls(cell, waker, steps)
}

/// One of two is cancelled.
pub(crate) fn cancels<C: Cell, K: Call<C>, O: Call<C>, L: Ledger>(
    cell: &mut C,
    mine: K,
    other: &O,
    steps: &mut Steps<L>,
)
    requires may { C.may cell.old }
    requires mine { IsCounted (K.claim mine) (C.permit cell.old) }
    requires other { IsCounted (O.claim other.now) (C.permit cell.old) }
    requires apart { AreApart (K.claim mine) (O.claim other.now) }
    ensures may { C.may cell.new }
    ensures other { IsCounted (O.claim other.now) (C.permit cell.new) }
{
    mine.cancels(cell, steps);
}

/// The oldest waker of a cell with one call.
pub(crate) fn wakes<C: Cell, O: Call<C>>(cell: &mut C, other: &O) -> Option<u64>
    requires may { C.may cell.old }
    requires other { IsCounted (O.claim other.now) (C.permit cell.old) }
    ensures may { C.may cell.new }
    ensures other { IsCounted (O.claim other.now) (C.permit cell.new) }
{
    cell.wakes()
}

impl Cell for Once {
    ghost permit = { λ once. once.permit };

    ghost may = { λ once. Unit {0} };

    fn is_filled(&self) -> bool {
        self.is_completed()
    }

    fn wakes(&mut self) -> Option<u64> {
        self.take_wake().map(|waker| waker.0)
    }
}

impl<T> Cell for OnceCell<T> {
    ghost permit = { λ cell. cell.permit };

    ghost may = { λ cell. Unit {0} };

    fn is_filled(&self) -> bool {
        self.get().is_some()
    }

    fn wakes(&mut self) -> Option<u64> {
        self.take_wake().map(|waker| waker.0)
    }
}

impl<F: FnOnce() -> Plan<u64>> Cell for LazyCell<u64, Plan<u64>, F> {
    ghost permit = { λ cell. cell.permit };

    ghost may = { λ cell. MayStart F.pre cell.attempt };

    fn is_filled(&self) -> bool {
        self.get().is_some()
    }

    fn wakes(&mut self) -> Option<u64> {
        self.take_wake().map(|waker| waker.0)
    }
}

impl Call<Once> for OnceCall<Plan<()>> {
    ghost claim = { claim_of };

    fn polls<L: Ledger>(
        &mut self,
        cell: &mut Once,
        waker: u64,
        steps: &mut Steps<L>,
    ) -> Option<bool> {
        over(self.poll(cell, Waker(waker), steps))
    }

    fn cancels<L: Ledger>(self, cell: &mut Once, steps: &mut Steps<L>) {
        self.cancel(cell, steps);
    }
}

impl Call<OnceCell<u64>> for CellInit<Plan<u64>> {
    ghost claim = { claim_of };

    fn polls<L: Ledger>(
        &mut self,
        cell: &mut OnceCell<u64>,
        waker: u64,
        steps: &mut Steps<L>,
    ) -> Option<bool> {
        over(self.poll(cell, Waker(waker), steps))
    }

    fn cancels<L: Ledger>(self, cell: &mut OnceCell<u64>, steps: &mut Steps<L>) {
        self.cancel(cell, steps);
    }
}

impl Call<OnceCell<u64>> for CellTryInit<Plan<Result<u64, u64>>> {
    ghost claim = { claim_of };

    fn polls<L: Ledger>(
        &mut self,
        cell: &mut OnceCell<u64>,
        waker: u64,
        steps: &mut Steps<L>,
    ) -> Option<bool> {
        over(self.poll(cell, Waker(waker), steps))
    }

    fn cancels<L: Ledger>(self, cell: &mut OnceCell<u64>, steps: &mut Steps<L>) {
        self.cancel(cell, steps);
    }
}

impl Call<OnceCell<u64>> for CellInsert<u64> {
    ghost claim = { claim_of };

    fn polls<L: Ledger>(
        &mut self,
        cell: &mut OnceCell<u64>,
        waker: u64,
        steps: &mut Steps<L>,
    ) -> Option<bool> {
        over(self.poll(cell, Waker(waker), steps))
    }

    fn cancels<L: Ledger>(self, cell: &mut OnceCell<u64>, steps: &mut Steps<L>) {
        self.cancel(cell, steps);
    }
}

impl<F: FnOnce() -> Plan<u64>> Call<LazyCell<u64, Plan<u64>, F>> for Force {
    ghost claim = { claim_of };

    fn polls<L: Ledger>(
        &mut self,
        cell: &mut LazyCell<u64, Plan<u64>, F>,
        waker: u64,
        steps: &mut Steps<L>,
    ) -> Option<bool> {
        over(self.poll(cell, Waker(waker), steps))
    }

    fn cancels<L: Ledger>(self, cell: &mut LazyCell<u64, Plan<u64>, F>, steps: &mut Steps<L>) {
        self.cancel(cell, steps);
    }
}
