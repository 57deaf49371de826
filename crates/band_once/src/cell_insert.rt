//! The call of a once cell that puts a value in.
ghost use Rattle.std.specs.Prelude.{◌≡◌, ◌≤◌, ◌↔◌, IsErrOf};
ghost use Rattle.band_sem.specs.Whole.{IsWhole};
ghost use Rattle.band_once.specs.Calls.{IsForOne, Leaves};
ghost use Rattle.band_once.specs.Claims.{Nothing, Has, IsCounted, KeepsCounted, claim_of};
ghost use Rattle.band_once.specs.Cell.{PollsInsert, HoldsInsert};
ghost use Rattle.band_once.specs.declared.call.CallStage.TheVariants as stage;

use crate::OnceCell;
use crate::call::{Asked, CallStage, pass};
use band_base::{Poll, PollError, Steps, Waker};
use band_sem::SemaphorePermit;
use std::marker::Model;
use std::sync::ledger::Ledger;

/// A call that puts a value into a cell that has none. It must be ended by `cancel` or `lose`. Ports the futures of
/// `try_insert` and `set`.
pub struct CellInsert<T> {
    stage: CallStage<T>,
}

impl<T> Model for CellInsert<T> {
    ghost use Rattle.band_once.specs.declared.call.CallStage.{CallStage};

    ghost Value = { CallStage T };

    ghost use Rattle.band_once.specs.Calls.{IsForOne};

    ghost view = { λ c. c.stage };

    ghost invariant = { λ c. IsForOne c.stage };
}

impl<T> CellInsert<T> {
    pub(crate) fn new(value: T) -> CellInsert<T>
        ensures { result ≡ stage.NotPolled value }
    {
        CellInsert {
            stage: CallStage::NotPolled(value),
        }
    }

    /// Asks for the permit, and with it puts the value in. Where one is there, the value comes back.
    pub fn poll<L: Ledger>(
        &mut self,
        cell: &mut OnceCell<T>,
        waker: Waker,
        steps: &mut Steps<L>,
    ) -> Result<Poll<Result<(), T>>, PollError>
        requires { IsCounted (claim_of self.old) cell.old.permit }
        ensures polls { PollsInsert waker.0 self.old cell.old result self.new cell.new }
        ensures finished { IsErrOf result PollError.Finished ↔ (self.old ≡ stage.Finished) }
        // Its permit is never closed.
        ensures never_closed { IsErrOf result PollError.Closed → ⊥ }
        ensures counted { KeepsCounted (claim_of self.old) (claim_of self.new) cell.old.permit cell.new.permit }
        ensures one { IsForOne self.old }
        ensures whole { IsWhole 1 cell.new.permit }
    {
        let is_there = cell.is_initialized();
        match self.stage.ask(is_there, &mut cell.permit, waker, steps) {
            Ok(Asked::NotNeeded(value)) => Ok(Poll::Ready(Err(value))),
            Ok(Asked::Waits) => Ok(Poll::Pending),
            Ok(Asked::Holds(token, value)) => go_on(cell, token, value, steps),
            Err(error) => Err(error),
        }
    }
}

impl<T: Drop> CellInsert<T> {
    /// Ends the call and drops the value. A request leaves the line, and the permit passes on.
    pub fn cancel<L: Ledger>(self, cell: &mut OnceCell<T>, steps: &mut Steps<L>)
        requires { IsCounted (claim_of self) cell.old.permit }
        ensures permit { Leaves self cell.old.permit cell.new.permit }
        ensures counted { KeepsCounted (claim_of self) Nothing cell.old.permit cell.new.permit }
        ensures value { cell.new.value ≡ cell.old.value }
        ensures one { IsForOne self }
        ensures whole { IsWhole 1 cell.new.permit }
    {
        let CellInsert { stage } = self;
        let _ = stage.end(&mut cell.permit, steps);
    }

    /// Ends the call and drops the value, for a cell that ends too.
    pub fn lose(self) {
        let CellInsert { stage } = self;
        let _ = stage.lose();
    }
}

/// Goes on with the permit: puts the value in where none is there.
fn go_on<T, L: Ledger>(
    cell: &mut OnceCell<T>,
    token: SemaphorePermit,
    value: T,
    steps: &mut Steps<L>,
) -> Result<Poll<Result<(), T>>, PollError>
    requires counted { IsCounted (Has token) cell.old.permit }
    requires one { token.count ≡ 1 }
    ensures never_closed { IsErrOf result PollError.Closed → ⊥ }
    ensures holds { HoldsInsert token value cell.old result stage.Finished cell.new }
    ensures counted { KeepsCounted (Has token) Nothing cell.old.permit cell.new.permit }
    ensures whole { IsWhole 1 cell.new.permit }
{
    if cell.is_initialized() {
        pass(&mut cell.permit, token, steps);
        return Ok(Poll::Ready(Err(value)));
    }
    cell.value.put(value);
    pass(&mut cell.permit, token, steps);
    Ok(Poll::Ready(Ok(())))
}
