//! The call of a once cell whose initializer may give an error.
ghost use Rattle.std.specs.Prelude.{◌≡◌, ◌≤◌, ◌↔◌, Ok, IsErrOf};
ghost use Rattle.band_sem.specs.Whole.{IsWhole};
ghost use Rattle.band_once.specs.Calls.{IsForOne, Leaves};
ghost use Rattle.band_once.specs.Claims.{Nothing, Has, IsCounted, KeepsCounted, claim_of};
ghost use Rattle.band_once.specs.Cell.{attempted, PollsCell, HoldsCell};
ghost use Rattle.band_once.specs.declared.call.CallStage.TheVariants as stage;

use crate::OnceCell;
use crate::call::{Asked, CallStage, pass, tell};
use band_base::{Poll, PollError, Polled, Steps, Waker};
use band_sem::SemaphorePermit;
use std::marker::Model;
use std::sync::ledger::Ledger;

/// A call that makes the cell's value where there is none, or gives its initializer's error. It must be ended by `cancel`
/// or `lose`. Ports the future of `get_or_try_init`.
pub struct CellTryInit<P> {
    stage: CallStage<P>,
}

impl<P> Model for CellTryInit<P> {
    ghost use Rattle.band_once.specs.declared.call.CallStage.{CallStage};

    ghost Value = { CallStage P };

    ghost use Rattle.band_once.specs.Calls.{IsForOne};

    ghost view = { λ c. c.stage };

    ghost invariant = { λ c. IsForOne c.stage };
}

impl<P> CellTryInit<P> {
    pub(crate) fn new(init: P) -> CellTryInit<P>
        ensures { result ≡ stage.NotPolled init }
    {
        CellTryInit {
            stage: CallStage::NotPolled(init),
        }
    }
}

impl<T, E, P: Polled<Output = Result<T, E>>> CellTryInit<P> {
    /// Asks for the permit, and with it polls the caller's state. A value of that becomes the cell's, and an error
    /// leaves the cell empty.
    pub fn poll<L: Ledger>(
        &mut self,
        cell: &mut OnceCell<T>,
        waker: Waker,
        steps: &mut Steps<L>,
    ) -> Result<Poll<Result<(), E>>, PollError>
        requires { IsCounted (claim_of self.old) cell.old.permit }
        ensures polls { PollsCell (Ok tt) attempted P.moves waker.0 self.old cell.old result self.new cell.new }
        ensures finished { IsErrOf result PollError.Finished ↔ (self.old ≡ stage.Finished) }
        // Its permit is never closed.
        ensures never_closed { IsErrOf result PollError.Closed → ⊥ }
        ensures counted { KeepsCounted (claim_of self.old) (claim_of self.new) cell.old.permit cell.new.permit }
        ensures one { IsForOne self.old }
        ensures whole { IsWhole 1 cell.new.permit }
    {
        let is_there = cell.is_initialized();
        match self.stage.ask(is_there, &mut cell.permit, waker, steps) {
            Ok(Asked::NotNeeded(init)) => {
                init.cancel();
                Ok(Poll::Ready(Ok(())))
            }
            Ok(Asked::Waits) => Ok(Poll::Pending),
            Ok(Asked::Holds(token, init)) => self.go_on(cell, token, init, waker, steps),
            Err(error) => Err(error),
        }
    }

    /// Goes on with the permit.
    fn go_on<L: Ledger>(
        &mut self,
        cell: &mut OnceCell<T>,
        token: SemaphorePermit,
        mut init: P,
        waker: Waker,
        steps: &mut Steps<L>,
    ) -> Result<Poll<Result<(), E>>, PollError>
        requires taken { self.old ≡ stage.Finished }
        requires counted { IsCounted (Has token) cell.old.permit }
        requires one { token.count ≡ 1 }
        ensures never_closed { IsErrOf result PollError.Closed → ⊥ }
        ensures holds { HoldsCell (Ok tt) attempted P.moves waker.0 token init cell.old result self.new cell.new }
        ensures counted { KeepsCounted (Has token) (claim_of self.new) cell.old.permit cell.new.permit }
        ensures whole { IsWhole 1 cell.new.permit }
    {
        if cell.is_initialized() {
            init.cancel();
            pass(&mut cell.permit, token, steps);
            return Ok(Poll::Ready(Ok(())));
        }
        match init.poll(waker) {
            Ok(Poll::Ready(output)) => {
                init.cancel();
                let answer = cell.attempted(output);
                pass(&mut cell.permit, token, steps);
                Ok(Poll::Ready(answer))
            }
            Ok(Poll::Pending) => {
                self.stage.put(CallStage::Driving(token, init));
                Ok(Poll::Pending)
            }
            Err(error) => {
                self.stage.put(CallStage::Driving(token, init));
                Err(tell(error))
            }
        }
    }

    /// Ends the call and the caller's state. A request leaves the line, and the permit passes on.
    pub fn cancel<L: Ledger>(self, cell: &mut OnceCell<T>, steps: &mut Steps<L>)
        requires { IsCounted (claim_of self) cell.old.permit }
        ensures permit { Leaves self cell.old.permit cell.new.permit }
        ensures counted { KeepsCounted (claim_of self) Nothing cell.old.permit cell.new.permit }
        ensures value { cell.new.value ≡ cell.old.value }
        ensures one { IsForOne self }
        ensures whole { IsWhole 1 cell.new.permit }
    {
        let CellTryInit { stage } = self;
        if let Some(init) = stage.end(&mut cell.permit, steps) {
            init.cancel();
        }
    }
}

impl<P: Drop> CellTryInit<P> {
    /// Ends the call and drops the caller's state, for a cell that ends too.
    pub fn lose(self) {
        let CellTryInit { stage } = self;
        let _ = stage.lose();
    }
}
