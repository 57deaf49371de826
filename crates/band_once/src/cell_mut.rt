//! The calls of a once cell that make its value without its permit, while no other call has one.
ghost use Rattle.std.specs.Prelude.{◌≡◌, ◌↔◌, None, Ok, IsErrOf};
ghost use Rattle.band_once.specs.Cell.{published, attempted, PollsMut};
ghost use Rattle.band_once.specs.Idle.{IsIdle};

use crate::OnceCell;
use crate::call::tell;
use band_base::{Poll, PollError, Polled, Steps, Waker};
use std::marker::Model;
use std::sync::ledger::Ledger;

/// A call that makes the value of an idle cell where there is none. It must be ended by `cancel` or `lose`. Ports the
/// future of `get_mut_or_init`.
pub struct CellInitMut<P> {
    init: Option<P>,
}

impl<P> Model for CellInitMut<P> {
    ghost use Rattle.std.specs.Prelude.{Option};

    ghost Value = { Option P };

    ghost view = { λ c. c.init };
}

/// The same with an initializer that may give an error. Ports the future of `get_mut_or_try_init`.
pub struct CellTryInitMut<P> {
    init: Option<P>,
}

impl<P> Model for CellTryInitMut<P> {
    ghost use Rattle.std.specs.Prelude.{Option};

    ghost Value = { Option P };

    ghost view = { λ c. c.init };
}

impl<P> CellInitMut<P> {
    pub(crate) fn new(init: P) -> CellInitMut<P>
        ensures { result ≡ Some init }
    {
        CellInitMut { init: Some(init) }
    }
}

impl<P: Polled> CellInitMut<P> {
    /// Polls the caller's state where the cell has no value. The value of that becomes the cell's.
    pub fn poll<L: Ledger>(
        &mut self,
        cell: &mut OnceCell<P::Output>,
        waker: Waker,
        steps: &mut Steps<L>,
    ) -> Result<Poll<()>, PollError>
        requires { IsIdle cell.old.permit }
        ensures polls { PollsMut tt published P.moves waker.0 self.old cell.old result self.new cell.new }
        ensures finished { IsErrOf result PollError.Finished ↔ (self.old ≡ None) }
        ensures steps { steps.new ≡ steps.old }
    {
        let mut init = match self.init.take() {
            Some(init) => init,
            None => return Err(PollError::Finished),
        };
        if cell.is_initialized() {
            init.cancel();
            return Ok(Poll::Ready(()));
        }
        match init.poll(waker) {
            Ok(Poll::Ready(value)) => {
                init.cancel();
                cell.value.put(value);
                Ok(Poll::Ready(()))
            }
            Ok(Poll::Pending) => {
                keep(&mut self.init, init);
                Ok(Poll::Pending)
            }
            Err(error) => {
                keep(&mut self.init, init);
                Err(tell(error))
            }
        }
    }

    /// Ends the call and the caller's state.
    pub fn cancel<L: Ledger>(self, cell: &mut OnceCell<P::Output>, steps: &mut Steps<L>)
        ensures cell { cell.new ≡ cell.old }
        ensures steps { steps.new ≡ steps.old }
    {
        let CellInitMut { init } = self;
        if let Some(init) = init {
            init.cancel();
        }
    }
}

impl<P: Drop> CellInitMut<P> {
    /// Ends the call and drops the caller's state, for a cell that ends too.
    pub fn lose(self) {
        let CellInitMut { init: _ } = self;
    }
}

impl<P> CellTryInitMut<P> {
    pub(crate) fn new(init: P) -> CellTryInitMut<P>
        ensures { result ≡ Some init }
    {
        CellTryInitMut { init: Some(init) }
    }
}

impl<T, E, P: Polled<Output = Result<T, E>>> CellTryInitMut<P> {
    /// Polls the caller's state where the cell has no value. A value of that becomes the cell's, and an error leaves the
    /// cell empty.
    pub fn poll<L: Ledger>(
        &mut self,
        cell: &mut OnceCell<T>,
        waker: Waker,
        steps: &mut Steps<L>,
    ) -> Result<Poll<Result<(), E>>, PollError>
        requires { IsIdle cell.old.permit }
        ensures polls { PollsMut (Ok tt) attempted P.moves waker.0 self.old cell.old result self.new cell.new }
        ensures finished { IsErrOf result PollError.Finished ↔ (self.old ≡ None) }
        ensures steps { steps.new ≡ steps.old }
    {
        let mut init = match self.init.take() {
            Some(init) => init,
            None => return Err(PollError::Finished),
        };
        if cell.is_initialized() {
            init.cancel();
            return Ok(Poll::Ready(Ok(())));
        }
        match init.poll(waker) {
            Ok(Poll::Ready(output)) => {
                init.cancel();
                Ok(Poll::Ready(cell.attempted(output)))
            }
            Ok(Poll::Pending) => {
                keep(&mut self.init, init);
                Ok(Poll::Pending)
            }
            Err(error) => {
                keep(&mut self.init, init);
                Err(tell(error))
            }
        }
    }

    /// Ends the call and the caller's state.
    pub fn cancel<L: Ledger>(self, cell: &mut OnceCell<T>, steps: &mut Steps<L>)
        ensures cell { cell.new ≡ cell.old }
        ensures steps { steps.new ≡ steps.old }
    {
        let CellTryInitMut { init } = self;
        if let Some(init) = init {
            init.cancel();
        }
    }
}

impl<P: Drop> CellTryInitMut<P> {
    /// Ends the call and drops the caller's state, for a cell that ends too.
    pub fn lose(self) {
        let CellTryInitMut { init: _ } = self;
    }
}

/// Puts a state back where it was taken out.
fn keep<P>(place: &mut Option<P>, init: P)
    requires { place.old ≡ None }
    ensures { place.new ≡ Some init }
{
    match place.replace(init) {
        None => {}
        Some(_) => unreachable!(),
    }
}
