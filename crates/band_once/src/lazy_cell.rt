//! The lazy cell.
ghost use Rattle.std.specs.Prelude.{◌≡◌, ◌≤◌, ◌↔◌, true, false, Some, None, option_copied, is_some, IsTrue, IsErrOf};
ghost use Rattle.std.specs.Option.{option_copied_mut};
ghost use Rattle.std.specs.Borrow.{sem};
ghost use Rattle.band_sem.specs.Semaphore.{TakesWake};
ghost use Rattle.band_sem.specs.Whole.{IsWhole};
ghost use Rattle.band_once.specs.Calls.{IsForOne, Leaves};
ghost use Rattle.band_once.specs.Claims.{Nothing, Has, IsCounted, KeepsCounted, claim_of};
ghost use Rattle.band_once.specs.Idle.{IsIdle};
ghost use Rattle.band_once.specs.Lazy.{new_lazy, MayStart, Attempts, HoldsLazy, PollsLazy, PollsLazyMut};
ghost use Rattle.band_once.specs.declared.attempt.Attempt.TheVariants as attempt;
ghost use Rattle.band_once.specs.declared.call.CallStage.TheVariants as stage;

use crate::ValueCell;
use crate::attempt::Attempt;
use crate::call::{Asked, CallStage, pass, tell};
use band_base::{Poll, PollError, Polled, Steps, Waker};
use band_sem::{Semaphore, SemaphorePermit};
use std::alloc::Global;
use std::marker::Model;
use std::sync::ledger::Ledger;

/// A value that is made when it is first asked for, by one attempt that outlives the calls which poll it. Ports
/// `LazyCell`, as a state that is changed by one call at a time.
#[derive(Drop)]
pub struct LazyCell<T, P, F> {
    value: ValueCell<T>,
    attempt: Attempt<F, P>,
    permit: Semaphore,
}

impl<T, P, F> Model for LazyCell<T, P, F> {
    ghost use Rattle.band_sem.specs.Whole.{IsWhole};
    ghost use Rattle.band_once.specs.Lazy.{LazyState, IsSound};

    ghost Value = { LazyState T P F };

    ghost view = { λ c. record { value = c.value; attempt = c.attempt; permit = c.permit } };

    ghost invariant = { λ c. IsWhole 1 c.permit × IsSound c.value c.attempt };
}

/// A call that makes the value where there is none. It must be ended by `cancel` or `lose`. Ports the future of `force`.
pub struct Force {
    stage: CallStage<()>,
}

impl Model for Force {
    ghost use Rattle.band_once.specs.declared.call.CallStage.{CallStage};

    ghost Value = { CallStage Unit };

    ghost use Rattle.band_once.specs.Calls.{IsForOne};

    ghost view = { λ c. c.stage };

    ghost invariant = { λ c. IsForOne c.stage };
}

/// The same while no other call has the permit. It must be ended by `cancel` or `lose`. Ports the future of `force_mut`.
pub struct ForceMut {
    is_over: bool,
}

impl Model for ForceMut {
    ghost use Rattle.std.specs.Prelude.{Bool};

    ghost Value = { Bool };

    ghost view = { λ c. c.is_over };
}

impl<T, P: Polled<Output = T>, F: FnOnce() -> P> LazyCell<T, P, F> {
    ghost use Rattle.band_once.specs.CellLends.{lends_lazy};

    /// A cell whose attempt is made by `init`, which calls know by `number`.
    pub fn new(alloc: Global, number: u64, init: F) -> LazyCell<T, P, F>
        ensures start { result ≡ new_lazy None (attempt.NotMade init) number }
        ensures whole { IsWhole 1 result.permit }
    {
        LazyCell {
            value: ValueCell::new(),
            attempt: Attempt::NotMade(init),
            permit: Semaphore::new(alloc, number, 1),
        }
    }

    /// A cell whose attempt is made already.
    pub fn from_future(alloc: Global, number: u64, p: P) -> LazyCell<T, P, F>
        ensures start { result ≡ new_lazy None (attempt.Running p) number }
        ensures whole { IsWhole 1 result.permit }
    {
        LazyCell {
            value: ValueCell::new(),
            attempt: Attempt::Running(p),
            permit: Semaphore::new(alloc, number, 1),
        }
    }

    /// A cell with this value.
    pub fn from_value(alloc: Global, number: u64, value: T) -> LazyCell<T, P, F>
        ensures start { result ≡ new_lazy (Some value) attempt.Done number }
        ensures whole { IsWhole 1 result.permit }
    {
        LazyCell {
            value: ValueCell::from_value(value),
            attempt: Attempt::Done,
            permit: Semaphore::new(alloc, number, 1),
        }
    }

    /// The value.
    pub fn get(&self) -> Option<&T>
        ensures { option_copied result ≡ self.now.value }
    {
        self.value.get()
    }

    /// The value for writing.
    pub fn get_mut(&mut self) -> Option<&mut T>
        ensures* writes_back { sem 𝓛 (lends_lazy T.row P.row F.row self.entry result) }
        ensures value { option_copied_mut result ≡ self.old.value }
    {
        self.value.get_mut()
    }

    /// Whether no call waits for the permit, was granted it or holds it.
    pub fn is_idle(&self) -> bool
        ensures { IsTrue result ↔ IsIdle self.now.permit }
    {
        self.permit.available_permits() == 1
    }

    /// A call that makes the value where there is none, not polled yet.
    pub fn force(&self) -> Force
        ensures { result ≡ stage.NotPolled tt }
    {
        Force {
            stage: CallStage::NotPolled(()),
        }
    }

    /// A call that needs no permit, while no other call has one.
    pub fn force_mut(&self) -> ForceMut
        ensures { result ≡ false }
    {
        ForceMut { is_over: false }
    }

    /// Takes the oldest waker to wake, if there is one.
    pub fn take_wake(&mut self) -> Option<Waker>
        ensures woken { TakesWake self.old.permit result self.new.permit }
        ensures state { self.new ≡ record self.old { permit = self.new.permit } }
        ensures whole { IsWhole 1 self.new.permit }
    {
        self.permit.take_wake()
    }

    fn is_initialized(&self) -> bool
        ensures { result ≡ is_some self.now.value }
    {
        self.value.is_initialized()
    }

    /// Polls the attempt, which is made first if it was not.
    fn attempt(&mut self, waker: Waker) -> Result<Poll<()>, PollError>
        requires callable { MayStart F.pre self.old.attempt }
        requires none { self.old.value ≡ None }
        ensures never_closed { IsErrOf result PollError.Closed → ⊥ }
        ensures attempts { Attempts F.post P.moves waker.0 self.old result self.new }
        ensures callable { MayStart F.pre self.new.attempt }
    {
        let mut init = self.attempt.start();
        match init.poll(waker) {
            Ok(Poll::Ready(value)) => {
                init.cancel();
                self.value.put(value);
                Ok(Poll::Ready(()))
            }
            Ok(Poll::Pending) => {
                self.attempt.put(init);
                Ok(Poll::Pending)
            }
            Err(error) => {
                self.attempt.put(init);
                Err(tell(error))
            }
        }
    }
}

impl Force {
    /// Asks for the permit, and with it polls the attempt. The value of that becomes the cell's.
    pub fn poll<T, P: Polled<Output = T>, F: FnOnce() -> P, L: Ledger>(
        &mut self,
        cell: &mut LazyCell<T, P, F>,
        waker: Waker,
        steps: &mut Steps<L>,
    ) -> Result<Poll<()>, PollError>
        requires counted { IsCounted (claim_of self.old) cell.old.permit }
        requires callable { MayStart F.pre cell.old.attempt }
        ensures polls { PollsLazy F.post P.moves waker.0 self.old cell.old result self.new cell.new }
        ensures finished { IsErrOf result PollError.Finished ↔ (self.old ≡ stage.Finished) }
        // Its permit is never closed.
        ensures never_closed { IsErrOf result PollError.Closed → ⊥ }
        ensures counted { KeepsCounted (claim_of self.old) (claim_of self.new) cell.old.permit cell.new.permit }
        ensures callable { MayStart F.pre cell.new.attempt }
        ensures one { IsForOne self.old }
        ensures whole { IsWhole 1 cell.new.permit }
    {
        let is_there = cell.is_initialized();
        match self.stage.ask(is_there, &mut cell.permit, waker, steps) {
            Ok(Asked::NotNeeded(_)) => Ok(Poll::Ready(())),
            Ok(Asked::Waits) => Ok(Poll::Pending),
            Ok(Asked::Holds(token, _)) => self.go_on(cell, token, waker, steps),
            Err(error) => Err(error),
        }
    }

    /// Goes on with the permit.
    fn go_on<T, P: Polled<Output = T>, F: FnOnce() -> P, L: Ledger>(
        &mut self,
        cell: &mut LazyCell<T, P, F>,
        token: SemaphorePermit,
        waker: Waker,
        steps: &mut Steps<L>,
    ) -> Result<Poll<()>, PollError>
        requires callable { MayStart F.pre cell.old.attempt }
        requires taken { self.old ≡ stage.Finished }
        requires counted { IsCounted (Has token) cell.old.permit }
        requires one { token.count ≡ 1 }
        ensures never_closed { IsErrOf result PollError.Closed → ⊥ }
        ensures holds { HoldsLazy F.post P.moves waker.0 token tt cell.old result self.new cell.new }
        ensures counted { KeepsCounted (Has token) (claim_of self.new) cell.old.permit cell.new.permit }
        ensures callable { MayStart F.pre cell.new.attempt }
        ensures whole { IsWhole 1 cell.new.permit }
    {
        if cell.is_initialized() {
            pass(&mut cell.permit, token, steps);
            return Ok(Poll::Ready(()));
        }
        match cell.attempt(waker) {
            Ok(Poll::Ready(())) => {
                pass(&mut cell.permit, token, steps);
                Ok(Poll::Ready(()))
            }
            Ok(Poll::Pending) => {
                self.stage.put(CallStage::Driving(token, ()));
                Ok(Poll::Pending)
            }
            Err(error) => {
                self.stage.put(CallStage::Driving(token, ()));
                Err(error)
            }
        }
    }

    /// Ends the call, and leaves the attempt. A request leaves the line, and the permit passes on.
    pub fn cancel<T, P: Polled<Output = T>, F: FnOnce() -> P, L: Ledger>(
        self,
        cell: &mut LazyCell<T, P, F>,
        steps: &mut Steps<L>,
    )
        requires { IsCounted (claim_of self) cell.old.permit }
        ensures permit { Leaves self cell.old.permit cell.new.permit }
        ensures counted { KeepsCounted (claim_of self) Nothing cell.old.permit cell.new.permit }
        ensures state { cell.new ≡ record cell.old { permit = cell.new.permit } }
        ensures one { IsForOne self }
        ensures whole { IsWhole 1 cell.new.permit }
    {
        let Force { stage } = self;
        let _ = stage.end(&mut cell.permit, steps);
    }

    /// Ends the call, for a cell that ends too.
    pub fn lose(self) {
        let Force { stage } = self;
        let _ = stage.lose();
    }
}

impl ForceMut {
    /// Polls the attempt where the cell has no value. The value of that becomes the cell's.
    pub fn poll<T, P: Polled<Output = T>, F: FnOnce() -> P, L: Ledger>(
        &mut self,
        cell: &mut LazyCell<T, P, F>,
        waker: Waker,
        steps: &mut Steps<L>,
    ) -> Result<Poll<()>, PollError>
        requires idle { IsIdle cell.old.permit }
        requires callable { MayStart F.pre cell.old.attempt }
        ensures polls { PollsLazyMut F.post P.moves waker.0 self.old cell.old result self.new cell.new }
        ensures finished { IsErrOf result PollError.Finished ↔ (self.old ≡ true) }
        ensures callable { MayStart F.pre cell.new.attempt }
        ensures steps { steps.new ≡ steps.old }
    {
        if self.is_over {
            return Err(PollError::Finished);
        }
        if cell.is_initialized() {
            self.is_over = true;
            return Ok(Poll::Ready(()));
        }
        match cell.attempt(waker) {
            Ok(Poll::Ready(())) => {
                self.is_over = true;
                Ok(Poll::Ready(()))
            }
            Ok(Poll::Pending) => Ok(Poll::Pending),
            Err(error) => Err(error),
        }
    }

    /// Ends the call, and leaves the attempt.
    pub fn cancel<T, P: Polled<Output = T>, F: FnOnce() -> P, L: Ledger>(
        self,
        cell: &mut LazyCell<T, P, F>,
        steps: &mut Steps<L>,
    )
        ensures cell { cell.new ≡ cell.old }
        ensures steps { steps.new ≡ steps.old }
    {
        self.lose();
    }

    /// Ends the call, for a cell that ends too.
    pub fn lose(self) {
        let ForceMut { is_over: _ } = self;
    }
}
