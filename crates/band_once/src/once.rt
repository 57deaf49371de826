//! The once.
ghost use Rattle.std.specs.Prelude.{◌≡◌, ◌≤◌, ◌+◌, ◌↔◌, true, Ok, IsTrue, IsErrOf};
ghost use Rattle.band_base.specs.declared.poll.Poll.TheVariants as poll;
ghost use Rattle.band_sem.specs.Whole.{IsWhole};
ghost use Rattle.band_signal.specs.Waits as waits;
ghost use Rattle.band_once.specs.Calls.{IsForOne, Leaves};
ghost use Rattle.band_once.specs.Claims.{Nothing, Has, IsCounted, KeepsCounted, claim_of};
ghost use Rattle.band_once.specs.Idle.{IsIdle};
ghost use Rattle.band_once.specs.Once.{OnceState, new_once, is_completed, PollsOnce, HoldsOnce, Completes, TakesFirstWake};
ghost use Rattle.band_once.specs.declared.call.CallStage.TheVariants as stage;

use crate::call::{Asked, CallStage, pass, tell};
use band_base::{Poll, PollError, Polled, Steps, Waker};
use band_sem::{Semaphore, SemaphorePermit};
use band_signal::{Latch, LatchWait};
use std::alloc::Global;
use std::marker::Model;
use std::sync::ledger::Ledger;

/// Something that is done once, by a state of the caller that is polled. Ports `Once`, as a state that is changed by one call at a time.
#[derive(Drop)]
pub struct Once {
    done: Latch,
    permit: Semaphore,
}

impl Model for Once {
    ghost use Rattle.std.specs.Prelude.{◌≤◌};
    ghost use Rattle.band_sem.specs.Whole.{IsWhole};
    ghost use Rattle.band_once.specs.Once.{OnceState};

    ghost Value = { OnceState };

    ghost view = { λ o. record { done = o.done; permit = o.permit } };

    ghost invariant = { λ o. (o.done.count ≤ 1) × IsWhole 1 o.permit };
}

/// A call that does it, unless it was done. It must be ended by `cancel` or `lose`. Ports the future of `call_once`.
pub struct OnceCall<P> {
    stage: CallStage<P>,
}

impl<P> Model for OnceCall<P> {
    ghost use Rattle.band_once.specs.declared.call.CallStage.{CallStage};

    ghost Value = { CallStage P };

    ghost use Rattle.band_once.specs.Calls.{IsForOne};

    ghost view = { λ c. c.stage };

    ghost invariant = { λ c. IsForOne c.stage };
}

/// A wait until it is done. It must be ended by `cancel` or `lose`. Ports the future of `wait`.
pub struct OnceWait {
    wait: LatchWait,
}

impl Model for OnceWait {
    ghost use Rattle.band_signal.specs.Waits.{Life};

    ghost Value = { Life };

    ghost view = { λ w. w.wait };
}

impl Once {
    /// One that was not done, which calls know by `number`.
    pub fn new(alloc: Global, number: u64) -> Once
        ensures start { result ≡ new_once number }
        ensures whole { IsWhole 1 result.permit }
    {
        Once {
            done: Latch::new(alloc, 1),
            permit: Semaphore::new(alloc, number, 1),
        }
    }

    /// Whether it was done.
    pub fn is_completed(&self) -> bool
        ensures { result ≡ is_completed self.now }
    {
        self.done.count() == 0
    }

    /// Whether no call waits for the permit, was granted it or holds it.
    pub fn is_idle(&self) -> bool
        ensures { IsTrue result ↔ IsIdle self.now.permit }
    {
        self.permit.available_permits() == 1
    }

    /// A call that polls `init` until it is done, not polled yet.
    pub fn call_once<P: Polled<Output = ()>>(&self, init: P) -> OnceCall<P>
        ensures { result ≡ stage.NotPolled init }
    {
        OnceCall {
            stage: CallStage::NotPolled(init),
        }
    }

    /// A wait until it is done, not polled yet.
    pub fn wait(&self) -> OnceWait
        ensures { result ≡ waits.NotPolled }
    {
        OnceWait {
            wait: self.done.wait(),
        }
    }

    /// Takes the oldest waker to wake, if there is one: first those of the waits, and then those of the calls.
    pub fn take_wake(&mut self) -> Option<Waker>
        ensures woken { TakesFirstWake self.old.done.waits.wakes self.old result self.new }
        ensures whole { IsWhole 1 self.new.permit }
    {
        match self.done.take_wake() {
            Some(waker) => Some(waker),
            None => self.permit.take_wake(),
        }
    }

    /// It is done: wakes all that wait for that, and gives the permit back.
    fn complete<L: Ledger>(&mut self, token: SemaphorePermit, steps: &mut Steps<L>)
        requires counted { IsCounted (Has token) self.old.permit }
        requires one { token.count ≡ 1 }
        ensures completes { Completes self.old self.new }
        ensures completed { is_completed self.new ≡ true }
        ensures counted { KeepsCounted (Has token) Nothing self.old.permit self.new.permit }
        ensures whole { IsWhole 1 self.new.permit }
    {
        self.done.count_down();
        pass(&mut self.permit, token, steps);
    }
}

impl<P: Polled<Output = ()>> OnceCall<P> {
    /// Asks for the permit, and with it polls the caller's state. The value of that completes the once.
    pub fn poll<L: Ledger>(
        &mut self,
        once: &mut Once,
        waker: Waker,
        steps: &mut Steps<L>,
    ) -> Result<Poll<()>, PollError>
        requires { IsCounted (claim_of self.old) once.old.permit }
        ensures polls { PollsOnce P.moves waker.0 self.old once.old result self.new once.new }
        ensures completed { result ≡ Ok (poll.Ready tt) → is_completed once.new ≡ true }
        ensures finished { IsErrOf result PollError.Finished ↔ (self.old ≡ stage.Finished) }
        // Its permit is never closed.
        ensures never_closed { IsErrOf result PollError.Closed → ⊥ }
        ensures counted { KeepsCounted (claim_of self.old) (claim_of self.new) once.old.permit once.new.permit }
        ensures one { IsForOne self.old }
        ensures whole { IsWhole 1 once.new.permit }
    {
        let is_completed = once.is_completed();
        match self.stage.ask(is_completed, &mut once.permit, waker, steps) {
            Ok(Asked::NotNeeded(init)) => {
                init.cancel();
                Ok(Poll::Ready(()))
            }
            Ok(Asked::Waits) => Ok(Poll::Pending),
            Ok(Asked::Holds(token, init)) => self.go_on(once, token, init, waker, steps),
            Err(error) => Err(error),
        }
    }

    /// Goes on with the permit.
    fn go_on<L: Ledger>(
        &mut self,
        once: &mut Once,
        token: SemaphorePermit,
        mut init: P,
        waker: Waker,
        steps: &mut Steps<L>,
    ) -> Result<Poll<()>, PollError>
        requires taken { self.old ≡ stage.Finished }
        requires counted { IsCounted (Has token) once.old.permit }
        requires one { token.count ≡ 1 }
        ensures never_closed { IsErrOf result PollError.Closed → ⊥ }
        ensures holds { HoldsOnce P.moves waker.0 token init once.old result self.new once.new }
        ensures completed { result ≡ Ok (poll.Ready tt) → is_completed once.new ≡ true }
        ensures counted { KeepsCounted (Has token) (claim_of self.new) once.old.permit once.new.permit }
        ensures whole { IsWhole 1 once.new.permit }
    {
        if once.is_completed() {
            init.cancel();
            pass(&mut once.permit, token, steps);
            return Ok(Poll::Ready(()));
        }
        match init.poll(waker) {
            Ok(Poll::Ready(())) => {
                init.cancel();
                once.complete(token, steps);
                Ok(Poll::Ready(()))
            }
            Ok(Poll::Pending) => {
                self.stage.put(CallStage::Driving(token, init));
                Ok(Poll::Pending)
            }
            Err(error) => {
                self.stage.put(CallStage::Driving(token, init));
                Err(tell(error))
            }
        }
    }

    /// Ends the call and the caller's state. A request leaves the line, and the permit passes on.
    pub fn cancel<L: Ledger>(self, once: &mut Once, steps: &mut Steps<L>)
        requires { IsCounted (claim_of self) once.old.permit }
        ensures permit { Leaves self once.old.permit once.new.permit }
        ensures counted { KeepsCounted (claim_of self) Nothing once.old.permit once.new.permit }
        ensures done { once.new.done ≡ once.old.done }
        ensures one { IsForOne self }
        ensures whole { IsWhole 1 once.new.permit }
    {
        let OnceCall { stage } = self;
        if let Some(init) = stage.end(&mut once.permit, steps) {
            init.cancel();
        }
    }
}

impl<P: Drop> OnceCall<P> {
    /// Ends the call and drops the caller's state, for a once that ends too.
    pub fn lose(self) {
        let OnceCall { stage } = self;
        let _ = stage.lose();
    }
}

impl OnceWait {
    /// Asks whether it is done. The first time it may take memory.
    pub fn poll<L: Ledger>(
        &mut self,
        once: &mut Once,
        waker: Waker,
        steps: &mut Steps<L>,
    ) -> Result<Poll<()>, PollError>
        requires { waits.IsOwn (is_completed once.old) self.old once.old.done.waits }
        ensures polls { waits.Polls (is_completed once.old) tt self.old waker
            once.old.done.waits result self.new once.new.done.waits }
        ensures count { once.new.done.count ≡ once.old.done.count }
        ensures permit { once.new.permit ≡ once.old.permit }
        ensures own { waits.IsOwn (is_completed once.new) self.new once.new.done.waits }
        ensures others { waits.LeavesOthers self.old once.old.done.waits once.new.done.waits }
        ensures visits { steps.new ≡ steps.old + waits.visits_of result }
    {
        self.wait.poll(&mut once.done, waker, steps)
    }

    /// Ends the wait. Its registration is taken out, if it has one.
    pub fn cancel<L: Ledger>(self, once: &mut Once, steps: &mut Steps<L>)
        requires { waits.IsOwn (is_completed once.old) self once.old.done.waits }
        ensures state { once.new.done.waits ≡ waits.cancelled (is_completed once.old) self once.old.done.waits }
        ensures count { once.new.done.count ≡ once.old.done.count }
        ensures permit { once.new.permit ≡ once.old.permit }
        ensures others { waits.LeavesOthers self once.old.done.waits once.new.done.waits }
        ensures visits { steps.new ≡ steps.old + waits.visits_out (is_completed once.old) self }
    {
        let OnceWait { wait } = self;
        wait.cancel(&mut once.done, steps);
    }

    /// Ends the wait and leaves its registration, for a once that ends too.
    pub fn lose(self) {
        let OnceWait { wait } = self;
        wait.lose();
    }
}
