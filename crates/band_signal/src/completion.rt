//! The completion.
ghost use Rattle.std.specs.Prelude.{◌≡◌, ◌<◌, ◌↔◌, ◌+◌, IsErr, IfOk, IfErr, OnOk, OnErr, Ok, Err, None};
ghost use Rattle.band_signal.specs.Completion.{new_completion, is_complete, completed, with_observer, without_observer, told, abandoned, Shows};
ghost use Rattle.band_signal.specs.Waits.{NotPolled, TakesWake, IsOwn, Polls, LeavesOthers, cancelled, visits_of, visits_out};

use crate::{CountFull, Registration, WaitSet};
use band_base::{Poll, PollError, Steps, Waker};
use std::alloc::Global;
use std::marker::Model;
use std::sync::ledger::Ledger;
use thiserror::Error;

/// The completer ended without a value.
#[derive(Debug, Clone, Copy, PartialEq, Eq, Error)]
#[error("completion was abandoned before a value was provided")]
pub struct Abandoned;

/// A result that is published once, or abandoned, to all that observe it. Ports the state that a completer and its
/// completions share.
#[derive(Drop)]
pub struct CompletionState<T> {
    number: u64,
    observers: u64,
    outcome: Option<Result<T, Abandoned>>,
    waits: WaitSet,
}

impl<T> Model for CompletionState<T> {
    ghost use Rattle.band_signal.specs.Completion.{CompletionView};

    ghost Value = { CompletionView T };

    ghost view = { λ c. record {
      number = c.number;
      observers = c.observers;
      outcome = c.outcome;
      waits = c.waits;
    } };
}

/// Who gives the result. It must be ended, by `complete`, `abandon` or `lose`. Ports `Completer`.
pub struct Completer {
    of: u64,
}

impl Model for Completer {
    ghost use Rattle.std.specs.Prelude.{ℕ};

    ghost Value = { ℕ };

    ghost view = { λ c. c.of };
}

/// An observer of the result. It must be ended, by `drop_observer` or `lose`. Ports `Completion`.
pub struct Completion {
    of: u64,
}

impl Model for Completion {
    ghost use Rattle.std.specs.Prelude.{ℕ};

    ghost Value = { ℕ };

    ghost view = { λ c. c.of };
}

/// A wait for the result. It must be ended by `cancel` or `lose`. Ports the future of `wait`.
pub struct CompletionWait {
    registration: Registration,
}

impl Model for CompletionWait {
    ghost use Rattle.band_signal.specs.Waits.{Life};

    ghost Value = { Life };

    ghost view = { λ w. w.registration };
}

impl<T> CompletionState<T> {
    /// A completion without a result, with its completer and one observer, which know it by `number`.
    pub fn new(alloc: Global, number: u64) -> (CompletionState<T>, Completer, Completion)
        ensures state { result.0 ≡ new_completion number }
        ensures completer { result.1 ≡ number }
        ensures observer { result.2 ≡ number }
    {
        (
            CompletionState {
                number,
                observers: 1,
                outcome: None,
                waits: WaitSet::new(alloc),
            },
            Completer { of: number },
            Completion { of: number },
        )
    }

    /// Publishes the value and wakes all that wait. Without an observer the value comes back, and the result is
    /// abandoned.
    pub fn complete(&mut self, c: Completer, value: T) -> Result<(), T>
        requires number { c ≡ self.old.number }
        requires pending { self.old.outcome ≡ None }
        ensures unobserved { IsErr result ↔ (self.old.observers ≡ 0) }
        ensures handed_back { IfErr result (λ given. given ≡ value) }
        ensures ok { OnOk result (self.new ≡ completed (Ok value) self.old) }
        ensures err { OnErr result (self.new ≡ completed (Err abandoned) self.old) }
    {
        if self.observers == 0 {
            self.abandon(c);
            return Err(value);
        }
        c.lose();
        self.publish(Ok(value));
        Ok(())
    }

    /// Ends the completer without a value, and wakes all that wait.
    pub fn abandon(&mut self, c: Completer)
        requires number { c ≡ self.old.number }
        requires pending { self.old.outcome ≡ None }
        ensures { self.new ≡ completed (Err abandoned) self.old }
    {
        c.lose();
        self.publish(Err(Abandoned));
    }

    fn publish(&mut self, outcome: Result<T, Abandoned>)
        requires { self.old.outcome ≡ None }
        ensures { self.new ≡ completed outcome self.old }
    {
        match self.outcome.replace(outcome) {
            None => self.waits.wake_all(),
            Some(_) => unreachable!(),
        }
    }

    /// The result, once it is there.
    pub fn result(&self) -> Option<Result<&T, Abandoned>>
        ensures { Shows self.now result }
    {
        match &self.outcome {
            Some(Ok(value)) => Some(Ok(value)),
            Some(Err(abandoned)) => Some(Err(*abandoned)),
            None => None,
        }
    }

    /// One observer more.
    pub fn clone_observer(&mut self, o: &Completion) -> Result<Completion, CountFull>
        requires number { o.now ≡ self.old.number }
        requires counted { 0 < self.old.observers }
        ensures full { IsErr result ↔ (self.old.observers ≡ u64.MAX) }
        ensures observer { IfOk result (λ observer. observer ≡ self.old.number) }
        ensures ok { OnOk result (self.new ≡ with_observer self.old) }
        ensures err { OnErr result (self.new ≡ self.old) }
    {
        if self.observers == u64::MAX {
            return Err(CountFull);
        }
        self.observers += 1;
        Ok(Completion { of: o.of })
    }

    /// Ends an observer.
    pub fn drop_observer(&mut self, o: Completion)
        requires number { o ≡ self.old.number }
        requires counted { 0 < self.old.observers }
        ensures { self.new ≡ without_observer self.old }
    {
        o.lose();
        self.observers -= 1;
    }

    /// Takes the oldest waker to wake, if there is one.
    pub fn take_wake(&mut self) -> Option<Waker>
        ensures woken { TakesWake self.old.waits result self.new.waits }
        ensures same { self.new ≡ record self.old { waits = self.new.waits } }
    {
        self.waits.take_wake()
    }

    fn told(&self) -> Result<(), Abandoned>
        ensures { result ≡ told self.now }
    {
        match &self.outcome {
            Some(Err(abandoned)) => Err(*abandoned),
            _ => Ok(()),
        }
    }
}

impl Completer {
    /// The number of its completion.
    pub fn of(&self) -> u64
        ensures { result ≡ self.now }
    {
        self.of
    }

    /// Ends the completer and leaves the result open, for a state that ends too.
    pub fn lose(self) {
        let Completer { of: _ } = self;
    }
}

impl Completion {
    /// The number of its completion.
    pub fn of(&self) -> u64
        ensures { result ≡ self.now }
    {
        self.of
    }

    /// A wait for the result, not polled yet.
    pub fn wait(&self) -> CompletionWait
        ensures { result ≡ NotPolled }
    {
        CompletionWait {
            registration: Registration::new(),
        }
    }

    /// Ends the observer and leaves it counted, for a state that ends too.
    pub fn lose(self) {
        let Completion { of: _ } = self;
    }
}

impl CompletionWait {
    /// Asks whether the result is there. The first time it may take memory.
    pub fn poll<T, L: Ledger>(
        &mut self,
        state: &mut CompletionState<T>,
        waker: Waker,
        steps: &mut Steps<L>,
    ) -> Result<Poll<Result<(), Abandoned>>, PollError>
        requires { IsOwn (is_complete state.old) self.old state.old.waits }
        ensures polls { Polls (is_complete state.old) (told state.old) self.old waker
            state.old.waits result self.new state.new.waits }
        ensures same { state.new ≡ record state.old { waits = state.new.waits } }
        ensures own { IsOwn (is_complete state.new) self.new state.new.waits }
        ensures others { LeavesOthers self.old state.old.waits state.new.waits }
        ensures visits { steps.new ≡ steps.old + visits_of result }
    {
        let is_over = state.outcome.is_some();
        match self
            .registration
            .poll(&mut state.waits, is_over, waker, steps)
        {
            Ok(Poll::Ready(())) => Ok(Poll::Ready(state.told())),
            Ok(Poll::Pending) => Ok(Poll::Pending),
            Err(error) => Err(error),
        }
    }

    /// Ends the wait. Its registration is taken out, if it has one.
    pub fn cancel<T, L: Ledger>(self, state: &mut CompletionState<T>, steps: &mut Steps<L>)
        requires { IsOwn (is_complete state.old) self state.old.waits }
        ensures state { state.new ≡ record state.old {
          waits = cancelled (is_complete state.old) self state.old.waits;
        } }
        ensures others { LeavesOthers self state.old.waits state.new.waits }
        ensures visits { steps.new ≡ steps.old + visits_out (is_complete state.old) self }
    {
        let CompletionWait { registration } = self;
        let is_over = state.outcome.is_some();
        registration.cancel(&mut state.waits, is_over, steps);
    }

    /// Ends the wait and leaves its registration, for a state that ends too.
    pub fn lose(self) {
        let CompletionWait { registration } = self;
        registration.lose();
    }
}
