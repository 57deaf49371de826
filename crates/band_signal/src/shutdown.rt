//! The shutdown.
ghost use Rattle.std.specs.Prelude.{◌≡◌, ◌<◌, ◌↔◌, ◌+◌, IsTrue, IsErr, IfOk, OnOk, OnErr};
ghost use Rattle.band_signal.specs.Countdown.{is_at_zero};
ghost use Rattle.band_signal.specs.Group.{is_deserted, with_handle, without_handle};
ghost use Rattle.band_signal.specs.Shutdown.{new_shutdown, is_requested, requested, TakesFirstWake, RequestsUnless};
ghost use Rattle.band_signal.specs.Waits.{NotPolled, IsOwn, Polls, LeavesOthers, cancelled, visits_of, visits_out};

use crate::{CountFull, CountdownState, Registration, Wait, WaitGroup, WaitGroupState};
use band_base::{Poll, PollError, Steps, Waker};
use std::alloc::Global;
use std::marker::Model;
use std::sync::ledger::Ledger;

/// A request to shut down, and the guards that hold the shutdown up. Ports the state that the handles share.
#[derive(Drop)]
pub struct ShutdownState {
    request: CountdownState,
    guards: WaitGroupState,
}

impl Model for ShutdownState {
    ghost use Rattle.band_signal.specs.Shutdown.{ShutdownView};

    ghost Value = { ShutdownView };

    ghost view = { λ s. record { request = s.request; guards = s.guards } };
}

/// A wait until no guard is left, of which each poll that is not refused requests shutdown. Before its first poll it
/// has requested nothing. It must be ended by `cancel` or `lose`. Ports `Shutdown`.
pub struct Shutdown {
    wait: Wait,
}

impl Model for Shutdown {
    ghost use Rattle.band_signal.specs.Waits.{Life};

    ghost Value = { Life };

    ghost view = { λ s. s.wait };
}

/// While it is there, the shutdown isn't over. It must be ended by `drop_guard`, `into_watch` or `lose`. Ports
/// `ShutdownGuard`.
pub struct ShutdownGuard {
    handle: WaitGroup,
}

impl Model for ShutdownGuard {
    ghost use Rattle.std.specs.Prelude.{ℕ};

    ghost Value = { ℕ };

    ghost view = { λ g. g.handle };
}

/// Who only looks whether shutdown is requested. It may be dropped. Ports `ShutdownWatch`.
#[derive(Clone, Drop)]
pub struct ShutdownWatch {
    of: u64,
}

impl Model for ShutdownWatch {
    ghost use Rattle.std.specs.Prelude.{ℕ};

    ghost Value = { ℕ };

    ghost view = { λ w. w.of };
}

/// A wait for the request. It must be ended by `cancel` or `lose`. Ports the future of `shutdown_requested`.
pub struct RequestedWait {
    registration: Registration,
}

impl Model for RequestedWait {
    ghost use Rattle.band_signal.specs.Waits.{Life};

    ghost Value = { Life };

    ghost view = { λ w. w.registration };
}

impl ShutdownState {
    /// A shutdown that was not requested, with one guard, which knows it by `number`.
    pub fn new(alloc: Global, number: u64) -> (ShutdownState, Shutdown, ShutdownGuard)
        ensures state { result.0 ≡ new_shutdown number }
        ensures shutdown { result.1 ≡ NotPolled }
        ensures guard { result.2 ≡ number }
    {
        let (guards, handle) = WaitGroup::new(alloc, number);
        let request = CountdownState::new(alloc, 1);
        (
            ShutdownState { request, guards },
            Shutdown { wait: Wait::new() },
            ShutdownGuard { handle },
        )
    }

    /// Requests shutdown, which wakes all that wait for the request. Later it does nothing.
    pub fn request_shutdown(&mut self)
        ensures { self.new ≡ requested self.old }
    {
        if self.request.decrement(1) {
            self.request.wake_all();
        }
    }

    /// Whether shutdown was requested.
    pub fn is_shutdown_requested(&self) -> bool
        ensures { result ≡ is_requested self.now }
    {
        self.request.state() == 0
    }

    /// A wait for the request, not polled yet.
    pub fn shutdown_requested(&self) -> RequestedWait
        ensures { result ≡ NotPolled }
    {
        RequestedWait {
            registration: Registration::new(),
        }
    }

    /// One guard more.
    pub fn clone_guard(&mut self, g: &ShutdownGuard) -> Result<ShutdownGuard, CountFull>
        requires number { g.now ≡ self.old.guards.number }
        requires counted { 0 < self.old.guards.handles }
        ensures full { IsErr result ↔ (self.old.guards.handles ≡ u64.MAX) }
        ensures guard { IfOk result (λ guard. guard ≡ self.old.guards.number) }
        ensures ok { OnOk result (self.new ≡ record self.old { guards = with_handle self.old.guards }) }
        ensures err { OnErr result (self.new ≡ self.old) }
    {
        match self.guards.clone_handle(&g.handle) {
            Ok(handle) => Ok(ShutdownGuard { handle }),
            Err(full) => Err(full),
        }
    }

    /// Ends a guard. The last one wakes all that shut down.
    pub fn drop_guard(&mut self, g: ShutdownGuard)
        requires number { g ≡ self.old.guards.number }
        requires counted { 0 < self.old.guards.handles }
        ensures { self.new ≡ record self.old { guards = without_handle self.old.guards } }
    {
        let ShutdownGuard { handle } = g;
        self.guards.drop_handle(handle);
    }

    /// Somebody who only looks.
    pub fn watch(&self, g: &ShutdownGuard) -> ShutdownWatch
        requires { g.now ≡ self.now.guards.number }
        ensures { result ≡ self.now.guards.number }
    {
        ShutdownWatch { of: g.of() }
    }

    /// Ends a guard, which only looks from then on.
    pub fn into_watch(&mut self, g: ShutdownGuard) -> ShutdownWatch
        requires number { g ≡ self.old.guards.number }
        requires counted { 0 < self.old.guards.handles }
        ensures watch { result ≡ self.old.guards.number }
        ensures state { self.new ≡ record self.old { guards = without_handle self.old.guards } }
    {
        let of = g.of();
        self.drop_guard(g);
        ShutdownWatch { of }
    }

    /// Takes the oldest waker to wake, if there is one: those that wait for the request come first.
    pub fn take_wake(&mut self) -> Option<Waker>
        ensures { TakesFirstWake self.old.request.waits.wakes self.old result self.new }
    {
        match self.request.take_wake() {
            Some(waker) => Some(waker),
            None => self.guards.take_wake(),
        }
    }
}

impl Shutdown {
    /// Another that shuts down, not polled yet.
    pub fn clone(&self) -> Shutdown
        ensures { result ≡ NotPolled }
    {
        Shutdown { wait: Wait::new() }
    }

    /// Requests shutdown, and asks whether no guard is left. The first time it may take memory, and where there is
    /// none, shutdown isn't requested either.
    pub fn poll<L: Ledger>(
        &mut self,
        state: &mut ShutdownState,
        waker: Waker,
        steps: &mut Steps<L>,
    ) -> Result<Poll<()>, PollError>
        requires { IsOwn (is_deserted state.old.guards) self.old state.old.guards.waits }
        ensures polls { Polls (is_deserted state.old.guards) tt self.old waker
            state.old.guards.waits result self.new state.new.guards.waits }
        ensures requests { RequestsUnless result state.old state.new }
        ensures own { IsOwn (is_deserted state.new.guards) self.new state.new.guards.waits }
        ensures others { LeavesOthers self.old state.old.guards.waits state.new.guards.waits }
        ensures visits { steps.new ≡ steps.old + visits_of result }
    {
        let answer = self.wait.poll(&mut state.guards, waker, steps)?;
        state.request_shutdown();
        Ok(answer)
    }

    /// Ends the wait. Its registration is taken out, if it has one, and the request stays.
    pub fn cancel<L: Ledger>(self, state: &mut ShutdownState, steps: &mut Steps<L>)
        requires { IsOwn (is_deserted state.old.guards) self state.old.guards.waits }
        ensures state { state.new ≡ record state.old {
          guards = record state.old.guards {
            waits = cancelled (is_deserted state.old.guards) self state.old.guards.waits;
          };
        } }
        ensures others { LeavesOthers self state.old.guards.waits state.new.guards.waits }
        ensures visits { steps.new ≡ steps.old + visits_out (is_deserted state.old.guards) self }
    {
        let Shutdown { wait } = self;
        wait.cancel(&mut state.guards, steps);
    }

    /// Ends the wait and leaves its registration, for a state that ends too.
    pub fn lose(self) {
        let Shutdown { wait } = self;
        wait.lose();
    }
}

impl ShutdownGuard {
    /// The number of its shutdown.
    pub fn of(&self) -> u64
        ensures { result ≡ self.now }
    {
        self.handle.of()
    }

    /// Ends the guard and leaves it counted, for a state that ends too.
    pub fn lose(self) {
        let ShutdownGuard { handle } = self;
        handle.lose();
    }
}

impl ShutdownWatch {
    /// The number of its shutdown.
    pub fn of(&self) -> u64
        ensures { result ≡ self.now }
    {
        self.of
    }
}

impl RequestedWait {
    /// Asks whether shutdown was requested. The first time it may take memory.
    pub fn poll<L: Ledger>(
        &mut self,
        state: &mut ShutdownState,
        waker: Waker,
        steps: &mut Steps<L>,
    ) -> Result<Poll<()>, PollError>
        requires { IsOwn (is_requested state.old) self.old state.old.request.waits }
        ensures polls { Polls (is_requested state.old) tt self.old waker
            state.old.request.waits result self.new state.new.request.waits }
        ensures same { state.new ≡ record state.old {
          request = record state.old.request { waits = state.new.request.waits };
        } }
        ensures own { IsOwn (is_requested state.new) self.new state.new.request.waits }
        ensures others { LeavesOthers self.old state.old.request.waits state.new.request.waits }
        ensures visits { steps.new ≡ steps.old + visits_of result }
    {
        state.request.poll(&mut self.registration, waker, steps)
    }

    /// Ends the wait. Its registration is taken out, if it has one.
    pub fn cancel<L: Ledger>(self, state: &mut ShutdownState, steps: &mut Steps<L>)
        requires { IsOwn (is_requested state.old) self state.old.request.waits }
        ensures state { state.new ≡ record state.old {
          request = record state.old.request {
            waits = cancelled (is_requested state.old) self state.old.request.waits;
          };
        } }
        ensures others { LeavesOthers self state.old.request.waits state.new.request.waits }
        ensures visits { steps.new ≡ steps.old + visits_out (is_requested state.old) self }
    {
        let RequestedWait { registration } = self;
        state.request.cancel(registration, steps);
    }

    /// Ends the wait and leaves its registration, for a state that ends too.
    pub fn lose(self) {
        let RequestedWait { registration } = self;
        registration.lose();
    }
}
