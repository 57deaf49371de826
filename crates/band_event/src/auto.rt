//! The auto-reset event.
ghost use Rattle.std.specs.Prelude.{◌≡◌, false};
ghost use Rattle.band_event.specs.Event.{new_event, IsEvent, IsHere, PollsAuto, OthersStay, signalled, cancelled_auto, StayHere, PollVisits, CancelVisits};
ghost use Rattle.band_line.specs.Visits.{Visits};
ghost use Rattle.band_signal.specs.Waits.{NotPolled, Finished};
ghost use Rattle.band_signal.specs.WaitQueue.{LeavesOthers, TakesWake};

use crate::queue::Queue;
use crate::wait::EventWait;
use band_base::{Poll, PollError, Steps, Waker};
use std::alloc::Global;
use std::marker::Model;
use std::sync::ledger::Ledger;

/// A signal that one wait takes. Ports `AutoResetEvent`, as a state that is changed by one call at a time.
#[derive(Drop)]
pub struct AutoResetEvent {
    is_set: bool,
    queue: Queue,
}

impl Model for AutoResetEvent {
    ghost use Rattle.std.specs.Prelude.{◌≡◌, true, []};
    ghost use Rattle.band_event.specs.Event.{EventState};

    ghost Value = { EventState };

    ghost view = { λ e. record { is_set = e.is_set; queue = e.queue } };

    ghost invariant = { λ e. e.is_set ≡ true → e.queue.line.linked ≡ [] };
}

/// A wait for the signal. It must be ended by `cancel` or `lose`. Ports the future of `wait`.
pub struct AutoWait {
    wait: EventWait,
}

impl Model for AutoWait {
    ghost use Rattle.band_signal.specs.Waits.{Life};

    ghost Value = { Life };

    ghost view = { λ w. w.wait };
}

impl AutoResetEvent {
    /// An event without a signal, for which nobody waits.
    pub fn new(alloc: Global) -> AutoResetEvent
        ensures state { result ≡ new_event false }
        ensures sound { IsEvent result }
    {
        AutoResetEvent::with_state(alloc, false)
    }

    /// An event with a signal or without, for which nobody waits.
    pub fn with_state(alloc: Global, is_set: bool) -> AutoResetEvent
        ensures state { result ≡ new_event is_set }
        ensures sound { IsEvent result }
    {
        let queue = Queue::new(alloc);
        queue.touch();
        AutoResetEvent { is_set, queue }
    }

    /// Whether a signal is stored.
    pub fn is_set(&self) -> bool
        ensures stored { result ≡ self.now.is_set }
        ensures sound { IsEvent self.now }
    {
        self.queue.touch();
        self.is_set
    }

    /// Calls the first in line, and else stores the signal.
    pub fn set<L: Ledger>(&mut self, steps: &mut Steps<L>)
        ensures state { self.new ≡ signalled self.old }
        ensures stay { StayHere self.old.queue self.new.queue }
        ensures sound { IsEvent self.new }
        ensures visits { Visits 0 3 steps.old steps.new }
    {
        if !self.queue.call_first(steps) {
            self.is_set = true;
        }
    }

    /// Clears a stored signal.
    pub fn reset(&mut self)
        ensures state { self.new ≡ record self.old { is_set = false } }
        ensures sound { IsEvent self.new }
    {
        self.queue.touch();
        self.is_set = false;
    }

    /// Takes a stored signal, and tells whether there was one.
    pub fn try_wait(&mut self) -> bool
        ensures taken { result ≡ self.old.is_set }
        ensures state { self.new ≡ record self.old { is_set = false } }
        ensures sound { IsEvent self.new }
    {
        let was_set = self.is_set;
        self.reset();
        was_set
    }

    /// A wait for the signal, not polled yet.
    pub fn wait(&self) -> AutoWait
        ensures { result ≡ NotPolled }
    {
        AutoWait {
            wait: EventWait::new(),
        }
    }

    /// Takes the oldest waker to wake, if there is one.
    pub fn take_wake(&mut self) -> Option<Waker>
        ensures woken { TakesWake self.old.queue result self.new.queue }
        ensures set { self.new.is_set ≡ self.old.is_set }
        ensures sound { IsEvent self.new }
    {
        self.queue.take_wake()
    }
}

impl AutoWait {
    /// Takes a stored signal the first time, or joins the line, for which it may take memory. Later it asks whether it
    /// was called.
    pub fn poll<L: Ledger>(
        &mut self,
        event: &mut AutoResetEvent,
        waker: Waker,
        steps: &mut Steps<L>,
    ) -> Result<Poll<()>, PollError>
        requires { IsHere self.old event.old.queue }
        ensures polls { PollsAuto self.old waker event.old result self.new event.new }
        ensures here { IsHere self.new event.new.queue }
        ensures others { LeavesOthers self.old event.old.queue event.new.queue }
        ensures sound { IsEvent event.new }
        ensures visits { PollVisits self.old result steps.old steps.new }
    {
        if self.wait.is_not_polled() && event.is_set {
            event.reset();
            self.wait.finish();
            return Ok(Poll::Ready(()));
        }
        self.wait.poll(&mut event.queue, waker, steps)
    }

    /// Ends the wait, which is taken out. One that was called hands the signal on: it does `set`.
    pub fn cancel<L: Ledger>(self, event: &mut AutoResetEvent, steps: &mut Steps<L>)
        requires { IsHere self event.old.queue }
        ensures state { event.new ≡ cancelled_auto self event.old }
        ensures others { OthersStay self event.old.queue event.new.queue }
        ensures sound { IsEvent event.new }
        ensures visits { CancelVisits 6 self steps.old steps.new }
    {
        let AutoWait { wait } = self;
        if wait.cancel(&mut event.queue, steps) {
            event.set(steps);
        }
    }

    /// Ends the wait and leaves it registered, for an event that ends too.
    pub fn lose(self) {
        let AutoWait { wait } = self;
        wait.lose();
    }
}
