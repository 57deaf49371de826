//! The manual-reset event.
ghost use Rattle.std.specs.Prelude.{◌≡◌, ◌*◌, length, false};
ghost use Rattle.band_event.specs.Event.{new_event, IsEvent, IsHere, PollsManual, set_for_all, cancelled, StayHere, PollVisits, CancelVisits};
ghost use Rattle.band_line.specs.Visits.{Visits};
ghost use Rattle.band_signal.specs.Waits.{NotPolled, Finished};
ghost use Rattle.band_signal.specs.WaitQueue.{LeavesOthers, TakesWake};

use crate::queue::Queue;
use crate::wait::EventWait;
use band_base::{Poll, PollError, Steps, Waker};
use std::alloc::Global;
use std::marker::Model;
use std::sync::ledger::Ledger;

/// A signal that stays until it is reset, for all that wait. Ports `ManualResetEvent`, as a state that is changed by one call at a time.
#[derive(Drop)]
pub struct ManualResetEvent {
    is_set: bool,
    queue: Queue,
}

impl Model for ManualResetEvent {
    ghost use Rattle.std.specs.Prelude.{◌≡◌, true, []};
    ghost use Rattle.band_event.specs.Event.{EventState};

    ghost Value = { EventState };

    ghost view = { λ e. record { is_set = e.is_set; queue = e.queue } };

    ghost invariant = { λ e. e.is_set ≡ true → e.queue.line.linked ≡ [] };
}

/// A wait until the event is set. It must be ended by `cancel` or `lose`. Ports the future of `wait`.
pub struct ManualWait {
    wait: EventWait,
}

impl Model for ManualWait {
    ghost use Rattle.band_signal.specs.Waits.{Life};

    ghost Value = { Life };

    ghost view = { λ w. w.wait };
}

impl ManualResetEvent {
    /// An event that is not set, for which nobody waits.
    pub fn new(alloc: Global) -> ManualResetEvent
        ensures state { result ≡ new_event false }
        ensures sound { IsEvent result }
    {
        ManualResetEvent::with_state(alloc, false)
    }

    /// An event that is set or not, for which nobody waits.
    pub fn with_state(alloc: Global, is_set: bool) -> ManualResetEvent
        ensures state { result ≡ new_event is_set }
        ensures sound { IsEvent result }
    {
        let queue = Queue::new(alloc);
        queue.touch();
        ManualResetEvent { is_set, queue }
    }

    /// Whether it is set.
    pub fn is_set(&self) -> bool
        ensures stored { result ≡ self.now.is_set }
        ensures sound { IsEvent self.now }
    {
        self.queue.touch();
        self.is_set
    }

    /// Sets the event, and calls all in line in its order. Where it is set it does nothing.
    pub fn set<L: Ledger>(&mut self, steps: &mut Steps<L>)
        ensures state { self.new ≡ set_for_all self.old }
        ensures stay { StayHere self.old.queue self.new.queue }
        ensures sound { IsEvent self.new }
        ensures visits { Visits 0 (3 * length self.old.queue.line.linked) steps.old steps.new }
    {
        self.queue.touch();
        if !self.is_set {
            self.queue.call_all(steps);
            self.is_set = true;
        }
    }

    /// The event is not set from then on. Who was called before stays so.
    pub fn reset(&mut self)
        ensures state { self.new ≡ record self.old { is_set = false } }
        ensures sound { IsEvent self.new }
    {
        self.queue.touch();
        self.is_set = false;
    }

    /// Whether it is set, which it stays.
    pub fn try_wait(&self) -> bool
        ensures set { result ≡ self.now.is_set }
        ensures sound { IsEvent self.now }
    {
        self.is_set()
    }

    /// A wait until it is set, not polled yet.
    pub fn wait(&self) -> ManualWait
        ensures { result ≡ NotPolled }
    {
        ManualWait {
            wait: EventWait::new(),
        }
    }

    /// Takes the oldest waker to wake, if there is one.
    pub fn take_wake(&mut self) -> Option<Waker>
        ensures woken { TakesWake self.old.queue result self.new.queue }
        ensures set { self.new.is_set ≡ self.old.is_set }
        ensures sound { IsEvent self.new }
    {
        self.queue.take_wake()
    }
}

impl ManualWait {
    /// Asks the first time whether the event is set, or joins the line, for which it may take memory. Later it asks
    /// whether it was called.
    pub fn poll<L: Ledger>(
        &mut self,
        event: &mut ManualResetEvent,
        waker: Waker,
        steps: &mut Steps<L>,
    ) -> Result<Poll<()>, PollError>
        requires { IsHere self.old event.old.queue }
        ensures polls { PollsManual self.old waker event.old result self.new event.new }
        ensures here { IsHere self.new event.new.queue }
        ensures others { LeavesOthers self.old event.old.queue event.new.queue }
        ensures sound { IsEvent event.new }
        ensures visits { PollVisits self.old result steps.old steps.new }
    {
        if self.wait.is_not_polled() && event.is_set {
            event.queue.touch();
            self.wait.finish();
            return Ok(Poll::Ready(()));
        }
        self.wait.poll(&mut event.queue, waker, steps)
    }

    /// Ends the wait, which is taken out.
    pub fn cancel<L: Ledger>(self, event: &mut ManualResetEvent, steps: &mut Steps<L>)
        requires { IsHere self event.old.queue }
        ensures state { event.new ≡ record event.old { queue = cancelled self event.old.queue } }
        ensures others { LeavesOthers self event.old.queue event.new.queue }
        ensures sound { IsEvent event.new }
        ensures visits { CancelVisits 5 self steps.old steps.new }
    {
        let ManualWait { wait } = self;
        wait.cancel(&mut event.queue, steps);
    }

    /// Ends the wait and leaves it registered, for an event that ends too.
    pub fn lose(self) {
        let ManualWait { wait } = self;
        wait.lose();
    }
}
