//! A wait's life.
ghost use Rattle.std.specs.Prelude.{◌≡◌, ◌↔◌, IsTrue, if◌then◌else◌};
ghost use Rattle.band_signal.specs.Waits.{NotPolled, Finished};
ghost use Rattle.band_signal.specs.WaitQueue.{LeavesOthers};
ghost use Rattle.band_event.specs.Event.{IsQueue, IsHere, PollsQueue, cancelled, was_called, PollVisits, CancelVisits};

use crate::queue::Queue;
use band_base::{Poll, PollError, Steps, Waker};
use band_line::WaiterId;
use std::marker::Model;
use std::sync::ledger::Ledger;

/// What a wait for an event has come to.
pub(crate) struct EventWait {
    id: Option<WaiterId>,
    is_finished: bool,
}

impl Model for EventWait {
    ghost use Rattle.band_signal.specs.Waits.{Life};
    ghost use Rattle.band_signal.specs.Kept.Registration.{life_at};

    ghost Value = { Life };

    ghost view = { λ w. life_at w.is_finished w.id };
}

impl EventWait {
    /// One that was not polled yet.
    pub(crate) fn new() -> EventWait
        ensures { result ≡ NotPolled }
    {
        EventWait {
            id: None,
            is_finished: false,
        }
    }

    /// Whether it was not polled yet.
    pub(crate) fn is_not_polled(&self) -> bool
        ensures { IsTrue result ↔ (self.now ≡ NotPolled) }
    {
        !self.is_finished && self.id.is_none()
    }

    /// It is over by this poll itself.
    pub(crate) fn finish(&mut self)
        ensures { self.new ≡ Finished }
    {
        self.is_finished = true;
    }

    /// Polls a wait where no signal is stored. The first time it may take memory.
    pub(crate) fn poll<L: Ledger>(
        &mut self,
        queue: &mut Queue,
        waker: Waker,
        steps: &mut Steps<L>,
    ) -> Result<Poll<()>, PollError>
        requires { IsHere self.old queue.old }
        ensures polls { PollsQueue self.old waker queue.old result self.new queue.new }
        ensures here { IsHere self.new queue.new }
        ensures others { LeavesOthers self.old queue.old queue.new }
        ensures queued { IsQueue queue.new }
        ensures visits { PollVisits self.old result steps.old steps.new }
    {
        if self.is_finished {
            queue.touch();
            return Err(PollError::Finished);
        }
        match self.id {
            Some(id) => {
                if queue.poll(id, waker, steps) {
                    self.is_finished = true;
                    return Ok(Poll::Ready(()));
                }
                Ok(Poll::Pending)
            }
            None => match queue.join(waker, steps) {
                Ok(id) => {
                    self.id = Some(id);
                    Ok(Poll::Pending)
                }
                Err(_) => Err(PollError::NoMemory),
            },
        }
    }

    /// Ends the wait, takes it out of the queue, and tells whether it had been called.
    pub(crate) fn cancel<L: Ledger>(self, queue: &mut Queue, steps: &mut Steps<L>) -> bool
        requires { IsHere self queue.old }
        ensures answer { result ≡ was_called self queue.old }
        ensures state { queue.new ≡ cancelled self queue.old }
        ensures others { LeavesOthers self queue.old queue.new }
        ensures queued { IsQueue queue.new }
        ensures visits { CancelVisits (if result then 3 else 5) self steps.old steps.new }
    {
        let EventWait { id, is_finished } = self;
        match id {
            Some(id) if !is_finished => queue.cancel(id, steps),
            _ => {
                queue.touch();
                false
            }
        }
    }

    /// Ends the wait and leaves it in the queue, for an event that ends too.
    pub(crate) fn lose(self) {
        let EventWait {
            id: _,
            is_finished: _,
        } = self;
    }
}
