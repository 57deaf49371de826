//! A request for permits.
ghost use Rattle.std.specs.Prelude.{◌≡◌, ◌+◌};
ghost use Rattle.band_sem.specs.Laws.{KeepsOrder, Leaves};
ghost use Rattle.band_sem.specs.Request.{new_request, NotPolled, Joined};
ghost use Rattle.band_sem.specs.Semaphore.{IsLike, IsLawful, IsOwn, Polls, FirstPoll, LaterPoll, cancelled, was_granted};
ghost use Rattle.band_line.specs.Visits.{Visits};
ghost use Rattle.band_sem.specs.Visits.{FewVisits, PollVisits, slots};
ghost use Rattle.band_sem.specs.Whole.{StaysWhole};

use crate::store::Entrance;
use crate::{Semaphore, SemaphorePermit};
use band_base::{Poll, PollError, Steps, Waker};
use band_line::WaiterId;
use band_row::Found;
use std::marker::Model;
use std::sync::ledger::Ledger;

/// What a request has come to.
#[derive(Drop)]
enum Progress {
    /// It was not polled yet.
    NotPolled,
    /// It has this slot of its semaphore, and waits, was granted or was ended.
    Joined(WaiterId),
    /// It gave its permits, or answered that the semaphore is closed.
    Finished,
}

/// A request for permits of one semaphore. It must be ended by `cancel` or `lose`. Ports the future of `acquire`.
pub struct Acquire {
    of: u64,
    size: u64,
    progress: Progress,
}

impl Model for Acquire {
    ghost use Rattle.band_sem.specs.Request.{Request};
    ghost use Rattle.band_sem.specs.Kept.Progress.{stage_of};

    ghost Value = { Request };

    ghost view = { λ r. record { of = r.of; size = r.size; stage = stage_of r.progress } };
}

impl Acquire {
    /// A request that was not polled.
    pub(crate) fn new(of: u64, size: u64) -> Acquire
        ensures { result ≡ new_request of size }
    {
        Acquire {
            of,
            size,
            progress: Progress::NotPolled,
        }
    }

    /// The number of its semaphore.
    pub fn of(&self) -> u64
        ensures { result ≡ self.now.of }
    {
        self.of
    }

    /// How many permits it asks for.
    pub fn requested(&self) -> u64
        ensures { result ≡ self.now.size }
    {
        self.size
    }

    /// Ends the state and leaves its request where it is, in the line or among those ended, as the semaphore ends too.
    pub fn lose(self) {
        let Acquire {
            of: _,
            size: _,
            progress: _,
        } = self;
    }

    /// Asks for the permits: the first time it may join the line, and later it asks whether it was granted. `Closed` says
    /// that the semaphore was closed before it was granted; it is finished then.
    pub fn poll_once<L: Ledger>(
        &mut self,
        sem: &mut Semaphore,
        waker: Waker,
        steps: &mut Steps<L>,
    ) -> Result<Poll<SemaphorePermit>, PollError>
        requires number { self.old.of ≡ sem.old.number }
        requires own { IsOwn self.old.stage self.old.size sem.old }
        ensures polls { Polls self.old waker.0 sem.old result self.new sem.new }
        ensures order { KeepsOrder sem.old.line sem.new.line }
        ensures lawful { IsLawful sem.new }
        ensures whole { StaysWhole sem.old sem.new }
        ensures visits { PollVisits self.old.stage result steps.old steps.new }
    {
        match &self.progress {
            Progress::NotPolled => self.poll_first(sem, waker, steps),
            Progress::Joined(slot) => {
                let slot = *slot;
                self.poll_later(sem, slot, waker, steps)
            }
            Progress::Finished => {
                sem.touch();
                Err(PollError::Finished)
            }
        }
    }

    /// Whether it was granted, and has not taken its permits yet. It leaves no waker.
    pub fn is_granted<L: Ledger>(&self, sem: &Semaphore, steps: &mut Steps<L>) -> bool
        requires number { self.now.of ≡ sem.now.number }
        requires own { IsOwn self.now.stage self.now.size sem.now }
        ensures granted { result ≡ was_granted self.now.stage sem.now }
        ensures visits { steps.new ≡ steps.old + slots self.now.stage }
    {
        match &self.progress {
            Progress::Joined(slot) => sem.is_granted(*slot, steps),
            Progress::NotPolled | Progress::Finished => false,
        }
    }

    fn poll_first<L: Ledger>(
        &mut self,
        sem: &mut Semaphore,
        waker: Waker,
        steps: &mut Steps<L>,
    ) -> Result<Poll<SemaphorePermit>, PollError>
        ensures polls { FirstPoll self.old waker.0 sem.old result self.new sem.new }
        ensures lawful { IsLawful sem.new }
        ensures visits { PollVisits NotPolled result steps.old steps.new }
    {
        match &sem.enter(self.size, waker, steps) {
            Ok(Entrance::Served) => {
                self.progress = Progress::Finished;
                Ok(Poll::Ready(SemaphorePermit::new(self.of, self.size)))
            }
            Ok(Entrance::Joined(slot)) => {
                self.progress = Progress::Joined(*slot);
                Ok(Poll::Pending)
            }
            Ok(Entrance::Closed) => {
                self.progress = Progress::Finished;
                Err(PollError::Closed)
            }
            Err(_) => Err(PollError::NoMemory),
        }
    }

    fn poll_later<L: Ledger>(
        &mut self,
        sem: &mut Semaphore,
        slot: WaiterId,
        waker: Waker,
        steps: &mut Steps<L>,
    ) -> Result<Poll<SemaphorePermit>, PollError>
        requires { IsOwn (Joined slot) self.old.size sem.old }
        ensures polls { LaterPoll slot self.old waker.0 sem.old result self.new sem.new }
        ensures lawful { IsLawful sem.new }
        ensures visits { Visits 1 2 steps.old steps.new }
    {
        match sem.poll_slot(slot, waker, steps) {
            Found::Granted(size) => {
                self.progress = Progress::Finished;
                Ok(Poll::Ready(SemaphorePermit::new(self.of, size)))
            }
            Found::Waits => Ok(Poll::Pending),
            Found::Ended => {
                self.progress = Progress::Finished;
                Err(PollError::Closed)
            }
        }
    }

    /// Ends the request. One that waits or was ended leaves, and one that was granted gives its permits back. Then the line settles.
    pub fn cancel<L: Ledger>(self, sem: &mut Semaphore, steps: &mut Steps<L>)
        requires number { self.of ≡ sem.old.number }
        requires own { IsOwn self.stage self.size sem.old }
        ensures state { IsLike (cancelled self.stage sem.old) sem.new }
        ensures others { Leaves self.stage sem.old sem.new }
        ensures order { KeepsOrder sem.old.line sem.new.line }
        ensures lawful { IsLawful sem.new }
        ensures whole { StaysWhole sem.old sem.new }
        ensures visits { FewVisits sem.old sem.new steps.old steps.new }
    {
        match &self.progress {
            Progress::Joined(slot) => sem.cancel(*slot, steps),
            Progress::NotPolled | Progress::Finished => sem.touch(),
        }
        self.lose();
    }
}
