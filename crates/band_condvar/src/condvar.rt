//! The condition variable.
ghost use Rattle.std.specs.Prelude.{◌≡◌, ◌*◌, length};
ghost use Rattle.band_signal.specs.WaitQueue.{new_queue, TakesWake};
ghost use Rattle.band_condvar.specs.Condvar.{IsCondvar, one_notified, all_notified, AllStay};
ghost use Rattle.band_condvar.specs.Waits.{Enqueue};
ghost use Rattle.band_line.specs.Visits.{Visits};

use crate::place::Place;
use crate::queue::Queue;
use crate::{CondWait, CondWaitWhile};
use band_base::{Steps, Waker};
use band_lock::LockGuard;
use std::alloc::Global;
use std::marker::Model;
use std::sync::ledger::Ledger;

/// Who waits for a change of what a mutex guards. Ports `Condvar`, as a state that is changed by one call at a time.
#[derive(Drop)]
pub struct Condvar {
    pub(crate) queue: Queue,
}

impl Model for Condvar {
    ghost use Rattle.band_condvar.specs.Condvar.{CondvarState};

    ghost Value = { CondvarState };

    ghost view = { λ c. c.queue };
}

impl Condvar {
    /// Nobody waits.
    pub fn new(alloc: Global) -> Condvar
        ensures state { result ≡ new_queue }
        ensures sound { IsCondvar result }
    {
        let queue = Queue::new(alloc);
        queue.touch();
        Condvar { queue }
    }

    /// Chooses the first in line, and wakes it. Where nobody is in line nothing changes, and nothing is stored.
    pub fn notify_one<L: Ledger>(&mut self, steps: &mut Steps<L>)
        ensures state { self.new ≡ one_notified self.old }
        ensures stay { AllStay self.old self.new }
        ensures sound { IsCondvar self.new }
        ensures visits { Visits 0 3 steps.old steps.new }
    {
        self.queue.call_first(Place::Chosen, steps);
    }

    /// Releases all in line, and wakes them in its order.
    pub fn notify_all<L: Ledger>(&mut self, steps: &mut Steps<L>)
        ensures state { self.new ≡ all_notified self.old }
        ensures stay { AllStay self.old self.new }
        ensures sound { IsCondvar self.new }
        ensures visits { Visits 0 (3 * length self.old.line.linked) steps.old steps.new }
    {
        self.queue.release_all(steps);
    }

    /// A wait that gives the guard back at its first poll, and has one again when it is ready.
    pub fn wait(&self, g: LockGuard) -> CondWait
        ensures { result ≡ record { of = g.of; stage = Enqueue g } }
    {
        CondWait::new(g)
    }

    /// A wait for as long as the condition answers true.
    pub fn wait_while<T, F: FnMut(&mut T) -> bool>(&self, g: LockGuard, cond: F) -> CondWaitWhile<F>
        ensures { result ≡ record { condition = cond; wait = record { of = g.of; stage = Enqueue g } } }
    {
        CondWaitWhile::new(CondWait::new(g), cond)
    }

    /// Takes the oldest waker to wake, if there is one.
    pub fn take_wake(&mut self) -> Option<Waker>
        ensures woken { TakesWake self.old result self.new }
        ensures sound { IsCondvar self.new }
    {
        self.queue.take_wake()
    }
}
