//! What is counted of those that wait and of those granted.
ghost use Rattle.std.specs.Prelude.{◌≡◌, ◌+◌, ◌-◌, ◌<◌, ◌≤◌, ◌++◌, ◌∷◌, [], OnOk, MatchOption};
ghost use Rattle.band_balance.specs.Line.{u64_max};
ghost use Rattle.band_row.specs.Kept.Counts.{no_counts};

use band_base::{WakeLine, Waker};
use std::alloc::{AllocError, Global};
use std::marker::Model;

/// How many wait, how much was granted, and the wakers to wake, in memory that is made when somebody first has to wait.
#[derive(Drop)]
pub(crate) struct Counts {
    kept: Option<Box<Kept>>,
    alloc: Global,
}

#[derive(Drop)]
struct Kept {
    waiting: u64,
    granted_sum: u64,
    wakes: WakeLine,
}

impl Model for Counts {
    ghost use Rattle.band_row.specs.Kept.Counts.{CountsState, state_of};

    ghost Value = { CountsState };

    ghost view = { λ counts. state_of counts.kept };
}

impl Kept {
    fn new(alloc: Global) -> Kept
        ensures { result ≡ record { waiting = 0; granted_sum = 0; wakes = record { wakers = []; spare = 0 } } }
    {
        Kept {
            waiting: 0,
            granted_sum: 0,
            wakes: WakeLine::new(alloc),
        }
    }

    fn reserve(&mut self) -> Result<(), AllocError>
        ensures same { self.new ≡ record self.old { wakes = record self.old.wakes { spare = self.new.wakes.spare } } }
        ensures room { OnOk result (self.old.waiting < self.new.wakes.spare) }
        ensures below { OnOk result (self.old.waiting < u64_max) }
        ensures no_less { self.old.wakes.spare ≤ self.new.wakes.spare }
    {
        match self.waiting.checked_add(1) {
            Some(wanted) => self.wakes.reserve(wanted),
            None => Err(AllocError),
        }
    }
}

impl Counts {
    /// Nobody waits, and there is no room.
    pub(crate) fn new(alloc: Global) -> Counts
        ensures { result ≡ no_counts }
    {
        Counts { kept: None, alloc }
    }

    pub(crate) fn waiting(&self) -> u64
        ensures { result ≡ self.now.waiting }
    {
        match &self.kept {
            Some(kept) => kept.waiting,
            None => 0,
        }
    }

    pub(crate) fn granted_sum(&self) -> u64
        ensures { result ≡ self.now.granted_sum }
    {
        match &self.kept {
            Some(kept) => kept.granted_sum,
            None => 0,
        }
    }

    /// Makes room for the wake of one more that waits.
    pub(crate) fn reserve(&mut self) -> Result<(), AllocError>
        ensures same { self.new ≡ record self.old { wakes = record self.old.wakes { spare = self.new.wakes.spare } } }
        ensures room { OnOk result (self.old.waiting < self.new.wakes.spare) }
        ensures below { OnOk result (self.old.waiting < u64_max) }
        ensures no_less { self.old.wakes.spare ≤ self.new.wakes.spare }
    {
        match &mut self.kept {
            Some(kept) => kept.reserve(),
            None => {
                let mut kept = Kept::new(self.alloc);
                kept.reserve()?;
                self.kept = Some(Box::new(self.alloc, kept)?);
                Ok(())
            }
        }
    }

    /// One more waits, in room that was reserved.
    pub(crate) fn join(&mut self)
        requires room { self.old.waiting < self.old.wakes.spare }
        requires below { self.old.waiting < u64_max }
        ensures { self.new ≡ record self.old { waiting = self.old.waiting + 1 } }
    {
        match &mut self.kept {
            Some(kept) => kept.waiting += 1,
            None => unreachable!(),
        }
    }

    /// One waits no longer.
    pub(crate) fn leave(&mut self)
        requires { 0 < self.old.waiting }
        ensures { self.new ≡ record self.old { waiting = self.old.waiting - 1 } }
    {
        match &mut self.kept {
            Some(kept) => kept.waiting -= 1,
            None => unreachable!(),
        }
    }

    /// One that waited was granted so many, and is to be woken.
    pub(crate) fn grant(&mut self, size: u64, waker: Waker)
        requires waits { 0 < self.old.waiting }
        requires room { 0 < self.old.wakes.spare }
        requires fits { self.old.granted_sum + size ≤ u64_max }
        ensures { self.new ≡ record {
          waiting = self.old.waiting - 1;
          granted_sum = self.old.granted_sum + size;
          wakes = record { wakers = self.old.wakes.wakers ++ waker.0 ∷ []; spare = self.old.wakes.spare - 1 };
        } }
    {
        match &mut self.kept {
            Some(kept) => {
                kept.waiting -= 1;
                kept.granted_sum += size;
                kept.wakes.push(waker);
            }
            None => unreachable!(),
        }
    }

    /// One that waited waits no longer, and is to be woken.
    pub(crate) fn call(&mut self, waker: Waker)
        requires waits { 0 < self.old.waiting }
        requires room { 0 < self.old.wakes.spare }
        ensures { self.new ≡ record self.old {
          waiting = self.old.waiting - 1;
          wakes = record { wakers = self.old.wakes.wakers ++ waker.0 ∷ []; spare = self.old.wakes.spare - 1 };
        } }
    {
        match &mut self.kept {
            Some(kept) => {
                kept.waiting -= 1;
                kept.wakes.push(waker);
            }
            None => unreachable!(),
        }
    }

    /// So many that were granted are collected, or come back.
    pub(crate) fn collect(&mut self, size: u64)
        requires { size ≤ self.old.granted_sum }
        ensures { self.new ≡ record self.old { granted_sum = self.old.granted_sum - size } }
    {
        if let Some(kept) = &mut self.kept {
            kept.granted_sum -= size;
        }
    }

    /// Takes the oldest waker to wake, if there is one. The room stays.
    pub(crate) fn take_wake(&mut self) -> Option<Waker>
        ensures same { self.new ≡ record self.old { wakes = record self.old.wakes { wakers = self.new.wakes.wakers } } }
        ensures woken { MatchOption result
            ((self.old.wakes.wakers ≡ []) × (self.new.wakes.wakers ≡ []))
            (λ waker. self.old.wakes.wakers ≡ waker.0 ∷ self.new.wakes.wakers) }
    {
        match &mut self.kept {
            Some(kept) => kept.wakes.take_wake(),
            None => None,
        }
    }
}
