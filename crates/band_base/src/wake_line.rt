//! The wakers to wake, with room kept for more.
ghost use Rattle.std.specs.Prelude.{◌≡◌, ◌-◌, ◌<◌, ◌≤◌, [], ◌∷◌, ◌++◌, IsOk, OnOk, OnErr, MatchOption};
ghost use Rattle.band_base.specs.WakeLine.{Wakes};

use crate::Waker;
use std::alloc::{AllocError, Global};
use std::collections::VecDeque;
use std::marker::Model;

/// The wakers that are still to be woken, the oldest first, with room for `spare` more.
#[derive(Drop)]
pub struct WakeLine {
    wakers: VecDeque<Waker>,
    spare: u64,
}

impl Model for WakeLine {
    ghost use Rattle.std.specs.Prelude.{◌+◌, ◌≤◌, map, length};
    ghost use Rattle.std.specs.VecDeque.{deque_capacity};
    ghost use Rattle.band_base.specs.WakeLine.{Wakes};

    ghost Value = { Wakes };

    ghost view = { λ a. record { wakers = map (λ w. w.0) a.wakers.items; spare = a.spare } };

    ghost invariant = { λ a. length a.wakers.items + a.spare ≤ deque_capacity a.wakers };
}

impl WakeLine {
    /// No waker, and no room.
    pub fn new(alloc: Global) -> WakeLine
        ensures { result ≡ record { wakers = []; spare = 0 } }
    {
        WakeLine {
            wakers: VecDeque::new(alloc),
            spare: 0,
        }
    }

    /// Makes room for `n` pushes that need no memory.
    pub fn reserve(&mut self, n: u64) -> Result<(), AllocError>
        ensures wakers { self.new.wakers ≡ self.old.wakers }
        ensures room { OnOk result (n ≤ self.new.spare) }
        ensures no_less { self.old.spare ≤ self.new.spare }
        ensures err { OnErr result (self.new ≡ self.old) }
        ensures enough { n ≤ self.old.spare → IsOk result }
    {
        if self.spare < n {
            self.wakers.reserve(n as usize)?;
            self.spare = n;
        }
        Ok(())
    }

    /// How many pushes need no memory.
    pub fn spare(&self) -> u64
        ensures { result ≡ self.now.spare }
    {
        self.spare
    }

    /// Adds a waker at the end, in room that was reserved.
    pub fn push(&mut self, waker: Waker)
        requires { 0 < self.old.spare }
        ensures { self.new ≡ record { wakers = self.old.wakers ++ waker.0 ∷ []; spare = self.old.spare - 1 } }
    {
        self.wakers.push_back_reserved(waker);
        self.spare -= 1;
    }

    /// Takes the oldest waker, if there is one. The room stays.
    pub fn take_wake(&mut self) -> Option<Waker>
        ensures { MatchOption result
            ((self.old.wakers ≡ []) × (self.new ≡ self.old))
            (λ waker. (self.old.wakers ≡ waker.0 ∷ self.new.wakers) × (self.new.spare ≡ self.old.spare)) }
    {
        self.wakers.pop_front()
    }
}
