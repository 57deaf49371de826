//! What the time is.
ghost use Rattle.std.specs.Prelude.{◌≡◌, ℕ, ◌<◌, List, [], Option, None, Some, length};
ghost use Rattle.band_base.specs.Clock.{Reads};

use std::marker::Model;
use std::time::Clock as SystemClock;

/// What the time is, in moments. It stands for `std::time::Instant::now`.
pub trait Clock {
    /// The moment that was last read.
    ghost last: { Self → ℕ };

    /// The moments to come, where it tells them. Of those of one that tells none no clause says anything.
    ghost to_come: { Self → Option (List ℕ) };

    /// Reads the moment.
    fn now(&mut self) -> u64
        ensures last { result ≡ last self.new }
        ensures next { Reads result (to_come self.old) (to_come self.new) };
}

/// A clock that gives the moments of a list in order, and then its last again and again. It tells the moments to come.
#[derive(Drop)]
pub struct ListClock<'a> {
    moments: &'a [u64],
    last: u64,
}

impl<'a> Model for ListClock<'a> {
    ghost use Rattle.std.specs.Prelude.{◌<◌, length};
    ghost use Rattle.band_base.specs.Clock.{ListedMoments};

    ghost Value = { ListedMoments };

    ghost view = { λ c. record { to_come = c.moments.now; last = c.last } };

    ghost invariant = { λ c. 0 < length c.moments.now };
}

impl<'a> ListClock<'a> {
    /// A clock that has all of `moments` to come, and was read at moment 0.
    pub fn new(moments: &'a [u64]) -> ListClock<'a>
        requires { 0 < length moments.now }
        ensures { result ≡ record { to_come = moments.now; last = 0 } }
    {
        ListClock { moments, last: 0 }
    }
}

impl Clock for ListClock<'_> {
    ghost last = { λ c. c.last };

    ghost to_come = { λ c. Some c.to_come };

    fn now(&mut self) -> u64 {
        self.last = self.moments[0];
        if self.moments.len() > 1 {
            self.moments = &self.moments[1..];
        }
        self.last
    }
}

/// The system's clock, `RealClock::new(rt)`: its moments are nanoseconds from a start of its own, which the system takes
/// care never go back. It tells no moments to come. Where the system's clock fails, it answers its last moment, at first 0.
#[derive(Drop)]
pub struct RealClock<R> {
    system: R,
    last: u64,
}

impl<R> Model for RealClock<R> {
    ghost use Rattle.std.specs.Prelude.{ℕ};

    ghost Value = { ℕ };

    ghost view = { λ c. c.last };
}

impl<R: SystemClock> RealClock<R> {
    /// A clock that wasn't read yet.
    pub fn new(system: R) -> RealClock<R>
        ensures { result ≡ 0 }
    {
        RealClock { system, last: 0 }
    }
}

impl<R: SystemClock> Clock for RealClock<R> {
    ghost last = { λ c. c };

    ghost to_come = { λ _. None };

    fn now(&mut self) -> u64 {
        if let Ok(since_start) = self.system.monotonic() {
            self.last = u64::try_from(since_start.as_nanos()).unwrap_or(u64::MAX);
        }
        self.last
    }
}
