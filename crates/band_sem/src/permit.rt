//! What a request is answered with.
ghost use Rattle.std.specs.Prelude.{◌≡◌, ◌≢◌, ◌+◌, ◌-◌, ◌<◌, ◌≤◌, ◌↔◌, IsNone, IfSome, IfNone, IsErr, IfErr, OnOk, OnErr};
ghost use Rattle.band_sem.specs.Permit.{Permit, new_permit};

use crate::MergeError;
use std::marker::Model;

/// Permits that are held. They go back by `Semaphore::drop_permit`, and must: a permit can't just be dropped.
pub struct SemaphorePermit {
    of: u64,
    count: u64,
}

impl Model for SemaphorePermit {
    ghost use Rattle.band_sem.specs.Permit.{Permit};

    ghost Value = { Permit };

    ghost view = { λ p. record { of = p.of; count = p.count } };
}

impl SemaphorePermit {
    /// Permits of the semaphore with this number, which the semaphore counts as held.
    pub(crate) fn new(of: u64, count: u64) -> SemaphorePermit
        ensures { result ≡ new_permit of count }
    {
        SemaphorePermit { of, count }
    }

    /// How many it stands for.
    pub fn permits(&self) -> u64
        ensures { result ≡ self.now.count }
    {
        self.count
    }

    /// The number of its semaphore.
    pub fn of(&self) -> u64
        ensures { result ≡ self.now.of }
    {
        self.of
    }

    /// Takes `n` of its permits into a token of their own, if there are as many.
    pub fn split(&mut self, n: u64) -> Option<SemaphorePermit>
        ensures beyond { IsNone result ↔ (self.old.count < n) }
        ensures new { IfSome result (λ other. other ≡ record self.old { count = n }) }
        ensures left { IfSome result (λ other. self.new ≡ record self.old { count = self.old.count - n }) }
        ensures none { IfNone result (self.new ≡ self.old) }
    {
        if self.count < n {
            return None;
        }
        self.count -= n;
        Some(SemaphorePermit::new(self.of, n))
    }

    /// Adds another token of the same semaphore to this one.
    pub fn merge(&mut self, other: SemaphorePermit) -> Result<(), MergeError>
        requires { self.old.of ≡ other.of → self.old.count + other.count ≤ u64.MAX }
        ensures other { IsErr result ↔ (self.old.of ≢ other.of) }
        ensures handed_back { IfErr result (λ e. e ≡ MergeError.OtherSemaphore other) }
        ensures merged { OnOk result (self.new ≡ record self.old { count = self.old.count + other.count }) }
        ensures err { OnErr result (self.new ≡ self.old) }
    {
        if self.of != other.of {
            return Err(MergeError::OtherSemaphore(other));
        }
        self.count += other.count;
        other.lose();
        Ok(())
    }

    /// Ends the token and leaves what it stands for counted, for a semaphore that ends too.
    pub fn lose(self) {
        let SemaphorePermit { of: _, count: _ } = self;
    }
}
