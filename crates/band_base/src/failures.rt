//! Which calls of a device fail.
ghost use Rattle.std.specs.Prelude.{◌≡◌, ◌≤◌};
ghost use Rattle.band_base.specs.Failing.{new_calls, fails_next, counted};

use std::marker::Model;

/// The numbers of the calls that fail, from 1, and how many were made and failed.
#[derive(Drop)]
pub(crate) struct Failures<'a> {
    fail: &'a [u64],
    made: u64,
    failed: u64,
}

impl<'a> Model for Failures<'a> {
    ghost use Rattle.band_base.specs.Failing.{Calls};

    ghost Value = { Calls };

    ghost view = { λ s. record { fail = s.fail.now; made = s.made; failed = s.failed } };
}

impl<'a> Failures<'a> {
    /// No call was made yet.
    pub(crate) fn new(fail: &'a [u64]) -> Failures<'a>
        ensures { result ≡ new_calls fail.now }
    {
        Failures {
            fail,
            made: 0,
            failed: 0,
        }
    }

    /// Counts a call, and answers whether it fails.
    pub(crate) fn next_fails(&mut self) -> bool
        ensures fails { result ≡ fails_next self.old }
        ensures counted { self.new ≡ counted self.old }
        ensures never_fall { self.old.failed ≤ self.new.failed }
    {
        if self.made == u64::MAX {
            return false;
        }
        self.made += 1;
        let fails = self.fail.contains(&self.made);
        if fails {
            self.failed = self.failed.saturating_add(1);
        }
        fails
    }
}
