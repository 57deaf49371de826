//! How many permits are free, in words.
ghost use Rattle.std.specs.Prelude.{◌≡◌, pos, neg_ℤ, ◌≤ℤ◌};
ghost use Rattle.band_balance.specs.Line.{u64_max};

use std::marker::Model;

/// Permits that are free, or owed, in two words: a semaphore is then aligned as a word is.
#[derive(Drop)]
pub(crate) struct Balance {
    size: u64,
    owed: bool,
}

impl Model for Balance {
    ghost use Rattle.std.specs.Prelude.{ℤ, pos, neg_ℤ, if◌then◌else◌};

    ghost Value = { ℤ };

    ghost view = { λ b. if b.owed then neg_ℤ (pos b.size) else pos b.size };
}

impl Balance {
    /// So many are free.
    pub(crate) fn new(permits: u64) -> Balance
        ensures { result ≡ pos permits }
    {
        Balance {
            size: permits,
            owed: false,
        }
    }

    /// So many are free, or owed where it is negative.
    pub(crate) fn of(permits: i128) -> Balance
        requires owed { neg_ℤ (pos u64_max) ≤ℤ permits }
        requires free { permits ≤ℤ pos u64_max }
        ensures { result ≡ permits }
    {
        Balance {
            size: permits.unsigned_abs() as u64,
            owed: permits < 0,
        }
    }

    /// How many are free, negative where they are owed.
    pub(crate) fn get(&self) -> i128
        ensures { result ≡ self.now }
    {
        let size = i128::from(self.size);
        if self.owed { -size } else { size }
    }
}
