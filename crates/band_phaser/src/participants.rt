//! Participants that were registered together.
ghost use Rattle.std.specs.Prelude.{◌≡◌, ◌≤◌};
ghost use Rattle.band_phaser.specs.Phaser.{NextGives, without_parties};

use crate::{Phaser, PhaserParticipant};
use std::marker::Model;

/// Participants that were registered together and not yielded yet. It must be ended by `withdraw` or `lose`. Ports
/// `PhaserParticipants`.
pub struct PhaserParticipants {
    of: u64,
    remaining: u64,
}

impl Model for PhaserParticipants {
    ghost use Rattle.band_phaser.specs.Phaser.{Batch};

    ghost Value = { Batch };

    ghost view = { λ b. record { of = b.of; remaining = b.remaining } };
}

impl PhaserParticipants {
    pub(crate) fn new(of: u64, remaining: u64) -> PhaserParticipants
        ensures { result ≡ record { of = of; remaining = remaining } }
    {
        PhaserParticipants { of, remaining }
    }

    /// The number of their phaser.
    pub fn of(&self) -> u64
        ensures { result ≡ self.now.of }
    {
        self.of
    }

    /// How many are left.
    pub fn len(&self) -> u64
        ensures { result ≡ self.now.remaining }
    {
        self.remaining
    }

    /// The next participant, while one is left.
    pub fn next(&mut self) -> Option<PhaserParticipant>
        ensures { NextGives self.old result self.new }
    {
        if self.remaining == 0 {
            return None;
        }
        self.remaining -= 1;
        Some(PhaserParticipant::new(self.of))
    }

    /// Takes those that are left out of the phaser, in one event.
    pub fn withdraw(self, ph: &mut Phaser)
        requires number { self.of ≡ ph.old.number }
        requires counted { self.remaining ≤ ph.old.outstanding }
        ensures { ph.new ≡ without_parties self.remaining ph.old }
    {
        ph.withdraw_all(self.remaining);
        self.lose();
    }

    /// Ends the batch and leaves those in it registered, for a phaser that ends too.
    pub fn lose(self) {
        let PhaserParticipants {
            of: _,
            remaining: _,
        } = self;
    }
}
