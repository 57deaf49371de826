//! The number of a slot.
ghost use Rattle.std.specs.Prelude.{◌≡◌, ◌<◌};
ghost use Rattle.band_line.specs.Arena.{slot_limit};

use std::marker::Model;

/// The number of a slot in its arena. Once the value there was removed, another value may get the same
/// number. Ports `SlotId`.
#[derive(Clone, Copy, PartialEq, Eq)]
pub struct SlotId {
    number: u32,
}

impl Model for SlotId {
    ghost use Rattle.std.specs.Prelude.{ℕ, ◌<◌};
    ghost use Rattle.band_line.specs.Arena.{slot_limit};

    ghost Value = { ℕ };

    ghost view = { λ id. id.number };

    ghost invariant = { λ id. id.number < slot_limit };

    ghost inverse = { λ number. record { number = number } };
}

impl SlotId {
    /// How many slots an arena may have. The two largest numbers of 32 bits stand for no slot.
    pub(crate) const LIMIT: u64 = u32::MAX as u64 - 1;

    pub(crate) fn at(index: u32) -> SlotId
        requires { index < slot_limit }
        ensures { result ≡ index }
    {
        SlotId { number: index }
    }

    pub(crate) fn number(self) -> u32
        ensures value { result ≡ self }
        ensures below { result < slot_limit }
    {
        self.number
    }

    pub(crate) fn index(self) -> usize
        ensures { result ≡ self }
    {
        self.number as usize
    }
}
