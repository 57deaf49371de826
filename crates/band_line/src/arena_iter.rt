//! The values of an arena, one after the other.
ghost use Rattle.std.specs.Prelude.{◌≡◌, map};
ghost use Rattle.std.specs.Iterator.{YieldsFirst, item_count};

use crate::store::Slot;
use std::marker::Model;
use std::vec;

/// The values of an arena by their slots, seen as those that are left. Ports `ArenaIter`.
#[derive(Drop)]
pub struct ArenaIter<T> {
    slots: vec::IntoIter<Slot<(), T>>,
}

impl<T> Model for ArenaIter<T> {
    ghost use Rattle.std.specs.Prelude.{List};
    ghost use Rattle.std.specs.Vec.Iter.{into_iter_items};

    ghost Value = { List T };

    ghost use Rattle.band_line.specs.Slots.{values_of};

    ghost view = { λ iter. values_of (into_iter_items iter.slots) };
}

impl<T> ArenaIter<T> {
    ghost use Rattle.band_line.specs.Slots.{values_of};

    pub(crate) fn new(slots: Vec<Slot<(), T>>) -> ArenaIter<T>
        ensures { result ≡ values_of slots.items }
    {
        ArenaIter {
            slots: slots.into_iter(),
        }
    }
}

impl<T: Drop> Iterator for ArenaIter<T> {
    type Item = T;

    ghost next_gives = { YieldsFirst (λ rest. rest) };

    ghost remaining = { item_count (λ rest. rest) };

    fn next(&mut self) -> Option<T> {
        while let Some(slot) = self.slots.next() {
            if let Slot::Occupied(_, value) = slot {
                return Some(value);
            }
        }
        None
    }
}
