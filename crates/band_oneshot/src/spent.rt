//! What is left of an end.

use crate::end::EndSeat;
use std::marker::Model;

/// What is left of an end whose last call was made. It takes no bytes, and has no use but that contracts see what the end knew:
/// which steps its last call made on the word, and what they found.
#[derive(Drop)]
pub struct Spent<T> {
    pub(crate) seat: EndSeat<T>,
}

impl<T> Model for Spent<T> {
    ghost use Rattle.band_oneshot.specs.declared.view.View.{View};

    ghost Value = { View T };

    ghost view = { λ s. s.seat.me.0 };
}
