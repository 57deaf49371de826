//! A sender that found the receiver waiting, between the two parts of its last call.
ghost use Rattle.std.specs.Prelude.{◌≡◌, ◌∷◌, Some, true, false, if◌then◌else◌};
ghost use Rattle.atomic_table.specs.Table.{rest};
ghost use Rattle.band_oneshot.specs.declared.view.Held.TheVariants as held;
ghost use Rattle.band_oneshot.specs.declared.view.View.TheVariants as view;
ghost use Rattle.band_oneshot.specs.Ends.{sent_finally, parted_finally};
ghost use Rattle.band_oneshot.specs.Kept.Plays.{sender_of};

use crate::end::{AWAKING, DISCONNECTED, End};
use crate::spent::Spent;
use band_base::Waker;
use std::marker::Model;

/// In the midst of `send`: the message is in its slot, and the waker was taken. The word is `AWAKING`, or the receiver was
/// cancelled since.
pub(crate) struct Sending<T> {
    pub(crate) end: End<T>,
}

impl<T> Model for Sending<T> {
    ghost use Rattle.band_oneshot.specs.Kept.Rule.{Seated};
    ghost use Rattle.band_oneshot.specs.Kept.Seats.{IsSending};

    ghost Value = { Seated T };

    ghost view = { λ s. s.end.seat.me };

    ghost invariant = { λ s. IsSending s.end.seat.me };
}

impl<T: Drop> Drop for Sending<T> {
    fn drop(self) {
        let (_woken, _spent) = self.finish();
    }
}

/// In the midst of `disconnect`: the waker was taken. The word is `AWAKING`, or the receiver was cancelled since.
pub(crate) struct Parting<T> {
    pub(crate) end: End<T>,
}

impl<T> Model for Parting<T> {
    ghost use Rattle.band_oneshot.specs.Kept.Rule.{Seated};
    ghost use Rattle.band_oneshot.specs.Kept.Seats.{IsParting};

    ghost Value = { Seated T };

    ghost view = { λ p. p.end.seat.me };

    ghost invariant = { λ p. IsParting p.end.seat.me };
}

impl<T: Drop> Drop for Parting<T> {
    fn drop(self) {
        let (_woken, _spent) = self.finish();
    }
}

/// What the first part of `send` came to.
pub(crate) enum BegunToSend<T> {
    /// It ended.
    Ended(Spent<T>),
    /// It ended, and gave the message back.
    Refused(T, Spent<T>),
    /// It found the receiver waiting, and took its waker.
    Awaking(Sending<T>, Waker),
}

/// What the first part of a sender's `disconnect` came to.
pub(crate) enum BegunToPart<T> {
    /// It ended.
    Ended(Spent<T>),
    /// It found the receiver waiting, and took its waker.
    Awaking(Parting<T>, Waker),
}

impl<T: Drop> Sending<T> {
    /// The final swap of `send`. Whether the receiver is still there to be woken.
    pub(crate) fn finish(self) -> (bool, Spent<T>)
        ensures { (message : T) → self.1 ≡ (0, Some (held.Message message)) ∷ rest self.1
            → result.1 ≡ view.Sends (sent_finally message (if result.0 then AWAKING else DISCONNECTED)
            (sender_of self.0)) }
    {
        let Sending { mut end } = self;
        if end.send_finally() == AWAKING {
            return (true, end.into_spent());
        }
        drop(end.take_message());
        (false, end.into_spent())
    }
}

impl<T: Drop> Parting<T> {
    /// The final swap of `disconnect`. Whether the receiver is still there to be woken.
    pub(crate) fn finish(self) -> (bool, Spent<T>)
        ensures { result.1 ≡ view.Sends (parted_finally (if result.0 then AWAKING else DISCONNECTED)
            (sender_of self.0)) }
    {
        let Parting { mut end } = self;
        let woken = end.part_finally() == AWAKING;
        (woken, end.into_spent())
    }
}
