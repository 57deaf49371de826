//! The rule of a channel's table, and the names of its steps.
ghost use Rattle.band_oneshot.specs.declared.view.View.TheVariants as view;
ghost use Rattle.band_oneshot.specs.Kept.Plays.{Prepares, SenderLooks, Adds, Parts, SendsFinally, PartsFinally, ReceiverLooks, PollLooks, CancelLooks, Swaps, Stores, Leaves, Fetches, EndsAwaking, EndsEmpty};
ghost use Rattle.band_oneshot.specs.Kept.Rule.{ObeysRule};
ghost use Rattle.band_oneshot.specs.Ends.{new_sender, new_receiver};
ghost use Rattle.std.specs.Prelude.{false};

use crate::view::{Held, View};
use atomic_table::{Play, Split, TableRule};

/// The rule: the word, the slots and what the ends know belong together.
pub(crate) struct Law;

impl<T> TableRule<Option<Held<T>>, View<T>, ()> for Law {
    ghost holds = { λ _. ObeysRule };

    ghost first = { λ _. view.Whole false };
}

/// The one seat is cut into the two ends.
pub(crate) struct Ends;

impl<T> Split<View<T>> for Ends {
    ghost left = { λ _. view.Sends new_sender };

    ghost right = { λ _. view.Receives new_receiver };
}

/// The load before the split.
pub(crate) struct Prepare;

impl<T> Play<Option<Held<T>>, View<T>> for Prepare {
    ghost then = { λ _. Prepares };
}

/// The sender looks at the word.
pub(crate) struct SenderLook;

impl<T> Play<Option<Held<T>>, View<T>> for SenderLook {
    ghost then = { λ _. SenderLooks };
}

/// The sender adds 1.
pub(crate) struct AddOne;

impl<T> Play<Option<Held<T>>, View<T>> for AddOne {
    ghost then = { λ _. Adds };
}

/// The sender changes the lowest bit.
pub(crate) struct Part;

impl<T> Play<Option<Held<T>>, View<T>> for Part {
    ghost then = { λ _. Parts };
}

/// The sender swaps in `MESSAGE`.
pub(crate) struct SendFinally;

impl<T> Play<Option<Held<T>>, View<T>> for SendFinally {
    ghost then = { λ _. SendsFinally };
}

/// The sender swaps in `DISCONNECTED`.
pub(crate) struct PartFinally;

impl<T> Play<Option<Held<T>>, View<T>> for PartFinally {
    ghost then = { λ _. PartsFinally };
}

/// The receiver looks at the word.
pub(crate) struct ReceiverLook;

impl<T> Play<Option<Held<T>>, View<T>> for ReceiverLook {
    ghost then = { λ _. ReceiverLooks };
}

/// The receiver looks at the word to poll.
pub(crate) struct PollLook;

impl<T> Play<Option<Held<T>>, View<T>> for PollLook {
    ghost then = { λ _. PollLooks };
}

/// The receiver looks at the word to cancel.
pub(crate) struct CancelLook;

impl<T> Play<Option<Held<T>>, View<T>> for CancelLook {
    ghost then = { λ _. CancelLooks };
}

/// The receiver swaps in `DISCONNECTED`.
pub(crate) struct SwapOut;

impl<T> Play<Option<Held<T>>, View<T>> for SwapOut {
    ghost then = { λ _. Swaps };
}

/// The receiver stores `DISCONNECTED`.
pub(crate) struct StoreOut;

impl<T> Play<Option<Held<T>>, View<T>> for StoreOut {
    ghost then = { λ _ m put n. Stores m put n };
}

/// The receiver leaves its waker.
pub(crate) struct Leave;

impl<T> Play<Option<Held<T>>, View<T>> for Leave {
    ghost then = { λ _. Leaves };
}

/// The receiver has its waker back.
pub(crate) struct Fetch;

impl<T> Play<Option<Held<T>>, View<T>> for Fetch {
    ghost then = { λ _. Fetches };
}

/// The receiver ends while the sender has the waker.
pub(crate) struct EndAwaking;

impl<T> Play<Option<Held<T>>, View<T>> for EndAwaking {
    ghost then = { λ _. EndsAwaking };
}

/// The receiver ends while nothing is there.
pub(crate) struct EndEmpty;

impl<T> Play<Option<Held<T>>, View<T>> for EndEmpty {
    ghost then = { λ _. EndsEmpty };
}
