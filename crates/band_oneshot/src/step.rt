//! The steps of the two ends.

use band_base::Waker;

/// A step of one end: on the word, or on a slot that is its own.
#[derive(Clone, Copy, PartialEq, Eq)]
pub enum OneshotStep {
    /// The sender looks at the word.
    SenderLoad,
    /// The sender adds 1 to the word, to send.
    Add,
    /// The sender changes the lowest bit of the word, to end without a message.
    ExclusiveOr,
    /// The sender takes the waker that was left for it.
    TakeWaker,
    /// The sender says what came of the message, and ends.
    FinalSwap,
    /// The receiver looks at the word, to cancel or not.
    ReceiverLoad { cancel: bool },
    /// The receiver swaps in `DISCONNECTED`, and ends.
    Swap,
    /// The receiver stores `DISCONNECTED` after it found a message.
    Store,
    /// The receiver has this waker ready to leave.
    PutWaker(Waker),
    /// The receiver has its waker back for itself.
    TakeBack,
    /// The receiver exchanges `EMPTY` for `RECEIVING`, and leaves its waker.
    EmptyToReceiving,
    /// The receiver exchanges `RECEIVING` for `EMPTY`, and has its waker again.
    ReceivingToEmpty,
    /// The receiver exchanges `AWAKING` for `DISCONNECTED`, to cancel.
    AwakingToDisconnected,
    /// The receiver exchanges `EMPTY` for `DISCONNECTED`, to cancel.
    EmptyToDisconnected,
    /// The receiver takes the message out of the channel.
    TakeMessage,
}
