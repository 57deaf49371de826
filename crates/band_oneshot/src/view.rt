//! What the two ends know of their channel, and what a slot has in it. But for `Held` no value of these types is made: contracts
//! alone see them.

use crate::state::{ReceiverStage, SenderStage};
use crate::step::OneshotStep;
use band_base::Waker;
use std::collections::LinkedList;

/// A step that an end made on the word, and the value that it found there.
pub struct Made {
    /// Which step it was.
    pub step: OneshotStep,
    /// What the word was before it.
    pub found: u8,
}

/// What became of the message, as far as the sender knows.
pub enum Sent<T> {
    /// It was not sent.
    Nothing,
    /// This message was put into the channel.
    Message(T),
    /// It was handed back.
    HandedBack,
    /// It was dropped, or never was.
    Gone,
}

/// What became of the slot for the waker, as far as the receiver knows.
pub enum WakerSlot {
    /// It was not used yet.
    Unused,
    /// The receiver has it for itself.
    Taken,
    /// This waker was left in it, for the sender.
    Left(Waker),
}

/// What the sender knows.
pub struct SenderView<T> {
    /// How far it is.
    pub stage: SenderStage,
    /// What became of the message.
    pub message: Sent<T>,
    /// The waker that it took out of the channel.
    pub waker: Option<Waker>,
    /// What its last step left of the word.
    pub word: u8,
    /// Its steps on the word, in order.
    pub made: LinkedList<Made>,
}

/// What the receiver knows.
pub struct ReceiverView<T> {
    /// How far it is.
    pub stage: ReceiverStage,
    /// The message that it took out of the channel.
    pub message: Option<T>,
    /// What became of the slot for the waker.
    pub waker: WakerSlot,
    /// What its last step left of the word.
    pub word: u8,
    /// Its steps on the word, in order.
    pub made: LinkedList<Made>,
}

/// What an end knows, whichever it is.
pub enum View<T> {
    /// The channel is not split yet. Whether the slot for the message was taken out for the sender.
    Whole(bool),
    /// The sender.
    Sends(SenderView<T>),
    /// The receiver.
    Receives(ReceiverView<T>),
}

/// What a slot of the channel has in it.
#[derive(Drop)]
pub enum Held<T> {
    /// A message.
    Message(T),
    /// The receiver's waker.
    Waker(Waker),
}
