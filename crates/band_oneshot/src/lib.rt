//! A channel for one message between two running ends, over one atomic word.
#![tactic(auto)]

mod awaking;
mod end;
mod laws;
mod opening;
mod receiver;
mod recv;
mod rule;
mod sender;
mod spent;
mod state;
mod step;
#[cfg(test)]
mod tests;
mod view;
mod word;

pub use laws::{
    an_added_message_is_known, an_end_makes, found_words_stay, messages_move, runs_are_sound,
    wakers_move,
};
pub use opening::channel;
pub use receiver::{Receiver, TryRecvError};
pub use recv::{Recv, RecvError, RecvPoll};
pub use sender::{SendError, Sender};
pub use spent::Spent;
pub use state::{OneshotState, Place, ReceiverStage, SenderStage, WakerPlace};
pub use step::OneshotStep;
pub use word::{AWAKING, DISCONNECTED, EMPTY, MESSAGE, RECEIVING, UNREAD};
