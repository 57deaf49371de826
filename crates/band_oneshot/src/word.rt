//! The values of the word.

/// Nobody waits, and no message is there.
pub const EMPTY: u8 = 3;

/// The receiver waits, and left its waker.
pub const RECEIVING: u8 = 0;

/// The sender has the waker, and is about to say what came of the message.
pub const AWAKING: u8 = 1;

/// The message is in the channel, or the receiver has ended.
pub const MESSAGE: u8 = 4;

/// No message is there, and none will come; or nobody is there to receive one.
pub const DISCONNECTED: u8 = 2;

/// What a sender's add or exclusive or leaves of `DISCONNECTED`, once both ends have ended. It is the number of `EMPTY`, and nobody reads it.
pub const UNREAD: u8 = 3;
