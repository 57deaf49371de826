//! The receiver.
ghost use Rattle.std.specs.Prelude.{◌≡◌, ◌↔◌, IsTrue, IsOk, IsSome, IsNone, IsErrOf};
ghost use Rattle.band_oneshot.specs.Calls.{TriesToReceive, DisconnectsReceiver};
ghost use Rattle.band_oneshot.specs.Ends.{receiver_looked};

use crate::end::{DISCONNECTED, EMPTY, End, MESSAGE};
use crate::recv::Recv;
use crate::spent::Spent;
use std::marker::Model;
use thiserror::Error;

/// The end that receives. Ports `Receiver`. To drop it is to disconnect, and a message that was not received is dropped.
pub struct Receiver<T> {
    pub(crate) end: End<T>,
}

impl<T> Model for Receiver<T> {
    ghost use Rattle.band_oneshot.specs.declared.view.ReceiverView.{ReceiverView};
    ghost use Rattle.band_oneshot.specs.Kept.Plays.{receiver_of};
    ghost use Rattle.band_oneshot.specs.Kept.Seats.{IsPlain};

    ghost Value = { ReceiverView T };

    ghost view = { λ r. receiver_of r.end.seat.me.0 };

    ghost invariant = { λ r. IsPlain r.end.seat.me };
}

impl<T: Drop> Drop for Receiver<T> {
    fn drop(self) {
        let (_message, _spent) = self.disconnect();
    }
}

/// Why there was no message. Ports `TryRecvError`.
#[derive(Clone, Debug, PartialEq, Eq, Drop, Error)]
pub enum TryRecvError {
    /// None is there, and the sender may still send one.
    #[error("receiving on an empty channel")]
    Empty,
    /// None will come: the sender ended without one, or it was received.
    #[error("receiving on a disconnected channel")]
    Disconnected,
}

impl<T: Drop> Receiver<T> {
    /// Whether no message will come. Where it is so, each receive answers `Disconnected` from then on.
    pub fn is_disconnected(&mut self) -> bool
        ensures looked { self.new ≡ receiver_looked self.new.word self.old }
        ensures found { IsTrue result ↔ (self.new.word ≡ DISCONNECTED) }
        ensures known_message { self.old.word ≡ MESSAGE → self.new.word ≡ MESSAGE }
        ensures known_end { self.old.word ≡ DISCONNECTED → self.new.word ≡ DISCONNECTED }
    {
        self.end.receiver_load() == DISCONNECTED
    }

    /// Whether a message is there. Where it is so, the next receive gives it.
    pub fn has_message(&mut self) -> bool
        ensures looked { self.new ≡ receiver_looked self.new.word self.old }
        ensures found { IsTrue result ↔ (self.new.word ≡ MESSAGE) }
        ensures known_message { self.old.word ≡ MESSAGE → self.new.word ≡ MESSAGE }
        ensures known_end { self.old.word ≡ DISCONNECTED → self.new.word ≡ DISCONNECTED }
    {
        self.end.receiver_load() == MESSAGE
    }

    /// Takes the message, if it is there.
    pub fn try_recv(&mut self) -> Result<T, TryRecvError>
        ensures receives { TriesToReceive self.old result self.new }
        ensures known_message { self.old.word ≡ MESSAGE → IsOk result }
        ensures known_end { self.old.word ≡ DISCONNECTED → IsErrOf result TryRecvError.Disconnected }
    {
        let found = self.end.receiver_load();
        if found == MESSAGE {
            self.end.store();
            return Ok(self.end.take_message());
        }
        if found == EMPTY {
            return Err(TryRecvError::Empty);
        }
        Err(TryRecvError::Disconnected)
    }

    /// A wait for the message. No step is made.
    pub fn into_future(self) -> Recv<T>
        ensures { result ≡ self }
    {
        let Receiver { end } = self;
        Recv { end }
    }

    /// Ends, as a drop does in Rust, and hands over a message that was not received.
    pub fn disconnect(self) -> (Option<T>, Spent<T>)
        ensures disconnects { DisconnectsReceiver self result.0 result.1 }
        ensures known_message { self.word ≡ MESSAGE → IsSome result.0 }
        ensures known_end { self.word ≡ DISCONNECTED → IsNone result.0 }
    {
        let Receiver { mut end } = self;
        if end.swap() == MESSAGE {
            let message = end.take_message();
            return (Some(message), end.into_spent());
        }
        (None, end.into_spent())
    }
}
