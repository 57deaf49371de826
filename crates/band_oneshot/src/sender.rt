//! The sender.
ghost use Rattle.std.specs.Prelude.{◌≡◌, ◌↔◌, IsTrue, IsErr, IsNone};
ghost use Rattle.band_oneshot.specs.Kept.Begun.{BeginsToSend, BeginsToPart, FindsNobody, LeavesNobody};
ghost use Rattle.band_oneshot.specs.Calls.{Sends, DisconnectsSender};
ghost use Rattle.band_oneshot.specs.Ends.{sender_looked};

use crate::awaking::{BegunToPart, BegunToSend, Parting, Sending};
use crate::end::{DISCONNECTED, EMPTY, End, RECEIVING};
use crate::spent::Spent;
use band_base::Waker;
use std::fmt;
use std::fmt::{Debug, Formatter};
use std::marker::Model;
use thiserror::Error;

/// The end that sends. Ports `Sender`. To drop it is to disconnect, but nobody wakes the receiver then: end it by `send` or
/// `disconnect`.
pub struct Sender<T> {
    pub(crate) end: End<T>,
}

impl<T> Model for Sender<T> {
    ghost use Rattle.std.specs.Prelude.{◌≡◌, [], ◌∷◌, None};
    ghost use Rattle.band_oneshot.specs.declared.view.SenderView.{SenderView};
    ghost use Rattle.band_oneshot.specs.Kept.Plays.{sender_of};
    ghost use Rattle.band_oneshot.specs.Kept.Seats.{IsIdle};

    ghost Value = { SenderView T };

    ghost view = { λ s. sender_of s.end.seat.me.0 };

    ghost invariant = { λ s. IsIdle s.end.seat.me × (s.end.seat.me.1 ≡ (0, None) ∷ []) };
}

impl<T: Drop> Drop for Sender<T> {
    fn drop(self) {
        let (_waker, _spent) = self.disconnect();
    }
}

/// The receiver was gone. Ports `SendError`.
#[derive(Drop, Error)]
#[error("sending on a disconnected channel")]
pub struct SendError<T> {
    message: T,
}

impl<T> Model for SendError<T> {
    ghost Value = { T };

    ghost view = { λ e. e.message };
}

impl<T> Debug for SendError<T> {
    fn fmt<W: fmt::Write>(&self, f: &mut Formatter<W>) -> fmt::Result {
        f.write_str("SendError(..)")
    }
}

impl<T> SendError<T> {
    /// The message that was not sent.
    pub fn as_inner(&self) -> &T
        ensures { result.now ≡ self.now }
    {
        &self.message
    }

    /// The message that was not sent.
    pub fn into_inner(self) -> T
        ensures { result ≡ self }
    {
        let SendError { message } = self;
        message
    }
}

impl<T: Drop> Sender<T> {
    /// Whether the receiver is gone. Where it is, a `send` is refused from then on.
    pub fn is_disconnected(&mut self) -> bool
        ensures looked { self.new ≡ sender_looked self.new.word self.old }
        ensures found { IsTrue result ↔ (self.new.word ≡ DISCONNECTED) }
        ensures known { self.old.word ≡ DISCONNECTED → self.new.word ≡ DISCONNECTED }
    {
        self.end.sender_load() == DISCONNECTED
    }

    /// Sends the message. Where the receiver waited, the waker comes back, to be woken.
    pub fn send(self, message: T) -> (Result<Option<Waker>, SendError<T>>, Spent<T>)
        ensures sends { Sends message self result.0 result.1 }
        ensures known { self.word ≡ DISCONNECTED → IsErr result.0 }
    {
        match self.begin_send(message) {
            BegunToSend::Ended(spent) => (Ok(None), spent),
            BegunToSend::Refused(message, spent) => (Err(SendError { message }), spent),
            BegunToSend::Awaking(sending, waker) => {
                let (woken, spent) = sending.finish();
                if woken {
                    (Ok(Some(waker)), spent)
                } else {
                    (Ok(None), spent)
                }
            }
        }
    }

    /// Ends without a message, as a drop does in Rust. Where the receiver waited, the waker comes back, to be woken.
    pub fn disconnect(self) -> (Option<Waker>, Spent<T>)
        ensures disconnects { DisconnectsSender self result.0 result.1 }
        ensures known { self.word ≡ DISCONNECTED → IsNone result.0 }
    {
        match self.begin_disconnect() {
            BegunToPart::Ended(spent) => (None, spent),
            BegunToPart::Awaking(parting, waker) => {
                let (woken, spent) = parting.finish();
                if woken {
                    (Some(waker), spent)
                } else {
                    (None, spent)
                }
            }
        }
    }

    /// The first part of `send`: up to the taking of the waker.
    pub(crate) fn begin_send(self, message: T) -> BegunToSend<T>
        ensures begins { BeginsToSend message self result }
        ensures known { FindsNobody self result }
    {
        let Sender { mut end } = self;
        end.put_message(message);
        let found = end.add();
        if found == EMPTY {
            return BegunToSend::Ended(end.into_spent());
        }
        if found == RECEIVING {
            let waker = end.take_waker();
            return BegunToSend::Awaking(Sending { end }, waker);
        }
        let message = end.take_message();
        BegunToSend::Refused(message, end.into_spent())
    }

    /// The first part of `disconnect`: up to the taking of the waker.
    pub(crate) fn begin_disconnect(self) -> BegunToPart<T>
        ensures begins { BeginsToPart self result }
        ensures known { LeavesNobody self result }
    {
        let Sender { mut end } = self;
        if end.exclusive_or() == RECEIVING {
            let waker = end.take_waker();
            return BegunToPart::Awaking(Parting { end }, waker);
        }
        BegunToPart::Ended(end.into_spent())
    }
}
