//! A wait for the message.
ghost use Rattle.std.specs.Prelude.{◌≡◌, ◌≤◌, ◌∷◌, ◌⊎◌, IsSome, IsNone};
ghost use Rattle.atomic_table.specs.Table.{rest};
ghost use Rattle.band_oneshot.specs.declared.state.ReceiverStage.TheVariants as receiver;
ghost use Rattle.band_oneshot.specs.declared.view.WakerSlot.TheVariants as slot;
ghost use Rattle.band_oneshot.specs.Kept.Plays.{receiver_of};
ghost use Rattle.band_oneshot.specs.Kept.Rule.{Slot};
ghost use Rattle.band_oneshot.specs.Kept.Seats.{Receives, MayWait, MayCancel, IsResting};

use crate::end::{AWAKING, DISCONNECTED, EMPTY, End, MESSAGE, RECEIVING};
use crate::spent::Spent;
use band_base::Waker;
use std::marker::Model;
use thiserror::Error;

/// A wait for the message. Ports `Recv`. To drop it is to cancel it, and a message that was not received is dropped.
pub struct Recv<T> {
    pub(crate) end: End<T>,
}

impl<T> Model for Recv<T> {
    ghost use Rattle.band_oneshot.specs.declared.view.ReceiverView.{ReceiverView};
    ghost use Rattle.band_oneshot.specs.Kept.Plays.{receiver_of};
    ghost use Rattle.band_oneshot.specs.Kept.Seats.{IsResting};

    ghost Value = { ReceiverView T };

    ghost view = { λ r. receiver_of r.end.seat.me.0 };

    ghost invariant = { λ r. IsResting r.end.seat.me };
}

impl<T: Drop> Drop for Recv<T> {
    fn drop(self) {
        let (_message, _spent) = self.cancel();
    }
}

/// What a poll of a `Recv` answers.
#[derive(Drop)]
pub enum RecvPoll<T> {
    /// The wait is over.
    Ready(Result<T, RecvError>),
    /// The wait goes on, and the waker of this poll is left for the sender.
    Pending,
    /// The wait goes on. The sender is about to end it, and has taken an older waker: the one of this poll, which comes back,
    /// is to be woken at once.
    Again(Waker),
}

/// Why there is no message. Ports `RecvError`.
#[derive(Clone, Debug, PartialEq, Eq, Drop, Error)]
pub enum RecvError {
    /// None will come: the sender ended without one, or it was received.
    #[error("receiving on a disconnected channel")]
    Disconnected,
}

impl<T: Drop> Recv<T> {
    ghost use Rattle.band_oneshot.specs.Calls.{Polls, IsMessage, IsEnd, CancelsIn};

    /// Asks for the message, and where there is none yet leaves this waker for the sender.
    pub fn poll(&mut self, waker: Waker) -> RecvPoll<T>
        ensures polls { Polls waker self.old result self.new }
        ensures known_message { self.old.word ≡ MESSAGE → IsMessage result }
        ensures known_end { self.old.word ≡ DISCONNECTED → IsEnd result }
    {
        let found = self.end.poll_load();
        if found == EMPTY {
            return self.end.register(waker);
        }
        if found == RECEIVING {
            let now = self.end.receiving_to_empty();
            if now == RECEIVING {
                return self.end.register(waker);
            }
            return self.end.settle(now, waker);
        }
        self.end.settle(found, waker)
    }

    /// Ends the wait, as a drop does in Rust, and hands over a message that was not received. It makes at most three turns, each a
    /// load and at most one exchange.
    pub fn cancel(self) -> (Option<T>, Spent<T>)
        ensures cancels { CancelsIn 3 self result.0 result.1 }
        ensures known_message { self.word ≡ MESSAGE → IsSome result.0 }
        ensures known_end { self.word ≡ DISCONNECTED → IsNone result.0 }
    {
        let Recv { end } = self;
        end.cancel_within(3)
    }
}

/// What a turn of a cancel came to.
enum Turn<T> {
    /// The receiver has ended, with the message or without.
    Ended(Option<T>),
    /// The word was another by then.
    Failed,
}

impl<T: Drop> End<T> {
    ghost use Rattle.band_oneshot.specs.Calls.{CancelsIn};
    ghost use Rattle.band_oneshot.specs.Kept.Waits.{Settles, Registers, Turns, AnswersAfter, TurnsAfter, turns_left};

    /// Puts the waker into its slot, which is out, and tries to leave it there.
    fn register(&mut self, waker: Waker) -> RecvPoll<T>
        requires receives { Receives self.old.seat.me }
        requires stage { (receiver_of self.old.seat.me.0).stage ≡ receiver.Plain }
        requires has { (receiver_of self.old.seat.me.0).waker ≡ slot.Taken }
        requires empty { (receiver_of self.old.seat.me.0).word ≡ EMPTY }
        requires slot { (content : Slot T) × (self.old.seat.me.1 ≡ (1, content) ∷ rest self.old.seat.me.1) }
        ensures registers { Registers waker (receiver_of self.old.seat.me.0) result
            (receiver_of self.new.seat.me.0) }
        ensures resting { IsResting self.new.seat.me }
    {
        self.put_waker(waker);
        let found = self.empty_to_receiving(waker);
        if found == EMPTY {
            return RecvPoll::Pending;
        }
        self.drop_waker();
        self.settle(found, waker)
    }

    /// What a poll answers to a word that lets nobody wait.
    fn settle(&mut self, found: u64, waker: Waker) -> RecvPoll<T>
        requires receives { Receives self.old.seat.me }
        requires stage { MayWait (receiver_of self.old.seat.me.0) }
        requires found { (receiver_of self.old.seat.me.0).word ≡ found }
        requires words { (found ≡ AWAKING) ⊎ ((found ≡ MESSAGE) ⊎ (found ≡ DISCONNECTED)) }
        ensures settles { Settles waker found (receiver_of self.old.seat.me.0) result
            (receiver_of self.new.seat.me.0) }
        ensures resting { IsResting self.new.seat.me }
    {
        if found == MESSAGE {
            self.store();
            return RecvPoll::Ready(Ok(self.take_message()));
        }
        if found == AWAKING {
            return RecvPoll::Again(waker);
        }
        RecvPoll::Ready(Err(RecvError::Disconnected))
    }

    /// One turn of a cancel.
    fn cancel_turn(&mut self) -> Turn<T>
        requires receives { Receives self.old.seat.me }
        requires stage { MayCancel (receiver_of self.old.seat.me.0) }
        ensures turns { Turns (receiver_of self.old.seat.me.0) result (receiver_of self.new.seat.me.0) }
        ensures known { TurnsAfter (receiver_of self.old.seat.me.0).word result }
        ensures receives { Receives self.new.seat.me }
    {
        let found = self.cancel_load();
        if found == MESSAGE {
            return Turn::Ended(Some(self.take_message()));
        }
        if found == DISCONNECTED {
            return Turn::Ended(None);
        }
        if found == EMPTY {
            if self.empty_to_disconnected() == EMPTY {
                return Turn::Ended(None);
            }
            return Turn::Failed;
        }
        if found == AWAKING {
            if self.awaking_to_disconnected() == AWAKING {
                return Turn::Ended(None);
            }
            return Turn::Failed;
        }
        if self.receiving_to_empty() == RECEIVING {
            self.drop_waker();
        }
        Turn::Failed
    }

    /// Cancels in at most so many turns.
    fn cancel_within(self, turns: u8) -> (Option<T>, Spent<T>)
        requires receives { Receives self.seat.me }
        requires stage { MayCancel (receiver_of self.seat.me.0) }
        requires enough { turns_left (receiver_of self.seat.me.0).word ≤ turns }
        ensures cancels { CancelsIn turns (receiver_of self.seat.me.0) result.0 result.1 }
        ensures known { AnswersAfter (receiver_of self.seat.me.0).word result.0 }
    {
        let mut end = self;
        match end.cancel_turn() {
            Turn::Ended(message) => (message, end.into_spent()),
            Turn::Failed => end.cancel_within(turns - 1),
        }
    }
}
