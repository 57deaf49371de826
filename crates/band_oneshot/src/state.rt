//! The two ends and what is between them, as one plain state.
ghost use Rattle.std.specs.Prelude.{◌≡◌, true};
ghost use Rattle.band_oneshot.specs.Moves.{MovesMessage, MovesWakerBy, KeepsFoundWords};
ghost use Rattle.band_oneshot.specs.Step.{needs, does, after, start};
ghost use Rattle.band_oneshot.specs.Stages.{is_awaking, is_cancelling, is_with_receiver};
ghost use Rattle.band_oneshot.specs.Sound.{IsSound};
ghost use Rattle.band_oneshot.specs.Words.{is_senders};

use crate::step::OneshotStep;
use crate::word::{AWAKING, DISCONNECTED, EMPTY, MESSAGE, RECEIVING, UNREAD};
use band_base::Waker;

/// Where the message is.
#[derive(Clone, Copy, PartialEq, Eq)]
pub enum Place {
    /// With the sender, which may not have been given it yet.
    Sender,
    /// In the channel, for the receiver.
    Channel,
    /// The receiver took it.
    Receiver,
    /// `send` gave it back.
    HandedBack,
    /// It was dropped, or never was.
    Gone,
}

/// Where the receiver's waker is.
#[derive(Clone, Copy, PartialEq, Eq)]
pub enum WakerPlace {
    /// There is none.
    Nowhere,
    /// In the channel, for the sender.
    Channel(Waker),
    /// The sender took it.
    Sender(Waker),
    /// The receiver has it, and has not left it yet.
    Receiver(Waker),
}

/// How far the sender is.
#[derive(Clone, Copy, PartialEq, Eq)]
pub enum SenderStage {
    /// It has neither sent nor disconnected.
    Idle,
    /// It found that the receiver waits, and has yet to say what came of the message.
    Awaking { sending: bool },
    /// It makes no further step.
    Ended,
}

/// How far the receiver is.
#[derive(Clone, Copy, PartialEq, Eq)]
pub enum ReceiverStage {
    /// It doesn't wait.
    Plain,
    /// It left its waker.
    Waiting,
    /// It has its waker ready.
    Registering,
    /// It is being cancelled.
    Cancelling,
    /// It makes no further step, but for taking a message that it found.
    Ended,
}

/// A channel for one message: the word, and where the message, the waker and the two ends are.
#[derive(Clone, Copy, PartialEq, Eq)]
pub struct OneshotState {
    /// `EMPTY`, `RECEIVING`, `AWAKING`, `MESSAGE` or `DISCONNECTED`.
    pub word: u8,
    /// Where the message is.
    pub message: Place,
    /// Where the waker is.
    pub waker: WakerPlace,
    /// How far the sender is.
    pub sender: SenderStage,
    /// How far the receiver is.
    pub receiver: ReceiverStage,
}

impl OneshotState {
    /// A new channel: nobody has made a step.
    pub fn new() -> OneshotState
        ensures start { result ≡ start }
        ensures sound { IsSound result }
    {
        OneshotState {
            word: EMPTY,
            message: Place::Sender,
            waker: WakerPlace::Nowhere,
            sender: SenderStage::Idle,
            receiver: ReceiverStage::Plain,
        }
    }

    /// One step of one end. It answers false, and nothing changes, where that end is not at this step.
    pub fn step(&mut self, s: OneshotStep) -> bool
        ensures taken { result ≡ needs s self.old }
        ensures state { self.new ≡ after s self.old }
        ensures sound { IsSound self.old → IsSound self.new }
        ensures message { IsSound self.old → MovesMessage self.old.message self.new.message }
        ensures waker { MovesWakerBy s self.old.waker self.new.waker }
        ensures found_words { IsSound self.old → KeepsFoundWords (is_senders s) self.old self.new }
    {
        if !self.is_at(s) {
            return false;
        }
        self.make(s);
        true
    }

    fn is_at(&self, s: OneshotStep) -> bool
        ensures { result ≡ needs s self.now }
    {
        match s {
            OneshotStep::SenderLoad | OneshotStep::Add | OneshotStep::ExclusiveOr => {
                matches!(self.sender, SenderStage::Idle)
            }
            OneshotStep::TakeWaker => self.is_awaking()
                && matches!(self.waker, WakerPlace::Channel(_)),
            OneshotStep::FinalSwap => self.is_awaking()
                && matches!(self.waker, WakerPlace::Sender(_)),
            OneshotStep::ReceiverLoad { cancel: _ } => {
                !matches!(self.receiver, ReceiverStage::Ended) && !self.has_its_waker()
            }
            OneshotStep::Swap => matches!(self.receiver, ReceiverStage::Plain),
            OneshotStep::Store => {
                matches!(self.receiver, ReceiverStage::Plain | ReceiverStage::Waiting)
                    && self.word == MESSAGE
            }
            OneshotStep::PutWaker(_) => {
                matches!(
                    self.receiver,
                    ReceiverStage::Plain | ReceiverStage::Registering
                )
            }
            OneshotStep::TakeBack => self.has_its_waker(),
            OneshotStep::EmptyToReceiving => matches!(self.receiver, ReceiverStage::Registering),
            OneshotStep::ReceivingToEmpty => {
                matches!(
                    self.receiver,
                    ReceiverStage::Waiting | ReceiverStage::Cancelling
                )
            }
            OneshotStep::AwakingToDisconnected => self.is_cancelling(),
            OneshotStep::EmptyToDisconnected => self.is_cancelling() && !self.has_its_waker(),
            OneshotStep::TakeMessage => {
                matches!(self.message, Place::Channel)
                    && (self.word == DISCONNECTED || self.is_cancelling() && self.word == MESSAGE)
            }
        }
    }

    fn is_awaking(&self) -> bool
        ensures { result ≡ is_awaking self.now.sender }
    {
        matches!(self.sender, SenderStage::Awaking { sending: _ })
    }

    fn is_cancelling(&self) -> bool
        ensures { result ≡ is_cancelling self.now.receiver }
    {
        matches!(self.receiver, ReceiverStage::Cancelling)
    }

    fn has_its_waker(&self) -> bool
        ensures { result ≡ is_with_receiver self.now.waker }
    {
        matches!(self.waker, WakerPlace::Receiver(_))
    }

    fn make(&mut self, s: OneshotStep)
        ensures { self.new ≡ does s self.old }
    {
        match s {
            OneshotStep::SenderLoad => {}
            OneshotStep::Add => self.send(),
            OneshotStep::ExclusiveOr => self.disconnect(),
            OneshotStep::TakeWaker => self.hand_to_sender(),
            OneshotStep::FinalSwap => self.finish(),
            OneshotStep::ReceiverLoad { cancel } => {
                if cancel {
                    self.begin_to_cancel();
                }
            }
            OneshotStep::Swap => self.end_receiver(),
            OneshotStep::Store => {
                self.word = DISCONNECTED;
                self.receiver = ReceiverStage::Plain;
            }
            OneshotStep::PutWaker(waker) => {
                self.waker = WakerPlace::Receiver(waker);
                self.receiver = ReceiverStage::Registering;
            }
            OneshotStep::TakeBack => self.take_back(),
            OneshotStep::EmptyToReceiving => self.leave_waker(),
            OneshotStep::ReceivingToEmpty => self.fetch_waker(),
            OneshotStep::AwakingToDisconnected => {
                if self.word == AWAKING {
                    self.end_receiver();
                }
            }
            OneshotStep::EmptyToDisconnected => {
                if self.word == EMPTY {
                    self.end_receiver();
                }
            }
            OneshotStep::TakeMessage => self.take_message(),
        }
    }

    fn send(&mut self)
        ensures { self.new ≡ does OneshotStep.Add self.old }
    {
        if self.word == EMPTY {
            self.word = MESSAGE;
            self.message = Place::Channel;
            self.sender = SenderStage::Ended;
        } else if self.word == RECEIVING {
            self.word = AWAKING;
            self.sender = SenderStage::Awaking { sending: true };
        } else if self.word == DISCONNECTED {
            self.word = UNREAD;
            self.message = Place::HandedBack;
            self.sender = SenderStage::Ended;
        }
    }

    fn disconnect(&mut self)
        ensures { self.new ≡ does OneshotStep.ExclusiveOr self.old }
    {
        if self.word == EMPTY {
            self.word = DISCONNECTED;
            self.message = Place::Gone;
            self.sender = SenderStage::Ended;
        } else if self.word == RECEIVING {
            self.word = AWAKING;
            self.sender = SenderStage::Awaking { sending: false };
        } else if self.word == DISCONNECTED {
            self.word = UNREAD;
            self.message = Place::Gone;
            self.sender = SenderStage::Ended;
        }
    }

    fn hand_to_sender(&mut self)
        ensures { self.new ≡ does OneshotStep.TakeWaker self.old }
    {
        if let WakerPlace::Channel(waker) = self.waker {
            self.waker = WakerPlace::Sender(waker);
        }
    }

    fn finish(&mut self)
        ensures { self.new ≡ does OneshotStep.FinalSwap self.old }
    {
        let sending = matches!(self.sender, SenderStage::Awaking { sending: true });
        let arrives = sending && self.word == AWAKING;
        self.message = if arrives { Place::Channel } else { Place::Gone };
        self.word = if sending { MESSAGE } else { DISCONNECTED };
        self.sender = SenderStage::Ended;
    }

    fn begin_to_cancel(&mut self)
        ensures { self.new ≡ does (OneshotStep.ReceiverLoad true) self.old }
    {
        self.receiver = if self.word == DISCONNECTED {
            ReceiverStage::Ended
        } else {
            ReceiverStage::Cancelling
        };
    }

    fn end_receiver(&mut self)
        ensures { self.new ≡ does OneshotStep.Swap self.old }
    {
        self.word = DISCONNECTED;
        self.receiver = ReceiverStage::Ended;
    }

    fn take_back(&mut self)
        ensures { self.new ≡ does OneshotStep.TakeBack self.old }
    {
        self.waker = WakerPlace::Nowhere;
        if matches!(self.receiver, ReceiverStage::Registering) {
            self.receiver = ReceiverStage::Plain;
        }
    }

    fn leave_waker(&mut self)
        ensures { self.new ≡ does OneshotStep.EmptyToReceiving self.old }
    {
        if self.word == EMPTY {
            self.word = RECEIVING;
            self.receiver = ReceiverStage::Waiting;
            if let WakerPlace::Receiver(waker) = self.waker {
                self.waker = WakerPlace::Channel(waker);
            }
        }
    }

    fn fetch_waker(&mut self)
        ensures { self.new ≡ does OneshotStep.ReceivingToEmpty self.old }
    {
        if self.word == RECEIVING {
            self.word = EMPTY;
            if matches!(self.receiver, ReceiverStage::Waiting) {
                self.receiver = ReceiverStage::Registering;
            }
            if let WakerPlace::Channel(waker) = self.waker {
                self.waker = WakerPlace::Receiver(waker);
            }
        }
    }

    fn take_message(&mut self)
        ensures { self.new ≡ does OneshotStep.TakeMessage self.old }
    {
        self.message = Place::Receiver;
        if self.is_cancelling() {
            self.receiver = ReceiverStage::Ended;
        }
    }
}
