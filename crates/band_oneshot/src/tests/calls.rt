//! The calls of two ends, and what they answer, as plain data.

use crate::awaking::{BegunToPart, BegunToSend, Parting, Sending};
use crate::*;
use band_base::Waker;

/// A call of an end. The two parts of the sender's last call can be made apart.
#[derive(Clone, Copy, PartialEq, Eq)]
pub(crate) enum Call {
    IsReceiverGone,
    Send(u32),
    BeginToSend(u32),
    DisconnectSender,
    BeginToDisconnect,
    Finish,
    DropSender,
    HasMessage,
    IsSenderGone,
    TryReceive,
    IntoFuture,
    Poll(u64),
    Disconnect,
    Cancel,
    DropReceiver,
}

/// What a call answers.
#[derive(Clone, Copy, PartialEq, Eq)]
pub(crate) enum Answer {
    /// The end is not at this call, which isn't made.
    Never,
    Done,
    Is(bool),
    /// The sender has ended, and this waker is to be woken.
    Wake(Option<u64>),
    Refused(u32),
    /// The sender took this waker, and stands before its final swap.
    Awaking(u64),
    Message(u32),
    Empty,
    Disconnected,
    Pending,
    Again(u64),
    /// The receiver has ended, with the message that it hands over.
    HandsOver(Option<u32>),
}

#[derive(Drop)]
pub(crate) enum SenderEnd {
    Idle(Sender<u32>),
    Sending(Sending<u32>, Waker),
    Parting(Parting<u32>, Waker),
    Ended,
}

#[derive(Drop)]
pub(crate) enum ReceiverEnd {
    Receiver(Receiver<u32>),
    Recv(Recv<u32>),
    Ended,
}

/// Both ends of a channel.
#[derive(Drop)]
pub(crate) struct Ends {
    pub(crate) sender: SenderEnd,
    pub(crate) receiver: ReceiverEnd,
}

fn wake(waker: Option<Waker>) -> Answer {
    Answer::Wake(waker.map(|waker| waker.0))
}

fn call_idle(sender: Sender<u32>, call: Call) -> (Answer, SenderEnd) {
    match call {
        Call::IsReceiverGone => {
            let mut sender = sender;
            let gone = sender.is_disconnected();
            (Answer::Is(gone), SenderEnd::Idle(sender))
        }
        Call::Send(message) => {
            let (answer, _spent) = sender.send(message);
            match answer {
                Ok(waker) => (wake(waker), SenderEnd::Ended),
                Err(error) => (Answer::Refused(error.into_inner()), SenderEnd::Ended),
            }
        }
        Call::BeginToSend(message) => match sender.begin_send(message) {
            BegunToSend::Ended(_spent) => (Answer::Wake(None), SenderEnd::Ended),
            BegunToSend::Refused(message, _spent) => (Answer::Refused(message), SenderEnd::Ended),
            BegunToSend::Awaking(sending, waker) => {
                (Answer::Awaking(waker.0), SenderEnd::Sending(sending, waker))
            }
        },
        Call::DisconnectSender => {
            let (waker, _spent) = sender.disconnect();
            (wake(waker), SenderEnd::Ended)
        }
        Call::BeginToDisconnect => match sender.begin_disconnect() {
            BegunToPart::Ended(_spent) => (Answer::Wake(None), SenderEnd::Ended),
            BegunToPart::Awaking(parting, waker) => {
                (Answer::Awaking(waker.0), SenderEnd::Parting(parting, waker))
            }
        },
        Call::DropSender => {
            drop(sender);
            (Answer::Done, SenderEnd::Ended)
        }
        _ => (Answer::Never, SenderEnd::Idle(sender)),
    }
}

fn call_sender(sender: SenderEnd, call: Call) -> (Answer, SenderEnd) {
    match sender {
        SenderEnd::Idle(sender) => call_idle(sender, call),
        SenderEnd::Sending(sending, waker) => {
            if call != Call::Finish {
                return (Answer::Never, SenderEnd::Sending(sending, waker));
            }
            let (woken, _spent) = sending.finish();
            (
                wake(if woken { Some(waker) } else { None }),
                SenderEnd::Ended,
            )
        }
        SenderEnd::Parting(parting, waker) => {
            if call != Call::Finish {
                return (Answer::Never, SenderEnd::Parting(parting, waker));
            }
            let (woken, _spent) = parting.finish();
            (
                wake(if woken { Some(waker) } else { None }),
                SenderEnd::Ended,
            )
        }
        SenderEnd::Ended => (Answer::Never, SenderEnd::Ended),
    }
}

fn call_receiver(receiver: Receiver<u32>, call: Call) -> (Answer, ReceiverEnd) {
    let mut receiver = receiver;
    let answer = match call {
        Call::HasMessage => Answer::Is(receiver.has_message()),
        Call::IsSenderGone => Answer::Is(receiver.is_disconnected()),
        Call::TryReceive => match receiver.try_recv() {
            Ok(message) => Answer::Message(message),
            Err(TryRecvError::Empty) => Answer::Empty,
            Err(TryRecvError::Disconnected) => Answer::Disconnected,
        },
        Call::IntoFuture => return (Answer::Done, ReceiverEnd::Recv(receiver.into_future())),
        Call::Poll(_) => return call_recv(receiver.into_future(), call),
        Call::Disconnect => {
            let (message, _spent) = receiver.disconnect();
            return (Answer::HandsOver(message), ReceiverEnd::Ended);
        }
        Call::DropReceiver => {
            drop(receiver);
            return (Answer::Done, ReceiverEnd::Ended);
        }
        _ => Answer::Never,
    };
    (answer, ReceiverEnd::Receiver(receiver))
}

fn call_recv(recv: Recv<u32>, call: Call) -> (Answer, ReceiverEnd) {
    match call {
        Call::Poll(waker) => {
            let mut recv = recv;
            let answer = poll(&mut recv, waker);
            (answer, ReceiverEnd::Recv(recv))
        }
        Call::Cancel => {
            let (message, _spent) = recv.cancel();
            (Answer::HandsOver(message), ReceiverEnd::Ended)
        }
        Call::DropReceiver => {
            drop(recv);
            (Answer::Done, ReceiverEnd::Ended)
        }
        _ => (Answer::Never, ReceiverEnd::Recv(recv)),
    }
}

pub(crate) fn poll(recv: &mut Recv<u32>, waker: u64) -> Answer {
    match recv.poll(Waker(waker)) {
        RecvPoll::Ready(Ok(message)) => Answer::Message(message),
        RecvPoll::Ready(Err(RecvError::Disconnected)) => Answer::Disconnected,
        RecvPoll::Pending => Answer::Pending,
        RecvPoll::Again(waker) => Answer::Again(waker.0),
    }
}

impl Ends {
    /// The call, by the end whose it is.
    pub(crate) fn call(self, call: Call) -> (Answer, Ends) {
        let Ends { sender, receiver } = self;
        let (answer, sender) = call_sender(sender, call);
        if answer != Answer::Never {
            return (answer, Ends { sender, receiver });
        }
        let (answer, receiver) = match receiver {
            ReceiverEnd::Receiver(receiver) => call_receiver(receiver, call),
            ReceiverEnd::Recv(recv) => call_recv(recv, call),
            ReceiverEnd::Ended => (Answer::Never, ReceiverEnd::Ended),
        };
        (answer, Ends { sender, receiver })
    }
}
