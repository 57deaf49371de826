//! What the core answers to the steps of a call that is made while the other end makes none.

use super::calls::{Answer, Call};
use crate::*;
use band_base::Waker;
use std::process::Abort;

pub(crate) const MESSAGE_SENT: u32 = 40;

const LOOK: OneshotStep = OneshotStep::ReceiverLoad { cancel: false };

const CANCEL: OneshotStep = OneshotStep::ReceiverLoad { cancel: true };

fn take(rt: &impl Abort, core: &mut OneshotState, step: OneshotStep) {
    assert!(rt; core.step(step));
}

/// The first part of the sender's last call.
fn begin(rt: &impl Abort, core: &mut OneshotState, first: OneshotStep) -> Answer {
    let found = core.word;
    take(rt, core, first);
    if found == RECEIVING {
        take(rt, core, OneshotStep::TakeWaker);
        return match core.waker {
            WakerPlace::Sender(waker) => Answer::Awaking(waker.0),
            _ => Answer::Never,
        };
    }
    if core.message == Place::HandedBack {
        return Answer::Refused(MESSAGE_SENT);
    }
    Answer::Wake(None)
}

/// The final swap.
fn finish(rt: &impl Abort, core: &mut OneshotState) -> Answer {
    let found = core.word;
    take(rt, core, OneshotStep::FinalSwap);
    match core.waker {
        WakerPlace::Sender(waker) if found == AWAKING => Answer::Wake(Some(waker.0)),
        _ => Answer::Wake(None),
    }
}

/// The sender's last call.
fn end_sender(rt: &impl Abort, core: &mut OneshotState, first: OneshotStep) -> Answer {
    match begin(rt, core, first) {
        Answer::Awaking(_) => finish(rt, core),
        answer => answer,
    }
}

/// Receives a message that was found.
fn receive(rt: &impl Abort, core: &mut OneshotState) -> Answer {
    take(rt, core, OneshotStep::Store);
    take(rt, core, OneshotStep::TakeMessage);
    Answer::Message(MESSAGE_SENT)
}

fn try_receive(rt: &impl Abort, core: &mut OneshotState) -> Answer {
    take(rt, core, LOOK);
    match core.word {
        MESSAGE => receive(rt, core),
        EMPTY => Answer::Empty,
        _ => Answer::Disconnected,
    }
}

fn poll(rt: &impl Abort, core: &mut OneshotState, waker: u64) -> Answer {
    take(rt, core, LOOK);
    if core.word == RECEIVING {
        take(rt, core, OneshotStep::ReceivingToEmpty);
        take(rt, core, OneshotStep::TakeBack);
    }
    match core.word {
        EMPTY => {
            take(rt, core, OneshotStep::PutWaker(Waker(waker)));
            take(rt, core, OneshotStep::EmptyToReceiving);
            Answer::Pending
        }
        AWAKING => Answer::Again(waker),
        MESSAGE => receive(rt, core),
        _ => Answer::Disconnected,
    }
}

/// What the receiver hands over as it ends, by the word that its last step found.
fn hand_over(rt: &impl Abort, core: &mut OneshotState, found: u8) -> Answer {
    if found != MESSAGE {
        return Answer::HandsOver(None);
    }
    take(rt, core, OneshotStep::TakeMessage);
    Answer::HandsOver(Some(MESSAGE_SENT))
}

fn cancel(rt: &impl Abort, core: &mut OneshotState) -> Answer {
    take(rt, core, CANCEL);
    if core.word == RECEIVING {
        take(rt, core, OneshotStep::ReceivingToEmpty);
        take(rt, core, OneshotStep::TakeBack);
        take(rt, core, CANCEL);
    }
    let found = core.word;
    match found {
        EMPTY => take(rt, core, OneshotStep::EmptyToDisconnected),
        AWAKING => take(rt, core, OneshotStep::AwakingToDisconnected),
        _ => {}
    }
    hand_over(rt, core, found)
}

/// What this call answers, of those that a drop doesn't make. The message sent is always the same.
pub(crate) fn core_call(rt: &impl Abort, core: &mut OneshotState, call: Call) -> Answer {
    match call {
        Call::IsReceiverGone => {
            take(rt, core, OneshotStep::SenderLoad);
            Answer::Is(core.word == DISCONNECTED)
        }
        Call::Send(_) => end_sender(rt, core, OneshotStep::Add),
        Call::BeginToSend(_) => begin(rt, core, OneshotStep::Add),
        Call::DisconnectSender => end_sender(rt, core, OneshotStep::ExclusiveOr),
        Call::BeginToDisconnect => begin(rt, core, OneshotStep::ExclusiveOr),
        Call::Finish => finish(rt, core),
        Call::HasMessage => {
            take(rt, core, LOOK);
            Answer::Is(core.word == MESSAGE)
        }
        Call::IsSenderGone => {
            take(rt, core, LOOK);
            Answer::Is(core.word == DISCONNECTED)
        }
        Call::TryReceive => try_receive(rt, core),
        Call::Poll(waker) => poll(rt, core, waker),
        Call::Disconnect => {
            let found = core.word;
            take(rt, core, OneshotStep::Swap);
            hand_over(rt, core, found)
        }
        Call::Cancel => cancel(rt, core),
        _ => Answer::Never,
    }
}
