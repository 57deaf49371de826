//! Worked runs of the core.

use crate::OneshotStep::{
    Add, AwakingToDisconnected, EmptyToDisconnected, EmptyToReceiving, ExclusiveOr, FinalSwap,
    PutWaker, ReceiverLoad, ReceivingToEmpty, SenderLoad, Store, Swap, TakeBack, TakeMessage,
    TakeWaker,
};
use crate::*;
use band_base::Waker;
use std::process::Abort;

const LOOK: OneshotStep = ReceiverLoad { cancel: false };

const CANCEL: OneshotStep = ReceiverLoad { cancel: true };

const FIRST: OneshotStep = PutWaker(Waker(1));

const SECOND: OneshotStep = PutWaker(Waker(2));

/// The state after these steps, each of which its end is at.
fn after(rt: &impl Abort, steps: &[OneshotStep]) -> OneshotState {
    let mut channel = OneshotState::new();
    for &step in steps {
        assert!(rt; channel.step(step));
    }
    channel
}

const SENDING: SenderStage = SenderStage::Awaking { sending: true };

const SILENT: SenderStage = SenderStage::Awaking { sending: false };

const TAKEN: WakerPlace = WakerPlace::Sender(Waker(1));

/// Steps, and each field of the state after them.
type Run = (
    &'static [OneshotStep],
    u8,
    Place,
    WakerPlace,
    SenderStage,
    ReceiverStage,
);

const RUNS: [Run; 12] = [
    (
        &[SenderLoad, Add],
        MESSAGE,
        Place::Channel,
        WakerPlace::Nowhere,
        SenderStage::Ended,
        ReceiverStage::Plain,
    ),
    (
        &[Add, LOOK, Store, TakeMessage],
        DISCONNECTED,
        Place::Receiver,
        WakerPlace::Nowhere,
        SenderStage::Ended,
        ReceiverStage::Plain,
    ),
    (
        &[Swap, Add],
        UNREAD,
        Place::HandedBack,
        WakerPlace::Nowhere,
        SenderStage::Ended,
        ReceiverStage::Ended,
    ),
    (
        &[ExclusiveOr, LOOK],
        DISCONNECTED,
        Place::Gone,
        WakerPlace::Nowhere,
        SenderStage::Ended,
        ReceiverStage::Plain,
    ),
    (
        &[LOOK, FIRST, EmptyToReceiving],
        RECEIVING,
        Place::Sender,
        WakerPlace::Channel(Waker(1)),
        SenderStage::Idle,
        ReceiverStage::Waiting,
    ),
    (
        &[
            FIRST,
            EmptyToReceiving,
            LOOK,
            ReceivingToEmpty,
            SECOND,
            EmptyToReceiving,
        ],
        RECEIVING,
        Place::Sender,
        WakerPlace::Channel(Waker(2)),
        SenderStage::Idle,
        ReceiverStage::Waiting,
    ),
    (
        &[FIRST, Add, EmptyToReceiving, TakeBack],
        MESSAGE,
        Place::Channel,
        WakerPlace::Nowhere,
        SenderStage::Ended,
        ReceiverStage::Plain,
    ),
    (
        &[
            FIRST,
            EmptyToReceiving,
            Add,
            TakeWaker,
            LOOK,
            ReceivingToEmpty,
        ],
        AWAKING,
        Place::Sender,
        TAKEN,
        SENDING,
        ReceiverStage::Waiting,
    ),
    (
        &[FIRST, EmptyToReceiving, Add, TakeWaker, FinalSwap],
        MESSAGE,
        Place::Channel,
        TAKEN,
        SenderStage::Ended,
        ReceiverStage::Waiting,
    ),
    (
        &[
            FIRST,
            EmptyToReceiving,
            Add,
            TakeWaker,
            CANCEL,
            AwakingToDisconnected,
            FinalSwap,
        ],
        MESSAGE,
        Place::Gone,
        TAKEN,
        SenderStage::Ended,
        ReceiverStage::Ended,
    ),
    (
        &[FIRST, EmptyToReceiving, ExclusiveOr, TakeWaker],
        AWAKING,
        Place::Sender,
        TAKEN,
        SILENT,
        ReceiverStage::Waiting,
    ),
    (
        &[
            FIRST,
            EmptyToReceiving,
            CANCEL,
            ReceivingToEmpty,
            TakeBack,
            CANCEL,
            EmptyToDisconnected,
        ],
        DISCONNECTED,
        Place::Sender,
        WakerPlace::Nowhere,
        SenderStage::Idle,
        ReceiverStage::Ended,
    ),
];

#[test]
fn runs_lead_to_their_states(rt: HostRuntime) {
    for (steps, word, message, waker, sender, receiver) in RUNS {
        let wanted = OneshotState {
            word,
            message,
            waker,
            sender,
            receiver,
        };
        assert!(rt; after(&rt, steps) == wanted);
    }
}

#[test]
fn a_step_out_of_turn_changes_nothing(rt: HostRuntime) {
    let rows: [(&[OneshotStep], OneshotStep); 6] = [
        (&[], FinalSwap),
        (&[], TakeMessage),
        (&[], ReceivingToEmpty),
        (&[Add], Add),
        (&[FIRST], LOOK),
        (&[FIRST, EmptyToReceiving, Add], FinalSwap),
    ];
    for (steps, step) in rows {
        let mut channel = after(&rt, steps);
        assert!(rt; !channel.step(step));
        assert!(rt; channel == after(&rt, steps));
    }
}
