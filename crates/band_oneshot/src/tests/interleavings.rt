//! Six calls of the two ends in every order, on one thread, each compared with what the core answers to its steps.

use super::calls::{Answer, Call, Ends, ReceiverEnd, SenderEnd};
use super::core_calls::{MESSAGE_SENT, core_call};
use crate::*;
use std::alloc::Global;
use std::process::Abort;

const CALLS: [Call; 12] = [
    Call::IsReceiverGone,
    Call::Send(MESSAGE_SENT),
    Call::BeginToSend(MESSAGE_SENT),
    Call::DisconnectSender,
    Call::BeginToDisconnect,
    Call::Finish,
    Call::HasMessage,
    Call::IsSenderGone,
    Call::TryReceive,
    Call::Poll(9),
    Call::Disconnect,
    Call::Cancel,
];

/// Makes these calls of a new channel. Whether each end was at its call.
fn play(rt: &impl Abort, alloc: Global, calls: &[Call]) -> bool {
    let (sender, receiver) = channel(alloc).expect(rt, "memory");
    let mut ends = Ends {
        sender: SenderEnd::Idle(sender),
        receiver: ReceiverEnd::Receiver(receiver),
    };
    let mut core = OneshotState::new();
    for &call in calls {
        let (answer, after) = ends.call(call);
        ends = after;
        if answer == Answer::Never {
            return false;
        }
        assert!(rt; answer == core_call(rt, &mut core, call));
    }
    true
}

/// Every order of up to so many further calls, after the calls made. How many there are.
fn play_on(rt: &impl Abort, alloc: Global, made: &[Call], further: u32) -> u32 {
    if further == 0 {
        return 0;
    }
    let mut played: u32 = 0;
    for call in CALLS {
        let mut calls = Vec::new(alloc);
        calls.extend_from_slice(made).expect(rt, "memory");
        calls.push(call).expect(rt, "memory");
        if play(rt, alloc, &calls) {
            let later = play_on(rt, alloc, &calls, further - 1);
            played = played.wrapping_add(1).wrapping_add(later);
        }
    }
    played
}

// A new channel is at each call but `Finish` and `Cancel`, which makes 10. After a look or a receive each of these can follow,
// after a call that ends the sender 5, after a poll 7, and after the receiver's `disconnect` 5: 4 * 10 + 4 * 5 + 7 + 5.
const OF_ONE_CALL: u32 = 10;

const OF_TWO_CALLS: u32 = 72;

#[test]
fn every_order_of_six_calls_is_as_the_core_has_it(rt: HostRuntime) {
    assert!(rt; play_on(&rt, rt.alloc(), &[], 2) == OF_ONE_CALL + OF_TWO_CALLS);
    let _ = play_on(&rt, rt.alloc(), &[], 6);
}
