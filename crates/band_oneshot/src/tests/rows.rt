//! Worked rows: calls of the two ends with what they are to answer, on one thread and each in a thread of its own.

use super::calls::{Answer, Call, Ends, ReceiverEnd, SenderEnd};
use crate::*;
use std::alloc::Global;
use std::process::Abort;
use std::thread;
use std::thread::Threads;

type Row = &'static [(Call, Answer)];

const ROWS: [Row; 14] = [
    // the receiver polls while the sender has its waker
    &[
        (Call::Poll(1), Answer::Pending),
        (Call::BeginToSend(1234), Answer::Awaking(1)),
        (Call::Poll(2), Answer::Again(2)),
        (Call::Finish, Answer::Wake(Some(1))),
        (Call::Poll(3), Answer::Message(1234)),
    ],
    // it is cancelled there, or dropped
    &[
        (Call::Poll(1), Answer::Pending),
        (Call::BeginToSend(1234), Answer::Awaking(1)),
        (Call::Cancel, Answer::HandsOver(None)),
        (Call::Finish, Answer::Wake(None)),
    ],
    &[
        (Call::Poll(1), Answer::Pending),
        (Call::BeginToSend(1234), Answer::Awaking(1)),
        (Call::DropReceiver, Answer::Done),
        (Call::Finish, Answer::Wake(None)),
    ],
    // a message is received once
    &[
        (Call::TryReceive, Answer::Empty),
        (Call::Send(5), Answer::Wake(None)),
        (Call::HasMessage, Answer::Is(true)),
        (Call::TryReceive, Answer::Message(5)),
        (Call::IsSenderGone, Answer::Is(true)),
        (Call::TryReceive, Answer::Disconnected),
    ],
    // nobody is there to receive it
    &[
        (Call::Disconnect, Answer::HandsOver(None)),
        (Call::IsReceiverGone, Answer::Is(true)),
        (Call::Send(6), Answer::Refused(6)),
    ],
    &[
        (Call::DropReceiver, Answer::Done),
        (Call::IsReceiverGone, Answer::Is(true)),
        (Call::Send(6), Answer::Refused(6)),
    ],
    &[
        (Call::Poll(1), Answer::Pending),
        (Call::DropReceiver, Answer::Done),
        (Call::Send(6), Answer::Refused(6)),
    ],
    // the last waker is woken
    &[
        (Call::Poll(1), Answer::Pending),
        (Call::Poll(2), Answer::Pending),
        (Call::Send(5), Answer::Wake(Some(2))),
        (Call::Poll(3), Answer::Message(5)),
    ],
    // the sender ends without a message
    &[
        (Call::Poll(1), Answer::Pending),
        (Call::DisconnectSender, Answer::Wake(Some(1))),
        (Call::Poll(2), Answer::Disconnected),
        (Call::Poll(3), Answer::Disconnected),
    ],
    &[
        (Call::Poll(1), Answer::Pending),
        (Call::DropSender, Answer::Done),
        (Call::Poll(2), Answer::Disconnected),
    ],
    &[
        (Call::IsReceiverGone, Answer::Is(false)),
        (Call::DropSender, Answer::Done),
        (Call::TryReceive, Answer::Disconnected),
    ],
    // an unread message is handed over, or dropped
    &[
        (Call::Send(8), Answer::Wake(None)),
        (Call::Disconnect, Answer::HandsOver(Some(8))),
    ],
    &[
        (Call::IntoFuture, Answer::Done),
        (Call::Send(9), Answer::Wake(None)),
        (Call::Cancel, Answer::HandsOver(Some(9))),
    ],
    &[
        (Call::Send(8), Answer::Wake(None)),
        (Call::DropReceiver, Answer::Done),
    ],
];

fn play<R: Threads + Abort>(rt: &R, alloc: Global, row: Row, elsewhere: bool) {
    let (sender, receiver) = channel(alloc).expect(rt, "memory");
    let mut ends = Ends {
        sender: SenderEnd::Idle(sender),
        receiver: ReceiverEnd::Receiver(receiver),
    };
    for &(call, wanted) in row {
        let (answer, after) = if elsewhere {
            thread::join(rt, move || ends.call(call), || ()).0
        } else {
            ends.call(call)
        };
        ends = after;
        assert!(rt; answer == wanted);
    }
}

#[test]
fn rows_answer_as_worked_out(rt: HostRuntime) {
    for row in ROWS {
        play(&rt, rt.alloc(), row, false);
        play(&rt, rt.alloc(), row, true);
    }
}
