//! The two ends step at once, each in a thread.

use super::calls::{Answer, poll};
use crate::*;
use std::test::Fail;
use std::thread;

const MOST_TURNS: u32 = 1_000_000;

/// Polls until the message is there, for so many turns at most.
fn poll_long(recv: Recv<u32>) -> (Answer, Recv<u32>) {
    let mut recv = recv;
    let mut answer = Answer::Pending;
    for turn in 0..MOST_TURNS {
        answer = poll(&mut recv, u64::from(turn));
        if answer == Answer::Message(7) {
            break;
        }
    }
    (answer, recv)
}

#[test]
fn a_message_goes_from_thread_to_thread(rt: HostRuntime) -> Result<(), Fail> {
    let (sender, receiver) = channel(rt.alloc())?;
    let recv = receiver.into_future();
    let (here, received_here) = thread::join(
        &rt,
        move || sender.send(7).0.is_ok(),
        move || poll_long(recv),
    );
    let (sender, receiver) = channel(rt.alloc())?;
    let recv = receiver.into_future();
    let (received_there, there) = thread::join(
        &rt,
        move || poll_long(recv),
        move || sender.send(7).0.is_ok(),
    );
    assert!(rt; here && there);
    for (early, recv) in [received_here, received_there] {
        let mut recv = recv;
        if early != Answer::Message(7) {
            assert!(rt; poll(&mut recv, 0) == Answer::Message(7));
        }
    }
    Ok(())
}
