//! What is written for replies and wakers.

use crate::Reply;
use crate::print::{push_reply, push_wake};
use band_base::{Refusal, Waker};
use std::test::Fail;

#[test]
fn prints_each_reply(rt: HostRuntime) -> Result<(), Fail> {
    let figures = Reply::Figures {
        available: 0,
        free: -2,
        waiting: 1,
        granted: 0,
        held: 18446744073709551615,
    };
    let table = [
        (Reply::Done, "ok\n"),
        (Reply::Ready, "ready\n"),
        (Reply::Pending, "pending\n"),
        (Reply::Nothing, "none\n"),
        (Reply::Closed, "closed\n"),
        (Reply::Drained(30), "drained 30\n"),
        (
            figures,
            "available 0 free -2 waiting 1 granted 0 held 18446744073709551615\n",
        ),
        (Reply::Refused(Refusal::Unknown), "refused unknown\n"),
        (Reply::Refused(Refusal::Kind), "refused kind\n"),
        (Reply::Refused(Refusal::Same), "refused same\n"),
        (Reply::Refused(Refusal::Taken), "refused taken\n"),
        (Reply::Refused(Refusal::Finished), "refused finished\n"),
        (Reply::Refused(Refusal::Other), "refused other\n"),
        (Reply::Refused(Refusal::Overflow), "refused overflow\n"),
        (Reply::Refused(Refusal::Debt), "refused debt\n"),
        (Reply::Refused(Refusal::Closed), "refused closed\n"),
    ];
    for (reply, line) in table {
        let mut text = String::new(rt.alloc());
        push_reply(&mut text, &reply)?;
        assert_eq!(rt; text.as_str(), line);
    }
    Ok(())
}

#[test]
fn prints_a_wake(rt: HostRuntime) -> Result<(), Fail> {
    let mut text = String::new(rt.alloc());
    push_wake(&mut text, Waker(8))?;
    assert_eq!(rt; text.as_str(), "wake 8\n");
    Ok(())
}
