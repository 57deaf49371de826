//! Sources, sinks and memory that fail.

use crate::devices::Full;
use crate::examples::{FIRST, FIRST_OUT};
use crate::playing::{play_on, play_word, run_on};
use band_base::{BytesIn, BytesOut, FailingIn, FailingOut};
use band_play::PlayFault;
use std::test::Fail;

#[test]
fn faults_have_texts(rt: HostRuntime) -> Result<(), Fail> {
    let table = [
        (PlayFault::Malformed(1), "malformed line 1"),
        (
            PlayFault::Malformed(u64::MAX),
            "malformed line 18446744073709551615",
        ),
        (PlayFault::TooLong, "too long"),
        (PlayFault::Read, "read fault"),
        (PlayFault::Write, "write fault"),
        (PlayFault::NoMemory, "no memory"),
    ];
    for (fault, text) in table {
        assert_eq!(rt; fault.to_string(rt.alloc())?.as_str(), text);
    }
    Ok(())
}

#[test]
fn tells_want_of_memory(rt: HostRuntime) -> Result<(), Fail> {
    let mut src = BytesIn::new(FIRST.as_bytes());
    let said = play_on(rt.alloc(), &mut src, &mut Full, 100)?;
    assert_eq!(rt; said.as_str(), "no memory");
    Ok(())
}

#[test]
fn tells_a_read_fault(rt: HostRuntime) -> Result<(), Fail> {
    let words = play_word(rt.alloc())?;
    let table = [
        (7, "read fault", 5, ""),
        (25, "read fault", 5, "ok\npending\n"),
        (48, "read fault", 5, FIRST_OUT),
        (49, "5 lines", 0, FIRST_OUT),
    ];
    for (reads, outcome, status, written) in table {
        let fail = [reads + 1];
        let mut src = FailingIn::new(FIRST.as_bytes(), 1, &fail);
        let mut dst = BytesOut::new(rt.alloc());
        let said = play_on(rt.alloc(), &mut src, &mut dst, 100)?;
        assert_eq!(rt; said.as_str(), outcome);
        assert_eq!(rt; dst.bytes(), written.as_bytes());
        let mut src = FailingIn::new(FIRST.as_bytes(), 1, &fail);
        let mut dst = BytesOut::new(rt.alloc());
        assert_eq!(rt; run_on(rt.alloc(), &words, &mut src, &mut dst), status);
        assert_eq!(rt; dst.bytes(), written.as_bytes());
    }
    Ok(())
}

#[test]
fn plays_what_came_before_a_read_fault(rt: HostRuntime) -> Result<(), Fail> {
    let mut src = FailingIn::new(b"sem s 1\nask a", 4096, &[2]);
    let mut dst = BytesOut::new(rt.alloc());
    let said = play_on(rt.alloc(), &mut src, &mut dst, 100)?;
    assert_eq!(rt; said.as_str(), "read fault");
    assert_eq!(rt; dst.bytes(), b"ok\n".as_slice());
    Ok(())
}

#[test]
fn tells_a_write_fault(rt: HostRuntime) -> Result<(), Fail> {
    let words = play_word(rt.alloc())?;
    let table = [
        (1, 0, "write fault", 6, ""),
        (1, 5, "write fault", 6, "ok\npending\npen"),
        (
            1,
            12,
            "write fault",
            6,
            "ok\npending\npending\nok\nwake 8\nrea",
        ),
        (1, 13, "5 lines", 0, FIRST_OUT),
        (48, 5, "write fault", 6, "ok\npending\npend"),
        (
            48,
            11,
            "write fault",
            6,
            "ok\npending\npending\nok\nwake 8\nread",
        ),
        (48, 12, "5 lines", 0, FIRST_OUT),
    ];
    for (gives, writes, outcome, status, written) in table {
        let fail = [writes + 1];
        let mut src = FailingIn::new(FIRST.as_bytes(), gives, &[]);
        let mut dst = FailingOut::new(rt.alloc(), 3, &fail);
        let said = play_on(rt.alloc(), &mut src, &mut dst, 100)?;
        assert_eq!(rt; said.as_str(), outcome);
        assert_eq!(rt; dst.bytes(), written.as_bytes());
        let mut src = FailingIn::new(FIRST.as_bytes(), gives, &[]);
        let mut dst = FailingOut::new(rt.alloc(), 3, &fail);
        assert_eq!(rt; run_on(rt.alloc(), &words, &mut src, &mut dst), status);
        assert_eq!(rt; dst.bytes(), written.as_bytes());
    }
    Ok(())
}

#[test]
fn keeps_what_was_written_before_a_write_fault(rt: HostRuntime) -> Result<(), Fail> {
    let mut src = BytesIn::new(b"sem s 1\n");
    let mut dst = FailingOut::new(rt.alloc(), 2, &[2]);
    let said = play_on(rt.alloc(), &mut src, &mut dst, 100)?;
    assert_eq!(rt; said.as_str(), "write fault");
    assert_eq!(rt; dst.bytes(), b"ok".as_slice());
    Ok(())
}
