//! Scripts that come and go piece by piece.

use crate::devices::{Lasts, Measured};
use crate::examples::{FIRST, FIRST_OUT, LOCKS, LOCKS_OUT, make_burst};
use crate::playing::play_on;
use band_base::{BytesIn, BytesOut, FailingIn, FailingOut, Source};
use std::test::Fail;

#[test]
fn plays_in_any_pieces(rt: HostRuntime) -> Result<(), Fail> {
    let burst = make_burst(rt.alloc(), 400)?;
    for gives in [1, 7, 4096] {
        for takes in [1, 3, usize::MAX] {
            let mut src = FailingIn::new(burst.script.as_bytes(), gives, &[]);
            let mut dst = FailingOut::new(rt.alloc(), takes, &[]);
            let said = play_on(rt.alloc(), &mut src, &mut dst, 10_000)?;
            assert_eq!(rt; said.as_str(), "403 lines");
            assert_eq!(rt; dst.bytes(), burst.written.as_bytes());
        }
    }
    Ok(())
}

#[test]
fn plays_a_start_in_any_pieces(rt: HostRuntime) -> Result<(), Fail> {
    for gives in [1, 7, 4096] {
        for takes in [1, 3, usize::MAX] {
            let mut src = FailingIn::new(LOCKS.as_bytes(), gives, &[]);
            let mut dst = FailingOut::new(rt.alloc(), takes, &[]);
            let said = play_on(rt.alloc(), &mut src, &mut dst, 1000)?;
            assert_eq!(rt; said.as_str(), "20 lines");
            assert_eq!(rt; dst.bytes(), LOCKS_OUT.as_bytes());
        }
    }
    Ok(())
}

#[test]
fn plays_in_small_pieces(rt: HostRuntime) -> Result<(), Fail> {
    let mut src = FailingIn::new(FIRST.as_bytes(), 1, &[]);
    let mut dst = FailingOut::new(rt.alloc(), 3, &[]);
    let said = play_on(rt.alloc(), &mut src, &mut dst, 100)?;
    assert_eq!(rt; said.as_str(), "5 lines");
    assert_eq!(rt; dst.bytes(), FIRST_OUT.as_bytes());
    Ok(())
}

// 111 bytes, which is the longest line that is a call.
const LONGEST: &str =
    "ask rrrrrrrrrrrrrrrrrrrrrrrrrrrrrrrr ssssssssssssssssssssssssssssssss 18446744073709551615 18446744073709551615";

#[test]
fn plays_a_line_that_is_cut(rt: HostRuntime) -> Result<(), Fail> {
    let mut script = String::from_str(
        rt.alloc(),
        "sem ssssssssssssssssssssssssssssssss 18446744073709551615\n",
    )?;
    script.push_str(LONGEST)?;
    let ends = [
        ("\n", "2 lines", "ok\nready\n"),
        ("", "malformed line 2", "ok\n"),
        (" \n", "malformed line 2", "ok\n"),
    ];
    for (end, outcome, written) in ends {
        let mut whole = String::from_str(rt.alloc(), script.as_str())?;
        whole.push_str(end)?;
        let mut src = FailingIn::new(whole.as_bytes(), 100, &[]);
        let mut dst = BytesOut::new(rt.alloc());
        let said = play_on(rt.alloc(), &mut src, &mut dst, 1000)?;
        assert_eq!(rt; said.as_str(), outcome);
        assert_eq!(rt; dst.bytes(), written.as_bytes());
    }
    Ok(())
}

#[test]
fn refuses_a_long_line_that_is_cut(rt: HostRuntime) -> Result<(), Fail> {
    let mut script = String::from_str(rt.alloc(), "sem s 1\n")?;
    for _ in 0..20 {
        script.push_str("aaaaaaaaaa")?;
    }
    let table = [
        ("\nstatus s\n", 1000, "malformed line 2"),
        ("", 1000, "malformed line 2"),
        ("", 100, "too long"),
    ];
    for (end, limit, outcome) in table {
        let mut whole = String::from_str(rt.alloc(), script.as_str())?;
        whole.push_str(end)?;
        let mut src = FailingIn::new(whole.as_bytes(), 7, &[]);
        let mut dst = BytesOut::new(rt.alloc());
        let said = play_on(rt.alloc(), &mut src, &mut dst, limit)?;
        assert_eq!(rt; said.as_str(), outcome);
        assert_eq!(rt; dst.bytes(), b"ok\n".as_slice());
    }
    Ok(())
}

#[test]
fn reads_at_most_4096_bytes(rt: HostRuntime) -> Result<(), Fail> {
    let mut script = String::new(rt.alloc());
    for _ in 0..600 {
        script.push_str("sem s 1\n")?;
    }
    let bytes = BytesIn::new(script.as_bytes());
    let mut src = Measured { bytes, longest: 0 };
    let mut dst = BytesOut::new(rt.alloc());
    let said = play_on(rt.alloc(), &mut src, &mut dst, 10_000)?;
    assert_eq!(rt; said.as_str(), "600 lines");
    assert_eq!(rt; src.longest, 4096);
    // "ok", then 599 times "refused taken".
    assert_eq!(rt; dst.bytes().len(), 8389);
    Ok(())
}

#[test]
fn writes_whole_lines(rt: HostRuntime) -> Result<(), Fail> {
    // One write for each piece in which a line ends.
    for (gives, ends) in [(48, "\n"), (24, "\n\n"), (1, "\n\n\n\n\n")] {
        let mut src = FailingIn::new(FIRST.as_bytes(), gives, &[]);
        let mut dst = Lasts(BytesOut::new(rt.alloc()));
        let said = play_on(rt.alloc(), &mut src, &mut dst, 100)?;
        assert_eq!(rt; said.as_str(), "5 lines");
        assert_eq!(rt; dst.0.bytes(), ends.as_bytes());
    }
    Ok(())
}

#[test]
fn writes_before_it_reads_again(rt: HostRuntime) -> Result<(), Fail> {
    let mut src = FailingIn::new(b"sem s 1\nsem t 1\n", 8, &[]);
    let mut dst = FailingOut::new(rt.alloc(), 99, &[1]);
    let said = play_on(rt.alloc(), &mut src, &mut dst, 100)?;
    assert_eq!(rt; said.as_str(), "write fault");
    let mut piece = [0; 100];
    let count = src.read(&mut piece)?;
    assert_eq!(rt; &piece[..count], b"sem t 1\n".as_slice());
    Ok(())
}

#[test]
fn reads_no_more_after_a_malformed_line(rt: HostRuntime) -> Result<(), Fail> {
    let mut src = FailingIn::new(b"sem\nsem t 1\n", 4, &[]);
    let mut dst = BytesOut::new(rt.alloc());
    let said = play_on(rt.alloc(), &mut src, &mut dst, 100)?;
    assert_eq!(rt; said.as_str(), "malformed line 1");
    let mut piece = [0; 100];
    let count = src.read(&mut piece)?;
    assert_eq!(rt; &piece[..count], b"sem ".as_slice());
    Ok(())
}
