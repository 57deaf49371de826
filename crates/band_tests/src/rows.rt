//! Whole scripts, and what they come to.

use crate::examples::{FIRST, FIRST_OUT, LOCKS, LOCKS_OUT, make_burst};
use crate::playing::{compare, play_on, play_word, run_on};
use band_base::{BytesIn, BytesOut, Source};
use band_play::bulk_script;
use std::test::Fail;

const REFUSED: &str = "sem s 1\nsem s 1\nask s s 1 1\npoll x 1\ndrop s\nask a s 0 1\npoll a 1\n";

const REFUSED_OUT: &str =
    "ok\nrefused taken\nrefused taken\nrefused unknown\nrefused kind\nready\nrefused finished\n";

#[test]
fn plays_on_amounts(rt: HostRuntime) -> Result<(), Fail> {
    let table = [
        (
            "sem s 1\nask a s 2 7\nask b s 1 8\ndrop a\nstatus s\npoll b 9\n",
            "ok\npending\npending\nok\nwake 8\navailable 0 free 0 waiting 0 granted 1 held 0\nready\n",
        ),
        (
            "sem s 1\nask a s 2 7\nstatus s\n",
            "ok\npending\navailable 0 free 1 waiting 1 granted 0 held 0\n",
        ),
        (
            "sem s 2\nask a s 2 1\nreduce s 1\nask b s 1 2\ndrop a\nstatus s\n",
            "ok\nready\nok\npending\nok\nwake 2\navailable 0 free 0 waiting 0 granted 1 held 0\n",
        ),
        (
            "sem s 1\nask a s 3 1\nreduce s 2\nask b s 1 2\ndrop a\nrelease s 2\n",
            "ok\npending\nok\npending\nok\nok\nwake 2\n",
        ),
        (
            "sem s 0\nask a s 3 1\nask z s 0 2\ntry y s 0\ntry x s 1\n",
            "ok\npending\nready\nok\nnone\n",
        ),
        (
            "sem s 18446744073709551615\ntry p s 1\nrelease s 1\ndrop p\nrelease s 0\n",
            "ok\nok\nrefused overflow\nok\nok\n",
        ),
        (
            "sem s 0\nreduce s 18446744073709551615\nreduce s 1\nstatus s\n",
            "ok\nok\nrefused debt\navailable 0 free -18446744073709551615 waiting 0 granted 0 held 0\n",
        ),
        (
            "sem s 5\ndrain s 3\ndrain s 9\nrelease s 1\nask a s 2 4\ndrain s 1\nsplit a b 0\n",
            "ok\ndrained 3\ndrained 2\nok\npending\ndrained 0\nrefused kind\n",
        ),
        (
            "sem s 2\nsem t 1\ntry p s 2\ntry q t 1\nsplit p r 3\nsplit p r 1\nmerge p q\nmerge p p\nmerge p r\nforget p\ndrop p\n",
            "ok\nok\nok\nok\nnone\nok\nrefused other\nrefused same\nok\nok\nrefused unknown\n",
        ),
        (
            "sem s 2\ntry p s 2\nforget p\ndrop p\nstatus s\n",
            "ok\nok\nok\nrefused unknown\navailable 0 free 0 waiting 0 granted 0 held 0\n",
        ),
        // Of nothing, and of all: in debt, and with 1 to be had.
        (
            "sem s 2\ntry p s 2\nreduce s 1\nask z s 0 5\ntry y s 0\ndrain s 0\nsplit p q 0\nsplit p r 2\ndrop p\nrelease s 0\nstatus s\ndrop r\ndrain s 0\nstatus s\n",
            "ok\nok\nok\nready\nok\ndrained 0\nok\nok\nok\nok\navailable 0 free -1 waiting 0 granted 0 held 2\nok\ndrained 0\navailable 1 free 1 waiting 0 granted 0 held 0\n",
        ),
    ];
    for (script, written) in table {
        compare(&rt, rt.alloc(), script, written)?;
    }
    Ok(())
}

#[test]
fn plays_on_closing(rt: HostRuntime) -> Result<(), Fail> {
    let table = [
        (
            "sem s 1\nask a s 2 7\nask b s 1 8\nclose s\nstatus s\npoll a 1\npoll a 1\ndrop b\nask c s 0 3\ntry d s 1\ndrain s 5\n",
            "ok\npending\npending\nok\nwake 7\nwake 8\navailable 1 free 1 waiting 0 granted 0 held 0\nclosed\nrefused unknown\nok\nrefused closed\nrefused closed\ndrained 1\n",
        ),
        (
            "sem s 1\nask a s 1 1\nask b s 1 2\ndrop a\nclose s\nclose s\npoll b 3\nreduce s 2\ndrop b\nstatus s\n",
            "ok\nready\npending\nok\nwake 2\nok\nok\nready\nok\nok\navailable 0 free -1 waiting 0 granted 0 held 0\n",
        ),
        (
            "sem s 1\nask a s 3 1\nreduce s 2\nclose s\nrelease s 2\nstatus s\n",
            "ok\npending\nok\nok\nwake 1\nok\navailable 1 free 1 waiting 0 granted 0 held 0\n",
        ),
        (
            "mutex m\nclose m\nclose x\n",
            "ok\nrefused kind\nrefused unknown\n",
        ),
    ];
    for (script, written) in table {
        compare(&rt, rt.alloc(), script, written)?;
    }
    Ok(())
}

#[test]
fn plays_on_locks(rt: HostRuntime) -> Result<(), Fail> {
    let table = [
        (LOCKS, LOCKS_OUT),
        (
            "mutex m\nlock a m 1\nlock b m 2\npoll b 9\ndrop a\npoll b 3\npoll b 3\n",
            "ok\nready\npending\npending\nok\nwake 9\nready\nrefused finished\n",
        ),
        (
            "rw l 3\nwrite w l 1\nread a l 2\nwrite x l 3\nread b l 4\ndowngrade w\ntryread c l\n",
            "ok\nready\npending\npending\npending\nok\nwake 2\nnone\n",
        ),
        (
            "rw l 1\nwrite w l 1\nread r l 2\ndowngrade w\ndrop w\n",
            "ok\nready\npending\nok\nok\nwake 2\n",
        ),
        (
            "sem s 1\nsem s 2\nask s s 1 1\nlock a s 1\ndrop s\npoll x 1\nask a s 1 1\nforget a\ndowngrade a\ndrain s 5\n",
            "ok\nrefused taken\nrefused taken\nrefused kind\nrefused kind\nrefused unknown\nready\nok\nrefused unknown\ndrained 0\n",
        ),
    ];
    for (script, written) in table {
        compare(&rt, rt.alloc(), script, written)?;
    }
    Ok(())
}

#[test]
fn wakes_a_burst_in_order(rt: HostRuntime) -> Result<(), Fail> {
    let burst = make_burst(rt.alloc(), 65)?;
    compare(
        &rt,
        rt.alloc(),
        burst.script.as_str(),
        burst.written.as_str(),
    )?;
    Ok(())
}

#[test]
fn plays_scripts(rt: HostRuntime) -> Result<(), Fail> {
    let table = [
        ("", 100, "0 lines", ""),
        (REFUSED, 100, "7 lines", REFUSED_OUT),
        (FIRST, 100, "5 lines", FIRST_OUT),
        ("sem s 1\n\n", 100, "malformed line 2", "ok\n"),
        ("sem s 01\n", 100, "malformed line 1", ""),
        ("rw l 0\n", 100, "malformed line 1", ""),
        ("sem s 1", 100, "malformed line 1", ""),
        ("sem s 1\nsem t 1\n", 8, "too long", "ok\n"),
        ("sem s 1\nsem t 1\n", 16, "2 lines", "ok\nok\n"),
    ];
    for (script, limit, outcome, written) in table {
        let mut dst = BytesOut::new(rt.alloc());
        let said = play_on(
            rt.alloc(),
            &mut BytesIn::new(script.as_bytes()),
            &mut dst,
            limit,
        )?;
        assert_eq!(rt; said.as_str(), outcome);
        assert_eq!(rt; dst.bytes(), written.as_bytes());
    }
    Ok(())
}

#[test]
fn answers_a_status(rt: HostRuntime) -> Result<(), Fail> {
    let words = play_word(rt.alloc())?;
    let table = [
        ("", 0, ""),
        (FIRST, 0, FIRST_OUT),
        ("sem s 1\n\n", 3, "ok\n"),
        ("sem s 01\n", 3, ""),
        ("rw l 0\n", 3, ""),
        ("sem s 1", 3, ""),
    ];
    for (script, status, written) in table {
        let mut dst = BytesOut::new(rt.alloc());
        let mut src = BytesIn::new(script.as_bytes());
        assert_eq!(rt; run_on(rt.alloc(), &words, &mut src, &mut dst), status);
        assert_eq!(rt; dst.bytes(), written.as_bytes());
    }
    Ok(())
}

#[test]
fn refuses_other_words(rt: HostRuntime) -> Result<(), Fail> {
    for text in [
        "",
        "play play",
        "bulk",
        "bulk 0",
        "bulk 200001",
        "bulk 05",
        "bulk 5 5",
    ] {
        let mut words = Vec::new(rt.alloc());
        for word in text.split_whitespace() {
            words.push(String::from_str(rt.alloc(), word)?)?;
        }
        let mut dst = BytesOut::new(rt.alloc());
        let mut src = BytesIn::new(FIRST.as_bytes());
        assert_eq!(rt; run_on(rt.alloc(), &words, &mut src, &mut dst), 2);
        assert_eq!(rt; dst.bytes().len(), 0);
        assert_eq!(rt; src.read(&mut [0; 100])?, FIRST.len());
    }
    Ok(())
}

#[test]
fn sums_up_a_bulk_script(rt: HostRuntime) -> Result<(), Fail> {
    let table = [
        ("1", "lines 4 bytes 27 wakes 1\n"),
        ("5", "lines 12 bytes 101 wakes 4\n"),
    ];
    for (number, summary) in table {
        let mut words = Vec::new(rt.alloc());
        for word in ["bulk", number] {
            words.push(String::from_str(rt.alloc(), word)?)?;
        }
        let mut dst = BytesOut::new(rt.alloc());
        let mut src = BytesIn::new(FIRST.as_bytes());
        assert_eq!(rt; run_on(rt.alloc(), &words, &mut src, &mut dst), 0);
        assert_eq!(rt; dst.bytes(), summary.as_bytes());
        assert_eq!(rt; src.read(&mut [0; 100])?, FIRST.len());
    }
    Ok(())
}

#[test]
fn makes_the_bulk_script(rt: HostRuntime) -> Result<(), Fail> {
    let script = bulk_script(rt.alloc(), 5)?;
    let lines =
        "sem s 0\nask r1 s 2 1\nask r2 s 3 2\nask r3 s 1 3\nask r4 s 2 4\nask r5 s 3 5\ndrop r5\nrelease s 10\npoll r1 0\npoll r2 0\npoll r3 0\npoll r4 0\n";
    assert_eq!(rt; script.as_slice(), lines.as_bytes());
    Ok(())
}
