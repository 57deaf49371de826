//! What the program tells on standard error.
ghost use Rattle.std.specs.Prelude.{◌≡◌, ◌<◌};

use crate::devices::{Full, FullOnce};
use band_base::{BytesIn, BytesOut, FailingIn, FailingOut, Sink, Source, Steps};
use band_play::run;
use std::alloc::{AllocError, Global};
use std::marker::Brand;
use std::sync::ledger::{Blank, Ledger};
use std::test::Fail;

/// Three streams of a run.
#[derive(Drop)]
struct Streams<S, D, E> {
    src: S,
    dst: D,
    err: E,
}

fn run_counted<S: Source, D: Sink, E: Sink, L: Ledger>(
    alloc: Global,
    words: &[String],
    streams: &mut Streams<S, D, E>,
    blank: Blank,
) -> u8
    requires name { blank.name ≡ L.name }
    requires parts { blank.parts ≡ L.parts }
    requires some { 0 < blank.parts }
{
    let mut steps = Steps::<L>::new(blank);
    let Streams { src, dst, err } = streams;
    run(alloc, words, src, dst, err, &mut steps)
}

fn run_over<S: Source, D: Sink, E: Sink>(
    alloc: Global,
    word: &str,
    streams: &mut Streams<S, D, E>,
) -> Result<u8, AllocError> {
    let words = vec![in alloc; String::from_str(alloc, word)?]?;
    let status = run_counted::<S, D, E, Brand>(alloc, &words, streams, Blank::new(1));
    Ok(status)
}

#[test]
fn tells_why(rt: HostRuntime) -> Result<(), Fail> {
    let table = [
        ("play", "sem s 1\n", 0, ""),
        ("play", "sem s 01\n", 3, "malformed line 1\n"),
        ("play", "rw l 0\n", 3, "malformed line 1\n"),
        ("play", "sem s 1", 3, "malformed line 1\n"),
        ("bulk", "sem s 1\n", 2, "usage: band play | band bulk N\n"),
    ];
    for (word, script, status, told) in table {
        let mut streams = Streams {
            src: BytesIn::new(script.as_bytes()),
            dst: BytesOut::new(rt.alloc()),
            err: BytesOut::new(rt.alloc()),
        };
        assert_eq!(rt; run_over(rt.alloc(), word, &mut streams)?, status);
        assert_eq!(rt; streams.err.bytes(), told.as_bytes());
    }
    Ok(())
}

#[test]
fn tells_of_faults(rt: HostRuntime) -> Result<(), Fail> {
    let mut streams = Streams {
        src: FailingIn::new(b"sem s 1\n", 4096, &[2]),
        dst: BytesOut::new(rt.alloc()),
        err: BytesOut::new(rt.alloc()),
    };
    assert_eq!(rt; run_over(rt.alloc(), "play", &mut streams)?, 5);
    assert_eq!(rt; streams.dst.bytes(), b"ok\n".as_slice());
    assert_eq!(rt; streams.err.bytes(), b"read fault\n".as_slice());
    let mut streams = Streams {
        src: BytesIn::new(b"sem s 1\n"),
        dst: FailingOut::new(rt.alloc(), 2, &[2]),
        err: BytesOut::new(rt.alloc()),
    };
    assert_eq!(rt; run_over(rt.alloc(), "play", &mut streams)?, 6);
    assert_eq!(rt; streams.dst.bytes(), b"ok".as_slice());
    assert_eq!(rt; streams.err.bytes(), b"write fault\n".as_slice());
    Ok(())
}

#[test]
fn a_fault_of_err_leaves_the_status(rt: HostRuntime) -> Result<(), Fail> {
    let mut streams = Streams {
        src: BytesIn::new(b"sem\n"),
        dst: BytesOut::new(rt.alloc()),
        err: FailingOut::new(rt.alloc(), 4, &[3]),
    };
    assert_eq!(rt; run_over(rt.alloc(), "play", &mut streams)?, 3);
    assert_eq!(rt; streams.err.bytes(), b"malforme".as_slice());
    let mut streams = Streams {
        src: BytesIn::new(b"sem\n"),
        dst: BytesOut::new(rt.alloc()),
        err: Full,
    };
    assert_eq!(rt; run_over(rt.alloc(), "play", &mut streams)?, 7);
    assert_eq!(rt; run_over(rt.alloc(), "no", &mut streams)?, 7);
    Ok(())
}

#[test]
fn want_of_memory_ends_the_telling(rt: HostRuntime) -> Result<(), Fail> {
    let mut streams = Streams {
        src: BytesIn::new(b"sem\n"),
        dst: BytesOut::new(rt.alloc()),
        err: FullOnce {
            later: BytesOut::new(rt.alloc()),
            was_full: false,
        },
    };
    assert_eq!(rt; run_over(rt.alloc(), "play", &mut streams)?, 7);
    assert_eq!(rt; streams.err.later.bytes(), b"".as_slice());
    Ok(())
}

#[test]
fn tells_of_no_memory(rt: HostRuntime) -> Result<(), Fail> {
    let mut streams = Streams {
        src: BytesIn::new(b"sem s 1\n"),
        dst: Full,
        err: BytesOut::new(rt.alloc()),
    };
    assert_eq!(rt; run_over(rt.alloc(), "play", &mut streams)?, 7);
    assert_eq!(rt; streams.err.bytes(), b"no memory\n".as_slice());
    Ok(())
}
