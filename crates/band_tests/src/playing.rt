//! The playing of a script, by `play` and by `run`.
ghost use Rattle.std.specs.Prelude.{◌≡◌, ◌<◌};

use band_base::{BytesIn, BytesOut, Sink, Source, Steps};
use band_play::{PlayFault, play, run};
use std::alloc::{AllocError, Global};
use std::marker::Brand;
use std::process::Abort;
use std::sync::ledger::{Blank, Ledger};

fn play_counted<S: Source, D: Sink, L: Ledger>(
    alloc: Global,
    src: &mut S,
    dst: &mut D,
    limit: u64,
    blank: Blank,
) -> Result<u64, PlayFault>
    requires limit { limit < u64.MAX }
    requires name { blank.name ≡ L.name }
    requires parts { blank.parts ≡ L.parts }
    requires some { 0 < blank.parts }
{
    play(alloc, src, dst, limit, &mut Steps::<L>::new(blank))
}

/// What `play` answers.
pub(crate) fn play_on<S: Source, D: Sink>(
    alloc: Global,
    src: &mut S,
    dst: &mut D,
    limit: u64,
) -> Result<String, AllocError>
    requires { limit < u64.MAX }
{
    match play_counted::<S, D, Brand>(alloc, src, dst, limit, Blank::new(1)) {
        Ok(lines) => format!(in alloc; "{lines} lines"),
        Err(fault) => fault.to_string(alloc),
    }
}

fn run_counted<S: Source, D: Sink, L: Ledger>(
    alloc: Global,
    words: &[String],
    src: &mut S,
    dst: &mut D,
    blank: Blank,
) -> u8
    requires name { blank.name ≡ L.name }
    requires parts { blank.parts ≡ L.parts }
    requires some { 0 < blank.parts }
{
    let mut err = BytesOut::new(alloc);
    let mut steps = Steps::<L>::new(blank);
    run(alloc, words, src, dst, &mut err, &mut steps)
}

/// The status of `run`.
pub(crate) fn run_on<S: Source, D: Sink>(
    alloc: Global,
    words: &[String],
    src: &mut S,
    dst: &mut D,
) -> u8 {
    run_counted::<S, D, Brand>(alloc, words, src, dst, Blank::new(1))
}

pub(crate) fn play_word(alloc: Global) -> Result<Vec<String>, AllocError> {
    Ok(vec![in alloc; String::from_str(alloc, "play")?]?)
}

/// Plays a script whose lines are all calls, by `play` and by `run`, and compares what both write with its transcript.
pub(crate) fn compare<R: Abort>(
    rt: &R,
    alloc: Global,
    script: &str,
    written: &str,
) -> Result<(), AllocError> {
    let lines = format!(in alloc; "{} lines", script.lines().count())?;
    let mut dst = BytesOut::new(alloc);
    let said = play_on(
        alloc,
        &mut BytesIn::new(script.as_bytes()),
        &mut dst,
        1_000_000,
    )?;
    assert_eq!(rt; said.as_str(), lines.as_str(), "{script}");
    assert_eq!(rt; dst.bytes(), written.as_bytes(), "{script}");
    let mut dst = BytesOut::new(alloc);
    let mut src = BytesIn::new(script.as_bytes());
    let status = run_on(alloc, &play_word(alloc)?, &mut src, &mut dst);
    assert_eq!(rt; status, 0, "{script}");
    assert_eq!(rt; dst.bytes(), written.as_bytes(), "{script}");
    Ok(())
}
