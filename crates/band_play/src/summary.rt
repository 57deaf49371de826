//! The summary of a bulk script: how many lines it has, and how many bytes and wakes its transcript has.
ghost use Rattle.std.specs.Prelude.{◌≡◌, ◌+◌, ◌≤◌, ◌++◌, length, IfOk, OnOk, IfErr, string_bytes};
ghost use Rattle.band_rules.specs.Joined.{joiners_of};
ghost use Rattle.band_rules.specs.Script.{transcript};
ghost use Rattle.band_play.specs.Bulk.{bulk_calls, is_wake, wakes_in, summary_text, most_requests};
ghost use Rattle.band_play.specs.Play.{SumsUp, end_of};
ghost use Rattle.band_play.specs.Visits.{AddsFew};

use crate::bulk::bulk_script;
use crate::lines::split_line;
use crate::script::LIMIT;
use crate::{PlayFault, play};
use band_base::{BytesIn, BytesOut, Sink, Steps, write_all};
use std::alloc::{AllocError, Global};
use std::sync::ledger::Ledger;

/// Plays the bulk script of `n` requests, writes its summary, and answers how many lines it has.
pub(crate) fn sum_up<D: Sink, L: Ledger>(
    alloc: Global,
    n: u64,
    dst: &mut D,
    steps: &mut Steps<L>,
) -> Result<u64, PlayFault>
    requires some { 1 ≤ n }
    requires most { n ≤ most_requests }
    ensures sums_up { SumsUp (bulk_calls n) result (end_of D.written D.faults dst.old dst.new) }
    ensures visits { AddsFew (length (bulk_calls n)) steps.old steps.new }
    ensures joins { OnOk result (steps.old + joiners_of (bulk_calls n) ≤ steps.new) }
    ensures never_fall { D.faults dst.old ≤ D.faults dst.new }
{
    let mut out = BytesOut::new(alloc);
    let lines = play_bulk(alloc, n, &mut out, steps)?;
    let transcript = out.bytes();
    let text = text_of(alloc, lines, transcript.len(), count_wakes(transcript))?;
    write_all(dst, text.as_bytes())?;
    Ok(lines)
}

/// Plays the bulk script of `n` requests, from memory into memory.
fn play_bulk<L: Ledger>(
    alloc: Global,
    n: u64,
    out: &mut BytesOut,
    steps: &mut Steps<L>,
) -> Result<u64, PlayFault>
    requires some { 1 ≤ n }
    requires most { n ≤ most_requests }
    ensures lines { IfOk result (λ lines. lines ≡ length (bulk_calls n)) }
    ensures written { OnOk result (out.new ≡ out.old ++ transcript (bulk_calls n)) }
    ensures memory { IfErr result (λ fault. fault ≡ PlayFault.NoMemory) }
    ensures visits { AddsFew (length (bulk_calls n)) steps.old steps.new }
    ensures joins { OnOk result (steps.old + joiners_of (bulk_calls n) ≤ steps.new) }
{
    let script = bulk_script(alloc, n)?;
    play(alloc, &mut BytesIn::new(&script), out, LIMIT, steps)
}

fn text_of(alloc: Global, lines: u64, bytes: usize, wakes: usize) -> Result<String, AllocError>
    ensures { IfOk result (λ text. string_bytes text ≡ summary_text lines bytes wakes) }
{
    format!(in alloc; "lines {lines} bytes {bytes} wakes {wakes}\n")
}

/// How many lines tell that a waker is woken.
fn count_wakes(transcript: &[u8]) -> usize
    ensures { result ≡ wakes_in transcript.now }
{
    let mut wakes = 0;
    let mut rest = transcript;
    while let Some((line, after)) = split_line(rest) {
        if is_wake(line) {
            wakes += 1;
        }
        rest = after;
    }
    wakes
}

fn is_wake(line: &[u8]) -> bool
    ensures { result ≡ is_wake line.now }
{
    line.starts_with(b"wake ")
}
