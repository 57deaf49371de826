//! The program over its words, a source and two sinks.
ghost use Rattle.std.specs.Prelude.{◌≡◌, ◌↔◌, ◌≤◌, [], ◌∷◌, ◌++◌, map, string_bytes, IsOk};
ghost use Rattle.band_play.specs.Play.{AskToPlay, AreOthers, Runs, EndsWith, ToldWith, IsStatus, end_of, status_of};
ghost use Rattle.band_play.specs.Text.{fault_text};
ghost use Rattle.band_play.specs.Visits.{RunVisits};

use crate::print::push_fault;
use crate::script::LIMIT;
use crate::summary::sum_up;
use crate::words::{asks_to_play, bulk_of};
use crate::{PlayFault, play};
use band_base::{Sink, SinkError, Source, Steps, write_all};
use std::alloc::{AllocError, Global};
use std::sync::ledger::Ledger;

/// How the program is used.
const USAGE: &str = "usage: band play | band bulk N\n";

/// The status where there was no memory.
const NO_MEMORY: u8 = 7;

/// Runs the program on its words, and answers its exit status.
pub fn run<S: Source, D: Sink, E: Sink, L: Ledger>(
    alloc: Global,
    words: &[String],
    src: &mut S,
    dst: &mut D,
    err: &mut E,
    steps: &mut Steps<L>,
) -> u8
    ensures status { IsStatus result }
    ensures runs { Runs (map string_bytes words.now) (end_of S.left S.faults src.old src.new)
        (end_of D.written D.faults dst.old dst.new) (end_of E.written E.faults err.old err.new) result }
    // Only a script that is played is read, with words of no form nothing is written to the sink, and nothing is told where
    // all is well.
    ensures unread { (AskToPlay (map string_bytes words.now) → ⊥) → src.new ≡ src.old }
    ensures untouched { AreOthers (map string_bytes words.now) → dst.new ≡ dst.old }
    ensures quiet { result ≡ 0 → err.new ≡ err.old }
    ensures visits { RunVisits (map string_bytes words.now) (end_of S.left S.faults src.old src.new)
        (end_of D.written D.faults dst.old dst.new) (end_of E.written E.faults err.old err.new) result
        steps.old steps.new }
    ensures writes_never_fall { D.faults dst.old ≤ D.faults dst.new }
    ensures tells_never_fall { E.faults err.old ≤ E.faults err.new }
{
    if asks_to_play(words) {
        return end(alloc, err, play(alloc, src, dst, LIMIT, steps));
    }
    match bulk_of(words) {
        Some(n) => end(alloc, err, sum_up(alloc, n, dst, steps)),
        None => tell(err, USAGE.as_bytes(), 2),
    }
}

/// The status of an answer. Where it is a fault, tells why a script was not played to its end.
fn end<E: Sink>(alloc: Global, err: &mut E, answer: Result<u64, PlayFault>) -> u8
    ensures ends { EndsWith answer result (end_of E.written E.faults err.old err.new) }
    ensures ok { (result ≡ 0) ↔ IsOk answer }
    ensures quiet { result ≡ 0 → err.new ≡ err.old }
    ensures never_fall { E.faults err.old ≤ E.faults err.new }
{
    match answer {
        Ok(_) => 0,
        Err(fault) => tell_fault(alloc, err, &fault),
    }
}

/// Tells why a script was not played to its end, and answers the status.
fn tell_fault<E: Sink>(alloc: Global, err: &mut E, fault: &PlayFault) -> u8
    ensures told { ToldWith (status_of fault.now) (fault_text fault.now ++ 10 ∷ []) result
        (end_of E.written E.faults err.old err.new) }
    ensures never_fall { E.faults err.old ≤ E.faults err.new }
{
    let mut text = String::new(alloc);
    match push_fault(&mut text, fault) {
        Ok(()) => tell(err, text.as_bytes(), status_of(fault)),
        Err(AllocError) => NO_MEMORY,
    }
}

/// Writes a text, and answers the status, or that there was no memory.
fn tell<E: Sink>(err: &mut E, text: &[u8], status: u8) -> u8
    ensures told { ToldWith status text.now result
        (end_of E.written E.faults err.old err.new) }
    ensures never_fall { E.faults err.old ≤ E.faults err.new }
{
    match write_all(err, text) {
        Ok(()) | Err(SinkError::Failed) => status,
        Err(SinkError::NoMemory) => NO_MEMORY,
    }
}

fn status_of(fault: &PlayFault) -> u8
    ensures { result ≡ status_of fault.now }
{
    match fault {
        PlayFault::Malformed(_) => 3,
        PlayFault::TooLong => 4,
        PlayFault::Read => 5,
        PlayFault::Write => 6,
        PlayFault::NoMemory => NO_MEMORY,
    }
}
