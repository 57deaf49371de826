//! The program: its words, the standard streams and a counter, given to `run`.
#![tactic(auto)]

ghost use Rattle.std.specs.Prelude.{◌≡◌, ◌⊎◌, ◌<◌, Ok, map, string_bytes};
ghost use Rattle.std.specs.Result.{IfOk, IfErr};
ghost use Rattle.band_play.specs.Play.{AreOthers, IsStatus};

use band_base::{StdErr, StdIn, StdOut, Steps};
use std::alloc::Global;
use std::marker::Brand;
use std::process::ExitCode;
use std::sync::ledger::{Blank, Ledger};
use std::{env, io};

/// The status where there was no memory for the words.
const NO_MEMORY: u8 = 7;

fn main(rt: HostRuntime) -> ExitCode {
    ExitCode::from(status(&rt))
}

/// Runs on the words after the program's name. A word that is no text is none that the program knows.
fn status(rt: &HostRuntime) -> u8
    ensures { IsStatus result }
{
    match words_of(read_words(rt), rt.alloc()) {
        Ok(words) => run_counted::<Brand>(rt, &words, Blank::new(1)),
        Err(status) => status,
    }
}

/// The words that were read, none where one is no text, and the status where there was no memory for them.
fn words_of(read: io::Result<Vec<String>>, alloc: Global) -> Result<Vec<String>, u8>
    ensures read { IfOk read (λ words. result ≡ Ok words) }
    ensures status { IfErr result (λ status. status ≡ 7) }
{
    match read {
        Err(error) if error.kind() == io::ErrorKind::OutOfMemory => Err(NO_MEMORY),
        Err(_) => Ok(Vec::new(alloc)),
        Ok(words) => Ok(words),
    }
}

fn read_words(rt: &HostRuntime) -> io::Result<Vec<String>> {
    Ok(env::args(rt)?.skip(1).collect(rt.alloc())?)
}

/// Runs over the standard streams, with a counter of the ledger that `blank` opens.
fn run_counted<L: Ledger>(rt: &HostRuntime, words: &[String], blank: Blank) -> u8
    requires name { blank.name ≡ L.name }
    requires parts { blank.parts ≡ L.parts }
    requires some { 0 < blank.parts }
    ensures status { IsStatus result }
    ensures usage { result ≡ 2 → AreOthers (map string_bytes words.now) }
    ensures other_words { AreOthers (map string_bytes words.now) → (result ≡ 2) ⊎ (result ≡ 7) }
{
    let mut src = StdIn::new(rt.stdin());
    let mut dst = StdOut::new(rt.stdout());
    let mut err = StdErr::new(rt.stderr());
    let mut steps = Steps::<L>::new(blank);
    band_play::run(rt.alloc(), words, &mut src, &mut dst, &mut err, &mut steps)
}

#[cfg(test)]
mod tests;
