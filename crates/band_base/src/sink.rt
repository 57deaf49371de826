//! Where bytes go to.
ghost use Rattle.std.specs.Prelude.{◌≡◌, ℕ, ◌<◌, ◌≤◌, min, List, [], ◌++◌, take, length, Bool, true, false, Option, Some, IfOk, IfErr, OnOk, OnErr, MatchResult, IsTrue, ◌↔◌};
ghost use Rattle.std.specs.Io.KnownBytes.{Appends, Keeps};
ghost use Rattle.band_base.specs.Device.{Rose, one_fault_more, AppendsPrefix};
ghost use Rattle.band_base.specs.Failing.{new_calls, fails_next, counted};

use crate::failures::Failures;
use std::alloc::Global;
use std::io::{Stderr, Stdout, Write};
use std::marker::Model;
use thiserror::Error;

/// Why a write wrote nothing.
#[derive(Debug, Drop, Error)]
pub enum SinkError {
    /// The sink failed.
    #[error("the sink failed")]
    Failed,
    /// The sink grows in memory, and there was none.
    #[error("out of memory")]
    NoMemory,
}

/// A sink of bytes. It stands for `std::io::Write`, with causes of its errors.
pub trait Sink {
    /// The bytes written, where it tells them. Of the bytes of one that tells none no clause says anything.
    ghost written: { Self → Option (List ℕ) };

    /// How often it has failed, up to the largest count.
    ghost faults: { Self → ℕ };

    /// Whether it grows in memory.
    ghost grows: { Bool };

    /// Writes a prefix of `piece`, and answers how many bytes.
    fn write(&mut self, piece: &[u8]) -> Result<usize, SinkError>
        ensures count { IfOk result (λ n. n ≤ length piece.now) }
        // It takes something, if there is something.
        ensures some { IfOk result (λ n. 0 < length piece.now → 0 < n) }
        ensures adds { IfOk result (λ n. Appends (written self.old) (written self.new) (take n piece.now)) }
        ensures err { OnErr result (Keeps (written self.old) (written self.new)) }
        ensures never_fall { faults self.old ≤ faults self.new }
        ensures failed { result ≡ Err SinkError.Failed → Rose (faults self.old) (faults self.new) }
        ensures no_memory { result ≡ Err SinkError.NoMemory → IsTrue grows };
}

/// A sink that keeps its bytes in memory. It tells them, and fails only where there is no memory.
#[derive(Drop)]
pub struct BytesOut {
    taken: Vec<u8>,
}

impl Model for BytesOut {
    ghost use Rattle.std.specs.Prelude.{ℕ, List};

    ghost Value = { List ℕ };

    ghost view = { λ s. s.taken.items };
}

impl BytesOut {
    /// A sink with no bytes yet.
    pub fn new(alloc: Global) -> BytesOut
        ensures { result ≡ [] }
    {
        BytesOut {
            taken: Vec::new(alloc),
        }
    }

    /// The bytes written so far.
    pub fn bytes(&self) -> &[u8]
        ensures { result.now ≡ self.now }
    {
        &self.taken
    }
}

impl Sink for BytesOut {
    ghost written = { λ s. Some s };

    ghost faults = { λ _. 0 };

    ghost grows = { true };

    fn write(&mut self, piece: &[u8]) -> Result<usize, SinkError>
        // It takes the whole piece, or there is no memory and nothing changes.
        ensures whole { IfOk result (λ n. (n ≡ length piece.now) × (self.new ≡ self.old ++ piece.now)) }
        ensures unchanged { OnErr result (self.new ≡ self.old) }
        ensures memory { IfErr result (λ e. e ≡ SinkError.NoMemory) }
        ensures some { IfOk result (λ n. 0 < length piece.now → 0 < n) }
    {
        match self.taken.extend_from_slice(piece) {
            Ok(()) => Ok(piece.len()),
            Err(_) => Err(SinkError::NoMemory),
        }
    }
}

/// A sink that keeps its bytes in memory, takes at most so many a call, and fails at the calls of given numbers. It tells
/// its bytes.
#[derive(Drop)]
pub struct FailingOut<'a> {
    taken: Vec<u8>,
    most: usize,
    calls: Failures<'a>,
}

impl<'a> Model for FailingOut<'a> {
    ghost use Rattle.std.specs.Prelude.{◌<◌};
    ghost use Rattle.band_base.specs.Failing.{FailingSink};

    ghost Value = { FailingSink };

    ghost view = { λ s. record { written = s.taken.items; most = s.most; calls = s.calls } };

    ghost invariant = { λ s. 0 < s.most };
}

impl<'a> FailingOut<'a> {
    /// A sink with no bytes yet, that takes `most` bytes a call, and fails at the calls whose numbers, from 1, stand in
    /// `fail`. No call fails once more than the largest `u64` were made.
    pub fn new(alloc: Global, most: usize, fail: &'a [u64]) -> FailingOut<'a>
        requires { 0 < most }
        ensures { result ≡ record { written = []; most = most; calls = new_calls fail.now } }
    {
        FailingOut {
            taken: Vec::new(alloc),
            most,
            calls: Failures::new(fail),
        }
    }

    /// The bytes written so far.
    pub fn bytes(&self) -> &[u8]
        ensures { result.now ≡ self.now.written }
    {
        &self.taken
    }
}

impl Sink for FailingOut<'_> {
    ghost written = { λ s. Some s.written };

    ghost faults = { λ s. s.calls.failed };

    ghost grows = { true };

    fn write(&mut self, piece: &[u8]) -> Result<usize, SinkError>
        // It fails exactly where the call's number says so.
        ensures fails { (result ≡ Err SinkError.Failed) ↔ IsTrue (fails_next self.old.calls) }
        // Else it takes as many as it may, or there is no memory.
        ensures most { IfOk result (λ n. n ≡ min self.old.most (length piece.now)) }
        ensures counts { self.new.calls ≡ counted self.old.calls }
        ensures same { self.new.most ≡ self.old.most }
        ensures count { IfOk result (λ n. n ≤ length piece.now) }
        ensures some { IfOk result (λ n. 0 < length piece.now → 0 < n) }
        ensures adds { IfOk result (λ n. self.new.written ≡ self.old.written ++ take n piece.now) }
        ensures err { OnErr result (self.new.written ≡ self.old.written) }
        ensures never_fall { self.old.calls.failed ≤ self.new.calls.failed }
        ensures failed { result ≡ Err SinkError.Failed → Rose self.old.calls.failed self.new.calls.failed }
    {
        if self.calls.next_fails() {
            return Err(SinkError::Failed);
        }
        let count = self.most.min(piece.len());
        match self.taken.extend_from_slice(&piece[..count]) {
            Ok(()) => Ok(count),
            Err(_) => Err(SinkError::NoMemory),
        }
    }
}

/// A sink over a writer of std, which tells the bytes that the writer tells.
///
/// Any error that the writer answers is answered, interruption too: nothing is tried again. A write that takes nothing of a
/// piece that isn't empty is an error. It counts its errors.
#[derive(Drop)]
pub struct WriterSink<W> {
    writer: W,
    faults: u64,
}

impl<W> Model for WriterSink<W> {
    ghost use Rattle.band_base.specs.Device.{Counted};

    ghost Value = { Counted W };

    ghost view = { λ s. record { device = s.writer; faults = s.faults } };
}

impl<W: Write> WriterSink<W> {
    /// A sink over `writer`, which has not failed yet. The writer should keep nothing back, as the standard streams: it is never
    /// flushed.
    pub fn new(writer: W) -> WriterSink<W>
        ensures { result ≡ record { device = writer; faults = 0 } }
    {
        WriterSink { writer, faults: 0 }
    }

    /// How often it has failed, up to the largest count.
    pub fn faults(&self) -> u64
        ensures { result ≡ self.now.faults }
    {
        self.faults
    }
}

impl<W: Write> Sink for WriterSink<W> {
    ghost written = { λ s. W.contents s.device };

    ghost faults = { λ s. s.faults };

    ghost grows = { false };

    fn write(&mut self, piece: &[u8]) -> Result<usize, SinkError>
        ensures count { IfOk result (λ n. n ≤ length piece.now) }
        ensures some { IfOk result (λ n. 0 < length piece.now → 0 < n) }
        ensures adds { IfOk result (λ n.
            Appends (W.contents self.old.device) (W.contents self.new.device) (take n piece.now)) }
        ensures err { OnErr result (Keeps (W.contents self.old.device) (W.contents self.new.device)) }
        ensures never_fall { self.old.faults ≤ self.new.faults }
        ensures failed { result ≡ Err SinkError.Failed → Rose self.old.faults self.new.faults }
        ensures no_memory { IfErr result (λ e. e ≡ SinkError.Failed) }
        // An error counts once, and nothing else does.
        ensures counts { MatchResult result
            (λ _. self.new.faults ≡ self.old.faults)
            (λ _. self.new.faults ≡ one_fault_more self.old.faults) }
    {
        match self.writer.write(piece) {
            Ok(count) if count > 0 || piece.is_empty() => Ok(count),
            _ => {
                self.faults = self.faults.saturating_add(1);
                Err(SinkError::Failed)
            }
        }
    }
}

/// The process's standard output as a sink, `StdOut::new(rt.stdout())`. It tells no bytes.
pub type StdOut = WriterSink<Stdout>;

/// The process's standard error as a sink, `StdErr::new(rt.stderr())`. It tells no bytes.
pub type StdErr = WriterSink<Stderr>;

/// Writes a whole text, in as many parts as the sink takes. After an error a prefix of it is written.
pub fn write_all<D: Sink>(sink: &mut D, text: &[u8]) -> Result<(), SinkError>
    ensures ok { OnOk result (Appends (D.written sink.old) (D.written sink.new) text.now) }
    ensures err { OnErr result (AppendsPrefix text.now (D.written sink.old) (D.written sink.new)) }
    ensures never_fall { D.faults sink.old ≤ D.faults sink.new }
    ensures failed { result ≡ Err SinkError.Failed → Rose (D.faults sink.old) (D.faults sink.new) }
    ensures no_memory { result ≡ Err SinkError.NoMemory → IsTrue D.grows }
{
    let mut rest = text;
    while !rest.is_empty() {
        let count = sink.write(rest)?;
        rest = &rest[count..];
    }
    Ok(())
}
