//! Where bytes come from.
ghost use Rattle.std.specs.Prelude.{◌≡◌, ℕ, ◌<◌, ◌≤◌, min, List, [], ◌++◌, take, length, Option, Some, IfOk, OnErr, IsErr, MatchResult, IsTrue, ◌↔◌};
ghost use Rattle.std.specs.Io.KnownBytes.{Consumes, Keeps, IsAtEnd};
ghost use Rattle.band_base.specs.Device.{Rose, one_fault_more};
ghost use Rattle.band_base.specs.Failing.{new_calls, fails_next, counted};

use crate::failures::Failures;
use std::io::{Read, Stdin};
use std::marker::Model;
use thiserror::Error;

/// A read failed, and took nothing from the source.
#[derive(Debug, Drop, Error)]
#[error("the source failed")]
pub struct SourceFailed;

/// A source of bytes. It stands for `std::io::Read`, with causes of its errors.
pub trait Source {
    /// The bytes that are left, where it tells them. Of the bytes of one that tells none no clause says anything.
    ghost left: { Self → Option (List ℕ) };

    /// How often it has failed, up to the largest count.
    ghost faults: { Self → ℕ };

    /// Puts some of the bytes that are left into the front of `buf`, and answers how many.
    fn read(&mut self, buf: &mut [u8]) -> Result<usize, SourceFailed>
        ensures count { IfOk result (λ n. n ≤ length buf.old) }
        ensures front { IfOk result (λ n. Consumes (left self.old) (left self.new) (take n buf.new)) }
        // It answers 0 only at the end, or where there is no room.
        ensures end { result ≡ Ok 0 → 0 < length buf.old → IsAtEnd (left self.new) }
        ensures err { OnErr result (Keeps (left self.old) (left self.new)) }
        ensures never_fall { faults self.old ≤ faults self.new }
        ensures failed { OnErr result (Rose (faults self.old) (faults self.new)) };
}

/// A source over bytes in memory. It tells what is left, and never fails.
#[derive(Drop)]
pub struct BytesIn<'a> {
    rest: &'a [u8],
}

impl<'a> Model for BytesIn<'a> {
    ghost use Rattle.std.specs.Prelude.{ℕ, List};

    ghost Value = { List ℕ };

    ghost view = { λ s. s.rest.now };
}

impl<'a> BytesIn<'a> {
    /// A source that has all of `bytes` left.
    pub fn new(bytes: &'a [u8]) -> BytesIn<'a>
        ensures { result ≡ bytes.now }
    {
        BytesIn { rest: bytes }
    }
}

impl Source for BytesIn<'_> {
    ghost left = { λ s. Some s };

    ghost faults = { λ _. 0 };

    fn read(&mut self, buf: &mut [u8]) -> Result<usize, SourceFailed>
        // It never fails, and gives as many as fit.
        ensures most { result ≡ Ok (min (length self.old) (length buf.old)) }
        ensures count { IfOk result (λ n. n ≤ length buf.old) }
        ensures front { IfOk result (λ n. self.old ≡ take n buf.new ++ self.new) }
        ensures end { result ≡ Ok 0 → 0 < length buf.old → self.new ≡ [] }
        // What the trait asks of errors and faults, of which there are none.
        ensures err { OnErr result (self.new ≡ self.old) }
        ensures never_fall { 0 ≤ 0 }
        ensures failed { OnErr result (Rose 0 0) }
    {
        let count = self.rest.len().min(buf.len());
        let (front, rest) = self.rest.split_at(count);
        buf[..count].copy_from_slice(front);
        self.rest = rest;
        Ok(count)
    }
}

/// A source over bytes in memory that gives at most so many a call, and fails at the calls of given numbers. It tells
/// what is left.
#[derive(Drop)]
pub struct FailingIn<'a> {
    rest: &'a [u8],
    most: usize,
    calls: Failures<'a>,
}

impl<'a> Model for FailingIn<'a> {
    ghost use Rattle.std.specs.Prelude.{◌<◌};
    ghost use Rattle.band_base.specs.Failing.{FailingSource};

    ghost Value = { FailingSource };

    ghost view = { λ s. record { left = s.rest.now; most = s.most; calls = s.calls } };

    ghost invariant = { λ s. 0 < s.most };
}

impl<'a> FailingIn<'a> {
    /// A source that has all of `bytes` left, gives `most` of them a call, and fails at the calls whose numbers, from 1,
    /// stand in `fail`. No call fails once more than the largest `u64` were made.
    pub fn new(bytes: &'a [u8], most: usize, fail: &'a [u64]) -> FailingIn<'a>
        requires { 0 < most }
        ensures { result ≡ record { left = bytes.now; most = most; calls = new_calls fail.now } }
    {
        FailingIn {
            rest: bytes,
            most,
            calls: Failures::new(fail),
        }
    }
}

impl Source for FailingIn<'_> {
    ghost left = { λ s. Some s.left };

    ghost faults = { λ s. s.calls.failed };

    fn read(&mut self, buf: &mut [u8]) -> Result<usize, SourceFailed>
        // It fails exactly where the call's number says so.
        ensures fails { IsErr result ↔ IsTrue (fails_next self.old.calls) }
        // Else it gives as many as it may, of those that are left and fit.
        ensures most { IfOk result (λ n.
            n ≡ min self.old.most (min (length self.old.left) (length buf.old))) }
        ensures counts { self.new.calls ≡ counted self.old.calls }
        ensures same { self.new.most ≡ self.old.most }
        ensures count { IfOk result (λ n. n ≤ length buf.old) }
        ensures front { IfOk result (λ n. self.old.left ≡ take n buf.new ++ self.new.left) }
        ensures end { result ≡ Ok 0 → 0 < length buf.old → self.new.left ≡ [] }
        ensures err { OnErr result (self.new.left ≡ self.old.left) }
        ensures never_fall { self.old.calls.failed ≤ self.new.calls.failed }
        ensures failed { OnErr result (Rose self.old.calls.failed self.new.calls.failed) }
    {
        if self.calls.next_fails() {
            return Err(SourceFailed);
        }
        let count = self.most.min(self.rest.len()).min(buf.len());
        let (front, left) = self.rest.split_at(count);
        buf[..count].copy_from_slice(front);
        self.rest = left;
        Ok(count)
    }
}

/// A source over a reader of std, which tells the bytes that the reader tells.
///
/// Any error that the reader answers is answered, interruption too: nothing is tried again. It counts its errors.
#[derive(Drop)]
pub struct ReaderSource<R> {
    reader: R,
    faults: u64,
}

impl<R> Model for ReaderSource<R> {
    ghost use Rattle.band_base.specs.Device.{Counted};

    ghost Value = { Counted R };

    ghost view = { λ s. record { device = s.reader; faults = s.faults } };
}

impl<R: Read> ReaderSource<R> {
    /// A source over `reader`, which has not failed yet.
    pub fn new(reader: R) -> ReaderSource<R>
        ensures { result ≡ record { device = reader; faults = 0 } }
    {
        ReaderSource { reader, faults: 0 }
    }

    /// How often it has failed, up to the largest count.
    pub fn faults(&self) -> u64
        ensures { result ≡ self.now.faults }
    {
        self.faults
    }
}

impl<R: Read> Source for ReaderSource<R> {
    ghost left = { λ s. R.remaining s.device };

    ghost faults = { λ s. s.faults };

    fn read(&mut self, buf: &mut [u8]) -> Result<usize, SourceFailed>
        ensures count { IfOk result (λ n. n ≤ length buf.old) }
        ensures front { IfOk result (λ n.
            Consumes (R.remaining self.old.device) (R.remaining self.new.device) (take n buf.new)) }
        ensures end { result ≡ Ok 0 → 0 < length buf.old → IsAtEnd (R.remaining self.new.device) }
        ensures err { OnErr result (Keeps (R.remaining self.old.device) (R.remaining self.new.device)) }
        ensures never_fall { self.old.faults ≤ self.new.faults }
        ensures failed { OnErr result (Rose self.old.faults self.new.faults) }
        // An error counts once, and nothing else does.
        ensures counts { MatchResult result
            (λ _. self.new.faults ≡ self.old.faults)
            (λ _. self.new.faults ≡ one_fault_more self.old.faults) }
    {
        match self.reader.read(buf) {
            Ok(count) => Ok(count),
            Err(_) => {
                self.faults = self.faults.saturating_add(1);
                Err(SourceFailed)
            }
        }
    }
}

/// The process's standard input as a source, `StdIn::new(rt.stdin())`. It tells no bytes.
pub type StdIn = ReaderSource<Stdin>;
