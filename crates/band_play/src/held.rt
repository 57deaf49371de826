//! The line that is not ended yet.
ghost use Rattle.std.specs.Prelude.{◌≡◌, ◌↔◌, ℕ, ◌++◌, List, [], take, IsTrue, IfSome};
ghost use Rattle.band_script.specs.Grammar.{call_of};
ghost use Rattle.band_script.specs.Call.{ForReaders};

use crate::{Call, parse_line};
use arrayvec::ArrayVec;
use std::marker::Model;

/// How much of a line is kept: one byte more than a line that stands for a call can have.
const KEPT: usize = 112;

/// The front of a line that is not ended yet. What is past the length of each call's line is dropped.
#[derive(Drop)]
pub(crate) struct HeldLine {
    front: ArrayVec<u8, KEPT>,
}

impl Model for HeldLine {
    ghost use Rattle.std.specs.Prelude.{ℕ, List};

    ghost Value = { List ℕ };

    ghost view = { λ line. line.front.items };
}

impl HeldLine {
    /// Nothing of a line.
    pub(crate) fn new() -> HeldLine
        ensures { result ≡ [] }
    {
        HeldLine {
            front: ArrayVec::new(),
        }
    }

    /// Whether nothing of a line came yet.
    pub(crate) fn is_empty(&self) -> bool
        ensures { IsTrue result ↔ (self.now ≡ []) }
    {
        self.front.is_empty()
    }

    /// Adds more of the line.
    pub(crate) fn push(&mut self, more: &[u8])
        ensures { self.new ≡ take 112 (self.old ++ more.now) }
    {
        let count = self.front.remaining_capacity().min(more.len());
        self.front.try_extend_from_slice(&more[..count]).unwrap();
    }

    /// The call of the line that ends so, if it stands for one. Nothing of the next line is held yet.
    pub(crate) fn take_call(&mut self, end: &[u8]) -> Option<Call>
        ensures call { (start : List ℕ) → self.old ≡ take 112 start → result ≡ call_of (start ++ end.now) }
        ensures emptied { self.new ≡ [] }
        ensures readers { IfSome result (λ call. ForReaders call) }
    {
        if self.is_empty() {
            return parse_line(end);
        }
        self.push(end);
        let call = parse_line(self.front.as_slice());
        self.front.clear();
        call
    }
}
