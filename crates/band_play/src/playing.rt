//! A script that is being played, piece by piece.
ghost use Rattle.std.specs.Prelude.{◌≡◌, ◌+◌, ◌<◌, ◌≤◌, [], ◌++◌, length, OnOk, OnErr, IfOk, IfErr, Err, string_bytes};
ghost use Rattle.std.specs.Io.KnownBytes.{Appends};
ghost use Rattle.band_base.specs.Device.{Rose, AppendsPrefix};
ghost use Rattle.band_player.specs.Player.{wakers_left, load_of};
ghost use Rattle.band_play.specs.Visits.{PaysPiece, VisitsPiece};
ghost use Rattle.band_play.specs.Playing.{HasRun, RunsPiece, PlaysPiece, StopsInPiece, AddsSome, answer_at_end};

use crate::held::HeldLine;
use crate::lines::{split_line, tell_call};
use crate::{PlayFault, Player};
use band_base::{Sink, SinkError, Steps, write_all};
use std::alloc::{AllocError, Global};
use std::sync::ledger::Ledger;

/// What the lines so far have come to.
#[derive(Drop)]
pub(crate) struct Playing {
    player: Player,
    /// The replies and wakes that are not written yet.
    text: String,
    /// The line that is not ended yet.
    held: HeldLine,
    /// How many lines were run.
    lines: u64,
}

impl Playing {
    /// Nothing is run yet.
    pub(crate) fn new(alloc: Global) -> Playing
        ensures run { HasRun [] [] result }
        ensures emptied { string_bytes result.text ≡ [] }
        ensures quiet { wakers_left result.player ≡ [] }
        ensures lines { result.lines ≡ 0 }
        ensures load { load_of result.player ≡ 0 }
    {
        Playing {
            player: Player::new(alloc),
            text: String::new(alloc),
            held: HeldLine::new(),
            lines: 0,
        }
    }

    /// Plays the lines that end in a piece, up to the first that stands for no call.
    pub(crate) fn feed<D: Sink, L: Ledger>(
        &mut self,
        piece: &[u8],
        dst: &mut D,
        steps: &mut Steps<L>,
    ) -> Result<(), PlayFault>
        requires quiet { wakers_left self.old.player ≡ [] }
        requires countable { self.old.lines + length piece.now ≤ u64.MAX }
        ensures plays { OnOk result
            (PlaysPiece piece.now self.old self.new (D.written dst.old) (D.written dst.new)) }
        ensures stops { IfErr result (λ fault. StopsInPiece fault piece.now self.old
            (D.written dst.old) (D.written dst.new) (D.faults dst.old) (D.faults dst.new)) }
        // Whatever the answer is.
        ensures adds { AddsSome (D.written dst.old) (D.written dst.new) }
        ensures quiet { OnOk result (wakers_left self.new.player ≡ []) }
        ensures lines { OnOk result (self.new.lines ≤ self.old.lines + length piece.now) }
        ensures visits { PaysPiece piece.now self.old self.new steps.old steps.new }
        // Also where the text of its lines was not written.
        ensures joins { (result ≡ Err PlayFault.NoMemory → ⊥) →
            VisitsPiece piece.now self.old steps.old steps.new }
        ensures never_fall { D.faults dst.old ≤ D.faults dst.new }
    {
        let malformed = self.run_lines(piece, steps)?;
        self.write_text(dst)?;
        match malformed {
            None => Ok(()),
            Some(line) => Err(PlayFault::Malformed(line)),
        }
    }

    /// Runs the lines that end in a piece, and answers the number of the first that stands for no call.
    fn run_lines<L: Ledger>(
        &mut self,
        piece: &[u8],
        steps: &mut Steps<L>,
    ) -> Result<Option<u64>, AllocError>
        requires quiet { wakers_left self.old.player ≡ [] }
        requires countable { self.old.lines + length piece.now ≤ u64.MAX }
        ensures runs { IfOk result (λ malformed. RunsPiece malformed piece.now self.old self.new) }
        ensures quiet { OnOk result (wakers_left self.new.player ≡ []) }
        ensures lines { OnOk result (self.new.lines ≤ self.old.lines + length piece.now) }
        ensures visits { PaysPiece piece.now self.old self.new steps.old steps.new }
        ensures joins { OnOk result (VisitsPiece piece.now self.old steps.old steps.new) }
    {
        let mut rest = piece;
        while let Some((end, after)) = split_line(rest) {
            let Some(call) = self.held.take_call(end) else {
                return Ok(Some(self.lines + 1));
            };
            tell_call(&mut self.player, call, &mut self.text, steps)?;
            self.lines += 1;
            rest = after;
        }
        self.held.push(rest);
        Ok(None)
    }

    /// Writes the text so far.
    fn write_text<D: Sink>(&mut self, dst: &mut D) -> Result<(), SinkError>
        ensures ok { OnOk result
            (Appends (D.written dst.old) (D.written dst.new) (string_bytes self.old.text)) }
        ensures err { OnErr result
            (AppendsPrefix (string_bytes self.old.text) (D.written dst.old) (D.written dst.new)) }
        ensures emptied { OnOk result (string_bytes self.new.text ≡ []) }
        ensures others { self.new ≡ record self.old { text = self.new.text } }
        ensures never_fall { D.faults dst.old ≤ D.faults dst.new }
        ensures failed { result ≡ Err SinkError.Failed → Rose (D.faults dst.old) (D.faults dst.new) }
    {
        write_all(dst, self.text.as_bytes())?;
        self.text.clear();
        Ok(())
    }

    /// The answer once no more comes.
    pub(crate) fn end(&self) -> Result<u64, PlayFault>
        requires { self.now.lines < u64.MAX }
        ensures { result ≡ answer_at_end self.now.lines self.now.held }
    {
        if self.held.is_empty() {
            Ok(self.lines)
        } else {
            Err(PlayFault::Malformed(self.lines + 1))
        }
    }
}
