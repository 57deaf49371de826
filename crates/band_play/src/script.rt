//! The playing of a script from a source to a sink.
ghost use Rattle.std.specs.Prelude.{◌≡◌, ◌+◌, ◌<◌, ◌≤◌, [], take, length, OnErr, IfOk};
ghost use Rattle.std.specs.Io.KnownBytes.{Consumes, Keeps, IsAtEnd};
ghost use Rattle.band_base.specs.Device.{Rose};
ghost use Rattle.band_play.specs.Play.{Plays, end_of};
ghost use Rattle.band_play.specs.Visits.{VisitsFew};

use crate::PlayFault;
use crate::playing::Playing;
use band_base::{Sink, Source, SourceFailed, Steps};
use std::alloc::Global;
use std::sync::ledger::Ledger;

/// The most bytes that a script of the program may have.
pub(crate) const LIMIT: u64 = 16_777_216;

/// The most bytes that one read asks for.
const PIECE: usize = 4096;

/// Plays a script of at most `limit` bytes as it comes, and answers how many lines it has.
pub fn play<S: Source, D: Sink, L: Ledger>(
    alloc: Global,
    src: &mut S,
    dst: &mut D,
    limit: u64,
    steps: &mut Steps<L>,
) -> Result<u64, PlayFault>
    // One byte more than the limit is asked for.
    requires { limit < u64.MAX }
    ensures plays { Plays limit (end_of S.left S.faults src.old src.new)
        (end_of D.written D.faults dst.old dst.new) result }
    ensures visits { VisitsFew limit (S.left src.old) (S.left src.new) result steps.old steps.new }
{
    let mut playing = Playing::new(alloc);
    let mut piece = [0; PIECE];
    let mut left = limit;
    'pieces: loop {
        let given = read_piece(src, &mut piece, left)?;
        if given.is_empty() {
            return playing.end();
        }
        playing.feed(within(given, left), dst, steps)?;
        if given.len() as u64 > left {
            return Err(PlayFault::TooLong);
        }
        left -= given.len() as u64;
    }
}

/// Reads a piece of what may still come, and one byte more where all of that fits.
fn read_piece<'a, S: Source>(
    src: &mut S,
    piece: &'a mut [u8; PIECE],
    left: u64,
) -> Result<&'a [u8], SourceFailed>
    requires { left < u64.MAX }
    ensures front { IfOk result (λ given. Consumes (S.left src.old) (S.left src.new) given.now) }
    ensures count { IfOk result (λ given. length given.now ≤ left + 1) }
    ensures fits { IfOk result (λ given. length given.now ≤ 4096) }
    // Nothing is given only at the end.
    ensures end { IfOk result (λ given. given.now ≡ [] → IsAtEnd (S.left src.new)) }
    ensures err { OnErr result (Keeps (S.left src.old) (S.left src.new)) }
    ensures never_fall { S.faults src.old ≤ S.faults src.new }
    ensures failed { OnErr result (Rose (S.faults src.old) (S.faults src.new)) }
{
    let room = left.min(PIECE as u64 - 1) as usize + 1;
    let count = src.read(&mut piece[..room])?;
    Ok(&piece[..count])
}

/// The bytes within the limit.
fn within(bytes: &[u8], limit: u64) -> &[u8]
    ensures { result.now ≡ take limit bytes.now }
{
    &bytes[..bytes.len().min(limit as usize)]
}
