//! Lines: where they end, and the telling of their calls.
ghost use Rattle.std.specs.Prelude.{◌≡◌, [], ◌∷◌, ◌++◌, OnOk, MatchOption, string_bytes, flat_map};
ghost use Rattle.band_script.specs.Call.{ForReaders};
ghost use Rattle.band_player.specs.Player.{wakers_left, Stays, Pays, VisitsJoiners, load_of};
ghost use Rattle.band_rules.specs.Text.{wake_line};
ghost use Rattle.band_play.specs.Lines.{HasNoNewline, Tells};

use crate::print::{push_reply, push_wake};
use crate::{Call, Player};
use band_base::Steps;
use memchr::memchr;
use std::alloc::AllocError;
use std::sync::ledger::Ledger;

/// What is before the first newline, and what is after it.
pub(crate) fn split_line(bytes: &[u8]) -> Option<(&[u8], &[u8])>
    ensures { MatchOption result
        (HasNoNewline bytes.now)
        (λ parts. (bytes.now ≡ parts.0.now ++ 10 ∷ parts.1.now) × HasNoNewline parts.0.now) }
{
    let newline = memchr(b'\n', bytes)?;
    Some((&bytes[..newline], &bytes[newline + 1..]))
}

/// Runs a call, and adds its reply and its wakes to a text.
pub(crate) fn tell_call<L: Ledger>(
    player: &mut Player,
    call: Call,
    text: &mut String,
    steps: &mut Steps<L>,
) -> Result<(), AllocError>
    requires quiet { wakers_left player.old ≡ [] }
    requires readers { ForReaders call }
    ensures tells { OnOk result
        (Tells call player.old player.new (string_bytes text.old) (string_bytes text.new)) }
    ensures quiet { OnOk result (wakers_left player.new ≡ []) }
    ensures visits { Pays (load_of player.old) (load_of player.new) steps.old steps.new }
    ensures joins { OnOk result (VisitsJoiners call player.old steps.old steps.new) }
{
    let reply = player.step(&call, steps)?;
    push_reply(text, &reply)?;
    push_wakes(player, text)
}

/// Takes the wakers of the last step, and adds their lines.
fn push_wakes(player: &mut Player, text: &mut String) -> Result<(), AllocError>
    ensures added { OnOk result
        (string_bytes text.new ≡ string_bytes text.old ++ flat_map wake_line (wakers_left player.old)) }
    ensures quiet { OnOk result (wakers_left player.new ≡ []) }
    ensures state { Stays player.old player.new }
    ensures load { load_of player.new ≡ load_of player.old }
{
    while let Some(waker) = player.take_wake() {
        push_wake(text, waker)?;
    }
    Ok(())
}
