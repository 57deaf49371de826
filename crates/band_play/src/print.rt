//! The lines of a transcript.
ghost use Rattle.std.specs.Prelude.{◌≡◌, [], ◌∷◌, ◌++◌, OnOk, string_bytes};
ghost use Rattle.band_play.specs.Text.{fault_text};
ghost use Rattle.band_rules.specs.Text.{refusal_word, reply_text, wake_line};

use crate::{PlayFault, Reply};
use band_base::{Refusal, Waker};
use std::alloc::AllocError;
use std::fmt::Write;

/// Adds the line of a reply.
pub(crate) fn push_reply(out: &mut String, reply: &Reply) -> Result<(), AllocError>
    ensures { OnOk result (string_bytes out.new ≡ string_bytes out.old ++ (reply_text reply.now ++ 10 ∷ [])) }
{
    match reply {
        Reply::Done => out.push_str("ok\n"),
        Reply::Ready => out.push_str("ready\n"),
        Reply::Pending => out.push_str("pending\n"),
        Reply::Nothing => out.push_str("none\n"),
        Reply::Drained(count) => writeln!(out, "drained {count}"),
        Reply::Figures {
            available,
            free,
            waiting,
            granted,
            held,
        } => push_figures(out, *available, *free, *waiting, *granted, *held),
        Reply::Refused(refusal) => writeln!(out, "refused {}", word_of(*refusal)),
        Reply::Closed => out.push_str("closed\n"),
    }
}

fn push_figures(
    out: &mut String,
    available: u64,
    free: i128,
    waiting: u64,
    granted: u64,
    held: u64,
) -> Result<(), AllocError>
    ensures { OnOk result (string_bytes out.new ≡ string_bytes out.old
        ++ (reply_text (Reply.Figures available free waiting granted held) ++ 10 ∷ [])) }
{
    writeln!(
        out,
        "available {available} free {free} waiting {waiting} granted {granted} held {held}"
    )
}

/// Adds the line of a waker woken.
pub(crate) fn push_wake(out: &mut String, waker: Waker) -> Result<(), AllocError>
    ensures { OnOk result (string_bytes out.new ≡ string_bytes out.old ++ wake_line waker.0) }
{
    writeln!(out, "wake {}", waker.0)
}

/// Adds the line that tells why a script was not played to its end.
pub(crate) fn push_fault(out: &mut String, fault: &PlayFault) -> Result<(), AllocError>
    ensures { OnOk result (string_bytes out.new ≡ string_bytes out.old ++ (fault_text fault.now ++ 10 ∷ [])) }
{
    match fault {
        PlayFault::Malformed(line) => writeln!(out, "malformed line {line}"),
        PlayFault::TooLong => out.push_str("too long\n"),
        PlayFault::Read => out.push_str("read fault\n"),
        PlayFault::Write => out.push_str("write fault\n"),
        PlayFault::NoMemory => out.push_str("no memory\n"),
    }
}

fn word_of(refusal: Refusal) -> &'static str
    ensures { result.now ≡ refusal_word refusal }
{
    match refusal {
        Refusal::Unknown => "unknown",
        Refusal::Kind => "kind",
        Refusal::Same => "same",
        Refusal::Taken => "taken",
        Refusal::Finished => "finished",
        Refusal::Other => "other",
        Refusal::Overflow => "overflow",
        Refusal::Debt => "debt",
        Refusal::Closed => "closed",
    }
}
