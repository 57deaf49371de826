//! The script of `bulk`: requests that wait, give up and are served.
ghost use Rattle.std.specs.Prelude.{◌≡◌, ◌+◌, ◌*◌, ◌%◌, ◌≤◌, codes, decimal, [], ◌∷◌, ◌++◌, OnOk, IfOk, string_bytes};
ghost use Rattle.band_script.specs.declared.call.Call.TheVariants.{Release};
ghost use Rattle.band_play.specs.Bulk.{script_of, asks, drops, polls, numbers_to, bulk_script, most_requests};

use itoa::Buffer;
use std::alloc::{AllocError, Global};

/// The script of `n` requests on one semaphore: all wait, each fifth gives up, and then a release serves the others.
pub fn bulk_script(alloc: Global, n: u64) -> Result<Vec<u8>, AllocError>
    requires some { 1 ≤ n }
    requires most { n ≤ most_requests }
    ensures { IfOk result (λ script. script.items ≡ bulk_script n) }
{
    let mut script = String::from_str(alloc, "sem s 0\n")?;
    push_asks(&mut script, n)?;
    push_drops(&mut script, n)?;
    push_release(&mut script, n)?;
    push_polls(&mut script, n)?;
    Ok(script.into_bytes())
}

/// Adds the lines by which all ask.
fn push_asks(script: &mut String, n: u64) -> Result<(), AllocError>
    requires { n ≤ most_requests }
    ensures { OnOk result
        (string_bytes script.new ≡ string_bytes script.old ++ script_of (asks (numbers_to n))) }
{
    for i in 1..n + 1 {
        push_ask(script, i)?;
    }
    Ok(())
}

/// Adds the line by which one asks for 1 to 3 permits.
fn push_ask(script: &mut String, i: u64) -> Result<(), AllocError>
    ensures { OnOk result
        (string_bytes script.new ≡ string_bytes script.old ++ script_of (asks (i ∷ []))) }
{
    push_number(script, "ask r", i, asked_by(i))?;
    push_number(script, "", i, "\n")
}

/// Adds the lines by which each fifth gives up.
fn push_drops(script: &mut String, n: u64) -> Result<(), AllocError>
    requires { n ≤ most_requests }
    ensures { OnOk result
        (string_bytes script.new ≡ string_bytes script.old ++ script_of (drops (numbers_to n))) }
{
    for i in 1..n + 1 {
        push_drop(script, i)?;
    }
    Ok(())
}

fn push_drop(script: &mut String, i: u64) -> Result<(), AllocError>
    ensures { OnOk result
        (string_bytes script.new ≡ string_bytes script.old ++ script_of (drops (i ∷ []))) }
{
    if i % 5 == 0 {
        push_number(script, "drop r", i, "\n")
    } else {
        Ok(())
    }
}

/// Adds the line that makes enough permits for all.
fn push_release(script: &mut String, n: u64) -> Result<(), AllocError>
    requires { n ≤ most_requests }
    ensures { OnOk result
        (string_bytes script.new ≡ string_bytes script.old ++ script_of (Release (codes "s") (2 * n) ∷ [])) }
{
    push_number(script, "release s ", 2 * n, "\n")
}

/// Adds the lines by which the others are polled again.
fn push_polls(script: &mut String, n: u64) -> Result<(), AllocError>
    requires { n ≤ most_requests }
    ensures { OnOk result
        (string_bytes script.new ≡ string_bytes script.old ++ script_of (polls (numbers_to n))) }
{
    for i in 1..n + 1 {
        push_poll(script, i)?;
    }
    Ok(())
}

fn push_poll(script: &mut String, i: u64) -> Result<(), AllocError>
    ensures { OnOk result
        (string_bytes script.new ≡ string_bytes script.old ++ script_of (polls (i ∷ []))) }
{
    if i % 5 == 0 {
        Ok(())
    } else {
        push_number(script, "poll r", i, " 0\n")
    }
}

/// What one asks for: the semaphore and how many of its permits, with the spaces around them.
fn asked_by(i: u64) -> &'static str
    ensures { result.now ≡ codes " s " ++ decimal (1 + i % 3) ++ codes " " }
{
    match i % 3 {
        0 => " s 1 ",
        1 => " s 2 ",
        _ => " s 3 ",
    }
}

/// Adds a number between two texts, in fewer steps than `write!` takes.
fn push_number(script: &mut String, before: &str, n: u64, after: &str) -> Result<(), AllocError>
    ensures { OnOk result
        (string_bytes script.new ≡ string_bytes script.old ++ before.now ++ decimal n ++ after.now) }
{
    script.push_str(before)?;
    script.push_str(Buffer::new().format(n))?;
    script.push_str(after)
}
