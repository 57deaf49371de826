//! The reading of a line, and laws of what a line stands for.
ghost use Rattle.std.specs.Prelude.{◌≡◌, ◌↔◌, ◌≤◌, ◌∷◌, ◌++◌, List, ℕ, Some, codes, length, IfSome, IfNone};
ghost use Rattle.band_script.specs.declared.call.Call.{Call as TheCall};
ghost use Rattle.band_script.specs.Call.{ForReaders};
ghost use Rattle.band_script.specs.Grammar.{IsLine, call_of};
ghost use Rattle.band_script.specs.Rows.{WorkedLines};
ghost use Rattle.band_script.specs.Inner.Reading.{Decodes};
ghost use Rattle.band_script.specs.Inner.Forms.{word_of};

use crate::Call;
use crate::form::{Form, NameNumber, OneName, TwoNames, TwoNamesNumber, split_form};
use crate::operands::{
    name_number, name_option, one_name, two_names, two_names_number, two_names_two_numbers,
};

/// The call that a line, given without its newline, stands for, if it stands for one.
pub fn parse_line(line: &[u8]) -> Option<Call>
    ensures exact { result ≡ call_of line.now }
    ensures some { IfSome result (λ call. IsLine line.now call) }
    ensures none { IfNone result ((call : TheCall) → IsLine line.now call → ⊥) }
    // So a player can run it.
    ensures readers { IfSome result (λ call. ForReaders call) }
{
    let (form, rest) = split_form(line)?;
    match form {
        Form::OneName(form) => read_one_name(form, rest),
        Form::NameNumber(form) => read_name_number(form, rest),
        Form::TwoNames(form) => read_two_names(form, rest),
        Form::TwoNamesNumber(form) => read_two_names_number(form, rest),
        Form::Rw => read_rw(rest),
        Form::Ask => read_ask(rest),
    }
}

// Each of these stays a function of its own when it runs: where they all stand in one, names are moved about piece by
// piece.

#[inline(never)]
fn read_one_name(form: OneName, rest: &[u8]) -> Option<Call>
    ensures { Decodes (word_of (Form.OneName form) ++ 32 ∷ rest.now) result }
{
    let name = one_name(rest)?;
    Some(form.call(name))
}

#[inline(never)]
fn read_name_number(form: NameNumber, rest: &[u8]) -> Option<Call>
    ensures { Decodes (word_of (Form.NameNumber form) ++ 32 ∷ rest.now) result }
{
    let (name, n) = name_number(rest)?;
    Some(form.call(name, n))
}

#[inline(never)]
fn read_two_names(form: TwoNames, rest: &[u8]) -> Option<Call>
    ensures { Decodes (word_of (Form.TwoNames form) ++ 32 ∷ rest.now) result }
{
    let (first, second) = two_names(rest)?;
    Some(form.call(first, second))
}

#[inline(never)]
fn read_two_names_number(form: TwoNamesNumber, rest: &[u8]) -> Option<Call>
    ensures { Decodes (word_of (Form.TwoNamesNumber form) ++ 32 ∷ rest.now) result }
{
    let (first, second, n) = two_names_number(rest)?;
    Some(form.call(first, second, n))
}

/// Without a number of readers there is none, and one that is 0 makes no call.
#[inline(never)]
fn read_rw(rest: &[u8]) -> Option<Call>
    ensures { Decodes (codes "rw" ++ 32 ∷ rest.now) result }
{
    let (made, n) = name_option(rest)?;
    match n {
        None => Some(Call::Rw { made, n: None }),
        Some(0) => None,
        Some(n) => Some(Call::Rw { made, n: Some(n) }),
    }
}

#[inline(never)]
fn read_ask(rest: &[u8]) -> Option<Call>
    ensures { Decodes (codes "ask" ++ 32 ∷ rest.now) result }
{
    let (made, of, n, waker) = two_names_two_numbers(rest)?;
    Some(Call::Ask { made, of, n, waker })
}

/// A line is decoded as a call exactly where it stands for the call.
pub fn decodes_exactly()
    ensures { (line : List ℕ) (call : TheCall) → (call_of line ≡ Some call) ↔ IsLine line call }
{}

/// No line stands for two calls.
pub fn one_call()
    ensures { (line : List ℕ) (a b : TheCall) → IsLine line a → IsLine line b → a ≡ b }
{}

/// A line that stands for a call has at most 111 bytes, and one has as many.
pub fn longest_line()
    ensures most { (line : List ℕ) (call : TheCall) → IsLine line call → length line ≤ 111 }
    ensures reached { (line : List ℕ) × ((call : TheCall) × IsLine line call × (length line ≡ 111)) }
{}

/// Lines with what each stands for.
pub fn worked_lines()
    ensures { WorkedLines }
{}
