//! The forms of lines.
ghost use Rattle.std.specs.Prelude.{[], ◌∷◌};
ghost use Rattle.band_script.specs.Inner.Forms.{ReadsForm, IsWritten};

use crate::{Call, Name};

/// The form of a line, by what follows its word.
#[derive(Clone, Copy)]
pub(crate) enum Form {
    OneName(OneName),
    NameNumber(NameNumber),
    TwoNames(TwoNames),
    TwoNamesNumber(TwoNamesNumber),
    Rw,
    Ask,
}

/// The forms of one name.
#[derive(Clone, Copy)]
pub(crate) enum OneName {
    Mutex,
    Drop,
    Close,
    Forget,
    Downgrade,
    Status,
}

impl OneName {
    /// The call of this form.
    pub(crate) fn call(self, name: Name) -> Call
        ensures { IsWritten result (Form.OneName self) (name ∷ []) [] }
    {
        match self {
            OneName::Mutex => Call::Mutex { made: name },
            OneName::Drop => Call::Drop { name },
            OneName::Close => Call::Close { of: name },
            OneName::Forget => Call::Forget { name },
            OneName::Downgrade => Call::Downgrade { name },
            OneName::Status => Call::Status { name },
        }
    }
}

/// The forms of a name and a number.
#[derive(Clone, Copy)]
pub(crate) enum NameNumber {
    Sem,
    Poll,
    Release,
    Reduce,
    Drain,
}

impl NameNumber {
    /// The call of this form.
    pub(crate) fn call(self, name: Name, n: u64) -> Call
        ensures { IsWritten result (Form.NameNumber self) (name ∷ []) (n ∷ []) }
    {
        match self {
            NameNumber::Sem => Call::Sem { made: name, n },
            NameNumber::Poll => Call::Poll { name, waker: n },
            NameNumber::Release => Call::Release { of: name, n },
            NameNumber::Reduce => Call::Reduce { of: name, n },
            NameNumber::Drain => Call::Drain { of: name, n },
        }
    }
}

/// The forms of two names.
#[derive(Clone, Copy)]
pub(crate) enum TwoNames {
    TryLock,
    TryRead,
    TryWrite,
    Merge,
}

impl TwoNames {
    /// The call of this form.
    pub(crate) fn call(self, first: Name, second: Name) -> Call
        ensures { IsWritten result (Form.TwoNames self) (first ∷ second ∷ []) [] }
    {
        match self {
            TwoNames::TryLock => Call::TryLock {
                made: first,
                of: second,
            },
            TwoNames::TryRead => Call::TryRead {
                made: first,
                of: second,
            },
            TwoNames::TryWrite => Call::TryWrite {
                made: first,
                of: second,
            },
            TwoNames::Merge => Call::Merge {
                kept: first,
                spent: second,
            },
        }
    }
}

/// The forms of two names and a number.
#[derive(Clone, Copy)]
pub(crate) enum TwoNamesNumber {
    Lock,
    Read,
    Write,
    Try,
    Split,
}

impl TwoNamesNumber {
    /// The call of this form.
    pub(crate) fn call(self, first: Name, second: Name, n: u64) -> Call
        ensures { IsWritten result (Form.TwoNamesNumber self) (first ∷ second ∷ []) (n ∷ []) }
    {
        match self {
            TwoNamesNumber::Lock => Call::Lock {
                made: first,
                of: second,
                waker: n,
            },
            TwoNamesNumber::Read => Call::Read {
                made: first,
                of: second,
                waker: n,
            },
            TwoNamesNumber::Write => Call::Write {
                made: first,
                of: second,
                waker: n,
            },
            TwoNamesNumber::Try => Call::Try {
                made: first,
                of: second,
                n,
            },
            TwoNamesNumber::Split => Call::Split {
                name: first,
                made: second,
                n,
            },
        }
    }
}

pub(crate) fn split_form(line: &[u8]) -> Option<(Form, &[u8])>
    ensures { ReadsForm (line.now) result }
{
    match line {
        [b'a', rest @ ..] => after_a(rest),
        [b'c', rest @ ..] => after_c(rest),
        [b'd', rest @ ..] => after_d(rest),
        [b'f', rest @ ..] => after_f(rest),
        [b'l', rest @ ..] => after_l(rest),
        [b'm', rest @ ..] => after_m(rest),
        [b'p', rest @ ..] => after_p(rest),
        [b'r', rest @ ..] => after_r(rest),
        [b's', rest @ ..] => after_s(rest),
        [b't', rest @ ..] => after_t(rest),
        [b'w', rest @ ..] => after_w(rest),
        _ => None,
    }
}

fn after_a(rest: &[u8]) -> Option<(Form, &[u8])>
    ensures { ReadsForm (97 ∷ rest.now) result }
{
    match rest {
        [b's', b'k', b' ', rest @ ..] => Some((Form::Ask, rest)),
        _ => None,
    }
}

fn after_c(rest: &[u8]) -> Option<(Form, &[u8])>
    ensures { ReadsForm (99 ∷ rest.now) result }
{
    match rest {
        [b'l', b'o', b's', b'e', b' ', rest @ ..] => Some((Form::OneName(OneName::Close), rest)),
        _ => None,
    }
}

fn after_d(rest: &[u8]) -> Option<(Form, &[u8])>
    ensures { ReadsForm (100 ∷ rest.now) result }
{
    match rest {
        [
            b'o',
            b'w',
            b'n',
            b'g',
            b'r',
            b'a',
            b'd',
            b'e',
            b' ',
            rest @ ..,
        ] => Some((Form::OneName(OneName::Downgrade), rest)),
        [b'r', rest @ ..] => after_dr(rest),
        _ => None,
    }
}

fn after_dr(rest: &[u8]) -> Option<(Form, &[u8])>
    ensures { ReadsForm (100 ∷ 114 ∷ rest.now) result }
{
    match rest {
        [b'a', b'i', b'n', b' ', rest @ ..] => Some((Form::NameNumber(NameNumber::Drain), rest)),
        [b'o', b'p', b' ', rest @ ..] => Some((Form::OneName(OneName::Drop), rest)),
        _ => None,
    }
}

fn after_f(rest: &[u8]) -> Option<(Form, &[u8])>
    ensures { ReadsForm (102 ∷ rest.now) result }
{
    match rest {
        [b'o', b'r', b'g', b'e', b't', b' ', rest @ ..] => Some((
            Form::OneName(OneName::Forget),
            rest,
        )),
        _ => None,
    }
}

fn after_l(rest: &[u8]) -> Option<(Form, &[u8])>
    ensures { ReadsForm (108 ∷ rest.now) result }
{
    match rest {
        [b'o', b'c', b'k', b' ', rest @ ..] => Some((
            Form::TwoNamesNumber(TwoNamesNumber::Lock),
            rest,
        )),
        _ => None,
    }
}

fn after_m(rest: &[u8]) -> Option<(Form, &[u8])>
    ensures { ReadsForm (109 ∷ rest.now) result }
{
    match rest {
        [b'e', b'r', b'g', b'e', b' ', rest @ ..] => Some((Form::TwoNames(TwoNames::Merge), rest)),
        [b'u', b't', b'e', b'x', b' ', rest @ ..] => Some((Form::OneName(OneName::Mutex), rest)),
        _ => None,
    }
}

fn after_p(rest: &[u8]) -> Option<(Form, &[u8])>
    ensures { ReadsForm (112 ∷ rest.now) result }
{
    match rest {
        [b'o', b'l', b'l', b' ', rest @ ..] => Some((Form::NameNumber(NameNumber::Poll), rest)),
        _ => None,
    }
}

fn after_r(rest: &[u8]) -> Option<(Form, &[u8])>
    ensures { ReadsForm (114 ∷ rest.now) result }
{
    match rest {
        [b'e', rest @ ..] => after_re(rest),
        [b'w', b' ', rest @ ..] => Some((Form::Rw, rest)),
        _ => None,
    }
}

fn after_re(rest: &[u8]) -> Option<(Form, &[u8])>
    ensures { ReadsForm (114 ∷ 101 ∷ rest.now) result }
{
    match rest {
        [b'a', b'd', b' ', rest @ ..] => Some((Form::TwoNamesNumber(TwoNamesNumber::Read), rest)),
        [b'd', b'u', b'c', b'e', b' ', rest @ ..] => Some((
            Form::NameNumber(NameNumber::Reduce),
            rest,
        )),
        [b'l', b'e', b'a', b's', b'e', b' ', rest @ ..] => Some((
            Form::NameNumber(NameNumber::Release),
            rest,
        )),
        _ => None,
    }
}

fn after_s(rest: &[u8]) -> Option<(Form, &[u8])>
    ensures { ReadsForm (115 ∷ rest.now) result }
{
    match rest {
        [b'e', b'm', b' ', rest @ ..] => Some((Form::NameNumber(NameNumber::Sem), rest)),
        [b'p', b'l', b'i', b't', b' ', rest @ ..] => Some((
            Form::TwoNamesNumber(TwoNamesNumber::Split),
            rest,
        )),
        [b't', b'a', b't', b'u', b's', b' ', rest @ ..] => Some((
            Form::OneName(OneName::Status),
            rest,
        )),
        _ => None,
    }
}

fn after_t(rest: &[u8]) -> Option<(Form, &[u8])>
    ensures { ReadsForm (116 ∷ rest.now) result }
{
    match rest {
        [b'r', rest @ ..] => after_tr(rest),
        _ => None,
    }
}

fn after_tr(rest: &[u8]) -> Option<(Form, &[u8])>
    ensures { ReadsForm (116 ∷ 114 ∷ rest.now) result }
{
    match rest {
        [b'y', rest @ ..] => after_try(rest),
        _ => None,
    }
}

fn after_try(rest: &[u8]) -> Option<(Form, &[u8])>
    ensures { ReadsForm (116 ∷ 114 ∷ 121 ∷ rest.now) result }
{
    match rest {
        [b' ', rest @ ..] => Some((Form::TwoNamesNumber(TwoNamesNumber::Try), rest)),
        [b'l', b'o', b'c', b'k', b' ', rest @ ..] => Some((
            Form::TwoNames(TwoNames::TryLock),
            rest,
        )),
        [b'r', b'e', b'a', b'd', b' ', rest @ ..] => Some((
            Form::TwoNames(TwoNames::TryRead),
            rest,
        )),
        [b'w', b'r', b'i', b't', b'e', b' ', rest @ ..] => Some((
            Form::TwoNames(TwoNames::TryWrite),
            rest,
        )),
        _ => None,
    }
}

fn after_w(rest: &[u8]) -> Option<(Form, &[u8])>
    ensures { ReadsForm (119 ∷ rest.now) result }
{
    match rest {
        [b'r', b'i', b't', b'e', b' ', rest @ ..] => Some((
            Form::TwoNamesNumber(TwoNamesNumber::Write),
            rest,
        )),
        _ => None,
    }
}
