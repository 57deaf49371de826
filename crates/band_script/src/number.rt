//! The numbers of a script.
ghost use Rattle.std.specs.Prelude.{◌≡◌, ◌+◌, ◌<◌, ◌^◌, length, drop, IfSome, IfNone};
ghost use Rattle.std.specs.Char.{is_ascii_digit};
ghost use Rattle.std.specs.List.{prefix_len, take_while};
ghost use Rattle.std.specs.Str.Parse.{digits_value};
ghost use Rattle.band_script.specs.Inner.Reading.{ReadsFrontNumber, ReadsDigits};

/// The number at the front of a text, and what follows it.
pub(crate) fn split_number(text: &[u8]) -> Option<(u64, &[u8])>
    ensures { ReadsFrontNumber text.now result }
{
    match text {
        [b'0', rest @ ..] => Some((0, rest)),
        [b'1'..=b'9', ..] => split_digits(text),
        _ => None,
    }
}

/// The number that the digits at the front of a text make, and what follows them.
fn split_digits(text: &[u8]) -> Option<(u64, &[u8])>
    ensures { ReadsDigits text.now result }
{
    let mut n: u64 = 0;
    for (i, byte) in text.iter().enumerate() {
        if !byte.is_ascii_digit() {
            return Some((n, &text[i..]));
        }
        n = n.checked_mul(10)?.checked_add(u64::from(*byte - b'0'))?;
    }
    Some((n, &text[text.len()..]))
}
