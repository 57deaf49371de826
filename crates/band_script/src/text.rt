//! Words as text.
ghost use Rattle.std.specs.Prelude.{◌≡◌, List, ℕ};
ghost use Rattle.std.specs.Str.{IsAscii};

use std::str;

/// The word, which is ASCII, as text.
pub(crate) fn text_of(word: &[u8]) -> &str
    requires { IsAscii word.now }
    ensures { result.now ≡ word.now }
{
    match str::from_utf8(word) {
        Ok(text) => text,
        Err(_) => unreachable!(),
    }
}
