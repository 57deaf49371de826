//! A reader of the words of a line.
ghost use Rattle.std.specs.Prelude.{◌≡◌, ◌↔◌, [], IsTrue};
ghost use Rattle.std.specs.Option.{option_map};
ghost use Rattle.band_script.specs.Grammar.{words_of};
ghost use Rattle.band_script.specs.Inner.Reading.{ReadsFirstName, ReadsFirstNumber, EndsWord, words_left};

use crate::Name;
use crate::number::split_number;

/// The words that are left of a line: those of `rest`, if there is one.
#[derive(Drop)]
pub(crate) struct Words<'a> {
    rest: Option<&'a [u8]>,
}

impl<'a> Words<'a> {
    /// All words of a text.
    pub(crate) fn new(text: &'a [u8]) -> Words<'a>
        ensures { words_left result ≡ words_of text.now }
    {
        Words { rest: Some(text) }
    }

    /// Takes a name.
    pub(crate) fn name(&mut self) -> Option<Name>
        ensures { ReadsFirstName (words_left self.old) result (words_left self.new) }
    {
        let (name, rest) = Name::split(self.rest?)?;
        *self = end_word(rest)?;
        Some(name)
    }

    /// Takes a number.
    pub(crate) fn number(&mut self) -> Option<u64>
        ensures { ReadsFirstNumber (words_left self.old) result (words_left self.new) }
    {
        let (n, rest) = split_number(self.rest?)?;
        *self = end_word(rest)?;
        Some(n)
    }

    /// Whether no word is left.
    pub(crate) fn is_empty(&self) -> bool
        ensures { IsTrue result ↔ (words_left self.now ≡ []) }
    {
        match self.rest {
            None => true,
            Some(_) => false,
        }
    }
}

/// The words after one that ends here, if it does.
fn end_word(rest: &[u8]) -> Option<Words>
    ensures { EndsWord rest.now result }
{
    match rest {
        [] => Some(Words { rest: None }),
        [b' ', text @ ..] => Some(Words { rest: Some(text) }),
        _ => None,
    }
}
