//! The words after the first: names, and then numbers.
ghost use Rattle.band_script.specs.Grammar.{words_of};
ghost use Rattle.band_script.specs.Inner.Reading.{ReadsOneName, ReadsNameNumber, ReadsNameOption, ReadsTwoNames, ReadsTwoNamesNumber, ReadsTwoNamesTwoNumbers};

use crate::Name;
use crate::words::Words;

pub(crate) fn one_name(text: &[u8]) -> Option<Name>
    ensures { ReadsOneName (words_of text.now) result }
{
    let mut words = Words::new(text);
    let name = words.name()?;
    words.is_empty().then_some(name)
}

pub(crate) fn two_names(text: &[u8]) -> Option<(Name, Name)>
    ensures { ReadsTwoNames (words_of text.now) result }
{
    let mut words = Words::new(text);
    let first = words.name()?;
    let second = words.name()?;
    words.is_empty().then_some((first, second))
}

pub(crate) fn name_number(text: &[u8]) -> Option<(Name, u64)>
    ensures { ReadsNameNumber (words_of text.now) result }
{
    let mut words = Words::new(text);
    let name = words.name()?;
    let n = words.number()?;
    words.is_empty().then_some((name, n))
}

pub(crate) fn two_names_number(text: &[u8]) -> Option<(Name, Name, u64)>
    ensures { ReadsTwoNamesNumber (words_of text.now) result }
{
    let mut words = Words::new(text);
    let first = words.name()?;
    let second = words.name()?;
    let n = words.number()?;
    words.is_empty().then_some((first, second, n))
}

pub(crate) fn two_names_two_numbers(text: &[u8]) -> Option<(Name, Name, u64, u64)>
    ensures { ReadsTwoNamesTwoNumbers (words_of text.now) result }
{
    let mut words = Words::new(text);
    let first = words.name()?;
    let second = words.name()?;
    let n = words.number()?;
    let m = words.number()?;
    words.is_empty().then_some((first, second, n, m))
}

pub(crate) fn name_option(text: &[u8]) -> Option<(Name, Option<u64>)>
    ensures { ReadsNameOption (words_of text.now) result }
{
    let mut words = Words::new(text);
    let name = words.name()?;
    if words.is_empty() {
        return Some((name, None));
    }
    let n = words.number()?;
    words.is_empty().then_some((name, Some(n)))
}
