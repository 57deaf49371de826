//! The names of a script.
ghost use Rattle.std.specs.Prelude.{◌≡◌, ℕ, ◌≤◌, ◌↔◌, List, Some, IsSome, IfSome, ⊤, length, nat_eq, refl, take, replicate};
ghost use Rattle.std.specs.List.{list_all};
ghost use Rattle.std.specs.Ordering.{nat_cmp};
ghost use Rattle.std.specs.Cmp.{partial_equiv_from_equiv};
ghost use Rattle.std.specs.Cmp.Lexicographic.{pointwise, slice_cmp, nat_list_eq_equiv, nat_list_cmp_total, texts_po, texts_ties};
ghost use Rattle.band_script.specs.Inner.Reading.{ReadsFrontName};
ghost use Rattle.band_script.specs.Inner.Stored.{name_in, padded};
ghost use Rattle.band_script.specs.Name.{is_name_byte, IsName};
ghost use Rattle.std.specs.List.{prefix_len};
ghost use Rattle.std.specs.Slice.Scan.{big_endian};

use crate::text::text_of;
use std::alloc::AllocError;
use std::cmp::Ordering;
use std::fmt;
use std::marker::Model;

/// A name: one to thirty-two small letters, digits and underscores.
///
/// It is kept as its bytes and then zeros to the end. No byte of a name is 0, so two names compare as those arrays do.
#[derive(Drop)]
pub struct Name {
    bytes: [u8; 32],
}

// A table of names keeps so many bytes for each.
const _: () = prove!(size_of::<Name>() == 32);

impl Model for Name {
    ghost use Rattle.std.specs.Prelude.{◌≡◌, ℕ, List};
    ghost use Rattle.band_script.specs.Inner.Stored.{name_in, padded};
    ghost use Rattle.band_script.specs.Name.{IsName};

    ghost Value = { List ℕ };

    ghost view = { λ name. name_in name.bytes };

    ghost invariant = { λ name. IsName (name_in name.bytes) × (name.bytes ≡ padded (name_in name.bytes)) };
}

impl Name {
    /// The name that a word is, if it is one.
    pub fn from_word(word: &[u8]) -> Option<Name>
        ensures some { IfSome result (λ name. name ≡ word.now) }
        ensures is_name { IsSome result ↔ IsName word.now }
    {
        let (name, rest) = Name::split(word)?;
        match rest {
            [] => Some(name),
            _ => None,
        }
    }

    /// The name at the front of a text, and what follows it.
    pub(crate) fn split(text: &[u8]) -> Option<(Name, &[u8])>
        ensures { ReadsFrontName text.now result }
    {
        let mut bytes = [0; 32];
        let len = copy_name(text, &mut bytes);
        if len == 0 {
            return None;
        }
        Some((Name { bytes }, &text[len..]))
    }

    /// The text of the name.
    pub fn as_str(&self) -> &str
        ensures text { result.now ≡ self.now }
        ensures is_name { IsName result.now }
    {
        text_of(name_in(&self.bytes))
    }
}

/// Copies the bytes of a name that stand at the front of a text, 32 at most, and answers how many they are.
fn copy_name(text: &[u8], kept: &mut [u8; 32]) -> usize
    requires { kept.old ≡ replicate 32 0 }
    ensures within { result ≤ length text.now }
    ensures len { result ≡ prefix_len is_name_byte (take 32 text.now) }
    ensures kept { kept.new ≡ padded (take result text.now) }
{
    let room = text.len().min(32);
    for i in 0..room {
        if !is_name_byte(text[i]) {
            return i;
        }
        kept[i] = text[i];
    }
    room
}

fn is_name_byte(byte: u8) -> bool
    ensures { result ≡ is_name_byte byte }
{
    NAME_BYTES[byte as usize]
}

/// Whether each byte is one of a name, 32 bytes a row: `0` to `9` in the second, `_` at the end of the third, and `a`
/// to `z` in the fourth.
static NAME_BYTES: [bool; 256] = [
    N, N, N, N, N, N, N, N, N, N, N, N, N, N, N, N, N, N, N, N, N, N, N, N, N, N, N, N, N, N, N, N,
    N, N, N, N, N, N, N, N, N, N, N, N, N, N, N, N, Y, Y, Y, Y, Y, Y, Y, Y, Y, Y, N, N, N, N, N, N,
    N, N, N, N, N, N, N, N, N, N, N, N, N, N, N, N, N, N, N, N, N, N, N, N, N, N, N, N, N, N, N, Y,
    N, Y, Y, Y, Y, Y, Y, Y, Y, Y, Y, Y, Y, Y, Y, Y, Y, Y, Y, Y, Y, Y, Y, Y, Y, Y, Y, N, N, N, N, N,
    N, N, N, N, N, N, N, N, N, N, N, N, N, N, N, N, N, N, N, N, N, N, N, N, N, N, N, N, N, N, N, N,
    N, N, N, N, N, N, N, N, N, N, N, N, N, N, N, N, N, N, N, N, N, N, N, N, N, N, N, N, N, N, N, N,
    N, N, N, N, N, N, N, N, N, N, N, N, N, N, N, N, N, N, N, N, N, N, N, N, N, N, N, N, N, N, N, N,
    N, N, N, N, N, N, N, N, N, N, N, N, N, N, N, N, N, N, N, N, N, N, N, N, N, N, N, N, N, N, N, N,
];

const Y: bool = true;

const N: bool = false;

/// The bytes before the first 0, or all of them where none is 0.
fn name_in(bytes: &[u8]) -> &[u8]
    ensures { result.now ≡ name_in bytes.now }
{
    let zero = bytes.iter().position(|byte| *byte == 0);
    &bytes[..zero.unwrap_or(bytes.len())]
}

impl Clone for Name {
    ghost is_clone = { λ name clone. clone ≡ name };

    ghost is_infallible = { λ _. ⊤ };

    fn clone(&self) -> Result<Name, AllocError> {
        Ok(Name { bytes: self.bytes })
    }
}

impl fmt::Debug for Name {
    fn fmt<W: fmt::Write>(&self, f: &mut fmt::Formatter<W>) -> fmt::Result {
        fmt::Debug::fmt(&self.as_str(), f)
    }
}

impl PartialEq for Name {
    ghost eq = { λ a b. pointwise nat_eq a b };

    ghost laws = { partial_equiv_from_equiv nat_list_eq_equiv };

    fn eq(&self, other: &Self) -> bool {
        self.bytes == other.bytes
    }
}

impl Eq for Name {
    ghost laws = { nat_list_eq_equiv };
}

impl PartialOrd for Name {
    ghost partial_cmp = { λ a b. Some (slice_cmp nat_cmp a b) };

    ghost laws = { texts_po };

    fn partial_cmp(&self, other: &Self) -> Option<Ordering> {
        Some(self.cmp(other))
    }
}

impl Ord for Name {
    ghost cmp = { λ a b. slice_cmp nat_cmp a b };

    ghost total = { nat_list_cmp_total };

    ghost matches_partial_cmp = { λ a b. refl };

    ghost matches_eq = { λ a b. texts_ties a b };

    fn cmp(&self, other: &Self) -> Ordering {
        let mine = front(&self.bytes);
        let others = front(&other.bytes);
        if mine != others {
            return mine.cmp(&others);
        }
        self.bytes.cmp(&other.bytes)
    }
}

/// The first eight bytes as one number. Where two of them differ, they compare as the bytes do.
fn front(bytes: &[u8; 32]) -> u64
    ensures { result ≡ big_endian 0 (take 8 bytes.now) }
{
    u64::from_be_bytes(*bytes.first_chunk().unwrap())
}
