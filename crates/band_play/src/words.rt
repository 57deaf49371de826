//! The words of the program.
ghost use Rattle.std.specs.Prelude.{◌≡◌, ◌↔◌, ℕ, ◌<◌, ◌^◌, [], ◌∷◌, codes, decimal, map, string_bytes, IsTrue, IfSome, IfNone};
ghost use Rattle.band_play.specs.Bulk.{IsBulk};
ghost use Rattle.band_play.specs.Play.{AskToPlay, AskForBulk};

use itoa::Buffer;

/// The most requests that a bulk script makes.
const MOST_REQUESTS: u64 = 200_000;

/// Whether `play` is the one word.
pub(crate) fn asks_to_play(words: &[String]) -> bool
    ensures { IsTrue result ↔ AskToPlay (map string_bytes words.now) }
{
    match words {
        [word] => is_play(word),
        _ => false,
    }
}

fn is_play(word: &String) -> bool
    ensures { IsTrue result ↔ (string_bytes word.now ≡ codes "play") }
{
    word.as_str() == "play"
}

/// How many requests the bulk script is to make that the words ask for, if they ask for one.
pub(crate) fn bulk_of(words: &[String]) -> Option<u64>
    ensures some { IfSome result (λ n. AskForBulk n (map string_bytes words.now)) }
    ensures none { IfNone result ((n : ℕ) → AskForBulk n (map string_bytes words.now) → ⊥) }
{
    match words {
        [word, number] if is_bulk(word) => requests_of(number),
        _ => None,
    }
}

fn is_bulk(word: &String) -> bool
    ensures { IsTrue result ↔ (string_bytes word.now ≡ codes "bulk") }
{
    word.as_str() == "bulk"
}

/// The number that a word is, where a bulk script can make so many requests.
fn requests_of(word: &String) -> Option<u64>
    ensures some { IfSome result (λ n. (string_bytes word.now ≡ decimal n) × IsBulk n) }
    ensures none { IfNone result ((n : ℕ) → string_bytes word.now ≡ decimal n → IsBulk n → ⊥) }
{
    let n = number_of(word)?;
    if is_size(n) { Some(n) } else { None }
}

/// Whether a bulk script can make so many requests.
fn is_size(n: u64) -> bool
    ensures { IsTrue result ↔ IsBulk n }
{
    0 < n && n <= MOST_REQUESTS
}

/// The number that a word is, in the spelling of scripts.
fn number_of(word: &String) -> Option<u64>
    ensures some { IfSome result (λ n. (string_bytes word.now ≡ decimal n) × (n < 2 ^ 64)) }
    ensures none { IfNone result ((n : ℕ) → string_bytes word.now ≡ decimal n → n < 2 ^ 64 → ⊥) }
{
    match word.as_str().parse() {
        Ok(n) => { if is_spelling(n, word) { Some(n) } else { None } }
        Err(_) => None,
    }
}

fn is_spelling(n: u64, word: &String) -> bool
    ensures { IsTrue result ↔ (string_bytes word.now ≡ decimal n) }
{
    Buffer::new().format(n) == word.as_str()
}
