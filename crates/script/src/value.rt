// Words of a script, read as values.
ghost use Rattle.std.specs.Prelude.{◌≡◌, vec_items};
ghost use Rattle.script.specs.Results.{Gives};
ghost use Rattle.script.specs.Values.{number_of, string_of, key_of};

use crate::reason::{Reason, Unread};
use std::alloc::Global;

// The most bytes that a string or an output buffer may have.
pub const LONGEST: usize = 65_536;

// The number that a word of decimal digits writes, if it is at most the given one.
pub fn number(word: &str, most: u64) -> Result<u64, Reason>
    ensures { result ≡ number_of most word.now }
{
    if word.starts_with('+') {
        return Err(Reason::NotANumber);
    }
    word.parse::<u64>()
        .ok()
        .filter(|n| *n <= most)
        .ok_or(Reason::NotANumber)
}

// The bytes that a word spells, or none for -.
pub fn bytes(heap: Global, word: &str) -> Result<Vec<u8>, Unread>
    ensures { Gives vec_items (string_of word.now) result }
{
    if word == "-" {
        return Ok(Vec::new(heap));
    }
    let spelled = hexadecimal::bytes(heap, word.as_bytes())?.ok_or(Reason::NotHex)?;
    if spelled.len() > LONGEST {
        return Err(Unread::Because(Reason::TooLong));
    }
    Ok(spelled)
}

// The key of 16 bytes that a word spells.
pub fn key(heap: Global, word: &str) -> Result<[u8; 16], Unread>
    ensures { Gives (λ k. k) (key_of word.now) result }
{
    let spelled = bytes(heap, word)?;
    <[u8; 16]>::try_from(spelled.as_slice()).map_err(|_| Unread::Because(Reason::NotAKey))
}
