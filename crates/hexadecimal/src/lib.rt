// Hexadecimal text: read as the bytes that it spells, and written of bytes.
#![tactic(auto)]

ghost use Rattle.std.specs.Prelude.{◌≡◌, ℕ, ◌*◌, ◌%◌, ◌<◌, ◌≤◌, true, false, List, take, length, IfOk, Some, None, string_bytes, MatchOption};
ghost use Rattle.hexadecimal.specs.Hex.{digit_of, byte_in, Spells, spelled as spelled_by, hex_char, hex_digits, Written};

use std::alloc::{AllocError, Global};
use std::fmt;
use std::str::from_utf8;

// The value of a hexadecimal digit, small letter or capital. By ranges: a character's to_digit answers 32 bits, which would have to be narrowed.
pub fn digit(character: u8) -> Option<u8>
    ensures { result ≡ digit_of character }
{
    match character {
        b'0'..=b'9' => Some(character - b'0'),
        b'A'..=b'F' => Some(character - b'A' + 10),
        b'a'..=b'f' => Some(character - b'a' + 10),
        _ => None,
    }
}

// The byte that a pair of digits spells, or none of anything else.
fn byte(pair: &[u8]) -> Option<u8>
    ensures { result ≡ byte_in pair.now }
{
    let [high, low] = pair else { return None };
    Some(16 * digit(*high)? + digit(*low)?)
}

// Whether a text has a digit without a partner, so that it spells nothing, however long it is.
#[tactic(auto, using(crate::proofs::Spelling::odd_none))]
fn is_odd(text: &[u8]) -> bool
    ensures nothing { result ≡ true → spelled_by text.now ≡ None }
    ensures even { result ≡ false → length text.now % 2 ≡ 0 }
{
    text.len() % 2 == 1
}

// The bytes that a text spells by two digits each, or none if it does not. None is an answer here: the only error is that of memory.
pub fn bytes(heap: Global, text: &[u8]) -> Result<Option<Vec<u8>>, AllocError>
    ensures spells { IfOk result (λ o. MatchOption o ((bs : List ℕ) → Spells text.now bs → ⊥) (λ v. Spells text.now v.items)) }
    ensures spelled { IfOk result (λ o. MatchOption o (spelled_by text.now ≡ None) (λ v. spelled_by text.now ≡ Some v.items)) }
{
    if is_odd(text) {
        return Ok(None);
    }
    let mut spelled = Vec::new(heap);
    for pair in text.chunks(2) {
        let Some(byte) = byte(pair) else {
            return Ok(None);
        };
        spelled.push(byte)?;
    }
    Ok(Some(spelled))
}

// Bytes, which are printed as the text that spells them.
#[derive(Clone, Copy)]
pub struct Digits<'a>(pub &'a [u8]);

// How many bytes are printed at a time.
const GROUP: usize = 32;

// The digit of a value, small letters from ten on.
fn character(value: u8) -> u8
    requires { value < 16 }
    ensures { result ≡ hex_char value }
{
    if value < 10 {
        b'0' + value
    } else {
        b'a' + (value - 10)
    }
}

// The digits of a group of bytes, at the front of the array.
fn group_digits(group: &[u8]) -> [u8; 64]
    requires { length group.now ≤ 32 }
    ensures { take (2 * length group.now) result ≡ hex_digits group.now }
{
    let mut digits = [0; 64];
    for (i, byte) in group.iter().enumerate() {
        digits[2 * i] = character(*byte / 16);
        digits[2 * i + 1] = character(*byte % 16);
    }
    digits
}

// Digits as a text.
fn as_text(digits: &[u8]) -> Result<&str, fmt::Error>
    ensures { IfOk result (λ text. text.now ≡ digits.now) }
{
    from_utf8(digits).map_err(|_| fmt::Error)
}

impl fmt::Display for Digits<'_> {
    ghost output = { λ d. Some (hex_digits d.0.now) };

    // A group at a time: a text for each byte takes twice the time.
    fn fmt<W: fmt::Write>(&self, f: &mut fmt::Formatter<W>) -> fmt::Result {
        for group in self.0.chunks(GROUP) {
            let digits = group_digits(group);
            let text = as_text(&digits[..2 * group.len()])?;
            f.write_str(text)?;
        }
        Ok(())
    }
}

// The text that spells bytes, which gives them back when it is read.
pub fn text(heap: Global, bytes: &[u8]) -> Result<String, AllocError>
    ensures { IfOk result (λ t. Written (string_bytes t) bytes.now) }
{
    format!(in heap; "{}", Digits(bytes))
}
