// Words of the hub's input, read as values.
ghost use Rattle.std.specs.Prelude.{Some, ◌≡◌, ℕ, ◌^◌, List, length, IfOk, MatchOption, MatchResult, Result, FitsSigned, ◌≢◌};
ghost use Rattle.std.specs.Int.{w16};
ghost use Rattle.std.specs.Option.{SomeIff};
ghost use Rattle.std.specs.Result.{OkIff};
ghost use Rattle.std.specs.Str.Parse.{IsNumeral, without_leading_sign, signed_digits_value};
ghost use Rattle.hexadecimal.specs.Hex.{Spells, spelled as spelled_by};
ghost use Rattle.task.specs.Words.{name_of, WritesBelow, written_value};
ghost use Rattle.task.specs.declared.words.ValveHead.{ValveHead};

use std::alloc::{AllocError, Global};
use std::fmt;
use std::str::FromStr;

// The two kinds of valve head: one runs on a battery and has Speck128/128, the other on the mains and has AES-128.
#[derive(Clone, Copy, PartialEq, Eq, Debug)]
pub enum ValveHead {
    Battery,
    Mains,
}

// A word that names no kind of valve head.
#[derive(Clone, Copy, PartialEq, Eq, Debug)]
pub struct UnknownValveHead;

impl FromStr for ValveHead {
    type Err = UnknownValveHead;

    ghost from_str_gives = { λ word r. MatchResult r (λ head. word ≡ name_of head) (λ _. (head : ValveHead) → word ≢ name_of head) };

    fn from_str(word: &str) -> Result<ValveHead, UnknownValveHead> {
        match word {
            "battery" => Ok(ValveHead::Battery),
            "mains" => Ok(ValveHead::Mains),
            _ => Err(UnknownValveHead),
        }
    }
}

impl fmt::Display for ValveHead {
    ghost output = { λ head. Some (name_of head) };

    fn fmt<W: fmt::Write>(&self, f: &mut fmt::Formatter<W>) -> fmt::Result {
        f.write_str(match self {
            ValveHead::Battery => "battery",
            ValveHead::Mains => "mains",
        })
    }
}

// The key of 16 bytes that a word of 32 hexadecimal digits spells, or none if it does not, which is no error as in hexadecimal::bytes.
pub fn key(heap: Global, word: &str) -> Result<Option<[u8; 16]>, AllocError>
    ensures spells { IfOk result (λ o. MatchOption o ((bs : List ℕ) → length bs ≡ 16 → Spells word.now bs → ⊥) (λ k. Spells word.now k)) }
    ensures spelled { IfOk result (λ o. MatchOption o ((bs : List ℕ) → length bs ≡ 16 → spelled_by word.now ≢ Some bs) (λ k. spelled_by word.now ≡ Some k)) }
{
    let Some(spelled) = hexadecimal::bytes(heap, word.as_bytes())? else {
        return Ok(None);
    };
    Ok(<[u8; 16]>::try_from(spelled.as_slice()).ok())
}

// A type of numbers that words of decimal digits write.
pub trait Decimal: FromStr {
    // The words that write a number of the type.
    ghost writes: { List ℕ → Type 0 };

    // The number that such a word writes.
    ghost value_of: { List ℕ → Self };

    // Parsing answers these numbers, and nothing for other words.
    ghost laws: { (word : List ℕ) (r : Result Self Self.Err) → Self.from_str_gives word r → OkIff r (writes word) (value_of word) };
}

// Each width has an impl of its own, since none may be written by a macro. Ids of the hub and of valve heads.
impl Decimal for u8 {
    ghost writes = { WritesBelow (2 ^ 8) };

    ghost value_of = { written_value };

    ghost laws = { λ word r given. given.0 };
}

// Serials of probes.
impl Decimal for u32 {
    ghost writes = { WritesBelow (2 ^ 32) };

    ghost value_of = { written_value };

    ghost laws = { λ word r given. given.0 };
}

// Frame numbers.
impl Decimal for u64 {
    ghost writes = { WritesBelow (2 ^ 64) };

    ghost value_of = { written_value };

    ghost laws = { λ word r given. given.0 };
}

// Hundredths of a kelvin, with or without a sign.
impl Decimal for i16 {
    ghost writes = { λ word. IsNumeral 10 (without_leading_sign word) × FitsSigned w16 (signed_digits_value 10 word) };

    ghost value_of = { signed_digits_value 10 };

    ghost laws = { λ word r given. given.0 };
}

// The number that a word writes, if it writes one.
pub fn number<N: Decimal>(word: &str) -> Option<N>
where
    N::Err: Drop,
    ensures { SomeIff result (N.writes word.now) (N.value_of word.now) }
{
    word.parse::<N>().ok()
}
