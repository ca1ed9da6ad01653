// The field of 256 elements: the substitution of a byte, and the products that mix a column.
#![tactic(auto)]

ghost use Rattle.std.specs.Prelude.{◌≡◌, ℕ, ◌+◌, ◌*◌, ◌/◌, ◌%◌, ◌^◌, ◌<◌};
ghost use Rattle.std.specs.Int.Bits.{bit_xor};
ghost use Rattle.gf256.specs.Column.{coefficient, mixing, mixing_back};
ghost use Rattle.gf256.specs.Field.{times_x_of, inverse, IsInverse};
ghost use Rattle.gf256.specs.Substitution.{substituted, restored};

mod inverse_table;
mod table;

use inverse_table::ORIGINALS;
use table::SUBSTITUTES;

// The byte that stands for a byte: its inverse in the field, and then a map of its bits.
#[tactic(auto, using(crate::proofs::Right::entry_substituted, crate::proofs::Right::inverse_is))]
pub fn substitute(b: u8) -> u8
    ensures value { result ≡ substituted b }
    ensures inverse { IsInverse b (inverse b) }
{
    SUBSTITUTES[b as usize]
}

// The byte that a byte stands for.
#[tactic(auto, using(crate::proofs::Right::entry_restored))]
pub fn restore(b: u8) -> u8
    ensures { result ≡ restored b }
{
    ORIGINALS[b as usize]
}

// A byte times x: shifted left by one bit, with 0x1b added if a one was shifted out. Masking's doubling at this width would be a call of
// three arguments on numbers of 128 bits, for this one line.
pub fn times_x(a: u8) -> u8
    ensures { result ≡ times_x_of a }
{
    (a << 1) ^ (0x1b * (a >> 7))
}

// A byte of a mixed column, from the column's bytes in their order from that place on: twice a, three times b, c and d, added, by one
// doubling of a + b.
#[tactic(auto, using(crate::proofs::Right::column_mixed))]
pub fn mix_byte(a: u8, b: u8, c: u8, d: u8) -> u8
    ensures { result ≡ coefficient mixing a b c d }
{
    times_x(a ^ b) ^ (b ^ (c ^ d))
}

// A byte of the column that a mixed one came from, in the same order: the multiples of a by 14, b by 11, c by 13 and d by 9, added, by
// three doublings, the highest power of x first.
#[tactic(auto, using(crate::proofs::Right::column_unmixed))]
pub fn unmix_byte(a: u8, b: u8, c: u8, d: u8) -> u8
    ensures { result ≡ coefficient mixing_back a b c d }
{
    let eight = times_x((a ^ b) ^ (c ^ d));
    let four = times_x(eight ^ (a ^ c));
    times_x(four ^ (a ^ b)) ^ (b ^ (c ^ d))
}
