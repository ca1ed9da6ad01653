// Maskings of a block, by what they mean: a step and its way back.
#![tactic(auto)]

ghost use Rattle.std.specs.Prelude.{◌≡◌, ℕ, ◌+◌, ◌^◌, ◌<◌, [], ◌∷◌, slice_index};
ghost use Rattle.block.specs.Double.{double, halve};
ghost use Rattle.block.specs.Maps.{Computes, Undo, same, undo_same};
ghost use Rattle.masking.specs.Doubling.{doubled, undoubled};
ghost use Rattle.masking.specs.DoublingLaws.{doubling_undo};
ghost use Rattle.masking.specs.Steps.{times, Γ, StepsAdd};
ghost use Rattle.masking.specs.Tower.{word3, word2, word1, word0, of_words, alpha, alpha_back, tower_step, tower_back};
ghost use Rattle.masking.specs.TowerLaws.{tower_undo};

use block::Block;

// A masking: the laws say that step and back undo each other for every block, and nothing more.
pub trait Masking {
    ghost onward: { Self → ℕ → ℕ };

    ghost inward: { Self → ℕ → ℕ };

    ghost laws: { (m : Self) → Undo (onward m) (inward m) };

    fn step(&self, block: Block) -> Block
        ensures { result ≡ onward self.now block };

    fn back(&self, block: Block) -> Block
        ensures { result ≡ inward self.now block };
}

// The masking whose step alters nothing.
#[derive(Clone, Copy)]
pub struct Idle;

impl Masking for Idle {
    ghost onward = { λ _. same };

    ghost inward = { λ _. same };

    ghost laws = { λ _. undo_same };

    fn step(&self, block: Block) -> Block {
        block // as it came
    }

    fn back(&self, block: Block) -> Block {
        block // as it was stepped to
    }
}

// An element of the field of 2^(TOP + 1) elements, shifted left by one bit, with POLY added if a one was shifted out.
fn double<const TOP: u32, const POLY: u32>(x: u128) -> u128
    requires top { TOP < 128 }
    requires fits { x < 2 ^ (TOP + 1) }
    ensures { result ≡ double TOP POLY x }
{
    ((x % (1 << TOP)) << 1) ^ (u128::from(POLY) * (x >> TOP))
}

// The element that was doubled.
fn halve<const TOP: u32, const POLY: u32>(x: u128) -> u128
    requires top { TOP < 128 }
    requires fits { x < 2 ^ (TOP + 1) }
    requires poly { POLY < 2 ^ (TOP + 1) }
    ensures { result ≡ halve TOP POLY x }
{
    let low = x % 2;
    ((x ^ (u128::from(POLY) * low)) >> 1) + (low << TOP)
}

// Doubling in the field of 2^128 elements.
#[derive(Clone, Copy)]
pub struct Doubling;

impl Masking for Doubling {
    ghost onward = { λ _. doubled };

    ghost inward = { λ _. undoubled };

    ghost laws = { λ _. doubling_undo };

    fn step(&self, block: Block) -> Block {
        double::<127, 0x87>(block)
    }

    fn back(&self, block: Block) -> Block {
        halve::<127, 0x87>(block)
    }
}

// Steps from a block and goes back again: the block, whatever the masking. Its twin over ciphers stays: one function over both traits
// would need a third trait above them, for one line.
#[tactic(auto, using(block::specs::Maps::undone))]
pub fn there_and_back<M: Masking>(masking: &M, block: Block) -> Block
    ensures { result ≡ block }
{
    masking.back(masking.step(block))
}

// A block after so many turns of a map. The range counts turns, and no place in anything.
fn turned<F: Fn(Block) -> Block>(turn: F, count: u64, block: Block) -> Block
    requires { F.IsAlwaysCallable turn }
    ensures { (f : ℕ → ℕ) → Computes (F.post turn) f → result ≡ times f count block }
{
    let mut reached = block;
    for _ in 0..count {
        reached = turn(reached);
    }
    reached
}

// A block after i steps, or after -i backs where i is negative; and that such steps add up: i steps and j more are i + j.
pub fn steps<M: Masking>(masking: &M, block: Block, i: i64) -> Block
    ensures reached { result ≡ Γ (M.onward masking.now) (M.inward masking.now) block i }
    ensures add { StepsAdd (M.onward masking.now) (M.inward masking.now) }
{
    let count = i.unsigned_abs();
    if i < 0 {
        turned(|block| masking.back(block), count, block)
    } else {
        turned(|block| masking.step(block), count, block)
    }
}

const WORD: u128 = 0x1_0000_0000;

// The words of a block, the leftmost first.
#[derive(Clone, Copy)]
struct Words([u32; 4]);

impl From<Block> for Words {
    ghost from_gives = { λ b w. w.0 ≡ word3 b ∷ word2 b ∷ word1 b ∷ word0 b ∷ [] };

    fn from(block: Block) -> Words {
        Words([
            (block >> 96) as u32,
            ((block >> 64) % WORD) as u32,
            ((block >> 32) % WORD) as u32,
            (block % WORD) as u32,
        ])
    }
}

impl From<Words> for Block {
    ghost from_gives = { λ w b. b ≡ of_words (slice_index w.0 0) (slice_index w.0 1) (slice_index w.0 2) (slice_index w.0 3) };

    fn from(words: Words) -> Block {
        // Widened one by one: by the array's map a step of the tower took 1.28 of the time.
        let Words([a, b, c, d]) = words;
        ((u128::from(a) * WORD + u128::from(b)) * WORD + u128::from(c)) * WORD + u128::from(d)
    }
}

// A word times alpha: shifted left by one bit, with 0x0a000021 added if a one was shifted out.
fn times_alpha(w: u32) -> u32
    ensures { result ≡ alpha w }
{
    double::<31, 0x0a00_0021>(w.into()) as u32
}

// The word that times_alpha came from.
fn over_alpha(w: u32) -> u32
    ensures { result ≡ alpha_back w }
{
    halve::<31, 0x0a00_0021>(w.into()) as u32
}

// The tower of four words of 32 bits, leftmost first: a3, a2, a1, a0 step to a2 ^ a3, a1, a0 ^ a3 and alpha a3.
#[derive(Clone, Copy)]
pub struct Tower;

impl Masking for Tower {
    ghost onward = { λ _. tower_step };

    ghost inward = { λ _. tower_back };

    ghost laws = { λ _. tower_undo };

    fn step(&self, block: Block) -> Block {
        let Words([a3, a2, a1, a0]) = block.into();
        Words([a2 ^ a3, a1, a0 ^ a3, times_alpha(a3)]).into()
    }

    fn back(&self, block: Block) -> Block {
        let Words([b3, b2, b1, b0]) = block.into();
        let a3 = over_alpha(b0);
        Words([a3, b3 ^ a3, b2, b1 ^ a3]).into()
    }
}
