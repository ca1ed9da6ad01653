// Speck128/128: 32 rounds over two words of 64 bits.
ghost use Rattle.std.specs.Prelude.{◌≡◌, ℕ, ◌^◌, ◌<◌, slice_index};
ghost use Rattle.cipher.specs.Speck.{IsWordsOf, joined, new_left, new_right, old_left, old_right, encrypted, decrypted, keys_from, round_keys};
ghost use Rattle.cipher.specs.SpeckLaws.{speck_undo};

use super::Cipher;
use block::Block;

const ROUNDS: usize = 32;

// The two words of a block, the left one first.
#[derive(Clone, Copy)]
struct Words {
    left: u64,
    right: u64,
}

impl From<Block> for Words {
    ghost from_gives = { λ b w. IsWordsOf b w.left w.right };

    fn from(block: Block) -> Words {
        Words {
            left: (block >> 64) as u64,
            right: (block % (1 << 64)) as u64,
        }
    }
}

impl From<Words> for Block {
    ghost from_gives = { λ w b. b ≡ joined w.left w.right };

    fn from(words: Words) -> Block {
        (u128::from(words.left) << 64) + u128::from(words.right)
    }
}

impl Words {
    // One round under a round key.
    fn round(self, key: u64) -> Words
        ensures left { result.left ≡ new_left key self.left self.right }
        ensures right { result.right ≡ new_right result.left self.right }
    {
        let left = self.left.rotate_right(8).wrapping_add(self.right) ^ key;
        let right = self.right.rotate_left(3) ^ left;
        Words { left, right }
    }

    // The words that a round came from.
    fn round_back(self, key: u64) -> Words
        ensures left { result.left ≡ old_left key self.left result.right }
        ensures right { result.right ≡ old_right self.left self.right }
    {
        let right = (self.right ^ self.left).rotate_right(3);
        let left = (self.left ^ key).wrapping_sub(right).rotate_left(8);
        Words { left, right }
    }
}

// The round keys: the key's right word, and then the right word after each round whose key is the round's number.
fn expand(key: Block) -> [u64; ROUNDS]
    ensures keys { result ≡ keys_from key }
    ensures fit { (i : ℕ) → slice_index result i < 2 ^ 64 }
{
    let mut words = Words::from(key);
    let mut keys = [0; ROUNDS];
    for (i, round_key) in keys.iter_mut().enumerate() {
        *round_key = words.right;
        words = words.round(i as u64);
    }
    keys
}

// Speck128/128 under one key, expanded once.
#[derive(Drop)]
pub struct Speck {
    keys: [u64; ROUNDS],
    ghost fit: { (i : ℕ) → slice_index keys i < 2 ^ 64 },
}

impl Speck {
    // The cipher under a key of 16 bytes.
    pub fn new(key: [u8; 16]) -> Speck
        ensures { result.keys ≡ round_keys key }
    {
        Speck {
            keys: expand(block::load(&key, 0)),
        }
    }

    // Each round, the first key first.
    fn rounds(&self, mut words: Words) -> Words
        ensures { joined result.left result.right ≡ encrypted self.now.keys (joined words.left words.right) }
    {
        for key in &self.keys {
            words = words.round(*key);
        }
        words
    }

    // Each round back, the last key first.
    fn rounds_back(&self, mut words: Words) -> Words
        ensures { joined result.left result.right ≡ decrypted self.now.keys (joined words.left words.right) }
    {
        for key in self.keys.iter().rev() {
            words = words.round_back(*key);
        }
        words
    }
}

impl Cipher for Speck {
    ghost forward = { λ c. encrypted c.keys };

    ghost backward = { λ c. decrypted c.keys };

    ghost laws = { λ c. speck_undo c.keys c.fit };

    fn encrypt(&self, block: Block) -> Block {
        self.rounds(block.into()).into()
    }

    fn decrypt(&self, block: Block) -> Block {
        self.rounds_back(block.into()).into()
    }
}
