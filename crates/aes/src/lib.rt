// AES-128 of FIPS 197, as a block cipher.
#![tactic(auto)]

ghost use Rattle.std.specs.Prelude.{◌≡◌, ℕ, ◌<◌, ◌≤◌, [], MatchOption, slice_index_or};
ghost use Rattle.block.specs.Bytes.{number_of};
ghost use Rattle.aes.specs.Cipher.{enciphered, deciphered, cipher, inv_cipher};
ghost use Rattle.aes.specs.CipherLaws.{AllKeyBytes, cipher_undo};
ghost use Rattle.aes.specs.KeyExpansion.{expanded_key, round_keys, word_at};
ghost use Rattle.aes.specs.RoundKeys.{cells_of};

use block::Block;
use cipher::Cipher;
use state::State;

mod expansion;
mod state;

// The cipher under one key, which is expanded once, when the value is made.
#[derive(Clone, Copy)]
pub struct Aes128 {
    keys: [State; 11],
    ghost fit: { AllKeyBytes (cells_of keys) },
}

impl Aes128 {
    // The cipher under the key of these 16 bytes.
    pub fn new(key: [u8; 16]) -> Aes128
        ensures keys { cells_of result.keys ≡ round_keys key }
        ensures words { (i : ℕ) → i < 44 → word_at (cells_of result.keys) i ≡ number_of (slice_index_or (expanded_key key) i []) }
    {
        let keys = expansion::expand(key);
        Aes128 { keys }
    }

    // Word i of the expanded key, of which there are 44: column i mod 4 of round key i / 4.
    pub fn word(&self, i: usize) -> Option<u32>
        ensures { MatchOption result (44 ≤ i) (λ w. (i < 44) × (w ≡ word_at (cells_of self.now.keys) i)) }
    {
        let key = self.keys.get(i / 4)?;
        Some(key.column(i % 4))
    }

    // A state through all rounds. The last one mixes no columns.
    fn enciphered(&self, start: State) -> State
        ensures { result.cells ≡ enciphered (cells_of self.now.keys) start.cells }
    {
        let keys = &self.keys[..];
        let mut s = start.add_round_key(keys[0]);
        for key in &keys[1..10] {
            s = s.sub_bytes().shift_rows().mix_columns().add_round_key(*key);
        }
        s.sub_bytes().shift_rows().add_round_key(keys[10])
    }

    // A state back through all rounds.
    fn deciphered(&self, end: State) -> State
        ensures { result.cells ≡ deciphered (cells_of self.now.keys) end.cells }
    {
        let keys = &self.keys[..];
        let mut s = end.add_round_key(keys[10]);
        for key in keys[1..10].iter().rev() {
            s = s
                .inv_shift_rows()
                .inv_sub_bytes()
                .add_round_key(*key)
                .inv_mix_columns();
        }
        s.inv_shift_rows().inv_sub_bytes().add_round_key(keys[0])
    }
}

impl Cipher for Aes128 {
    ghost forward = { λ c. cipher (cells_of c.keys) };

    ghost backward = { λ c. inv_cipher (cells_of c.keys) };

    ghost laws = { λ c. cipher_undo (cells_of c.keys) c.fit };

    fn encrypt(&self, block: Block) -> Block {
        self.enciphered(block.into()).into()
    }

    fn decrypt(&self, block: Block) -> Block {
        self.deciphered(block.into()).into()
    }
}
