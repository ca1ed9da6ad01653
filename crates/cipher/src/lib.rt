// Block ciphers, by what they mean: two maps on blocks that undo each other.
#![tactic(auto)]

ghost use Rattle.std.specs.Prelude.{◌≡◌, ℕ};
ghost use Rattle.block.specs.Maps.{Undo, same, undo_same, undo_swap};

mod speck;

use block::Block;
pub use speck::Speck;

// A block cipher under one key. Forward and backward are its two maps; the laws say that each undoes the other for every block.
pub trait Cipher {
    ghost forward: { Self → ℕ → ℕ };

    ghost backward: { Self → ℕ → ℕ };

    ghost laws: { (c : Self) → Undo (forward c) (backward c) };

    fn encrypt(&self, block: Block) -> Block
        ensures { result ≡ forward self.now block };

    fn decrypt(&self, block: Block) -> Block
        ensures { result ≡ backward self.now block };
}

// The cipher that maps each block to itself.
#[derive(Clone, Copy)]
pub struct Identity;

impl Cipher for Identity {
    ghost forward = { λ _. same };

    ghost backward = { λ _. same };

    ghost laws = { λ _. undo_same };

    fn encrypt(&self, block: Block) -> Block {
        block // as it came
    }

    fn decrypt(&self, block: Block) -> Block {
        block // as it was encrypted
    }
}

// A layer over any cipher that swaps its two maps.
#[derive(Clone, Copy, Drop)]
pub struct Inverse<C> {
    pub inner: C,
}

impl<C: Cipher> Cipher for Inverse<C> {
    ghost forward = { λ c. C.backward c.inner };

    ghost backward = { λ c. C.forward c.inner };

    ghost laws = { λ c. undo_swap (C.forward c.inner) (C.backward c.inner) (C.laws c.inner) };

    fn encrypt(&self, block: Block) -> Block {
        self.inner.decrypt(block)
    }

    fn decrypt(&self, block: Block) -> Block {
        self.inner.encrypt(block)
    }
}

// Encrypts a block and decrypts it again: the block, whatever the cipher. The one over maskings says why there are two.
#[tactic(auto, using(block::specs::Maps::undone))]
pub fn there_and_back<C: Cipher>(cipher: &C, block: Block) -> Block
    ensures { result ≡ block }
{
    cipher.decrypt(cipher.encrypt(block))
}
