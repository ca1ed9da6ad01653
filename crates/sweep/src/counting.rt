// A cipher that counts how often it is asked.
use block::Block;
use cipher::Cipher;
use std::cell::Cell;

// Any cipher, with a count of its calls.
#[derive(Drop)]
pub struct Counting<'c, 'n, C> {
    pub inner: &'c C,
    pub calls: &'n Cell<usize>,
}

impl<'c, 'n, C: Cipher> Cipher for Counting<'c, 'n, C> {
    ghost forward = { λ c. C.forward c.inner.now };

    ghost backward = { λ c. C.backward c.inner.now };

    ghost laws = { λ c. C.laws c.inner.now };

    fn encrypt(&self, block: Block) -> Block {
        self.calls.set(self.calls.get().wrapping_add(1));
        self.inner.encrypt(block)
    }

    fn decrypt(&self, block: Block) -> Block {
        self.calls.set(self.calls.get().wrapping_add(1));
        self.inner.decrypt(block)
    }
}
