// Any of the ciphers, or the inverse of one.
ghost use Rattle.std.specs.Prelude.{◌≡◌};
ghost use Rattle.block.specs.Maps.{same};
ghost use Rattle.aes.specs.Cipher.{cipher as aes_forward, inv_cipher as aes_backward};
ghost use Rattle.aes.specs.KeyExpansion.{round_keys as aes_keys};
ghost use Rattle.cipher.specs.Speck.{encrypted, decrypted, round_keys as speck_keys};
ghost use Rattle.suite.specs.Ciphers.{plain_forward, plain_backward, plain_undo, forward_of, backward_of, any_undo};

use aes::Aes128;
use block::Block;
use cipher::{Cipher, Identity, Inverse, Speck};

// A cipher as it comes: the identity, AES-128 or Speck128/128. Each method matches for itself: no function may hand the cipher out
// as a dyn value, and a trait with one generic method, as capi has, would need a struct for each call, which is longer than two matches.
#[derive(Drop)]
pub enum Plain {
    Identity(Identity),
    Aes(Aes128),
    Speck(Speck),
}

impl Cipher for Plain {
    ghost forward = { plain_forward };

    ghost backward = { plain_backward };

    ghost laws = { plain_undo };

    fn encrypt(&self, block: Block) -> Block {
        match self {
            Plain::Identity(cipher) => cipher.encrypt(block),
            Plain::Aes(cipher) => cipher.encrypt(block),
            Plain::Speck(cipher) => cipher.encrypt(block),
        }
    }

    fn decrypt(&self, block: Block) -> Block {
        match self {
            Plain::Identity(cipher) => cipher.decrypt(block),
            Plain::Aes(cipher) => cipher.decrypt(block),
            Plain::Speck(cipher) => cipher.decrypt(block),
        }
    }
}

// One of those, or the inverse of one.
#[derive(Drop)]
pub enum AnyCipher {
    Forward(Plain),
    Inverse(Inverse<Plain>),
}

impl AnyCipher {
    // The identity. Constructors and no `From`: they take a key, and name no further crate.
    pub fn identity() -> AnyCipher
        ensures forward { forward_of result ≡ same }
        ensures backward { backward_of result ≡ same }
    {
        AnyCipher::Forward(Plain::Identity(Identity))
    }

    // AES-128 under a key.
    pub fn aes(key: [u8; 16]) -> AnyCipher
        ensures forward { forward_of result ≡ aes_forward (aes_keys key) }
        ensures backward { backward_of result ≡ aes_backward (aes_keys key) }
    {
        AnyCipher::Forward(Plain::Aes(Aes128::new(key)))
    }

    // Speck128/128 under a key.
    pub fn speck(key: [u8; 16]) -> AnyCipher
        ensures forward { forward_of result ≡ encrypted (speck_keys key) }
        ensures backward { backward_of result ≡ decrypted (speck_keys key) }
    {
        AnyCipher::Forward(Plain::Speck(Speck::new(key)))
    }

    // The inverse of this cipher: its two maps are swapped.
    pub fn inverse(self) -> AnyCipher
        ensures forward { forward_of result ≡ backward_of self }
        ensures backward { backward_of result ≡ forward_of self }
    {
        match self {
            AnyCipher::Forward(inner) => AnyCipher::Inverse(Inverse { inner }),
            AnyCipher::Inverse(Inverse { inner }) => AnyCipher::Forward(inner),
        }
    }
}

impl Cipher for AnyCipher {
    ghost forward = { forward_of };

    ghost backward = { backward_of };

    ghost laws = { any_undo };

    fn encrypt(&self, block: Block) -> Block {
        match self {
            AnyCipher::Forward(cipher) => cipher.encrypt(block),
            AnyCipher::Inverse(cipher) => cipher.encrypt(block),
        }
    }

    fn decrypt(&self, block: Block) -> Block {
        match self {
            AnyCipher::Forward(cipher) => cipher.decrypt(block),
            AnyCipher::Inverse(cipher) => cipher.decrypt(block),
        }
    }
}
