// Blocks encrypted and decrypted in place, for C.
ghost use Rattle.std.specs.Prelude.{◌≡◌, ℕ, ◌*◌, ◌/◌, length};
ghost use Rattle.capi.specs.Choices.{forward_under, backward_under};
ghost use Rattle.capi.specs.Codes.{code_of};
ghost use Rattle.capi.specs.Answers.{mapped, UnderCipher, BlocksMapped, MapsBlocks, cipher_key_of};

use crate::calls::CipherCall;
use crate::choices::{KeyedCipher, NotMade};
use crate::codes::{Fault, code};
use block::{load, store};
use cipher::{Cipher, Inverse};

// Encrypts every whole block in place, and leaves the bytes behind them; answers how many bytes the blocks have.
fn encrypt_each<C: Cipher>(cipher: &C, bytes: &mut [u8]) -> usize
    ensures count { result ≡ 16 * (length bytes.old / 16) }
    ensures blocks { bytes.new ≡ mapped (C.forward cipher.now) bytes.old }
{
    // By place: tried with chunks_exact_mut, after whose loop a proof knows no byte of the string.
    let count = bytes.len() / 16;
    for i in 0..count {
        let block = load(bytes, 16 * i);
        store(bytes, 16 * i, cipher.encrypt(block));
    }
    16 * count
}

// Encrypting every whole block.
#[derive(Clone, Copy)]
struct Encryption;

impl CipherCall for Encryption {
    type Answer = usize;

    ghost gives = { λ it forward backward was out count. MapsBlocks forward was out count };

    fn with<C: Cipher + Drop>(self, cipher: C, bytes: &mut [u8]) -> usize {
        encrypt_each(&cipher, bytes)
    }
}

// Decrypting every whole block.
#[derive(Clone, Copy)]
struct Decryption;

impl CipherCall for Decryption {
    type Answer = usize;

    ghost gives = { λ it forward backward was out count. MapsBlocks backward was out count };

    fn with<C: Cipher + Drop>(self, cipher: C, bytes: &mut [u8]) -> usize {
        encrypt_each(&Inverse { inner: cipher }, bytes)
    }
}

// Makes a call over the cipher that was chosen.
fn map_blocks<F: CipherCall<Answer = usize> + Drop>(
    keyed: Result<KeyedCipher<'_>, NotMade>,
    call: F,
    bytes: &mut [u8],
) -> Result<usize, Fault>
    ensures { UnderCipher keyed.entry (λ cipher. F.gives call (forward_under (cipher_key_of keyed.entry) cipher) (backward_under (cipher_key_of keyed.entry) cipher) bytes.old bytes.new) (bytes.new ≡ bytes.old) (code_of result) }
{
    Ok(keyed?.run(call, bytes))
}

// Encrypts every whole block in place; answers how many bytes they have, or why not.
pub fn sealed_frames_encrypt_blocks(cipher: u8, key: &[u8], bytes: &mut [u8]) -> u64
    ensures { BlocksMapped cipher key.now (forward_under key.now) bytes.old bytes.new result }
{
    code(map_blocks(KeyedCipher::of(cipher, key), Encryption, bytes))
}

// Decrypts every whole block in place; answers how many bytes they have, or why not.
pub fn sealed_frames_decrypt_blocks(cipher: u8, key: &[u8], bytes: &mut [u8]) -> u64
    ensures { BlocksMapped cipher key.now (backward_under key.now) bytes.old bytes.new result }
{
    code(map_blocks(KeyedCipher::of(cipher, key), Decryption, bytes))
}
