// The exports of the library for C: each is the call of its name in capi, and promises the same. The interface for C is why clauses
// and parameters stand here again: an export passes numbers and byte strings one by one, and its clauses are its own.
#![tactic(auto)]

ghost use Rattle.std.specs.Prelude.{◌≡◌, length};
ghost use Rattle.capi.specs.Choices.{forward_under, backward_under};
ghost use Rattle.capi.specs.Answers.{BlocksMapped, FrameSealed, FrameOpened, ModeSealed, ModeOpened, Asked, Called};

// Seals a message into a frame at the output's start; answers its length or why not.
#[unsafe(no_mangle)]
pub extern "C" fn sealed_frames_seal(
    cipher: u8,
    masking: u8,
    key: &[u8],
    sender: u8,
    number: u64,
    mode: u8,
    clear: &[u8],
    message: &[u8],
    out: &mut [u8],
) -> u64
    ensures { Called cipher masking key.now (λ w. FrameSealed w sender number mode clear.now message.now out.old out.new result) (out.new ≡ out.old) result }
{
    capi::sealed_frames_seal(
        cipher, masking, key, sender, number, mode, clear, message, out,
    )
}

// Opens a frame into the output's start; answers the message's length or why not.
#[unsafe(no_mangle)]
pub extern "C" fn sealed_frames_open(
    cipher: u8,
    masking: u8,
    key: &[u8],
    frame: &[u8],
    out: &mut [u8],
) -> u64
    ensures { Called cipher masking key.now (λ w. FrameOpened w frame.now out.old out.new result) (out.new ≡ out.old) result }
{
    capi::sealed_frames_open(cipher, masking, key, frame, out)
}

// Seals a message into an output of its length, and writes the tag; answers the length or why not.
#[unsafe(no_mangle)]
pub extern "C" fn sealed_frames_mode_seal(
    cipher: u8,
    masking: u8,
    key: &[u8],
    mode: u8,
    nonce: &[u8],
    header: &[u8],
    message: &[u8],
    out: &mut [u8],
    tag: &mut [u8],
) -> u64
    ensures { Called cipher masking key.now (λ w. Asked mode (length nonce.now) (length tag.old) (λ m. ModeSealed w m nonce.now header.now message.now out.old out.new tag.old tag.new result) ((out.new ≡ out.old) × (tag.new ≡ tag.old)) result) ((out.new ≡ out.old) × (tag.new ≡ tag.old)) result }
{
    capi::sealed_frames_mode_seal(cipher, masking, key, mode, nonce, header, message, out, tag)
}

// Opens sealed bytes into an output of their length; answers the length or why not.
#[unsafe(no_mangle)]
pub extern "C" fn sealed_frames_mode_open(
    cipher: u8,
    masking: u8,
    key: &[u8],
    mode: u8,
    nonce: &[u8],
    header: &[u8],
    sealed: &[u8],
    tag: &[u8],
    out: &mut [u8],
) -> u64
    ensures { Called cipher masking key.now (λ w. Asked mode (length nonce.now) (length tag.now) (λ m. ModeOpened w m nonce.now header.now sealed.now tag.now out.old out.new result) (out.new ≡ out.old) result) (out.new ≡ out.old) result }
{
    capi::sealed_frames_mode_open(cipher, masking, key, mode, nonce, header, sealed, tag, out)
}

// Encrypts every whole block in place; answers how many bytes they have, or why not.
#[unsafe(no_mangle)]
pub extern "C" fn sealed_frames_encrypt_blocks(cipher: u8, key: &[u8], bytes: &mut [u8]) -> u64
    ensures { BlocksMapped cipher key.now (forward_under key.now) bytes.old bytes.new result }
{
    capi::sealed_frames_encrypt_blocks(cipher, key, bytes)
}

// Decrypts every whole block in place; answers how many bytes they have, or why not.
#[unsafe(no_mangle)]
pub extern "C" fn sealed_frames_decrypt_blocks(cipher: u8, key: &[u8], bytes: &mut [u8]) -> u64
    ensures { BlocksMapped cipher key.now (backward_under key.now) bytes.old bytes.new result }
{
    capi::sealed_frames_decrypt_blocks(cipher, key, bytes)
}
