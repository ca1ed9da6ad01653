// The two modes, for C.
ghost use Rattle.std.specs.Prelude.{◌≡◌, length};
ghost use Rattle.mode.specs.Gives.{SealGives, OpenGives};
ghost use Rattle.capi.specs.Codes.{code_of};
ghost use Rattle.capi.specs.Answers.{ModeSealed, ModeOpened, Asks, Asked, Under, Called, key_of};

use crate::calls::PairCall;
use crate::choices::{Choice, NotMade};
use crate::codes::{Fault, code};
use block::{Block, load, store};
use cipher::Cipher;
use masking::Masking;
use mode::{Mode, ModeFault, Pair};

// What a mode is asked, as C gives it: its number, a nonce, a header, and a message or sealed bytes.
#[derive(Clone, Copy)]
struct Request<'a> {
    mode: u8,
    nonce: &'a [u8],
    header: &'a [u8],
    bytes: &'a [u8],
}

// The mode of a number, if nonce and tag are blocks.
fn asked(mode: u8, nonce: &[u8], tag: &[u8]) -> Result<Mode, NotMade>
    ensures { Asks mode (length nonce.now) (length tag.now) result }
{
    if nonce.len() != 16 {
        return Err(NotMade::NonceLength);
    }
    if tag.len() != 16 {
        return Err(NotMade::TagLength);
    }
    Ok(Mode::try_from(mode)?)
}

// What is sealed.
#[derive(Clone, Copy)]
struct Sealing<'a> {
    mode: Mode,
    nonce: Block,
    header: &'a [u8],
    message: &'a [u8],
}

impl<'a> PairCall for Sealing<'a> {
    type Answer = Result<Block, ModeFault>;

    ghost gives = { λ it w was out answer. SealGives w it.mode it.nonce it.header.now it.message.now was out answer };

    fn with<C: Cipher, M: Masking>(
        self,
        pair: &Pair<C, M>,
        out: &mut [u8],
    ) -> Result<Block, ModeFault> {
        pair.seal(self.mode, self.nonce, self.header, self.message, out)
    }
}

// Seals over the pair that was chosen, and writes the tag. Opening below begins likewise; what it takes and writes is another thing.
fn seal(
    choice: Result<Choice<'_>, NotMade>,
    request: Request,
    out: &mut [u8],
    tag: &mut [u8],
) -> Result<usize, Fault>
    ensures { Under choice.entry (key_of choice.entry) (λ w. Asked request.entry.mode (length request.entry.nonce.now) (length tag.old) (λ m. ModeSealed w m request.entry.nonce.now request.entry.header.now request.entry.bytes.now out.old out.new tag.old tag.new (code_of result)) ((out.new ≡ out.old) × (tag.new ≡ tag.old)) (code_of result)) ((out.new ≡ out.old) × (tag.new ≡ tag.old)) (code_of result) }
{
    let choice = choice?;
    let mode = asked(request.mode, request.nonce, tag)?;
    let call = Sealing {
        mode,
        nonce: load(request.nonce, 0),
        header: request.header,
        message: request.bytes,
    };
    let block = choice.run(call, out)?;
    store(tag, 0, block);
    Ok(request.bytes.len())
}

// Seals a message into an output of its length, and writes the tag; answers the length or why not.
pub fn sealed_frames_mode_seal(
    cipher: u8,
    masking: u8,
    key: &[u8],
    mode: u8,
    nonce: &[u8],
    header: &[u8],
    message: &[u8],
    out: &mut [u8],
    tag: &mut [u8],
) -> u64
    ensures { Called cipher masking key.now (λ w. Asked mode (length nonce.now) (length tag.old) (λ m. ModeSealed w m nonce.now header.now message.now out.old out.new tag.old tag.new result) ((out.new ≡ out.old) × (tag.new ≡ tag.old)) result) ((out.new ≡ out.old) × (tag.new ≡ tag.old)) result }
{
    let request = Request {
        mode,
        nonce,
        header,
        bytes: message,
    };
    code(seal(Choice::of(cipher, masking, key), request, out, tag))
}

// What is opened.
#[derive(Clone, Copy)]
struct Opening<'a> {
    mode: Mode,
    nonce: Block,
    header: &'a [u8],
    sealed: &'a [u8],
    tag: Block,
}

impl<'a> PairCall for Opening<'a> {
    type Answer = Result<(), ModeFault>;

    ghost gives = { λ it w was out answer. OpenGives w it.mode it.nonce it.header.now it.sealed.now it.tag was out answer };

    fn with<C: Cipher, M: Masking>(
        self,
        pair: &Pair<C, M>,
        out: &mut [u8],
    ) -> Result<(), ModeFault> {
        pair.open(
            self.mode,
            self.nonce,
            self.header,
            self.sealed,
            self.tag,
            out,
        )
    }
}

// Opens over the pair that was chosen.
fn open(
    choice: Result<Choice<'_>, NotMade>,
    request: Request,
    tag: &[u8],
    out: &mut [u8],
) -> Result<usize, Fault>
    ensures { Under choice.entry (key_of choice.entry) (λ w. Asked request.entry.mode (length request.entry.nonce.now) (length tag.now) (λ m. ModeOpened w m request.entry.nonce.now request.entry.header.now request.entry.bytes.now tag.now out.old out.new (code_of result)) (out.new ≡ out.old) (code_of result)) (out.new ≡ out.old) (code_of result) }
{
    let choice = choice?;
    let mode = asked(request.mode, request.nonce, tag)?;
    let call = Opening {
        mode,
        nonce: load(request.nonce, 0),
        header: request.header,
        sealed: request.bytes,
        tag: load(tag, 0),
    };
    choice.run(call, out)?;
    Ok(request.bytes.len())
}

// Opens sealed bytes into an output of their length; answers the length or why not.
pub fn sealed_frames_mode_open(
    cipher: u8,
    masking: u8,
    key: &[u8],
    mode: u8,
    nonce: &[u8],
    header: &[u8],
    sealed: &[u8],
    tag: &[u8],
    out: &mut [u8],
) -> u64
    ensures { Called cipher masking key.now (λ w. Asked mode (length nonce.now) (length tag.now) (λ m. ModeOpened w m nonce.now header.now sealed.now tag.now out.old out.new result) (out.new ≡ out.old) result) (out.new ≡ out.old) result }
{
    let request = Request {
        mode,
        nonce,
        header,
        bytes: sealed,
    };
    code(open(Choice::of(cipher, masking, key), request, tag, out))
}
