// Frames, sealed and opened for C.
ghost use Rattle.std.specs.Prelude.{◌≡◌};
ghost use Rattle.frame.specs.Gives.{FrameSeals, FrameOpens};
ghost use Rattle.capi.specs.Codes.{code_of};
ghost use Rattle.capi.specs.Answers.{FrameAnswers, FrameSealed, FrameOpened, Under, Called, key_of};

use crate::calls::PairCall;
use crate::choices::{Choice, NotMade};
use crate::codes::{Fault, code};
use cipher::Cipher;
use frame::FrameFault;
use masking::Masking;
use mode::Pair;

// Makes a call over the pair that was chosen.
fn framed<F: PairCall<Answer = Result<usize, FrameFault>> + Drop>(
    choice: Result<Choice<'_>, NotMade>,
    call: F,
    out: &mut [u8],
) -> Result<usize, Fault>
    ensures { Under choice.entry (key_of choice.entry) (λ w. FrameAnswers (F.gives call w out.old out.new) (code_of result)) (out.new ≡ out.old) (code_of result) }
{
    Ok(choice?.run(call, out)?)
}

// What is sealed into a frame. The mode is a byte, as in frame::seal.
#[derive(Clone, Copy)]
struct Sealing<'a> {
    sender: u8,
    number: u64,
    mode: u8,
    clear: &'a [u8],
    message: &'a [u8],
}

impl<'a> PairCall for Sealing<'a> {
    type Answer = Result<usize, FrameFault>;

    ghost gives = { λ it w was out answer. FrameSeals w it.sender it.number it.mode it.clear.now it.message.now was out answer };

    fn with<C: Cipher, M: Masking>(
        self,
        pair: &Pair<C, M>,
        out: &mut [u8],
    ) -> Result<usize, FrameFault> {
        frame::seal(
            pair,
            self.sender,
            self.number,
            self.mode,
            self.clear,
            self.message,
            out,
        )
    }
}

// Seals a message into a frame at the output's start; answers its length or why not.
pub fn sealed_frames_seal(
    cipher: u8,
    masking: u8,
    key: &[u8],
    sender: u8,
    number: u64,
    mode: u8,
    clear: &[u8],
    message: &[u8],
    out: &mut [u8],
) -> u64
    ensures { Called cipher masking key.now (λ w. FrameSealed w sender number mode clear.now message.now out.old out.new result) (out.new ≡ out.old) result }
{
    let call = Sealing {
        sender,
        number,
        mode,
        clear,
        message,
    };
    code(framed(Choice::of(cipher, masking, key), call, out))
}

// What is opened as a frame.
#[derive(Clone, Copy)]
struct Opening<'a> {
    frame: &'a [u8],
}

impl<'a> PairCall for Opening<'a> {
    type Answer = Result<usize, FrameFault>;

    ghost gives = { λ it w was out answer. FrameOpens w it.frame.now was out answer };

    fn with<C: Cipher, M: Masking>(
        self,
        pair: &Pair<C, M>,
        out: &mut [u8],
    ) -> Result<usize, FrameFault> {
        frame::open(pair, self.frame, out)
    }
}

// Opens a frame into the output's start; answers the message's length or why not.
pub fn sealed_frames_open(cipher: u8, masking: u8, key: &[u8], frame: &[u8], out: &mut [u8]) -> u64
    ensures { Called cipher masking key.now (λ w. FrameOpened w frame.now out.old out.new result) (out.new ≡ out.old) result }
{
    code(framed(Choice::of(cipher, masking, key), Opening { frame }, out))
}
