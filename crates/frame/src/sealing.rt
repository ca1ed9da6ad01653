// Sealing into a frame and opening out of one.
ghost use Rattle.std.specs.Prelude.{◌≡◌, ℕ, ◌+◌, ◌/◌, ◌%◌, ◌^◌, ◌≤◌, List, [], ◌∷◌, length};
ghost use Rattle.mode.specs.Pairs.{maps};
ghost use Rattle.mode.specs.Values.{mode_value};
ghost use Rattle.frame.specs.Form.{head_of};
ghost use Rattle.frame.specs.Gives.{FrameSeals, SealsFrame, PartsOpen, FrameOpens};

use crate::fault::FrameFault;
use crate::pieces::{FrameParts, parts};
use block::{Block, load, store};
use cipher::Cipher;
use masking::Masking;
use mode::{Mode, Pair};

// The most bytes of a clear part, and of a message.
const LONGEST: usize = 1024;

// What a frame is made of; the number's low 48 bits go into its head.
#[derive(Clone, Copy)]
struct Content<'a> {
    mode: Mode,
    sender: u8,
    number: u64,
    clear: &'a [u8],
    message: &'a [u8],
    ghost clear_short: { length clear.now ≤ 1024 },
    ghost message_short: { length message.now ≤ 1024 },
}

impl Content<'_> {
    // The frame's head.
    fn head(&self) -> [u8; 32]
        ensures { result ≡ head_of self.now.mode (length self.now.clear.now) (length self.now.message.now) self.now.sender self.now.number }
    {
        let clear = self.clear.len() as u16;
        let message = self.message.len() as u16;
        let mut head = [0; 32];
        head[0] = u8::from(self.mode);
        head[2..4].copy_from_slice(&clear.to_be_bytes());
        head[4..6].copy_from_slice(&message.to_be_bytes());
        head[7] = 32;
        head[8..10].copy_from_slice(&(32 + clear).to_be_bytes());
        head[10..12].copy_from_slice(&(32 + clear + message).to_be_bytes());
        head[16] = self.sender;
        head[26..32].copy_from_slice(&self.number.to_be_bytes()[2..8]);
        head
    }

    // Writes the frame at the start of an output that has room, and answers its length.
    fn write<C: Cipher, M: Masking>(
        &self,
        pair: &Pair<C, M>,
        out: &mut [u8],
    ) -> Result<usize, FrameFault>
        requires { 48 + length self.now.clear.now + length self.now.message.now ≤ length out.old }
        ensures { (m : ℕ) → m ≡ mode_value self.now.mode → FrameSeals (maps C.Cipher M.Masking pair.now) self.now.sender self.now.number m self.now.clear.now self.now.message.now out.old out.new result }
    {
        let sealed_at = 32 + self.clear.len();
        let tag_at = sealed_at + self.message.len();
        out[0..32].copy_from_slice(&self.head());
        out[32..sealed_at].copy_from_slice(self.clear);
        let nonce = load(out, 16);
        let start = &mut out[0..tag_at];
        let tag = pair.seal_behind(self.mode, nonce, sealed_at, self.message, start)?;
        store(out, tag_at, tag);
        Ok(tag_at + 16)
    }
}

// Seals a message into a frame at the output's start, and answers its length. The mode is a byte, since a caller's byte that is no mode's number has its own refusal.
pub fn seal<C: Cipher, M: Masking>(
    pair: &Pair<C, M>,
    sender: u8,
    number: u64,
    mode: u8,
    clear: &[u8],
    message: &[u8],
    out: &mut [u8],
) -> Result<usize, FrameFault>
    ensures gives { FrameSeals (maps C.Cipher M.Masking pair.now) sender number mode clear.now message.now out.old out.new result }
    ensures seals { SealsFrame (maps C.Cipher M.Masking pair.now) sender number clear.now message.now out.new result }
{
    let mode = Mode::try_from(mode)?;
    if clear.len() > LONGEST {
        return Err(FrameFault::ClearTooLong);
    }
    if message.len() > LONGEST {
        return Err(FrameFault::MessageTooLong);
    }
    if out.len() < 48 + clear.len() + message.len() {
        return Err(FrameFault::OutputShort);
    }
    let content = Content {
        mode,
        sender,
        number,
        clear,
        message,
    };
    content.write(pair, out)
}

impl FrameParts<'_> {
    // Opens the sealed part into the output's start, and answers the message's length.
    pub fn open<C: Cipher, M: Masking>(
        self,
        pair: &Pair<C, M>,
        out: &mut [u8],
    ) -> Result<usize, FrameFault>
        ensures { PartsOpen (maps C.Cipher M.Masking pair.now) self.entry out.old out.new result }
    {
        let len = self.sealed.bytes.len();
        if out.len() < len {
            return Err(FrameFault::OutputShort);
        }
        let nonce = load(self.header, 16);
        let tag = load(self.tag.bytes, 0);
        let start = &mut out[0..len];
        pair.open(self.mode, nonce, self.header, self.sealed.bytes, tag, start)?;
        Ok(len)
    }
}

// Opens a frame into the output's start, and answers the message's length.
pub fn open<C: Cipher, M: Masking>(
    pair: &Pair<C, M>,
    frame: &[u8],
    out: &mut [u8],
) -> Result<usize, FrameFault>
    ensures { FrameOpens (maps C.Cipher M.Masking pair.now) frame.now out.old out.new result }
{
    parts(frame)?.open(pair, out)
}
