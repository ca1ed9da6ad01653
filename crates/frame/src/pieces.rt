// The parts of a frame, as its head gives them.
ghost use Rattle.std.specs.Prelude.{◌≡◌, ◌+◌, ◌-◌, ◌≤◌, true, false, length, take, drop, IfErr, OnOk, Ok, Err};
ghost use Rattle.block.specs.Bytes.{number_of};
ghost use Rattle.mode.specs.Values.{mode_value};
ghost use Rattle.frame.specs.Fields.{mode_byte, tag_start, Breaks, AllHold};
ghost use Rattle.frame.specs.Gives.{PartsOf, PartsGives};

use crate::fault::{FrameFault, HeadField};
use mode::Mode;

// A piece of a frame, and the place where it begins.
#[derive(Clone, Copy)]
pub struct Piece<'a> {
    pub at: usize,
    pub bytes: &'a [u8],
}

// What a frame holds; the header is head and clear part together.
#[derive(Clone, Copy)]
pub struct FrameParts<'a> {
    pub mode: Mode,
    pub sender: u8,
    pub number: u64,
    pub header: &'a [u8],
    pub clear: Piece<'a>,
    pub sealed: Piece<'a>,
    pub tag: Piece<'a>,
}

// The number that at most eight bytes spell. Fields have 1, 2, 4, 6 and 7 bytes, which no from_be_bytes takes.
fn number(bytes: &[u8]) -> u64
    requires { length bytes.now ≤ 8 }
    ensures { result ≡ number_of bytes.now }
{
    let mut all = 0;
    for byte in bytes {
        all = 256 * all + *byte as u64;
    }
    all
}

impl HeadField {
    // Refuses with this field, unless its rule holds.
    fn keeps(self, rule: bool) -> Result<(), HeadField>
        ensures ok { OnOk result (rule ≡ true) }
        ensures err { IfErr result (λ field. (rule ≡ false) × (field ≡ self)) }
    {
        if rule { Ok(()) } else { Err(self) }
    }
}

// The piece of a frame from one place to another.
fn piece_of(frame: &[u8], at: usize, end: usize) -> Piece<'_>
    requires { (at ≤ end) × (end ≤ length frame.now) }
    ensures place { result.at ≡ at }
    ensures bytes { result.bytes.now ≡ take (end - at) (drop at frame.now) }
{
    Piece {
        at,
        bytes: &frame[at..end],
    }
}

// A frame with a whole head.
#[derive(Clone, Copy)]
struct Head<'a> {
    frame: &'a [u8],
    ghost long: { 48 ≤ length frame.now },
}

impl<'a> Head<'a> {
    // Whether its fields keep their rules; if not, the field of the lowest place that breaks its rule.
    fn check_fields(&self) -> Result<(), HeadField>
        ensures { elim result [ Ok _ ↦ AllHold self.now.frame.now | Err field ↦ Breaks field self.now.frame.now ] }
    {
        let frame = self.frame;
        let clear = number(&frame[2..4]);
        let sealed = number(&frame[4..6]);
        HeadField::AfterMode.keeps(number(&frame[1..2]) == 0)?;
        HeadField::ClearLength.keeps(clear <= 1024)?;
        HeadField::SealedLength.keeps(sealed <= 1024)?;
        HeadField::ClearStart.keeps(number(&frame[6..8]) == 32)?;
        HeadField::SealedStart.keeps(number(&frame[8..10]) == 32 + clear)?;
        HeadField::TagStart.keeps(number(&frame[10..12]) == 32 + clear + sealed)?;
        HeadField::BeforeSender.keeps(number(&frame[12..16]) == 0)?;
        HeadField::AfterSender.keeps(number(&frame[17..24]) == 0)?;
        HeadField::BeforeNumber.keeps(number(&frame[24..26]) == 0)
    }

    // Where the tag begins.
    fn tag_at(&self) -> usize
        ensures { result ≡ tag_start self.now.frame.now }
    {
        number(&self.frame[10..12]) as usize
    }

    // Cuts the frame, where its head keeps every rule and it ends where its tag does.
    fn cut(self, mode: Mode) -> FrameParts<'a>
        requires known { mode_byte self.frame.now ≡ mode_value mode }
        requires fields { AllHold self.frame.now }
        requires whole { length self.frame.now ≡ tag_start self.frame.now + 16 }
        ensures { PartsOf self.entry.frame.now result }
    {
        let frame = self.frame;
        let sealed_at = number(&frame[8..10]) as usize;
        let tag_at = self.tag_at();
        FrameParts {
            mode,
            sender: frame[16],
            number: number(&frame[26..32]),
            header: &frame[0..sealed_at],
            clear: piece_of(frame, 32, sealed_at),
            sealed: piece_of(frame, sealed_at, tag_at),
            tag: piece_of(frame, tag_at, frame.len()),
        }
    }
}

// Hands out the parts of a frame as pieces of it.
pub fn parts(frame: &[u8]) -> Result<FrameParts<'_>, FrameFault>
    ensures { PartsGives frame.now result }
{
    if frame.len() < 48 {
        return Err(FrameFault::FrameShort);
    }
    let head = Head { frame };
    let mode = Mode::try_from(frame[0])?;
    head.check_fields()?;
    if frame.len() - 16 != head.tag_at() {
        return Err(FrameFault::FrameLength);
    }
    Ok(head.cut(mode))
}
