// Why a frame is refused.
ghost use Rattle.std.specs.Prelude.{◌≡◌, Some};
ghost use Rattle.layer.specs.Lines.{line_of};
ghost use Rattle.frame.specs.declared.fault.FrameFault.TheVariants.{BadField, Sealing, UnknownMode as unknown_mode};
ghost use Rattle.frame.specs.Fields.{field_place};
ghost use Rattle.frame.specs.Faults.{number_of as frame_number, place_of as frame_place, layer_of as frame_layer, reason_of as frame_reason};

use layer::{Layer, Line, Refusal};
use mode::{ModeFault, UnknownMode};
use std::fmt;

// A head field that has a rule, by the place of its first byte.
#[derive(Clone, Copy, PartialEq, Eq, Debug)]
pub enum HeadField {
    // Zero.
    AfterMode = 1,
    // At most 1,024.
    ClearLength = 2,
    // At most 1,024.
    SealedLength = 4,
    // 32.
    ClearStart = 6,
    // 32 and the clear part's length.
    SealedStart = 8,
    // The sealed part's start and its length.
    TagStart = 10,
    // Zero.
    BeforeSender = 12,
    // Zero.
    AfterSender = 17,
    // Zero.
    BeforeNumber = 24,
}

impl HeadField {
    // The place of the field's first byte. A method and no `From`: a caller reads what the number is.
    pub fn place(self) -> u8
        ensures { result ≡ field_place self }
    {
        self as u8
    }
}

#[derive(Clone, Copy, PartialEq, Eq, Debug)]
pub enum FrameFault {
    // The mode is neither 1 nor 2.
    UnknownMode,
    // The clear part is above 1,024 bytes.
    ClearTooLong,
    // The message is above 1,024 bytes.
    MessageTooLong,
    // The output is shorter than the result.
    OutputShort,
    // The frame is below 48 bytes.
    FrameShort,
    // A head field breaks its rule.
    BadField(HeadField),
    // The frame does not end where its tag does.
    FrameLength,
    // The mode refuses.
    Sealing(ModeFault),
}

impl From<ModeFault> for FrameFault {
    ghost from_gives = { λ f r. r ≡ Sealing f };

    fn from(refusal: ModeFault) -> FrameFault {
        FrameFault::Sealing(refusal)
    }
}

// A head field that breaks its rule.
impl From<HeadField> for FrameFault {
    ghost from_gives = { λ field r. r ≡ BadField field };

    fn from(field: HeadField) -> FrameFault {
        Self::BadField(field)
    }
}

// A byte that is no mode's number.
impl From<UnknownMode> for FrameFault {
    ghost from_gives = { λ _ r. r ≡ unknown_mode };

    fn from(_: UnknownMode) -> FrameFault {
        Self::UnknownMode
    }
}

// A refusal of the mode says what the mode says.
impl Refusal for FrameFault {
    ghost number_of = { frame_number };

    ghost place_of = { frame_place };

    ghost layer_of = { frame_layer };

    ghost reason_of = { frame_reason };

    // By a match: cases that hold a field or the mode's fault can have no discriminant.
    fn number(&self) -> u8 {
        match self {
            FrameFault::UnknownMode => 7,
            FrameFault::ClearTooLong => 8,
            FrameFault::MessageTooLong => 9,
            FrameFault::OutputShort => 10,
            FrameFault::FrameShort => 11,
            FrameFault::BadField(_) => 12,
            FrameFault::FrameLength => 13,
            FrameFault::Sealing(fault) => fault.number(),
        }
    }

    fn place(&self) -> u8 {
        match self {
            FrameFault::BadField(field) => field.place(),
            FrameFault::Sealing(fault) => fault.place(),
            _ => 0,
        }
    }

    fn layer(&self) -> Layer {
        match self {
            FrameFault::Sealing(fault) => fault.layer(),
            _ => Layer::Frame,
        }
    }

    fn reason(&self) -> &'static str {
        match self {
            FrameFault::UnknownMode => "the mode is neither 1 nor 2",
            FrameFault::ClearTooLong => "the clear part is above 1024 bytes",
            FrameFault::MessageTooLong => "the message is above 1024 bytes",
            FrameFault::OutputShort => "the output is too short",
            FrameFault::FrameShort => "the frame is below 48 bytes",
            FrameFault::BadField(_) => "a field of the head breaks its rule",
            FrameFault::FrameLength => "the frame does not end where its tag does",
            FrameFault::Sealing(fault) => fault.reason(),
        }
    }
}

impl fmt::Display for FrameFault {
    ghost output = { λ fault. Some (line_of (frame_number fault) (frame_place fault) (frame_layer fault) (frame_reason fault)) };

    fn fmt<W: fmt::Write>(&self, f: &mut fmt::Formatter<W>) -> fmt::Result {
        Line::of(self).fmt(f)
    }
}
