// Why a station refuses.
ghost use Rattle.std.specs.Prelude.{◌≡◌, Some};
ghost use Rattle.layer.specs.Lines.{line_of};
ghost use Rattle.station.specs.declared.fault.StationFault.TheVariants.{Frame};
ghost use Rattle.station.specs.Faults.{number_of as station_number, place_of as station_place, layer_of as station_layer, reason_of as station_reason};

use frame::FrameFault;
use layer::{Layer, Line, Refusal};
use std::fmt;

#[derive(Clone, Copy, PartialEq, Eq, Debug)]
pub enum StationFault {
    // The station's own id is its peer's too.
    SameId,
    // The start number is 0 or above the last number, or the floor is above it.
    BadNumber,
    // Every number has been handed out.
    Exhausted,
    // The ticket's id and number are not those out here.
    NotOut,
    // The sender is not the peer.
    UnknownSender,
    // The number is not above the highest one opened.
    NotAbove,
    // The frame is refused.
    Frame(FrameFault),
}

impl From<FrameFault> for StationFault {
    ghost from_gives = { λ f r. r ≡ Frame f };

    fn from(fault: FrameFault) -> StationFault {
        Self::Frame(fault)
    }
}

// A refusal of the frame or the mode says what they say.
impl Refusal for StationFault {
    ghost number_of = { station_number };

    ghost place_of = { station_place };

    ghost layer_of = { station_layer };

    ghost reason_of = { station_reason };

    // By a match, as a frame's: a case holds the frame's fault.
    fn number(&self) -> u8 {
        match self {
            StationFault::SameId => 3,
            StationFault::BadNumber => 4,
            StationFault::Exhausted => 5,
            StationFault::NotOut => 6,
            StationFault::UnknownSender => 14,
            StationFault::NotAbove => 15,
            StationFault::Frame(fault) => fault.number(),
        }
    }

    fn place(&self) -> u8 {
        match self {
            StationFault::UnknownSender => 16,
            StationFault::NotAbove => 26,
            StationFault::Frame(fault) => fault.place(),
            _ => 0,
        }
    }

    fn layer(&self) -> Layer {
        match self {
            StationFault::Frame(fault) => fault.layer(),
            _ => Layer::Station,
        }
    }

    fn reason(&self) -> &'static str {
        match self {
            StationFault::SameId => "the station's own id is its peer's too",
            StationFault::BadNumber => "the start or the floor is outside the frame numbers",
            StationFault::Exhausted => "every frame number has been handed out",
            StationFault::NotOut => "the ticket is not the one that is out here",
            StationFault::UnknownSender => "the sender is not the peer",
            StationFault::NotAbove => "the number is not above the highest one",
            StationFault::Frame(fault) => fault.reason(),
        }
    }
}

impl fmt::Display for StationFault {
    ghost output = { λ fault. Some (line_of (station_number fault) (station_place fault) (station_layer fault) (station_reason fault)) };

    fn fmt<W: fmt::Write>(&self, f: &mut fmt::Formatter<W>) -> fmt::Result {
        Line::of(self).fmt(f)
    }
}
