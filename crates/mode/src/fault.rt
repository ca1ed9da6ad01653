// Why a mode refuses.
ghost use Rattle.std.specs.Prelude.{Some};
ghost use Rattle.layer.specs.Lines.{line_of};
ghost use Rattle.mode.specs.Faults.{number_of as mode_number, place_of as mode_place, layer_of as mode_layer, reason_of as mode_reason};

use layer::{Layer, Line, Refusal};
use std::fmt;

#[derive(Clone, Copy, PartialEq, Eq, Debug)]
pub enum ModeFault {
    // The output buffer is not of the message's length.
    OutputLength = 1,
    // No message seals to these bytes.
    NotSealed = 2,
}

impl Refusal for ModeFault {
    ghost number_of = { mode_number };

    ghost place_of = { mode_place };

    ghost layer_of = { mode_layer };

    ghost reason_of = { mode_reason };

    fn number(&self) -> u8 {
        *self as u8
    }

    fn place(&self) -> u8 {
        0
    }

    fn layer(&self) -> Layer {
        Layer::Mode
    }

    fn reason(&self) -> &'static str {
        match self {
            ModeFault::OutputLength => "the output buffer is not of the message's length",
            ModeFault::NotSealed => "no message seals to these bytes",
        }
    }
}

impl fmt::Display for ModeFault {
    ghost output = { λ fault. Some (line_of (mode_number fault) (mode_place fault) (mode_layer fault) (mode_reason fault)) };

    fn fmt<W: fmt::Write>(&self, f: &mut fmt::Formatter<W>) -> fmt::Result {
        Line::of(self).fmt(f)
    }
}
