// The layers in which a refusal can arise, what a refusal says, and how it is written.
#![tactic(auto)]

ghost use Rattle.std.specs.Prelude.{◌≡◌, Some};
ghost use Rattle.layer.specs.Layers.{value_of, name_of};

use std::fmt;

mod line;
mod refusal;

pub use line::Line;
pub use refusal::Refusal;

// The layer where a refusal arose: the sealing mode, the frame or the station.
#[derive(Clone, Copy, PartialEq, Eq, Debug)]
pub enum Layer {
    Mode = 1,
    Frame = 2,
    Station = 3,
}

// The layer's number, counted from the bottom.
impl From<Layer> for u8 {
    ghost from_gives = { λ layer value. value ≡ value_of layer };

    fn from(layer: Layer) -> u8 {
        layer as u8
    }
}

// The layer's word: mode, frame or station.
impl fmt::Display for Layer {
    ghost output = { λ layer. Some (name_of layer) };

    fn fmt<W: fmt::Write>(&self, f: &mut fmt::Formatter<W>) -> fmt::Result {
        f.write_str(match self {
            Layer::Mode => "mode",
            Layer::Frame => "frame",
            Layer::Station => "station",
        })
    }
}
