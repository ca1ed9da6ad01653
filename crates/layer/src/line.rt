// How a refusal is written: one line, the same for every layer.
ghost use Rattle.std.specs.Prelude.{◌≡◌, Some};
ghost use Rattle.layer.specs.Lines.{line_of};

use crate::{Layer, Refusal};
use std::fmt;

// The parts of such a line: a refusal's number and place, the layer where it arose, and why, in plain words.
#[derive(Clone, Copy)]
pub struct Line {
    pub number: u8,
    pub place: u8,
    pub layer: Layer,
    pub reason: &'static str,
}

impl Line {
    // The line of a refusal.
    pub fn of<R: Refusal>(refusal: &R) -> Line
        ensures number { result.number ≡ R.number_of refusal.now }
        ensures place { result.place ≡ R.place_of refusal.now }
        ensures layer { result.layer ≡ R.layer_of refusal.now }
        ensures reason { result.reason.now ≡ R.reason_of refusal.now }
    {
        Line {
            number: refusal.number(),
            place: refusal.place(),
            layer: refusal.layer(),
            reason: refusal.reason(),
        }
    }
}

impl fmt::Display for Line {
    ghost output = { λ l. Some (line_of l.number l.place l.layer l.reason.now) };

    fn fmt<W: fmt::Write>(&self, f: &mut fmt::Formatter<W>) -> fmt::Result {
        let Line {
            number,
            place,
            layer,
            reason,
        } = *self;
        write!(f, "{number} at {place} in {layer}: {reason}")
    }
}
