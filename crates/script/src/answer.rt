// How the answer to a call is printed.
ghost use Rattle.std.specs.Prelude.{Some};
ghost use Rattle.script.specs.Hex.{hex_text_of};
ghost use Rattle.script.specs.Answers.{answer_line, or_dash, not_read_line, out_line, parts_line, state_line};

use hexadecimal::Digits;
use layer::Layer;
use std::fmt;

// What a call answers; the state of a station and the parts of a frame have lines of their own.
#[derive(Clone, Copy)]
pub enum Answer {
    Made,
    Ticket { id: u8, number: u64 },
    GivenUp,
    Sealed { length: usize },
    Opened { length: usize, number: u64 },
    Refused { number: u8, place: u8, layer: Layer },
}

impl fmt::Display for Answer {
    ghost output = { λ a. Some (answer_line a) };

    fn fmt<W: fmt::Write>(&self, f: &mut fmt::Formatter<W>) -> fmt::Result {
        match self {
            Answer::Made => f.write_str("made"),
            Answer::Ticket { id, number } => write!(f, "ticket {id} {number}"),
            Answer::GivenUp => f.write_str("given up"),
            Answer::Sealed { length } => write!(f, "sealed {length}"),
            Answer::Opened { length, number } => write!(f, "opened {length} number {number}"),
            Answer::Refused {
                number,
                place,
                layer,
            } => write!(f, "refused {number} at {place} in {layer}"),
        }
    }
}

// A number that may be missing, where - is printed.
#[derive(Clone, Copy)]
pub struct OrDash(pub Option<u64>);

impl fmt::Display for OrDash {
    ghost output = { λ o. Some (or_dash o.0) };

    fn fmt<W: fmt::Write>(&self, f: &mut fmt::Formatter<W>) -> fmt::Result {
        match self.0 {
            Some(number) => write!(f, "{number}"),
            None => f.write_str("-"),
        }
    }
}

// What a call for a station's state answers.
#[derive(Clone, Copy)]
pub struct StateLine {
    pub next: u64,
    pub out: OrDash,
    pub highest: u64,
    pub reserved: u64,
    pub sealed: u64,
    pub written_off: u64,
}

impl fmt::Display for StateLine {
    ghost output = { λ s. Some (state_line s) };

    fn fmt<W: fmt::Write>(&self, f: &mut fmt::Formatter<W>) -> fmt::Result {
        let StateLine {
            next,
            out,
            highest,
            reserved,
            sealed,
            written_off,
        } = self;
        write!(
            f,
            "next {next} out {out} highest {highest} reserved {reserved} sealed {sealed} written-off {written_off}"
        )
    }
}

// Bytes, which are printed as pairs of hexadecimal digits, or as - where there are none.
#[derive(Clone, Copy)]
pub struct HexText<'a>(pub &'a [u8]);

impl<'a> fmt::Display for HexText<'a> {
    ghost output = { λ h. Some (hex_text_of h.0.now) };

    fn fmt<W: fmt::Write>(&self, f: &mut fmt::Formatter<W>) -> fmt::Result {
        match self.0 {
            [] => f.write_str("-"),
            bytes => write!(f, "{}", Digits(bytes)),
        }
    }
}

// What a call for the parts of a frame answers: the place and the hexadecimal text of each.
#[derive(Clone, Copy)]
pub struct PartsLine<T> {
    pub clear_at: usize,
    pub clear: T,
    pub sealed_at: usize,
    pub sealed: T,
    pub tag_at: usize,
    pub tag: T,
}

impl<T: fmt::Display> fmt::Display for PartsLine<T> {
    ghost output = { λ p. parts_line p.clear_at (T.output p.clear) p.sealed_at (T.output p.sealed) p.tag_at (T.output p.tag) };

    fn fmt<W: fmt::Write>(&self, f: &mut fmt::Formatter<W>) -> fmt::Result {
        let PartsLine {
            clear_at,
            clear,
            sealed_at,
            sealed,
            tag_at,
            tag,
        } = self;
        write!(
            f,
            "clear {clear_at} {clear} sealed {sealed_at} {sealed} tag {tag_at} {tag}"
        )
    }
}

// The output buffer, as hexadecimal text.
#[derive(Clone, Copy)]
pub struct OutLine<T>(pub T);

impl<T: fmt::Display> fmt::Display for OutLine<T> {
    ghost output = { λ o. out_line (T.output o.0) };

    fn fmt<W: fmt::Write>(&self, f: &mut fmt::Formatter<W>) -> fmt::Result {
        let OutLine(bytes) = self;
        write!(f, "out {bytes}")
    }
}

// The number of a line that is not read, and why.
#[derive(Clone, Copy)]
pub struct NotReadLine<T> {
    pub line: u64,
    pub reason: T,
}

impl<T: fmt::Display> fmt::Display for NotReadLine<T> {
    ghost output = { λ n. not_read_line n.line (T.output n.reason) };

    fn fmt<W: fmt::Write>(&self, f: &mut fmt::Formatter<W>) -> fmt::Result {
        let NotReadLine { line, reason } = self;
        write!(f, "line {line}: {reason}")
    }
}
