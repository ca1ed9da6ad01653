// Writing a call as a line, and bytes as hexadecimal text.
ghost use Rattle.std.specs.Prelude.{◌≡◌, IfOk, Some, string_bytes};
ghost use Rattle.script.specs.Calls.{call_line};
ghost use Rattle.script.specs.Lines.{WritesCall};
ghost use Rattle.script.specs.Hex.{hex_text_of};

use crate::answer::HexText;
use crate::call::Call;
use std::alloc::{AllocError, Global};
use std::fmt;

// Bytes as pairs of hexadecimal digits, or - where there are none: the printing of a HexText, for callers that hold the text.
pub fn hex_text(heap: Global, bytes: &[u8]) -> Result<String, AllocError>
    ensures { IfOk result (λ t. string_bytes t ≡ hex_text_of bytes.now) }
{
    HexText(bytes).to_string(heap)
}

// The words of a call, with a space between each two.
impl<'a> fmt::Display for Call<'a> {
    ghost output = { λ c. Some (call_line c) };

    fn fmt<W: fmt::Write>(&self, f: &mut fmt::Formatter<W>) -> fmt::Result {
        match self {
            Call::Station {
                name,
                own,
                peer,
                start,
                floor,
            } => write!(f, "station {name} {own} {peer} {start} {floor}"),
            Call::Reserve { name, ticket } => write!(f, "reserve {name} {ticket}"),
            Call::GiveUp { name, ticket } => write!(f, "giveup {name} {ticket}"),
            Call::Seal {
                name,
                ticket,
                mode,
                clear,
                message,
                space,
            } => {
                let clear = HexText(clear.as_slice());
                let message = HexText(message.as_slice());
                write!(f, "seal {name} {ticket} {mode} {clear} {message} {space}")
            }
            Call::Open { name, frame, space } => {
                let frame = HexText(frame.as_slice());
                write!(f, "open {name} {frame} {space}")
            }
            Call::Parts { frame } => {
                let frame = HexText(frame.as_slice());
                write!(f, "parts {frame}")
            }
            Call::State { name } => write!(f, "state {name}"),
        }
    }
}

// The line that makes a call. Read again, it says that call, if its names and labels are words and its strings and its buffer are not too long.
pub fn write(heap: Global, call: &Call<'_>) -> Result<String, AllocError>
    ensures line { IfOk result (λ t. string_bytes t ≡ call_line call.now) }
    ensures back { IfOk result (λ t. WritesCall call.now (string_bytes t)) }
{
    call.to_string(heap)
}
