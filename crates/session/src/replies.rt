// What is printed for a call, and why a call may have no answer.
ghost use Rattle.std.specs.Prelude.{◌≡◌, ◌++◌, IfOk, IfSome, string_bytes};
ghost use Rattle.session.specs.declared.replies.Halt.TheVariants.{Unread as NoAnswer, Refused as Refuses};
ghost use Rattle.script.specs.declared.reason.Unread.TheVariants.{Because, Memory};
ghost use Rattle.station.specs.declared.fault.StationFault.TheVariants.{Frame};
ghost use Rattle.session.specs.Replies.{lined, Replies, Outputs};

use frame::FrameFault;
use layer::Refusal;
use script::{Answer, HexText, OutLine, Reason, Unread};
use station::StationFault;
use std::alloc::{AllocError, AllocFailed, Global};
use std::fmt;

// Why a call gives no answer: its line is not read, or it is refused.
#[derive(Clone, Copy)]
pub enum Halt {
    Unread(Unread),
    Refused(StationFault),
}

impl From<Reason> for Halt {
    ghost from_gives = { λ why r. r ≡ NoAnswer (Because why) };

    fn from(reason: Reason) -> Halt {
        Halt::Unread(Unread::Because(reason))
    }
}

impl From<AllocError> for Halt {
    ghost from_gives = { λ error r. r ≡ NoAnswer (Memory error) };

    fn from(error: AllocError) -> Halt {
        Halt::Unread(Unread::Memory(error))
    }
}

impl<T: Drop> From<AllocFailed<T>> for Halt {
    fn from(failed: AllocFailed<T>) -> Halt {
        Halt::from(AllocError::from(failed))
    }
}

impl From<StationFault> for Halt {
    ghost from_gives = { λ fault r. r ≡ Refuses fault };

    fn from(fault: StationFault) -> Halt {
        Halt::Refused(fault)
    }
}

impl From<FrameFault> for Halt {
    ghost from_gives = { λ fault r. r ≡ Refuses (Frame fault) };

    fn from(fault: FrameFault) -> Halt {
        Halt::Refused(StationFault::Frame(fault))
    }
}

// What is printed for a call that was accepted, or for one that was refused. No Result: neither is an error to hand on, and both are counted.
#[derive(Drop)]
pub enum Reply {
    Accepted(String),
    Refused(String),
}

// A text in a line of its own.
pub fn shown<T: fmt::Display + Drop>(heap: Global, answer: T) -> Result<String, AllocError>
    ensures { IfOk result (λ text. IfSome (T.output answer) (λ bytes. string_bytes text ≡ lined bytes)) }
{
    format!(in heap; "{answer}\n")
}

// A text with another one behind it.
fn joined(mut text: String, more: &str) -> Result<String, AllocError>
    ensures { IfOk result (λ both. string_bytes both ≡ string_bytes text ++ more.now) }
{
    text.push_str(more)?;
    Ok(text)
}

impl Reply {
    // The reply to a call, from its answer or from why it has none.
    pub fn new<T: fmt::Display + Drop>(
        heap: Global,
        answer: Result<T, Halt>,
    ) -> Result<Reply, Unread>
        ensures { IfOk result (Replies T.output answer) }
    {
        match answer {
            Ok(answer) => Ok(Reply::Accepted(shown(heap, answer)?)),
            Err(Halt::Refused(fault)) => {
                let answer = Answer::Refused {
                    number: fault.number(),
                    place: fault.place(),
                    layer: fault.layer(),
                };
                Ok(Reply::Refused(shown(heap, answer)?))
            }
            Err(Halt::Unread(why)) => Err(why),
        }
    }

    // The same with the output buffer in a line of its own.
    pub fn with_output(self, heap: Global, out: &[u8]) -> Result<Reply, Unread>
        ensures { IfOk result (Outputs out.now self) }
    {
        let output = shown(heap, OutLine(HexText(out)))?;
        match self {
            Reply::Accepted(text) => Ok(Reply::Accepted(joined(text, output.as_str())?)),
            Reply::Refused(text) => Ok(Reply::Refused(joined(text, output.as_str())?)),
        }
    }
}
