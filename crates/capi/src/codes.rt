// The code that a call answers: a length, or why there is none.
ghost use Rattle.std.specs.Prelude.{◌≡◌};
ghost use Rattle.capi.specs.declared.codes.Fault.TheVariants.{Uncalled, InMode, InFrame};
ghost use Rattle.capi.specs.Codes.{refusal, not_made_code, fault_code, code_of};

use crate::choices::NotMade;
use frame::FrameFault;
use layer::Refusal;
use mode::ModeFault;

// Why a call has no length to answer.
#[derive(Clone, Copy, PartialEq, Eq, Debug)]
pub(crate) enum Fault {
    // It is not made.
    Uncalled(NotMade),
    // The mode refuses.
    InMode(ModeFault),
    // The frame is refused.
    InFrame(FrameFault),
}

impl From<NotMade> for Fault {
    ghost from_gives = { λ why fault. fault ≡ Uncalled why };

    fn from(why: NotMade) -> Fault {
        Fault::Uncalled(why)
    }
}

impl From<ModeFault> for Fault {
    ghost from_gives = { λ refused fault. fault ≡ InMode refused };

    fn from(refused: ModeFault) -> Fault {
        Fault::InMode(refused)
    }
}

impl From<FrameFault> for Fault {
    ghost from_gives = { λ refused fault. fault ≡ InFrame refused };

    fn from(refused: FrameFault) -> Fault {
        Fault::InFrame(refused)
    }
}

// The top bit, which no length has.
const TOP_BIT: u64 = 0x8000_0000_0000_0000;

// The code of a refusal, by its number and its place.
fn refusal<R: Refusal>(refused: &R) -> u64
    ensures { result ≡ refusal (R.number_of refused.now) (R.place_of refused.now) }
{
    TOP_BIT + 256 * u64::from(refused.place()) + u64::from(refused.number())
}

// The code of a call that is not made has why in its third byte.
impl From<NotMade> for u64 {
    ghost from_gives = { λ why code. code ≡ not_made_code why };

    fn from(why: NotMade) -> u64 {
        TOP_BIT + 65536 * why as u64
    }
}

impl From<Fault> for u64 {
    ghost from_gives = { λ fault code. code ≡ fault_code fault };

    fn from(fault: Fault) -> u64 {
        match fault {
            Fault::Uncalled(why) => why.into(),
            Fault::InMode(refused) => refusal(&refused),
            Fault::InFrame(refused) => refusal(&refused),
        }
    }
}

// The code of what a call answers.
pub(crate) fn code(answer: Result<usize, Fault>) -> u64
    ensures { result ≡ code_of answer }
{
    match answer {
        Ok(len) => len as u64,
        Err(fault) => fault.into(),
    }
}
