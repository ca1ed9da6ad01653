// The two sealing modes, over any cipher and any masking.
#![tactic(auto)]

mod fault;
mod pair;
mod value;

pub use fault::ModeFault;
pub use pair::Pair;
pub use value::{Mode, UnknownMode};
