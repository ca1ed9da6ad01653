// What the hub has to send and to whom: probe offsets, the records that they travel in, and the words that name them.
#![tactic(auto)]

mod record;
mod words;

pub use record::{Offset, pack, unpack};
pub use words::{Decimal, UnknownValveHead, ValveHead, key, number};
