// Scripts of calls on stations, one to a line: reading a line, writing a call, printing the answers, and counting them.
#![tactic(auto)]

mod answer;
mod call;
mod cursor;
mod reading;
mod reason;
mod tally;
mod value;
mod writing;

pub use answer::{Answer, HexText, NotReadLine, OrDash, OutLine, PartsLine, StateLine};
pub use call::{Call, Line};
pub use reading::read;
pub use reason::{Reason, Unread};
pub use suite::{CipherSetting, MaskingSetting, PlainSetting};
pub use tally::Tally;
pub use writing::{hex_text, write};
