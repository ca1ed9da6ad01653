// A station: it numbers the frames that it seals, and opens no number twice.
#![tactic(auto)]

mod fault;
mod state;

pub use fault::StationFault;
pub use state::{Opened, Station, Ticket};
