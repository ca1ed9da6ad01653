// A session: named stations, the tickets that they handed out, and the making of a script's calls on them.
#![tactic(auto)]

mod calls;
mod replies;
mod stations;

use crate::stations::Stations;
use script::Tally;

// The stations that a script's calls are made on, and the counts of its calls and of the lines that were not read.
pub struct Session {
    stations: Stations,
    tally: Tally,
}
