// What the station's law says to a caller who sees only its contracts.
#![tactic(auto)]

ghost use Rattle.station.specs.Laws.{Lasts};
ghost use Rattle.replay.specs.Replay.{AtMostOne, plain, plain_maps};

use cipher::{Cipher, Identity};
use masking::{Idle, Masking};
use mode::Pair;
use station::{Station, StationFault};

// Which of two openings of one frame were accepted. Flags and no Results: what they opened is no part of the promise.
#[derive(Clone, Copy, PartialEq, Eq, Debug)]
pub struct Openings {
    pub first: bool,
    pub second: bool,
}

// Opens one frame twice at a new station: at most one of the two is accepted, whatever the bytes, the cipher and the masking.
pub fn opened_twice<C: Cipher + Drop, M: Masking + Drop>(
    pair: Pair<C, M>,
    own: u8,
    peer: u8,
    floor: u64,
    frame: &[u8],
    out: &mut [u8],
) -> Result<Openings, StationFault>
    ensures { AtMostOne result }
{
    let mut station = Station::new(pair, own, peer, 1, floor)?;
    let first = station.open(frame, out);
    let second = station.open(frame, out);
    Ok(Openings {
        first: first.is_ok(),
        second: second.is_ok(),
    })
}

// A station over the identity cipher and the idle masking: the law stands there too, with no further premise.
pub fn plainest(
    own: u8,
    peer: u8,
    start: u64,
    floor: u64,
) -> Result<Station<Identity, Idle>, StationFault>
    ensures { Lasts plain_maps plain peer floor result }
{
    Station::new(Pair::new(Identity, Idle), own, peer, start, floor)
}
