// What a station and a ticket hold.
ghost use Rattle.std.specs.Prelude.{◌≡◌, ◌+◌, ◌^◌, ◌≤◌};
ghost use Rattle.station.specs.Numbers.{held, reach};

use mode::Pair;

mod calls;
mod shows;

// A number that has to be spent by seal or give up: it is neither copied, nor cloned, nor let go.
pub struct Ticket {
    id: u8,
    number: u64,
}

// What an opening answers: the message's length and the frame's number.
#[derive(Clone, Copy, PartialEq, Eq, Debug)]
pub struct Opened {
    pub length: usize,
    pub number: u64,
}

// The one sender that a station hears, with the highest number opened from it.
#[derive(Drop)]
struct Peer {
    id: u8,
    highest: u64,
}

// What becomes of a number that was out.
#[derive(Clone, Copy)]
enum End {
    Sealed,
    WrittenOff,
}

// A station. Out is the number that is reserved and neither sealed nor written off; a number is written off when it is given up, when its seal is
// refused, or when the next one is reserved over it.
#[derive(Drop)]
pub struct Station<C, M> {
    pair: Pair<C, M>,
    own: u8,
    peer: Peer,
    next: u64,
    out: Option<u64>,
    reserved: u64,
    sealed: u64,
    written_off: u64,
    ghost counts: { reserved ≡ sealed + written_off + held out },
    ghost bound: { reserved + 1 ≤ next },
    ghost under: { reach out ≤ next },
    ghost top: { next ≤ 2 ^ 48 },
}
