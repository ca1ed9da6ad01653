// The edges of frames, numbers and tickets, each tried and printed.
#![tactic(auto)]

use cipher::Identity;
use masking::Doubling;
use mode::{Mode, Pair};
use station::{Opened, Station, StationFault};
use std::io;

// The longest frame: a head, 1,024 bytes in the clear, 1,024 sealed, and a tag.
const LONGEST: usize = 2096;

// The last number that a frame can bear.
const LAST: u64 = 281_474_976_710_655;

// The mode of every frame here, by its number.
const FORWARD: u8 = Mode::Forward as u8;

type Plain = Station<Identity, Doubling>;

// A station over the identity cipher and doubling.
fn plain(own: u8, peer: u8, start: u64, floor: u64) -> Result<Plain, StationFault> {
    Station::new(Pair::new(Identity, Doubling), own, peer, start, floor)
}

// Reserves a number and seals a message under it.
fn seal_next(station: &mut Plain, message: &[u8], out: &mut [u8]) -> Result<usize, StationFault> {
    let ticket = station.reserve()?;
    station.seal(ticket, FORWARD, &[], message, out)
}

// Seals a message of so many bytes at a new station, and answers the frame's length. Arrays here and below: the size is what is tried.
fn seal_long(len: usize) -> Result<usize, StationFault> {
    let message = [0xa5; 1025];
    let mut out = [0; LONGEST];
    let mut hub = plain(1, 2, 1, 0)?;
    seal_next(&mut hub, &message[0..len.min(1025)], &mut out)
}

// Opens the first bytes of the shortest frame.
fn open_short(len: usize) -> Result<Opened, StationFault> {
    let mut frame = [0; 48];
    let mut hub = plain(1, 2, 1, 0)?;
    let sealed = seal_next(&mut hub, &[], &mut frame)?;
    let mut head = plain(2, 1, 1, 0)?;
    head.open(&frame[0..len.min(sealed).min(48)], &mut [])
}

// Opens a frame of some number at a valve head whose highest is another.
fn open_above(number: u64, highest: u64) -> Result<Opened, StationFault> {
    let mut frame = [0; 48];
    let mut hub = plain(1, 2, number, 0)?;
    let _length = seal_next(&mut hub, &[], &mut frame)?;
    let mut head = plain(2, 1, 1, highest)?;
    head.open(&frame, &mut [])
}

// What becomes of tickets: one given up, the next one sealed; then a reserve past the last number.
fn spend_all(first: u64) -> Result<u64, StationFault> {
    let mut out = [0; 48];
    let mut hub = plain(1, 2, first, 0)?;
    let lost = hub.reserve()?;
    hub.give_up(lost)?;
    let used = hub.reserve()?;
    let number = used.number();
    let _length = hub.seal(used, FORWARD, &[], &[], &mut out)?;
    Ok(number)
}

fn main(rt: HostRuntime) -> io::Result<()> {
    let edges = [
        (
            "frame of a message of 1024 bytes",
            seal_long(1024).map(|length| length as u64),
        ),
        (
            "frame of a message of 1025 bytes",
            seal_long(1025).map(|length| length as u64),
        ),
        (
            "number of a frame of 48 bytes",
            open_short(48).map(|opened| opened.number),
        ),
        (
            "number of a frame of 47 bytes",
            open_short(47).map(|opened| opened.number),
        ),
        (
            "number 7 with highest 7",
            open_above(7, 7).map(|opened| opened.number),
        ),
        (
            "number 8 with highest 7",
            open_above(8, 7).map(|opened| opened.number),
        ),
        (
            "sealed under the second number from the last but one on",
            spend_all(LAST - 1),
        ),
        (
            "sealed under the second number from the last on",
            spend_all(LAST),
        ),
    ];
    for (what, answer) in edges {
        match answer {
            Ok(number) => println!(rt; "{what}: {number}")?,
            Err(fault) => println!(rt; "{what}: refused {fault}")?,
        }
    }
    Ok(())
}
