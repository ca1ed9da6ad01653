// Runs both modes over many lengths of header and message, under each cipher and masking, and says how many cases failed.
#![tactic(auto)]

mod bench;
mod counting;
mod tally;

use aes::Aes128;
use bench::Bench;
use cipher::{Cipher, Identity, Inverse, Speck};
use counting::Counting;
use masking::{Doubling, Idle, Masking, Tower};
use mode::Pair;
use std::cell::Cell;
use std::io;
use tally::Tally;

// Every length of a message from 0 to 80, and some around 1,024.
const SHORT: usize = 80;

const LONG: [usize; 4] = [1_008, 1_023, 1_024, 1_025];

const HEADERS: [usize; 7] = [0, 1, 15, 16, 17, 32, 33];

const KEY: [u8; 16] = [
    0x2b, 0x7e, 0x15, 0x16, 0x28, 0xae, 0xd2, 0xa6, 0xab, 0xf7, 0x15, 0x88, 0x09, 0xcf, 0x4f, 0x3c,
];

// The lengths of message and header at which the cipher's calls are shown.
const COUNTED: [(usize, usize); 8] = [
    (0, 0),
    (0, 1),
    (16, 0),
    (16, 16),
    (17, 17),
    (80, 33),
    (1_024, 0),
    (1_024, 32),
];

// All lengths of one cipher and one masking.
fn sweep<C: Cipher, M: Masking>(bench: &Bench<'_, '_, C, M>) -> Tally {
    let mut tally = Tally::new();
    for header in HEADERS {
        for message in (0..=SHORT).chain(LONG) {
            bench.run(header, message, &mut tally);
        }
    }
    tally
}

// One line for the pair of a cipher and a masking.
fn report<C: Cipher, M: Masking + Drop>(
    rt: &impl Print,
    layer: &str,
    cipher: &str,
    inner: &C,
    masking: &str,
    under: M,
) -> io::Result<Tally> {
    let calls = Cell::new(0);
    let counting = Counting {
        inner,
        calls: &calls,
    };
    let tally = sweep(&Bench::new(Pair::new(counting, under), &calls));
    println!(rt; "{layer}{cipher} with {masking}: {tally}")?;
    Ok(tally)
}

// One cipher under each masking, with the text before its name that says which layer is over it.
fn under_maskings<C: Cipher>(
    rt: &impl Print,
    layer: &str,
    cipher: &str,
    inner: &C,
) -> io::Result<Tally> {
    let mut tally = report(rt, layer, cipher, inner, "doubling", Doubling)?;
    tally.add(report(rt, layer, cipher, inner, "tower", Tower)?);
    tally.add(report(rt, layer, cipher, inner, "idle", Idle)?);
    Ok(tally)
}

// One cipher, and then its inverse.
fn both_ways<C: Cipher + Drop>(rt: &impl Print, cipher: &str, inner: C) -> io::Result<Tally> {
    let mut tally = under_maskings(rt, "", cipher, &inner)?;
    let inverse = Inverse { inner };
    tally.add(under_maskings(rt, "inverse of ", cipher, &inverse)?);
    Ok(tally)
}

// How often the cipher is asked, beside the number that is promised.
fn show_calls(rt: &impl Print) -> io::Result<Tally> {
    let calls = Cell::new(0);
    let counting = Counting {
        inner: &Identity,
        calls: &calls,
    };
    let bench = Bench::new(Pair::new(counting, Doubling), &calls);
    let mut tally = Tally::new();
    for (message, header) in COUNTED {
        let count = bench.count(header, message);
        tally.note(count.agrees());
        println!(rt; "message of {message} bytes, header of {header}: {count}")?;
    }
    Ok(tally)
}

fn main(rt: HostRuntime) -> io::Result<()> {
    let mut total = both_ways(&rt, "identity", Identity)?;
    total.add(both_ways(&rt, "AES", Aes128::new(KEY))?);
    total.add(both_ways(&rt, "Speck", Speck::new(KEY))?);
    total.add(show_calls(&rt)?);
    println!(rt; "all: {total}")
}
