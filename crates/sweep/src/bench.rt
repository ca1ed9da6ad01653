// One pair of a cipher and a masking, and the cases that are run on it.
ghost use Rattle.std.specs.Prelude.{◌≡◌, ℕ, ◌+◌, ◌<◌, T, length, slice_index};
ghost use Rattle.block.specs.Cut.{block_count};

use crate::counting::Counting;
use crate::tally::Tally;
use block::{Block, Cut};
use cipher::Cipher;
use masking::Masking;
use mode::{Mode, ModeFault, Pair};
use std::cell::Cell;
use std::{array, fmt};

// The longest header and the longest message.
const HEADER: usize = 33;

const MESSAGE: usize = 1_025;

const NONCE: Block = 0x0102_0304_0506_0708_090a_0b0c_0d0e_0f10;

// A pair whose cipher counts its calls, and the bytes that headers and messages are cut from.
#[derive(Drop)]
pub struct Bench<'c, 'n, C, M> {
    pair: Pair<Counting<'c, 'n, C>, M>,
    calls: &'n Cell<usize>,
    header: [u8; HEADER],
    message: [u8; MESSAGE],
}

// How often the cipher was asked, and how often it should be.
#[derive(Clone, Copy)]
pub struct Calls {
    to_seal: usize,
    to_open: usize,
    promised: usize,
}

impl Calls {
    pub fn agrees(self) -> bool
        ensures { T result → (self.to_seal ≡ self.promised) × (self.to_open ≡ self.promised) }
    {
        self.to_seal == self.promised && self.to_open == self.promised
    }
}

impl fmt::Display for Calls {
    fn fmt<W: fmt::Write>(&self, f: &mut fmt::Formatter<W>) -> fmt::Result {
        write!(
            f,
            "{} cipher calls to seal, {} to open, {} promised",
            self.to_seal, self.to_open, self.promised
        )
    }
}

// How many blocks a string of so many bytes has; the empty one has one.
fn blocks(len: usize) -> usize
    ensures { result ≡ block_count len }
{
    Cut::of(len).before + 1
}

// The number of cipher calls that a seal or an opening is to make.
fn promised(header: usize, message: usize) -> usize
    ensures none { header ≡ 0 → result ≡ block_count message + 3 }
    ensures some { 0 < header → result ≡ block_count message + block_count header + 4 }
{
    let m = blocks(message);
    if header == 0 {
        m + 3
    } else {
        m + blocks(header) + 4
    }
}

// Flips a bit of one byte in a block; flipping it again restores the byte.
fn flip(bytes: &mut [u8], block: usize) {
    let at = block.saturating_mul(16);
    if at < bytes.len() {
        let room = (bytes.len() - at).min(16);
        bytes[at + block % room] ^= 0x20;
    }
}

// The last block of a string, or what there is of it.
fn last(bytes: &[u8]) -> &[u8] {
    let at = Cut::of(bytes.len()).at;
    &bytes[at..]
}

// Whether each byte is 0.
fn all_zero(bytes: &[u8]) -> bool
    ensures { T result → (k : ℕ) → k < length bytes.now → slice_index bytes.now k ≡ 0 }
{
    bytes.iter().all(|byte| *byte == 0)
}

// Flips one byte in each block of a string in turn, and notes whether what comes of it is refused. A block goes by its number, since the last may
// be short, and a borrow of one would not let the whole be opened.
fn flip_each<F: FnMut(&[u8]) -> bool>(bytes: &mut [u8], tally: &mut Tally, mut refused: F)
    requires { F.IsAlwaysCallable refused }
{
    for block in 0..bytes.len().div_ceil(16) {
        flip(bytes, block);
        tally.note(refused(bytes));
        flip(bytes, block);
    }
}

impl<'c, 'n, C: Cipher, M: Masking> Bench<'c, 'n, C, M> {
    pub fn new(pair: Pair<Counting<'c, 'n, C>, M>, calls: &'n Cell<usize>) -> Bench<'c, 'n, C, M> {
        Bench {
            pair,
            calls,
            header: array::from_fn(|i| (i * 11 % 251) as u8),
            message: array::from_fn(|i| (i * 7 % 253) as u8),
        }
    }

    // Seals; answers the tag, if the call is accepted and asks the cipher as often as promised.
    fn seal(&self, mode: Mode, header: &[u8], message: &[u8], out: &mut [u8]) -> Option<Block> {
        self.calls.set(0);
        match self.pair.seal(mode, NONCE, header, message, out) {
            Ok(tag) if self.calls.get() == promised(header.len(), message.len()) => Some(tag),
            _ => None,
        }
    }

    // Whether opening gives the message back, with as many cipher calls as promised.
    fn opens(
        &self,
        mode: Mode,
        header: &[u8],
        sealed: &[u8],
        tag: Block,
        message: &[u8],
        out: &mut [u8],
    ) -> bool {
        self.calls.set(0);
        let done = self.pair.open(mode, NONCE, header, sealed, tag, out);
        let calls = self.calls.get();
        done.is_ok() && &*out == message && calls == promised(header.len(), sealed.len())
    }

    // Whether opening is refused because no message seals to the bytes, and leaves zeros. Each use changes another of the five values, so no struct holds them.
    fn refuses(&self, mode: Mode, header: &[u8], sealed: &[u8], tag: Block, out: &mut [u8]) -> bool
        ensures { T result → (k : ℕ) → k < length out.new → slice_index out.new k ≡ 0 }
    {
        out.fill(0xff);
        match self.pair.open(mode, NONCE, header, sealed, tag, out) {
            Err(ModeFault::NotSealed) => all_zero(out),
            _ => false,
        }
    }

    // The cases of one mode, with a header from the front of the bench's; answers the tag. Rooms are cut from arrays here and below: vectors would
    // take the heap, and an error of memory, through every function from here to main.
    fn run_mode(
        &self,
        mode: Mode,
        header: &[u8],
        message: &[u8],
        sealed: &mut [u8],
        tally: &mut Tally,
    ) -> Option<Block> {
        let Some(tag) = self.seal(mode, header, message, sealed) else {
            tally.note(false);
            return None;
        };
        let mut room = [0; MESSAGE];
        let out = &mut room[0..sealed.len().min(MESSAGE)];
        tally.note(self.opens(mode, header, sealed, tag, message, out));
        let mut other = self.header;
        flip_each(&mut other[0..header.len().min(HEADER)], tally, |header| {
            self.refuses(mode, header, sealed, tag, out)
        });
        flip_each(
            sealed,
            tally,
            |sealed| self.refuses(mode, header, sealed, tag, out),
        );
        tally.note(self.refuses(mode, header, sealed, tag ^ (1 << 77), out));
        Some(tag)
    }

    // The cases of a header and a message of these lengths; tag and last piece have to be equal in both modes.
    pub fn run(&self, header: usize, message: usize, tally: &mut Tally) {
        let header = &self.header[0..header.min(HEADER)];
        let message = &self.message[0..message.min(MESSAGE)];
        let n = message.len();
        let mut forward_room = [0; MESSAGE];
        let mut dual_room = [0; MESSAGE];
        let forward = &mut forward_room[0..n];
        let dual = &mut dual_room[0..n];
        let tag = self.run_mode(Mode::Forward, header, message, forward, tally);
        let other = self.run_mode(Mode::Dual, header, message, dual, tally);
        tally.note(tag == other && last(forward) == last(dual));
    }

    // The cipher calls of a seal and an opening at these lengths. Its pieces are cut as in `run`: what is cut from an array here can't be handed out.
    pub fn count(&self, header: usize, message: usize) -> Calls {
        let header = &self.header[0..header.min(HEADER)];
        let message = &self.message[0..message.min(MESSAGE)];
        let n = message.len();
        let mut sealed_room = [0; MESSAGE];
        let mut out_room = [0; MESSAGE];
        let sealed = &mut sealed_room[0..n];
        let out = &mut out_room[0..n];
        self.calls.set(0);
        let done = self
            .pair
            .seal(Mode::Forward, NONCE, header, message, sealed);
        let to_seal = self.calls.get();
        self.calls.set(0);
        let tag = done.unwrap_or(0);
        let _ = self
            .pair
            .open(Mode::Forward, NONCE, header, sealed, tag, out);
        Calls {
            to_seal,
            to_open: self.calls.get(),
            promised: promised(header.len(), n),
        }
    }
}
