// The hub's input: a line each for the key, the kind of valve head, the ids, the first frame number, and every probe offset.
use std::alloc::{AllocError, AllocFailed, Global};
use std::fmt;
use std::str::{SplitWhitespace, from_utf8};
use task::{Offset, UnknownValveHead, ValveHead};

// What the hub is asked to do.
#[derive(Drop)]
pub struct Task {
    pub key: [u8; 16],
    pub valve_head: ValveHead,
    pub ids: Ids,
    pub number: u64,
    pub offsets: Vec<Offset>,
}

// Why a line, or the whole input, is not taken.
#[derive(Clone, Copy)]
pub enum Reason {
    NotText,
    UnknownWord,
    WordMissing,
    WordTooMany,
    NotAKey,
    NotAValveHead,
    NotAnId,
    NotANumber,
    NotASerial,
    NotHundredths,
    SaidTwice,
    NoKey,
    NoValveHead,
    NoIds,
    NoNumber,
    OutOfMemory,
}

impl From<AllocError> for Reason {
    fn from(_: AllocError) -> Reason {
        Reason::OutOfMemory
    }
}

impl<T: Drop> From<AllocFailed<T>> for Reason {
    fn from(_: AllocFailed<T>) -> Reason {
        Reason::OutOfMemory
    }
}

impl From<UnknownValveHead> for Reason {
    fn from(_: UnknownValveHead) -> Reason {
        Reason::NotAValveHead
    }
}

impl fmt::Display for Reason {
    fn fmt<W: fmt::Write>(&self, f: &mut fmt::Formatter<W>) -> fmt::Result {
        f.write_str(match self {
            Reason::NotText => "the input is not text in UTF-8",
            Reason::UnknownWord =>
                "a line begins with key, head, ids, number or offset, or with # for a remark",
            Reason::WordMissing => "the line ends too early",
            Reason::WordTooMany => "the line has a word too many",
            Reason::NotAKey => "a key is 32 hexadecimal digits",
            Reason::NotAValveHead => "a head is battery or mains",
            Reason::NotAnId => "an id is written in decimal digits, from 0 to 255",
            Reason::NotANumber => "a frame number is written in decimal digits",
            Reason::NotASerial => "a serial is written in decimal digits, from 0 to 4294967295",
            Reason::NotHundredths =>
                "an offset is a whole number of hundredths of a kelvin, from -32768 to 32767",
            Reason::SaidTwice => "this was said before",
            Reason::NoKey => "the input ends without a key",
            Reason::NoValveHead => "the input ends without a head",
            Reason::NoIds => "the input ends without ids",
            Reason::NoNumber => "the input ends without a number",
            Reason::OutOfMemory => "there is no memory left",
        })
    }
}

// Where the input cannot be read, and why. The line counts from 1; where something is missing it is the last line.
#[derive(Clone, Copy)]
pub struct Unread {
    pub line: usize,
    pub reason: Reason,
}

impl fmt::Display for Unread {
    fn fmt<W: fmt::Write>(&self, f: &mut fmt::Formatter<W>) -> fmt::Result {
        write!(f, "line {}: {}", self.line, self.reason)
    }
}

// The hub's id and the valve head's.
#[derive(Clone, Copy)]
pub struct Ids {
    pub hub: u8,
    pub valve: u8,
}

// What one line says.
#[derive(Clone, Copy)]
enum Entry {
    Remark,
    Key([u8; 16]),
    ValveHead(ValveHead),
    Ids(Ids),
    Number(u64),
    Offset(Offset),
}

// The next word of a line that has to go on.
fn next_word<'a>(words: &mut SplitWhitespace<'a>) -> Result<&'a str, Reason> {
    words.next().ok_or(Reason::WordMissing)
}

// Reads one line.
fn read_line(heap: Global, line: &str) -> Result<Entry, Reason> {
    let mut words = line.split_whitespace();
    let Some(kind) = words.next() else {
        return Ok(Entry::Remark);
    };
    if kind.starts_with('#') {
        return Ok(Entry::Remark);
    }
    let first = next_word(&mut words)?;
    let read = match kind {
        "key" => Entry::Key(task::key(heap, first)?.ok_or(Reason::NotAKey)?),
        "head" => Entry::ValveHead(first.parse()?),
        "ids" => Entry::Ids(Ids {
            hub: task::number(first).ok_or(Reason::NotAnId)?,
            valve: task::number(next_word(&mut words)?).ok_or(Reason::NotAnId)?,
        }),
        "number" => Entry::Number(task::number(first).ok_or(Reason::NotANumber)?),
        "offset" => Entry::Offset(Offset {
            serial: task::number(first).ok_or(Reason::NotASerial)?,
            hundredths: task::number(next_word(&mut words)?).ok_or(Reason::NotHundredths)?,
        }),
        _ => return Err(Reason::UnknownWord),
    };
    if words.next().is_some() {
        return Err(Reason::WordTooMany);
    }
    Ok(read)
}

// What the lines so far say.
#[derive(Drop)]
struct Draft {
    key: Option<[u8; 16]>,
    valve_head: Option<ValveHead>,
    ids: Option<Ids>,
    number: Option<u64>,
    offsets: Vec<Offset>,
}

// Keeps what a line says, which may be said once.
fn say<T: Copy>(place: &mut Option<T>, said: T) -> Result<(), Reason> {
    match place.replace(said) {
        None => Ok(()),
        Some(_) => Err(Reason::SaidTwice),
    }
}

impl Draft {
    // Takes what one more line says.
    fn take(&mut self, entry: Entry) -> Result<(), Reason> {
        match entry {
            Entry::Remark => Ok(()),
            Entry::Key(key) => say(&mut self.key, key),
            Entry::ValveHead(head) => say(&mut self.valve_head, head),
            Entry::Ids(ids) => say(&mut self.ids, ids),
            Entry::Number(number) => say(&mut self.number, number),
            Entry::Offset(offset) => Ok(self.offsets.push(offset)?),
        }
    }

    // The task, once all lines are read.
    fn finish(self) -> Result<Task, Reason> {
        let Draft {
            key,
            valve_head,
            ids,
            number,
            offsets,
        } = self;
        let ids = ids.ok_or(Reason::NoIds)?;
        Ok(Task {
            key: key.ok_or(Reason::NoKey)?,
            valve_head: valve_head.ok_or(Reason::NoValveHead)?,
            ids,
            number: number.ok_or(Reason::NoNumber)?,
            offsets,
        })
    }
}

// Reads the lines of the input.
fn read_text(heap: Global, text: &str) -> Result<Task, Unread> {
    let mut draft = Draft {
        key: None,
        valve_head: None,
        ids: None,
        number: None,
        offsets: Vec::new(heap),
    };
    let mut last = 0;
    for (line, words) in (1usize..).zip(text.lines()) {
        last = line;
        read_line(heap, words)
            .and_then(|entry| draft.take(entry))
            .map_err(|reason| Unread { line, reason })?;
    }
    draft
        .finish()
        .map_err(|reason| Unread { line: last, reason })
}

// The line on which the byte behind so many others stands.
fn line_behind(bytes: &[u8], count: usize) -> usize {
    bytes
        .iter()
        .take(count)
        .filter(|byte| **byte == b'\n')
        .count()
        + 1
}

// Reads the whole input.
pub fn read(heap: Global, bytes: &[u8]) -> Result<Task, Unread> {
    let text = from_utf8(bytes).map_err(|fault| Unread {
        line: line_behind(bytes, fault.valid_up_to()),
        reason: Reason::NotText,
    })?;
    read_text(heap, text)
}
