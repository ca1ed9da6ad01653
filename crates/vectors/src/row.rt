// The lines of the file of vectors, each read as a row.
use block::Block;
use mode::Pair;
use std::alloc::{AllocError, Global};
use std::fmt;
use std::str::{FromStr, SplitWhitespace};
use suite::{AnyCipher, AnyMasking, MaskingSetting, UnknownMasking};

// Why a line is not a row.
#[derive(Clone, Copy)]
pub enum Unread {
    UnknownRow,
    WordMissing,
    NotACipher,
    NotAMasking,
    NotHexadecimal,
    NotANumber,
    OutOfMemory,
}

impl From<AllocError> for Unread {
    fn from(_: AllocError) -> Unread {
        Unread::OutOfMemory
    }
}

impl From<UnknownMasking> for Unread {
    fn from(_: UnknownMasking) -> Unread {
        Unread::NotAMasking
    }
}

impl fmt::Display for Unread {
    fn fmt<W: fmt::Write>(&self, f: &mut fmt::Formatter<W>) -> fmt::Result {
        f.write_str(match self {
            Unread::UnknownRow => "a row begins with key, block, word, header-tag, seal or frame",
            Unread::WordMissing => "the row ends too early",
            Unread::NotACipher => "there is no such cipher",
            Unread::NotAMasking => "there is no such masking",
            Unread::NotHexadecimal =>
                "bytes are written in pairs of hexadecimal digits, no bytes as -",
            Unread::NotANumber =>
                "a place, a mode, a sender or a number is written in decimal digits",
            Unread::OutOfMemory => "there is no memory left",
        })
    }
}

// The ciphers that rows name. They are no settings of suite: the key that those hold stands in a line above the row.
#[derive(Clone, Copy)]
pub enum CipherName {
    Identity,
    Speck,
    Aes,
    InverseSpeck,
    InverseAes,
}

impl FromStr for CipherName {
    type Err = Unread;

    fn from_str(word: &str) -> Result<CipherName, Unread> {
        match word {
            "identity" => Ok(CipherName::Identity),
            "speck" => Ok(CipherName::Speck),
            "aes" => Ok(CipherName::Aes),
            "inverse-speck" => Ok(CipherName::InverseSpeck),
            "inverse-aes" => Ok(CipherName::InverseAes),
            _ => Err(Unread::NotACipher),
        }
    }
}

impl fmt::Display for CipherName {
    fn fmt<W: fmt::Write>(&self, f: &mut fmt::Formatter<W>) -> fmt::Result {
        f.write_str(match self {
            CipherName::Identity => "identity",
            CipherName::Speck => "Speck128/128",
            CipherName::Aes => "AES-128",
            CipherName::InverseSpeck => "inverse Speck128/128",
            CipherName::InverseAes => "inverse AES-128",
        })
    }
}

impl CipherName {
    // The cipher under a key.
    pub fn under(self, key: [u8; 16]) -> AnyCipher {
        match self {
            CipherName::Identity => AnyCipher::identity(),
            CipherName::Speck => AnyCipher::speck(key),
            CipherName::Aes => AnyCipher::aes(key),
            CipherName::InverseSpeck => AnyCipher::speck(key).inverse(),
            CipherName::InverseAes => AnyCipher::aes(key).inverse(),
        }
    }
}

// The cipher and the masking that a row names.
#[derive(Clone, Copy)]
pub struct PairName {
    pub cipher: CipherName,
    pub masking: MaskingSetting,
}

impl fmt::Display for PairName {
    fn fmt<W: fmt::Write>(&self, f: &mut fmt::Formatter<W>) -> fmt::Result {
        write!(f, "{}, {}", self.cipher, self.masking)
    }
}

impl PairName {
    // The two, under a key.
    pub fn under(self, key: [u8; 16]) -> Pair<AnyCipher, AnyMasking> {
        Pair::new(self.cipher.under(key), self.masking.into())
    }
}

// A block and what a cipher makes of it.
#[derive(Clone, Copy)]
pub struct BlockRow {
    pub cipher: CipherName,
    pub block: Block,
    pub result: Block,
}

// A word of AES's expanded key.
#[derive(Clone, Copy)]
pub struct WordRow {
    pub place: usize,
    pub word: u32,
}

// A header and its tag.
#[derive(Drop)]
pub struct HeaderRow {
    pub pair: PairName,
    pub header: Vec<u8>,
    pub tag: Block,
}

// A message and what it is sealed to. The mode is a number as it is written: one that names no mode makes a row that differs.
#[derive(Drop)]
pub struct SealRow {
    pub mode: u8,
    pub pair: PairName,
    pub nonce: Block,
    pub header: Vec<u8>,
    pub message: Vec<u8>,
    pub sealed: Vec<u8>,
    pub tag: Block,
}

// A message and the whole frame that it is sealed into. The mode is a number, as in a SealRow.
#[derive(Drop)]
pub struct FrameRow {
    pub mode: u8,
    pub pair: PairName,
    pub sender: u8,
    pub number: u64,
    pub clear: Vec<u8>,
    pub message: Vec<u8>,
    pub frame: Vec<u8>,
}

// What is claimed under the key above it.
#[derive(Drop)]
pub enum Row {
    Block(BlockRow),
    Word(WordRow),
    Header(HeaderRow),
    Seal(SealRow),
    Frame(FrameRow),
}

impl fmt::Display for Row {
    fn fmt<W: fmt::Write>(&self, f: &mut fmt::Formatter<W>) -> fmt::Result {
        match self {
            Row::Block(row) => write!(f, "{}, block {:032x}, both ways", row.cipher, row.block),
            Row::Word(row) => write!(
                f,
                "{}, word {} of the expanded key",
                CipherName::Aes,
                row.place
            ),
            Row::Header(row) => write!(
                f,
                "{}, tag of a header of {} bytes",
                row.pair,
                row.header.len()
            ),
            Row::Seal(row) => write!(
                f,
                "{}, mode {}, header of {} bytes, message of {} bytes",
                row.pair,
                row.mode,
                row.header.len(),
                row.message.len()
            ),
            Row::Frame(row) => write!(
                f,
                "{}, mode {}, whole frame of number {}, message of {} bytes",
                row.pair,
                row.mode,
                row.number,
                row.message.len()
            ),
        }
    }
}

// What a line says.
#[derive(Drop)]
pub enum Line {
    Remark,
    Key([u8; 16]),
    Row(Row),
}

// The words of a line, one after the other, each read as what is asked for.
#[derive(Drop)]
struct Words<'a> {
    heap: Global,
    rest: SplitWhitespace<'a>,
}

impl<'a> Words<'a> {
    fn next(&mut self) -> Result<&'a str, Unread> {
        self.rest.next().ok_or(Unread::WordMissing)
    }

    fn pair(&mut self) -> Result<PairName, Unread> {
        Ok(PairName {
            cipher: self.next()?.parse()?,
            masking: self.next()?.parse()?,
        })
    }

    // A number in decimal digits.
    fn number<N: FromStr>(&mut self) -> Result<N, Unread>
    where
        N::Err: Drop,
    {
        self.next()?.parse::<N>().map_err(|_| Unread::NotANumber)
    }

    // The bytes that a word spells; a dash stands for none.
    fn bytes(&mut self) -> Result<Vec<u8>, Unread> {
        match self.next()? {
            "-" => Ok(Vec::new(self.heap)),
            word => hexadecimal::bytes(self.heap, word.as_bytes())?.ok_or(Unread::NotHexadecimal),
        }
    }

    // Sixteen bytes.
    fn block_bytes(&mut self) -> Result<[u8; 16], Unread> {
        <[u8; 16]>::try_from(self.bytes()?.as_slice()).map_err(|_| Unread::NotHexadecimal)
    }

    fn block(&mut self) -> Result<Block, Unread> {
        Ok(Block::from_be_bytes(self.block_bytes()?))
    }
}

fn block_row(words: &mut Words) -> Result<BlockRow, Unread> {
    Ok(BlockRow {
        cipher: words.next()?.parse()?,
        block: words.block()?,
        result: words.block()?,
    })
}

fn word_row(words: &mut Words) -> Result<WordRow, Unread> {
    Ok(WordRow {
        place: words.number()?,
        word: u32::from_str_radix(words.next()?, 16).map_err(|_| Unread::NotHexadecimal)?,
    })
}

fn header_row(words: &mut Words) -> Result<HeaderRow, Unread> {
    Ok(HeaderRow {
        pair: words.pair()?,
        header: words.bytes()?,
        tag: words.block()?,
    })
}

fn seal_row(words: &mut Words) -> Result<SealRow, Unread> {
    Ok(SealRow {
        mode: words.number()?,
        pair: words.pair()?,
        nonce: words.block()?,
        header: words.bytes()?,
        message: words.bytes()?,
        sealed: words.bytes()?,
        tag: words.block()?,
    })
}

fn frame_row(words: &mut Words) -> Result<FrameRow, Unread> {
    Ok(FrameRow {
        mode: words.number()?,
        pair: words.pair()?,
        sender: words.number()?,
        number: words.number()?,
        clear: words.bytes()?,
        message: words.bytes()?,
        frame: words.bytes()?,
    })
}

// Reads one line.
pub fn read(heap: Global, line: &str) -> Result<Line, Unread> {
    let mut rest = line.split_whitespace();
    let Some(kind) = rest.next() else {
        return Ok(Line::Remark);
    };
    if kind.starts_with('#') {
        return Ok(Line::Remark);
    }
    let mut words = Words { heap, rest };
    match kind {
        "key" => Ok(Line::Key(words.block_bytes()?)),
        "block" => Ok(Line::Row(Row::Block(block_row(&mut words)?))),
        "word" => Ok(Line::Row(Row::Word(word_row(&mut words)?))),
        "header-tag" => Ok(Line::Row(Row::Header(header_row(&mut words)?))),
        "seal" => Ok(Line::Row(Row::Seal(seal_row(&mut words)?))),
        "frame" => Ok(Line::Row(Row::Frame(frame_row(&mut words)?))),
        _ => Err(Unread::UnknownRow),
    }
}
