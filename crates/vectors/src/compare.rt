// What a row claims, computed and compared.
use crate::row::{BlockRow, FrameRow, HeaderRow, Row, SealRow, WordRow};
use aes::Aes128;
use cipher::Cipher;
use mode::Mode;
use std::alloc::{AllocError, Global};

// Whether a block and its result belong together, both ways.
fn block_holds(row: &BlockRow, key: [u8; 16]) -> bool {
    let cipher = row.cipher.under(key);
    cipher.encrypt(row.block) == row.result && cipher.decrypt(row.result) == row.block
}

// Whether the expanded key has the row's word.
fn word_holds(row: &WordRow, key: [u8; 16]) -> bool {
    Aes128::new(key).word(row.place) == Some(row.word)
}

// Whether the header has the row's tag.
fn header_holds(row: &HeaderRow, key: [u8; 16]) -> bool {
    row.pair.under(key).header_tag(row.header.as_slice()) == row.tag
}

// Whether sealing gives the row's bytes and tag, and opening gives its message back.
fn seal_holds(heap: Global, row: &SealRow, key: [u8; 16]) -> Result<bool, AllocError> {
    let Ok(mode) = Mode::try_from(row.mode) else {
        return Ok(false);
    };
    let pair = row.pair.under(key);
    let header = row.header.as_slice();
    let mut out = vec![in heap; 0u8; row.message.len()]?;
    let Ok(tag) = pair.seal(
        mode,
        row.nonce,
        header,
        row.message.as_slice(),
        out.as_mut_slice(),
    ) else {
        return Ok(false);
    };
    let same = tag == row.tag && out.as_slice() == row.sealed.as_slice();
    let mut back = vec![in heap; 1u8; row.sealed.len()]?;
    let opened = pair.open(
        mode,
        row.nonce,
        header,
        row.sealed.as_slice(),
        row.tag,
        back.as_mut_slice(),
    );
    Ok(same && opened.is_ok() && back.as_slice() == row.message.as_slice())
}

// Whether sealing gives the row's frame, and opening the frame gives its message back.
fn frame_holds(heap: Global, row: &FrameRow, key: [u8; 16]) -> Result<bool, AllocError> {
    let pair = row.pair.under(key);
    let mut out = vec![in heap; 0u8; row.frame.len()]?;
    let sealed = frame::seal(
        &pair,
        row.sender,
        row.number,
        row.mode,
        row.clear.as_slice(),
        row.message.as_slice(),
        out.as_mut_slice(),
    );
    let same = sealed == Ok(row.frame.len()) && out.as_slice() == row.frame.as_slice();
    let mut back = vec![in heap; 1u8; row.message.len()]?;
    let opened = frame::open(&pair, row.frame.as_slice(), back.as_mut_slice());
    Ok(same && opened == Ok(row.message.len()) && back.as_slice() == row.message.as_slice())
}

// Whether what a row claims holds under a key.
pub fn holds(heap: Global, row: &Row, key: [u8; 16]) -> Result<bool, AllocError> {
    match row {
        Row::Block(row) => Ok(block_holds(row, key)),
        Row::Word(row) => Ok(word_holds(row, key)),
        Row::Header(row) => Ok(header_holds(row, key)),
        Row::Seal(row) => seal_holds(heap, row, key),
        Row::Frame(row) => frame_holds(heap, row, key),
    }
}
