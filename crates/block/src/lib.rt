// Blocks of 16 bytes: reading and writing them, and how a string of bytes is cut into them.
#![tactic(auto)]

ghost use Rattle.std.specs.Prelude.{◌≡◌, ℕ, ◌+◌, ◌*◌, ◌≤◌, length};
ghost use Rattle.block.specs.Bytes.{block_at, bytes_of, stored_at};
ghost use Rattle.block.specs.Cut.{before, last_bits, fill_with};

// A block: 16 bytes read as one number, byte 0 leftmost.
pub type Block = u128;

// The block that 16 bytes spell.
fn spelled(bytes: [u8; 16]) -> Block
    ensures { result ≡ block_at 0 bytes }
{
    u128::from_be_bytes(bytes)
}

// The number that the 16 bytes from a place on spell, or as many of them as there are.
pub fn load(bytes: &[u8], at: usize) -> Block
    ensures { result ≡ block_at at bytes.now }
{
    let Some(rest) = bytes.get(at..) else {
        return 0;
    };
    if let Some(whole) = rest.first_chunk() {
        return spelled(*whole);
    }
    let mut block = [0; 16];
    block[16 - rest.len()..].copy_from_slice(rest);
    spelled(block)
}

// Writes a block over the 16 bytes from a place on, in two halves. A word's bytes are turned around and then written the last first,
// since compilers make one instruction of that, and of the high half's to_be_bytes some forty.
fn store_whole(bytes: &mut [u8], at: usize, block: Block)
    requires { at + 16 ≤ length bytes.old }
    ensures { bytes.new ≡ stored_at at block bytes.old }
{
    let left = (block >> 64) as u64;
    let right = (block % (1 << 64)) as u64;
    bytes[at..at + 8].copy_from_slice(&left.swap_bytes().to_le_bytes());
    bytes[at + 8..at + 16].copy_from_slice(&right.swap_bytes().to_le_bytes());
}

// The bytes of a block.
fn bytes_of(block: Block) -> [u8; 16]
    ensures { result ≡ bytes_of 16 block }
{
    let mut bytes = [0; 16];
    store_whole(&mut bytes, 0, block);
    bytes
}

// Writes a block over the 16 bytes from a place on, or over as many of them as there are.
pub fn store(bytes: &mut [u8], at: usize, block: Block)
    ensures { bytes.new ≡ stored_at at block bytes.old }
{
    let room = bytes.len().saturating_sub(at);
    if room >= 16 {
        store_whole(bytes, at, block);
    } else if room > 0 {
        bytes[at..].copy_from_slice(&bytes_of(block)[0..room]);
    }
}

// How a string is cut: how many blocks come before its last one, where that one begins, and how many bits it has.
#[derive(Clone, Copy)]
pub struct Cut {
    pub before: usize,
    pub at: usize,
    pub bits: usize,
}

impl Cut {
    // The cut of a string of so many bytes. The empty string has one block, of no bits.
    pub fn of(len: usize) -> Cut
        ensures before { result.before ≡ before len }
        ensures at { result.at ≡ 16 * before len }
        ensures bits { result.bits ≡ last_bits len }
    {
        let before = len.saturating_sub(1) / 16;
        let at = 16 * before;
        Cut {
            before,
            at,
            bits: 8 * (len - at),
        }
    }
}

// The bytes of a piece, one byte after them, and zeros, as far as there is room.
fn filled(byte: u8, piece: &[u8]) -> [u8; 16]
    ensures { block_at 0 result ≡ fill_with byte piece.now }
{
    let n = piece.len().min(16);
    let mut block = [0; 16];
    block[0..n].copy_from_slice(&piece[0..n]);
    if n < 16 {
        block[n] = byte;
    }
    block
}

// The block that begins with a piece, goes on with one byte and ends with zeros, as far as there is room.
pub fn fill(byte: u8, piece: &[u8]) -> Block
    ensures { result ≡ fill_with byte piece.now }
{
    spelled(filled(byte, piece))
}
