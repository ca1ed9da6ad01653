// The state of the cipher, and a round key: four rows of four bytes; and the steps of a round on it, each with its way back.
ghost use Rattle.std.specs.Prelude.{◌≡◌, ℕ, ◌<◌, List, []};
ghost use Rattle.block.specs.Bytes.{number_of};
ghost use Rattle.gf256.specs.Column.{coefficient};
ghost use Rattle.aes.specs.State.{column_then, IsRowsOf, state_of, block_of};
ghost use Rattle.aes.specs.Steps.{Computes, ComputesOfFour, over_row, over_rows, row_turned, product_row, multiplied, sub_bytes_of, inv_sub_bytes_of, rows_shifted, shift_rows_of, inv_shift_rows_of, mix_columns_of, inv_mix_columns_of, sum_row_of, add_round_key_of};

use block::Block;
use gf256::{mix_byte, restore, substitute, unmix_byte};

type Row = [u8; 4];

#[derive(Clone, Copy)]
pub struct State {
    pub cells: [Row; 4],
}

// Byte i of 16 lies in row i mod 4, column i / 4.
impl From<[u8; 16]> for State {
    ghost from_gives = { λ b s. IsRowsOf b s.cells };

    fn from(b: [u8; 16]) -> State {
        State {
            cells: [
                [b[0], b[4], b[8], b[12]],
                [b[1], b[5], b[9], b[13]],
                [b[2], b[6], b[10], b[14]],
                [b[3], b[7], b[11], b[15]],
            ],
        }
    }
}

// The state that a block begins as.
impl From<Block> for State {
    ghost from_gives = { λ x s. s.cells ≡ state_of x };

    fn from(block: Block) -> State {
        State::from(block.to_be_bytes())
    }
}

// The block that a state stands for.
impl From<State> for Block {
    ghost from_gives = { λ s x. x ≡ block_of s.cells };

    fn from(s: State) -> Block {
        let [p, q, u, v] = s.cells;
        u128::from_be_bytes([
            p[0], q[0], u[0], v[0], p[1], q[1], u[1], v[1], p[2], q[2], u[2], v[2], p[3], q[3],
            u[3], v[3],
        ])
    }
}

// Each byte of a row through a map. Tried with the array's map, whose call asks what the search gives up on; rows are written out below, too.
fn over_row<F: Fn(u8) -> u8>(map: &F, row: Row) -> Row
    requires { F.IsAlwaysCallable map.now }
    ensures { (f : ℕ → ℕ) → Computes (F.post map.now) f → result ≡ over_row f row }
{
    [map(row[0]), map(row[1]), map(row[2]), map(row[3])]
}

// A row moved left by n places, as one number is rotated.
fn turned(row: Row, n: u32) -> Row
    requires { n < 4 }
    ensures { result ≡ row_turned row n }
{
    u32::from_be_bytes(row).rotate_left(8 * n).to_be_bytes()
}

// A row of a state whose columns are mixed, from the rows in their order from that one on.
fn mixed_row<F: Fn(u8, u8, u8, u8) -> u8>(mix: &F, a: Row, b: Row, c: Row, d: Row) -> Row
    requires { F.IsAlwaysCallable mix.now }
    ensures { (p : List ℕ) → ComputesOfFour (F.post mix.now) (coefficient p) → result ≡ product_row p a b c d }
{
    [
        mix(a[0], b[0], c[0], d[0]),
        mix(a[1], b[1], c[1], d[1]),
        mix(a[2], b[2], c[2], d[2]),
        mix(a[3], b[3], c[3], d[3]),
    ]
}

fn add_row(a: Row, k: Row) -> Row
    ensures { result ≡ sum_row_of a k }
{
    [a[0] ^ k[0], a[1] ^ k[1], a[2] ^ k[2], a[3] ^ k[3]]
}

impl State {
    // Each byte through a map.
    fn each<F: Fn(u8) -> u8>(self, map: F) -> State
        requires { F.IsAlwaysCallable map }
        ensures { (f : ℕ → ℕ) → Computes (F.post map) f → result.cells ≡ over_rows (over_row f) self.cells }
    {
        let [p, q, u, v] = self.cells;
        State {
            cells: [
                over_row(&map, p),
                over_row(&map, q),
                over_row(&map, u),
                over_row(&map, v),
            ],
        }
    }

    // The rows after the first moved left by so many places, known at compile time.
    fn shifted<const Q: u32, const U: u32, const V: u32>(self) -> State
        requires { (Q < 4) × (U < 4) × (V < 4) }
        ensures { result.cells ≡ rows_shifted Q U V self.cells }
    {
        let [p, q, u, v] = self.cells;
        State {
            cells: [turned(p, 0), turned(q, Q), turned(u, U), turned(v, V)],
        }
    }

    // Each column times a polynomial, by the map that gives a byte of one from a column's bytes from that place on.
    fn mixed<F: Fn(u8, u8, u8, u8) -> u8>(self, mix: F) -> State
        requires { F.IsAlwaysCallable mix }
        ensures { (p : List ℕ) → ComputesOfFour (F.post mix) (coefficient p) → result.cells ≡ multiplied p self.cells }
    {
        let [a, b, c, d] = self.cells;
        State {
            cells: [
                mixed_row(&mix, a, b, c, d),
                mixed_row(&mix, b, c, d, a),
                mixed_row(&mix, c, d, a, b),
                mixed_row(&mix, d, a, b, c),
            ],
        }
    }

    // Substitution: each byte by the one that stands for it.
    pub fn sub_bytes(self) -> State
        ensures { result.cells ≡ sub_bytes_of self.cells }
    {
        self.each(substitute)
    }

    // Each byte by the one that it stands for.
    pub fn inv_sub_bytes(self) -> State
        ensures { result.cells ≡ inv_sub_bytes_of self.cells }
    {
        self.each(restore)
    }

    // Row shift: row i moves left by i places.
    pub fn shift_rows(self) -> State
        ensures { result.cells ≡ shift_rows_of self.cells }
    {
        self.shifted::<1, 2, 3>()
    }

    // Row i moves right by i places.
    pub fn inv_shift_rows(self) -> State
        ensures { result.cells ≡ inv_shift_rows_of self.cells }
    {
        self.shifted::<3, 2, 1>()
    }

    // Column mix: each column times the fixed polynomial.
    pub fn mix_columns(self) -> State
        ensures { result.cells ≡ mix_columns_of self.cells }
    {
        self.mixed(mix_byte)
    }

    // Each column times the inverse of that polynomial.
    pub fn inv_mix_columns(self) -> State
        ensures { result.cells ≡ inv_mix_columns_of self.cells }
    {
        self.mixed(unmix_byte)
    }

    // Key addition, byte by byte: its own way back.
    pub fn add_round_key(self, key: State) -> State
        ensures { result.cells ≡ add_round_key_of self.cells key.cells }
    {
        let [p, q, u, v] = self.cells;
        let [a, b, c, d] = key.cells;
        State {
            cells: [add_row(p, a), add_row(q, b), add_row(u, c), add_row(v, d)],
        }
    }

    // A column as one number, its first byte the most significant.
    pub fn column(self, c: usize) -> u32
        requires { c < 4 }
        ensures { result ≡ number_of (column_then self.cells c []) }
    {
        let [p, q, u, v] = self.cells;
        u32::from_be_bytes([p[c], q[c], u[c], v[c]])
    }
}
