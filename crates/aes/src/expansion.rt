// The key expansion: from the 16 bytes of a key to eleven round keys.
ghost use Rattle.std.specs.Prelude.{◌≡◌, ℕ, ◌<◌, [], slice_index_or};
ghost use Rattle.block.specs.Bytes.{number_of};
ghost use Rattle.aes.specs.CipherLaws.{AllKeyBytes};
ghost use Rattle.aes.specs.KeyExpansion.{expanded_key, round_keys, word_at};
ghost use Rattle.aes.specs.RoundKeys.{cells_of, next_row_of, next_key_of};

use crate::state::State;
use gf256::{substitute, times_x};

// A row of the next round key: each byte adds the new one on its left, and the first one t.
fn next_row(w: [u8; 4], t: u8) -> [u8; 4]
    ensures { result ≡ next_row_of w t }
{
    let p = w[0] ^ t;
    let q = w[1] ^ p;
    let u = w[2] ^ q;
    [p, q, u, w[3] ^ u]
}

// The next round key. Its first column adds the last one, moved up by one place and substituted, and the round constant.
fn next_key(key: State, constant: u8) -> State
    ensures { result.cells ≡ next_key_of constant key.cells }
{
    let [p, q, u, v] = key.cells;
    State {
        cells: [
            next_row(p, substitute(q[3]) ^ constant),
            next_row(q, substitute(u[3])),
            next_row(u, substitute(v[3])),
            next_row(v, substitute(p[3])),
        ],
    }
}

// The eleven round keys. The round constants are the powers of x in the field.
pub(crate) fn expand(key: [u8; 16]) -> [State; 11]
    ensures keys { cells_of result ≡ round_keys key }
    ensures words { (i : ℕ) → i < 44 → word_at (cells_of result) i ≡ number_of (slice_index_or (expanded_key key) i []) }
    ensures bytes { AllKeyBytes (cells_of result) }
{
    let mut next = State::from(key);
    let mut keys = [next; 11];
    let mut constant = 1;
    for round_key in &mut keys {
        *round_key = next;
        next = next_key(next, constant);
        constant = times_x(constant);
    }
    keys
}
