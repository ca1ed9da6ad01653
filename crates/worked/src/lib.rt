// Values worked out by hand, proved of the definitions that the code is proved to follow.
#![tactic(auto)]

ghost use Rattle.std.specs.Prelude.{◌≡◌, length};
ghost use Rattle.worked.specs.Rows.{table, TableHolds};

// How many rows the table of worked values has. All of them hold.
pub fn rows() -> usize
    ensures count { result ≡ length table }
    ensures hold { TableHolds }
{
    11
}
