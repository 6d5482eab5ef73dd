// A list in its row, held against what a test expects.
ghost use Rattle.std.specs.Prelude.{Decides};
ghost use Rattle.test_rows.specs.Laid.{Lists};

use rows::{front, number_after, tail};

// Whether the row begins with the length of the list and the list.
pub fn lists(row: &[u64], list: &[u64]) -> bool
    ensures { Decides result (Lists row.now list.now) }
{
    number_after(row, 0, 0) == list.len() as u64 && front(tail(row, 1), list.len()) == list
}
