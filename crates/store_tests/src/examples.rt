// Entries and stores that the tests share, and how they look at them.
ghost use Rattle.std.specs.Prelude.{◌≡◌, ℕ, ◌<◌, Decides, length, slice_index};

use entry::ENTRY_SIZE;
use rows::{front, number_after};
use script::{MAX_ASKINGS, MAX_LINES};
use test_rows::put_pieces;

// Asks for item 3 and gives what it is told.
pub const ECHO: [[u64; 4]; 2] = [[0, 0, 3, 0], [5, 0, 0, 0]];

// Asks for items 0 and 1 and gives their sum.
pub const SUM: [[u64; 4]; 4] = [[0, 0, 0, 0], [0, 1, 1, 0], [3, 2, 0, 1], [5, 2, 0, 0]];

// The row of an entry. The counts are as given, also above 32; of the lines and of the askings the first 32 are written.
#[tactic(auto, using(std::proofs::lemmas::Grind::common_steps))]
pub fn entry_row(lines: &[[u64; 4]], askings: &[[u64; 2]], given: u64) -> [u64; ENTRY_SIZE]
    ensures lines { slice_index result 0 ≡ length lines.now }
    ensures askings { slice_index result 129 ≡ length askings.now }
    ensures end { slice_index result 194 ≡ given }
{
    let mut row = [0; ENTRY_SIZE];
    put_pieces(&mut row, 1, front(lines, MAX_LINES));
    put_pieces(&mut row, 130, front(askings, MAX_ASKINGS));
    row[0] = lines.len() as u64;
    row[129] = askings.len() as u64;
    row[194] = given;
    row
}

// An honest entry for each number: item 3 was told to be it.
pub fn echo(answer: u64) -> [u64; ENTRY_SIZE]
    ensures { slice_index result 194 ≡ answer }
{
    entry_row(&ECHO, &[[3, answer]], answer)
}

// Whether two rows begin with the same entry; what is not there counts as 0.
pub fn same_entry(left: &[u64], right: &[u64]) -> bool
    ensures { Decides result ((k : ℕ) → k < 195 → slice_index left.now k ≡ slice_index right.now k) }
{
    (0..ENTRY_SIZE).all(|place| number_after(left, place, 0) == number_after(right, place, 0))
}
