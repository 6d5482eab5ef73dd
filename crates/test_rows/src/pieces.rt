// Pieces of so many numbers each, as a test writes them into a row: lines of scripts, and askings.
ghost use Rattle.rows.specs.Rows.{written_at};
ghost use Rattle.std.specs.Prelude.{◌≡◌};
ghost use Rattle.test_rows.specs.Laid.{joined, script_numbers};

use rows::{front, put_all};
use script::MAX_LINES;

// Writes the pieces one behind the other from `at` on; what would lie past the end of the row is not written.
pub fn put_pieces<const N: usize>(row: &mut [u64], at: usize, pieces: &[[u64; N]])
    ensures { row.new ≡ written_at row.old at (joined pieces.now) }
{
    for (index, piece) in pieces.iter().enumerate() {
        put_all(row, at.saturating_add(N.saturating_mul(index)), piece);
    }
}

// Writes a script from `at` on: the count of its lines, also one above 32, and the first 32 of them. A line is a kind and three numbers.
pub fn put_script(row: &mut [u64], at: usize, lines: &[[u64; 4]])
    ensures { row.new ≡ written_at row.old at (script_numbers lines.now) }
{
    put_all(row, at, &[lines.len() as u64]);
    put_pieces::<4>(row, at.saturating_add(1), front(lines, MAX_LINES));
}
