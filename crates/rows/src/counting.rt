// Writing a counted list into a row.
ghost use Rattle.std.specs.List.{flat_map};
ghost use Rattle.std.specs.Prelude.{◌≡◌, ℕ, ◌+◌, ◌*◌, ◌<◌, ◌≤◌, List, ◌∷◌, length};
ghost use Rattle.rows.specs.Rows.{Gives, padded};

use super::{clear_from, put_all};
use std::convert::AsSlice;

// Writes a counted list into a row: how many there are, their numbers one behind the other, and 0 behind them.
// `numbers` gives those of each, as many as `size` says; a row with no room for all of them stays as it was.
pub fn put_counted<P: AsSlice<u64> + Copy, F: Fn(usize) -> P>(
    row: &mut [u64],
    size: usize,
    count: usize,
    numbers: F,
)
    requires { (index : ℕ) → index < count → F.pre numbers index }
    ensures written { 1 + size * count ≤ length row.old → (pieces : List P) → Gives P.items (F.post numbers) size count pieces → row.new ≡ padded (length row.old) (count ∷ flat_map P.items pieces) }
    ensures left { length row.old < 1 + size * count → row.new ≡ row.old }
{
    if row.len() <= size.saturating_mul(count) {
        return;
    }
    put_all(row, 0, &[count as u64]);
    for index in 0..count {
        put_all(row, 1 + size * index, numbers(index).as_slice());
    }
    clear_from(row, 1 + size * count);
}
