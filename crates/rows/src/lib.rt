// Total access to a lent row: a number that is not there reads as 0 and takes no write.
#![tactic(auto)]

ghost use Rattle.std.specs.Prelude.{◌≡◌, ◌+◌, ◌-◌, ◌++◌, length, take, drop, replicate, OnOk, slice_index, slice_set};
ghost use Rattle.rows.specs.Rows.{written_at};

mod counting;
mod row_parts;

pub use counting::put_counted;
pub use row_parts::{RowParts, parts};
use std::alloc::AllocError;
use std::iter::repeat_n;

// The part of a row from `at` on, of which there may be nothing.
pub fn tail<T>(row: &[T], at: usize) -> &[T]
    ensures { result.now ≡ drop at row.now }
{
    let start = at.min(row.len());
    &row[start..]
}

// The first numbers of a row, of which there may be fewer than asked for.
pub fn front<T>(row: &[T], count: usize) -> &[T]
    ensures { result.now ≡ take count row.now }
{
    let end = count.min(row.len());
    &row[..end]
}

// The number `offset` places after `at`.
pub fn number_after(row: &[u64], at: usize, offset: usize) -> u64
    ensures { result ≡ slice_index row.now (at + offset) }
{
    row.get(at.saturating_add(offset)).copied().unwrap_or(0)
}

// By its place and not by `get_mut`, of which the library does not say what the row ends as.
#[tactic(auto, using(std::proofs::lemmas::List::set_past))]
fn put_after(row: &mut [u64], at: usize, offset: usize, number: u64)
    ensures { row.new ≡ slice_set row.old (at + offset) number }
{
    let place = at.saturating_add(offset);
    if place < row.len() {
        row[place] = number;
    }
}

// Writes the numbers one behind the other from `at` on.
pub fn put_all(row: &mut [u64], at: usize, numbers: &[u64])
    ensures { row.new ≡ written_at row.old at numbers.now }
{
    for (offset, number) in numbers.iter().enumerate() {
        put_after(row, at, offset, *number);
    }
}

// Writes 0 from `at` on.
pub fn clear_from(row: &mut [u64], at: usize)
    ensures { row.new ≡ take at row.old ++ replicate (length row.old - at) 0 }
{
    let start = at.min(row.len());
    row[start..].fill(0);
}

// Puts so many numbers 0 behind those of the row.
pub fn push_zeros(row: &mut Vec<u64>, count: usize) -> Result<(), AllocError>
    ensures { OnOk result (row.new.items ≡ row.old.items ++ replicate count 0) }
{
    row.extend(repeat_n(0, count))
}
