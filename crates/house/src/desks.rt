// The desks of a house in their row: one behind the other, each the row of its items.
ghost use Rattle.std.specs.Prelude.{◌≡◌, ◌+◌, ◌*◌, ◌&&◌, ◌++◌, IfOk, if◌then◌else◌, Some, None, OnOk, nat_le, nat_lt};
ghost use Rattle.house.specs.Desks.{desk_size, new_desk, new_desks};

use super::size::{HouseSize, below};
use items::ITEM_SIZE;
use rows::push_zeros;
use std::alloc::{AllocError, Global};
use std::ops::Range;

// Where desk `desk` stands in a row of this length, if the row has all its numbers.
pub fn desk_span(size: HouseSize, length: usize, desk: u64) -> Option<Range<usize>>
    ensures { result ≡ (if nat_lt desk size.desks && nat_le (desk_size size.items * (desk + 1)) length then Some (record { start = desk_size size.items * desk; end = desk_size size.items * (desk + 1) }) else None) }
{
    let place = below(desk, size.desks)? as usize;
    let items = ITEM_SIZE.checked_mul(size.items as usize)?;
    let numbers = items.checked_add(1)?;
    let next = place.checked_add(1)?;
    let end = numbers.checked_mul(next)?;
    (end <= length).then_some(end - numbers..end)
}

// The desks at the start: every item is written with 0.
pub fn new_desks(heap: Global, size: HouseSize) -> Result<Vec<u64>, AllocError>
    ensures { IfOk result (λ row. row.items ≡ new_desks size) }
{
    let mut row = Vec::new(heap);
    for _desk in 0..size.desks {
        push_desk(&mut row, size.items)?;
    }
    Ok(row)
}

// Puts one more desk behind the others.
fn push_desk(row: &mut Vec<u64>, items: u64) -> Result<(), AllocError>
    ensures { OnOk result (row.new.items ≡ row.old.items ++ new_desk items) }
{
    // Told at once: a row that is asked to grow by more than there can be takes all the memory there is before it gives up.
    let numbers = ITEM_SIZE.checked_mul(items as usize).ok_or(AllocError)?;
    row.push(items)?;
    push_zeros(row, numbers)
}
