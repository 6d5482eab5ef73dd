// The items of a desk in their row: a count, and then 130 numbers an item.
#![tactic(auto)]

ghost use Rattle.std.specs.Prelude.{◌≡◌, ◌≤◌, length};
ghost use Rattle.items.specs.Rows.{ReadsFirst, ReadsItem, items_in};

mod listing;
mod ring;
mod writing;

pub use listing::{HasRun, list_runs};
pub use ring::Ring;
use rows::{number_after, tail};
pub use writing::{has_item, write_made, write_value};

// Numbers that an item takes: its kind, and then a value or a script.
pub const ITEM_SIZE: usize = 130;

// The kind of an item that is written by hand.
const WRITTEN: u64 = 0;

// The kind of an item that is made by a script; any other number is read as this one.
const MADE: u64 = 1;

// Items that a desk has at most; a count above it is read as the most.
pub const MAX_ITEMS: usize = 256;

// An item is written by hand, or made by the script that stands in this part of the row.
#[derive(Clone, Copy)]
pub enum Item<'a> {
    Written(u64),
    Made(&'a [u64]),
}

pub fn item_count(items: &[u64]) -> usize
    ensures value { result ≡ length (items_in items.now) }
    ensures bound { result ≤ 256 }
{
    let count = number_after(items, 0, 0) as usize;
    count.min(MAX_ITEMS)
}

// An item whose number is not there counts as written with 0. The row and the number stay two parameters here and in `writing`, since rows are lent as they are.
pub fn item_of(items: &[u64], item: u64) -> Item<'_>
    ensures { ReadsItem (items_in items.now) item result }
{
    if item as usize >= item_count(items) {
        return Item::Written(0);
    }
    first_item(tail(items, 1 + ITEM_SIZE * item as usize))
}

// The item that stands in the first numbers of the row.
fn first_item(row: &[u64]) -> Item<'_>
    ensures { ReadsFirst row.now result }
{
    if number_after(row, 0, 0) == WRITTEN {
        return Item::Written(number_after(row, 1, 0));
    }
    Item::Made(tail(row, 1))
}
