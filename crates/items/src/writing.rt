// Writes an item anew: by hand, or as made by a script.
ghost use Rattle.std.specs.Prelude.{◌≡◌, ◌≤◌, ◌&&◌, map, length, if◌then◌else◌, Some, None, nat_le};
ghost use Rattle.items.specs.Rows.{has_item, item_at, item_out, item_size, rewritten};
ghost use Rattle.script.specs.Allowed.{counted_as};
ghost use Rattle.script.specs.Layout.{max_lines};
ghost use Rattle.theory.specs.Items.{made, written};

use super::{ITEM_SIZE, MADE, WRITTEN, item_count};
use script::{MAX_LINES, SourceLine};
use script_rows::write_source;

// The item becomes this value, if the row has the item with all its numbers; otherwise nothing changes.
pub fn write_value(items: &mut [u64], item: u64, value: u64)
    ensures { items.new ≡ (if has_item items.old item then rewritten items.old item (written value) else items.old) }
{
    if let Some(start) = start_of(items, item) {
        fill_value(&mut items[start..start + ITEM_SIZE], value);
    }
}

// The item is made by these lines, each as it counts, if there are not too many; otherwise nothing changes.
pub fn write_made(items: &mut [u64], item: u64, lines: &[SourceLine])
    ensures { items.new ≡ (if has_item items.old item && nat_le (length lines.now) max_lines then rewritten items.old item (made (map counted_as lines.now)) else items.old) }
{
    if lines.len() <= MAX_LINES {
        if let Some(start) = start_of(items, item) {
            fill_made(&mut items[start..start + ITEM_SIZE], lines);
        }
    }
}

// Whether the row has the item with all its numbers.
pub fn has_item(items: &[u64], item: u64) -> bool
    ensures { result ≡ has_item items.now item }
{
    start_of(items, item).is_some()
}

// Where the item begins, if the row has it with all its numbers.
fn start_of(items: &[u64], item: u64) -> Option<usize>
    ensures { result ≡ (if has_item items.now item then Some (item_at item) else None) }
{
    if item as usize >= item_count(items) {
        return None;
    }
    let start = 1 + ITEM_SIZE * item as usize;
    (start + ITEM_SIZE <= items.len()).then_some(start)
}

fn fill_value(row: &mut [u64], value: u64)
    requires { length row.old ≡ item_size }
    ensures { row.new ≡ item_out (written value) }
{
    row.fill(0);
    row[0] = WRITTEN;
    row[1] = value;
}

fn fill_made(row: &mut [u64], lines: &[SourceLine])
    requires long { length row.old ≡ item_size }
    requires few { length lines.now ≤ max_lines }
    ensures { row.new ≡ item_out (made (map counted_as lines.now)) }
{
    row[0] = MADE;
    write_source(&mut row[1..ITEM_SIZE], lines);
}
