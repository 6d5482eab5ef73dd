// What a build leaves beside its list: the entries of the items that were run.
ghost use Rattle.std.specs.Prelude.{◌≡◌, ◌≤◌};
ghost use Rattle.build.specs.Leaves.{kept_all, left_all, ran_list, script_of};
ghost use Rattle.items.specs.Rows.{items_in, max_items};
ghost use Rattle.script.specs.Rows.{script_in};
ghost use Rattle.theory.specs.Items as theory;

use super::scratch::{Scratch, State};
use items::{Item, item_of};
use store::add_entry;

// Adds the entries of the runs at the end of the store, in the order of the list, as many as there is room for.
pub fn keep_runs(items: &[u64], scratch: &Scratch, count: usize, rows: &mut [u64])
    requires { count ≤ max_items }
    ensures { rows.new ≡ kept_all rows.old (left_all (items_in items.now) scratch.now (ran_list scratch.now count)) }
{
    // By its number, which the state and the script are looked up by.
    for item in 0..count as u64 {
        if let State::Ran(value, askings) = scratch.state(item) {
            let _ = add_entry(rows, script_row(items, item), askings, *value);
        }
    }
}

// The script of an item; one that is not made has no lines.
fn script_row(items: &[u64], item: u64) -> &[u64]
    ensures { script_in result.now ≡ script_of (theory.item (items_in items.now) item) }
{
    match item_of(items, item) {
        Item::Made(script) => script,
        Item::Written(_) => &[],
    }
}
