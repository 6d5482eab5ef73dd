// Removes an entry from a store; the later ones move up.
ghost use Rattle.std.specs.Prelude.{◌≡◌, ◌<◌, ◌≤◌, length, is_ok, if◌then◌else◌, OnOk};
ghost use Rattle.std.specs.Result.{result_err};
ghost use Rattle.store.specs.Faults.{remove_fault};
ghost use Rattle.store.specs.Rows.{Shrunk, count_of, entry_at, removed};

use super::check::check_store;
use super::layout::{COUNT_AT, ENTRIES_AT};
use super::reading::entry_count;
use entry::ENTRY_SIZE;
use script::Refusal;

pub fn remove_entry(rows: &mut [u64], index: u64) -> Result<(), Refusal>
    ensures fault { result_err result ≡ remove_fault rows.old index }
    ensures after { rows.new ≡ (if is_ok result then removed rows.old index else rows.old) }
    ensures shrunk { OnOk result (Shrunk rows.old rows.new index) }
{
    let count = entry_count(rows);
    if count <= index {
        return Err(Refusal::NoSuchEntry { entry: index });
    }
    check_store(rows)?;
    close_gap(rows, index as usize, count as usize);
    Ok(())
}

// Copies what stands behind the entry over it, and clears the place that is freed.
fn close_gap(rows: &mut [u64], index: usize, count: usize)
    requires inside { index < count }
    requires counts { count ≡ count_of rows.old }
    requires long { entry_at count ≤ length rows.old }
    ensures { rows.new ≡ removed rows.old index }
{
    let start = ENTRIES_AT + ENTRY_SIZE * index;
    let end = ENTRIES_AT + ENTRY_SIZE * count;
    rows.copy_within(start + ENTRY_SIZE..end, start);
    rows[end - ENTRY_SIZE..end].fill(0);
    rows[COUNT_AT] = count as u64 - 1;
}
