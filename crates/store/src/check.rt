// The checks of a store's row, and of an entry from elsewhere.
ghost use Rattle.std.specs.Result.{result_err};
ghost use Rattle.std.specs.Prelude.{◌≡◌, if◌then◌else◌, Some, None, nat_lt};
ghost use Rattle.store.specs.Faults.{entry_fault, many_fault, parts_fault, replay_fault, store_fault};
ghost use Rattle.store.specs.Rows.{entry_at};

use super::layout::ENTRIES_AT;
use super::reading::{entry_count, entry_room};
use entry::{ENTRY_SIZE, replay};
use rows::number_after;
use script::{MAX_ASKINGS, Refusal, SCRIPT_SIZE};
use script_checks::check_script_row;

// Whether the row is long enough for its room, and holds no more entries than it has room for.
pub fn check_store(rows: &[u64]) -> Result<(), Refusal>
    ensures { result_err result ≡ store_fault rows.now }
{
    let room = entry_room(rows);
    let length = rows.len();
    let Some(_) = rows_needed(room, length) else {
        return Err(Refusal::StoreTooShort {
            length: length as u64,
        });
    };
    let count = entry_count(rows);
    if room < count {
        return Err(Refusal::StoreOverfull { count });
    }
    Ok(())
}

// The numbers that a store with this room takes, if a row of this length has them.
fn rows_needed(room: u64, length: usize) -> Option<usize>
    ensures { result ≡ (if nat_lt length (entry_at room) then None else Some (entry_at room)) }
{
    let entries = (room as usize).checked_mul(ENTRY_SIZE)?;
    entries
        .checked_add(ENTRIES_AT)
        .filter(|needed| *needed <= length)
}

// What importing the entry would say of the entry itself: its script line by line, its count of askings, its replay.
pub fn check_entry(entry: &[u64]) -> Result<(), Refusal>
    ensures { result_err result ≡ entry_fault entry.now }
{
    check_parts(entry)?;
    check_replay(entry)
}

// What stands in the entry, without its replay. Crate `house` has the same of lines and askings that are in no row; what both ask stands once, below and in `script_checks`.
pub fn check_parts(entry: &[u64]) -> Result<(), Refusal>
    ensures { result_err result ≡ parts_fault entry.now }
{
    check_script_row(entry)?;
    check_asking_count(number_after(entry, SCRIPT_SIZE, 0))
}

// Whether an entry may have so many askings.
pub fn check_asking_count(count: u64) -> Result<(), Refusal>
    ensures { result_err result ≡ many_fault count }
{
    if count > MAX_ASKINGS as u64 {
        return Err(Refusal::TooManyAskings);
    }
    Ok(())
}

pub fn check_replay(entry: &[u64]) -> Result<(), Refusal>
    ensures { result_err result ≡ replay_fault entry.now }
{
    replay(entry).map_err(|asking| Refusal::NotHonest { asking })
}
