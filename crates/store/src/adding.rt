// Adds an entry at the end of a store, or imports one from elsewhere.
ghost use Rattle.std.specs.Prelude.{◌≡◌, ◌<◌, ◌≤◌, length, is_ok, if◌then◌else◌, OnOk};
ghost use Rattle.entry.specs.Rows.{entry_from, entry_in};
ghost use Rattle.std.specs.Result.{result_err};
ghost use Rattle.store.specs.Faults.{add_fault, admit_fault, full_fault, import_fault};
ghost use Rattle.store.specs.Rows.{Grown, added, count_of, entry_at, room_of};

use super::check::{check_parts, check_replay, check_store};
use super::layout::{COUNT_AT, ENTRIES_AT};
use super::reading::{entry_count, entry_room};
use entry::{ENTRY_SIZE, RESULT_AT, write_entry};
use rows::{number_after, tail};
use script::{Refusal, SCRIPT_SIZE};

// Adds what one run left: its script and its askings, each in a row, and its result. The three come from three places, and a struct of them
// would be made for this call alone and taken apart in the next.
pub fn add_entry(
    rows: &mut [u64],
    script: &[u64],
    askings: &[u64],
    given: u64,
) -> Result<(), Refusal>
    ensures fault { result_err result ≡ add_fault rows.old }
    ensures after { rows.new ≡ (if is_ok result then added rows.old (entry_from script.now askings.now given) else rows.old) }
    ensures grown { OnOk result (Grown rows.old rows.new (entry_from script.now askings.now given)) }
{
    check_room(rows)?;
    check_store(rows)?;
    append(rows, script, askings, given);
    Ok(())
}

// Imports an entry in a row from elsewhere: its script line by line, its count of askings, and then as `admit_entry` does.
#[tactic(auto, using(crate::proofs::Grows::or_else_assoc))]
pub fn import_entry(rows: &mut [u64], entry: &[u64]) -> Result<(), Refusal>
    ensures fault { result_err result ≡ import_fault rows.old entry.now }
    ensures after { rows.new ≡ (if is_ok result then added rows.old (entry_in entry.now) else rows.old) }
    ensures grown { OnOk result (Grown rows.old rows.new (entry_in entry.now)) }
{
    check_parts(entry)?;
    admit_entry(rows, entry)
}

// Adds an entry whose script and count of askings are allowed; it is believed only if it replays.
pub fn admit_entry(rows: &mut [u64], entry: &[u64]) -> Result<(), Refusal>
    ensures fault { result_err result ≡ admit_fault rows.old entry.now }
    ensures after { rows.new ≡ (if is_ok result then added rows.old (entry_in entry.now) else rows.old) }
    ensures grown { OnOk result (Grown rows.old rows.new (entry_in entry.now)) }
{
    check_replay(entry)?;
    let askings = tail(entry, SCRIPT_SIZE);
    add_entry(rows, entry, askings, number_after(entry, RESULT_AT, 0))
}

fn check_room(rows: &[u64]) -> Result<(), Refusal>
    ensures { result_err result ≡ full_fault rows.now }
{
    let room = entry_room(rows);
    if entry_count(rows) < room {
        return Ok(());
    }
    Err(Refusal::StoreFull { room })
}

// Writes the entry into the part of the row behind those that are kept.
fn append(rows: &mut [u64], script: &[u64], askings: &[u64], given: u64)
    requires room { count_of rows.old < room_of rows.old }
    requires long { entry_at (room_of rows.old) ≤ length rows.old }
    ensures { rows.new ≡ added rows.old (entry_from script.now askings.now given) }
{
    let count = entry_count(rows);
    let start = ENTRIES_AT + ENTRY_SIZE * count as usize;
    write_entry(&mut rows[start..start + ENTRY_SIZE], script, askings, given);
    rows[COUNT_AT] = count + 1;
}
