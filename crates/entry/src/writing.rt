// Writes an entry into its row.
ghost use Rattle.std.specs.Prelude.{◌≡◌, ℕ, ◌+◌, ◌*◌, ◌≤◌, List, ◌++◌, length, take, if◌then◌else◌, nat_eq};
ghost use Rattle.entry.specs.Layout.{asking_size, askings_size, entry_size};
ghost use Rattle.entry.specs.Rows.{InForm, asking_out, askings_in, askings_out, entry_from, entry_in, entry_out};
ghost use Rattle.std.specs.List.{flat_map};

use super::asking::{Asking, asking_count};
use super::layout::{ASKING_SIZE, ENTRY_SIZE, RESULT_AT};
use rows::{clear_from, put_all};
use script::SCRIPT_SIZE;
use script_rows::write_script;

// Sets every number of the row to the entry of this script, these askings and this result; a row of another size is left as it was.
// A row in form whose parts are handed in is written again as it was.
pub fn write_entry(row: &mut [u64], script: &[u64], askings: &[u64], given: u64)
    ensures after { row.new ≡ (if nat_eq (length row.old) entry_size then entry_out (entry_from script.now askings.now given) else row.old) }
    ensures reads_back { length row.old ≡ entry_size → entry_in row.new ≡ entry_from script.now askings.now given }
    ensures copies { (xs : List ℕ) → InForm xs → length row.old ≡ entry_size → entry_from script.now askings.now given ≡ entry_in xs → row.new ≡ xs }
{
    if row.len() == ENTRY_SIZE {
        write_parts(row, script, askings, given);
    }
}

fn write_parts(row: &mut [u64], script: &[u64], askings: &[u64], given: u64)
    requires { length row.old ≡ entry_size }
    ensures { row.new ≡ entry_out (entry_from script.now askings.now given) }
{
    write_script(&mut row[0..SCRIPT_SIZE], script);
    write_askings(&mut row[SCRIPT_SIZE..RESULT_AT], askings);
    row[RESULT_AT] = given;
}

fn write_askings(row: &mut [u64], askings: &[u64])
    requires { length row.old ≡ askings_size }
    ensures { row.new ≡ askings_out (askings_in askings.now) }
{
    let count = asking_count(askings);
    put_all(row, 0, &[count as u64]);
    write_each(row, askings);
    clear_from(row, 1 + ASKING_SIZE * count);
}

// Copies the askings behind the row's first number.
fn write_each(row: &mut [u64], askings: &[u64])
    requires { askings_size ≤ length row.old }
    ensures { take (1 + asking_size * length (askings_in askings.now)) row.new ≡ take 1 row.old ++ flat_map asking_out (askings_in askings.now) }
{
    for index in 0..asking_count(askings) {
        Asking::read(askings, 1 + ASKING_SIZE * index).write(row, 1 + ASKING_SIZE * index);
    }
}
