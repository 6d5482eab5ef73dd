// Writes an entry from outside, given by its parts, into a row.
ghost use Rattle.std.specs.Prelude.{◌≡◌, ◌+◌, ◌*◌, ◌≤◌, ◌&&◌, ◌++◌, length, take, if◌then◌else◌, nat_eq, nat_le};
ghost use Rattle.entry.specs.Layout.{asking_size, askings_size, entry_size};
ghost use Rattle.entry.specs.Rows.{asking_out, askings_out, entry_of, entry_out};
ghost use Rattle.script.specs.Layout.{max_askings, max_lines};
ghost use Rattle.std.specs.List.{flat_map};

use super::asking::Asking;
use super::layout::{ASKING_SIZE, ENTRY_SIZE, RESULT_AT};
use rows::{clear_from, put_all};
use script::{MAX_ASKINGS, MAX_LINES, SCRIPT_SIZE, SourceLine};
use script_rows::write_source;

// A row of another size, or for more lines or askings than an entry has room for, is left as it was.
pub fn write_from_parts(row: &mut [u64], lines: &[SourceLine], askings: &[Asking], given: u64)
    ensures { row.new ≡ (if nat_eq (length row.old) entry_size && (nat_le (length lines.now) max_lines && nat_le (length askings.now) max_askings) then entry_out (entry_of lines.now askings.now given) else row.old) }
{
    if row.len() == ENTRY_SIZE && lines.len() <= MAX_LINES && askings.len() <= MAX_ASKINGS {
        write_fitting(row, lines, askings, given);
    }
}

fn write_fitting(row: &mut [u64], lines: &[SourceLine], askings: &[Asking], given: u64)
    requires long { length row.old ≡ entry_size }
    requires lines { length lines.now ≤ max_lines }
    requires askings { length askings.now ≤ max_askings }
    ensures { row.new ≡ entry_out (entry_of lines.now askings.now given) }
{
    write_source(&mut row[0..SCRIPT_SIZE], lines);
    write_asked(&mut row[SCRIPT_SIZE..RESULT_AT], askings);
    row[RESULT_AT] = given;
}

fn write_asked(row: &mut [u64], askings: &[Asking])
    requires long { length row.old ≡ askings_size }
    requires few { length askings.now ≤ max_askings }
    ensures { row.new ≡ askings_out askings.now }
{
    put_all(row, 0, &[askings.len() as u64]);
    write_each_asked(row, askings);
    clear_from(row, 1 + ASKING_SIZE * askings.len());
}

// Writes the askings behind the row's first number.
fn write_each_asked(row: &mut [u64], askings: &[Asking])
    requires long { length row.old ≡ askings_size }
    requires few { length askings.now ≤ max_askings }
    ensures { take (1 + asking_size * length askings.now) row.new ≡ take 1 row.old ++ flat_map asking_out askings.now }
{
    for (index, asking) in askings.iter().enumerate() {
        asking.write(row, 1 + ASKING_SIZE * index);
    }
}
