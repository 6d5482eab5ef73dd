// Writing a script into a row of its own: from another row, or from lines.
ghost use Rattle.std.specs.Prelude.{◌≡◌, ◌+◌, ◌*◌, ◌≤◌, ◌&&◌, ◌++◌, map, length, take, if◌then◌else◌, nat_eq, nat_le};
ghost use Rattle.script.specs.Allowed.{counted_as};
ghost use Rattle.script.specs.Layout.{line_size, max_lines, script_size};
ghost use Rattle.script.specs.Rows.{line_out, script_in, script_out};
ghost use Rattle.std.specs.List.{flat_map};

use super::reading::line_count;
use rows::{clear_from, put_all};
use script::{LINE_SIZE, Line, MAX_LINES, SCRIPT_SIZE, SourceLine};

// Copies a script into a row of its own, line by line as it is read; a row of another size is left as it was.
pub fn write_script(row: &mut [u64], script: &[u64])
    ensures { row.new ≡ (if nat_eq (length row.old) script_size then script_out (script_in script.now) else row.old) }
{
    if row.len() == SCRIPT_SIZE {
        let count = line_count(script);
        put_all(row, 0, &[count as u64]);
        write_lines(row, script);
        clear_from(row, 1 + LINE_SIZE * count);
    }
}

// Copies the lines behind the row's first number.
fn write_lines(row: &mut [u64], script: &[u64])
    requires { script_size ≤ length row.old }
    ensures { take (1 + line_size * length (script_in script.now)) row.new ≡ take 1 row.old ++ flat_map line_out (script_in script.now) }
{
    for index in 0..line_count(script) {
        Line::read(script, 1 + LINE_SIZE * index).write(row, 1 + LINE_SIZE * index);
    }
}

// Writes lines from outside into a row of their own, each as it counts; a row of another size, or for more lines than a script has, is left as it was.
pub fn write_source(row: &mut [u64], lines: &[SourceLine])
    ensures { row.new ≡ (if nat_eq (length row.old) script_size && nat_le (length lines.now) max_lines then script_out (map counted_as lines.now) else row.old) }
{
    if row.len() == SCRIPT_SIZE && lines.len() <= MAX_LINES {
        write_source_whole(row, lines);
    }
}

fn write_source_whole(row: &mut [u64], lines: &[SourceLine])
    requires long { length row.old ≡ script_size }
    requires few { length lines.now ≤ max_lines }
    ensures { row.new ≡ script_out (map counted_as lines.now) }
{
    put_all(row, 0, &[lines.len() as u64]);
    write_source_lines(row, lines);
    clear_from(row, 1 + LINE_SIZE * lines.len());
}

// Writes the lines behind the row's first number.
fn write_source_lines(row: &mut [u64], lines: &[SourceLine])
    requires long { length row.old ≡ script_size }
    requires few { length lines.now ≤ max_lines }
    ensures { take (1 + line_size * length (map counted_as lines.now)) row.new ≡ take 1 row.old ++ flat_map line_out (map counted_as lines.now) }
{
    for (index, line) in lines.iter().enumerate() {
        Line::from(*line).write(row, 1 + LINE_SIZE * index);
    }
}
