// Whether two rows hold the same script.
ghost use Rattle.std.specs.Prelude.{◌≡◌, ◌+◌, ◌≤◌, length, Decides};
ghost use Rattle.script.specs.Layout.{line_size};
ghost use Rattle.script.specs.Rows.{line_at, script_in};

use super::reading::line_count;
use script::{LAST_KIND, LINE_SIZE, Line};

// The kinds from this on use three numbers, except the last, which uses one; those below it use two.
const FIRST_OF_THREE: u64 = 3;

// Line for line, as they are read. By places: over the parts of both rows, with `zip` and `all`, a build took up to half as long again.
pub fn same_script(left: &[u64], right: &[u64]) -> bool
    ensures { Decides result (script_in left.now ≡ script_in right.now) }
{
    let count = line_count(left);
    if count != line_count(right) {
        return false;
    }
    for index in 0..count {
        if !same_line(left, right, 1 + LINE_SIZE * index) {
            return false;
        }
    }
    true
}

fn same_line(left: &[u64], right: &[u64], at: usize) -> bool
    ensures { Decides result (line_at left.now at ≡ line_at right.now at) }
{
    match at.checked_add(LINE_SIZE) {
        Some(end) if end <= left.len() && end <= right.len() => same_whole_line(left, right, at),
        _ => same_cut_line(left, right, at),
    }
}

// Decides by the numbers as they stand, without making lines of them: this is the innermost work of looking for an entry.
fn same_whole_line(left: &[u64], right: &[u64], at: usize) -> bool
    requires left { at + line_size ≤ length left.now }
    requires right { at + line_size ≤ length right.now }
    ensures { Decides result (line_at left.now at ≡ line_at right.now at) }
{
    let kind = left[at];
    let other_kind = right[at];
    if left[at + 1] != right[at + 1] {
        return false;
    }
    if kind >= LAST_KIND && other_kind >= LAST_KIND {
        return true;
    }
    if kind != other_kind || left[at + 2] != right[at + 2] {
        return false;
    }
    kind < FIRST_OF_THREE || left[at + 3] == right[at + 3]
}

// A line of which a row may have only a part, so that the rest reads as 0.
fn same_cut_line(left: &[u64], right: &[u64], at: usize) -> bool
    ensures { Decides result (line_at left.now at ≡ line_at right.now at) }
{
    Line::read(left, at) == Line::read(right, at)
}
