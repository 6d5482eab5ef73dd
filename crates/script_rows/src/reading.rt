// A script in a row: a count of lines, and then the lines.
ghost use Rattle.std.specs.Prelude.{◌≡◌, ◌<◌, ◌≤◌, length, MatchOption, slice_index_or};
ghost use Rattle.script.specs.Rows.{script_in};

use rows::number_after;
use script::{LINE_SIZE, Line, MAX_LINES};

// A count above the most that a script has is read as the most.
pub fn line_count(script: &[u64]) -> usize
    ensures value { result ≡ length (script_in script.now) }
    ensures bound { result ≤ 32 }
{
    let count = number_after(script, 0, 0) as usize;
    count.min(MAX_LINES)
}

pub fn line_of(script: &[u64], index: usize) -> Option<Line>
    ensures { MatchOption result (length (script_in script.now) ≤ index) (λ line. (index < length (script_in script.now)) × (slice_index_or (script_in script.now) index line ≡ line)) }
{
    if index < line_count(script) {
        Some(Line::read(script, 1 + LINE_SIZE * index))
    } else {
        None
    }
}
