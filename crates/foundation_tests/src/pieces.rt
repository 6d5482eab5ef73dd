// Bytes of files that a test puts together.
ghost use Rattle.std.specs.Prelude.{◌≡◌, ◌+◌, ◌*◌, length, OnOk};

use std::alloc::AllocError;

// A line that is let in: it gives register 0.
pub const FINE: [u8; 13] = [5, 0, 0, 0, 0, 0, 0, 0, 0, 0, 0, 0, 0];

// Adds a count of lines and so many lines: this one in front, and then lines that are let in.
pub fn add_lines(file: &mut Vec<u8>, count: u8, first: [u8; 13]) -> Result<(), AllocError>
    ensures { OnOk result (length file.new.items ≡ length file.old.items + 1 + 13 * count) }
{
    file.push(count)?;
    // The index only tells the first line from the others.
    for index in 0..count {
        let line = if index == 0 { first } else { FINE };
        file.extend_from_slice(&line)?;
    }
    Ok(())
}
