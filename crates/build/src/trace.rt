// The askings of a run, one behind the other as they are made.
ghost use Rattle.std.specs.Prelude.{◌≡◌, ◌+◌, ◌<◌, ◌≤◌, [], ◌∷◌, ◌++◌, length};
ghost use Rattle.entry.specs.Layout.{askings_size};
ghost use Rattle.entry.specs.Rows.{askings_in};
ghost use Rattle.script.specs.Layout.{max_askings};

use entry::{ASKING_SIZE, Asking, asking_count};
use rows::put_all;
use script::MAX_ASKINGS;

// Adds one asking to a counted row of them; a full row stays as it is.
pub fn push_asking(row: &mut [u64], asking: Asking)
    ensures { askings_size ≤ length row.old → length (askings_in row.old) < max_askings → askings_in row.new ≡ askings_in row.old ++ asking ∷ [] }
{
    let count = asking_count(row);
    if count < MAX_ASKINGS {
        asking.write(row, 1 + ASKING_SIZE * count);
        put_all(row, 0, &[count as u64 + 1]);
    }
}
