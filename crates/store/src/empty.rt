// A store that holds nothing yet.
ghost use Rattle.std.specs.Prelude.{◌≡◌, ◌*◌, ◌∷◌, replicate, IfOk};
ghost use Rattle.entry.specs.Layout.{entry_size};

use super::layout::{ENTRIES_AT, ROOM_AT};
use entry::ENTRY_SIZE;
use std::alloc::{AllocError, Global};

// The row of an empty store with this room.
pub fn empty_store(heap: Global, room: u64) -> Result<Vec<u64>, AllocError>
    ensures { IfOk result (λ rows. rows.items ≡ 0 ∷ (room ∷ replicate (entry_size * room) 0)) }
{
    // A size that does not fit its type is more than any row can have, and so is what is asked for in its place.
    let entries = ENTRY_SIZE.saturating_mul(room as usize);
    let mut rows = vec![in heap; 0; entries.saturating_add(ENTRIES_AT)]?;
    rows[ROOM_AT] = room;
    Ok(rows)
}
