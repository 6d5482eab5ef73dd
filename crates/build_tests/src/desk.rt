// A desk in use, and all that its builds are lent.
ghost use Rattle.entry.specs.Layout.{entry_size};
ghost use Rattle.items.specs.Rows.{item_size, max_items};
ghost use Rattle.std.specs.Prelude.{◌≡◌, ◌+◌, ◌*◌, ◌∷◌, replicate, min, IfOk};

use std::alloc::{AllocError, Global};
use store::empty_store;
use test_rows::Desk;

// A desk, the store that its builds are lent, and the list of what ran.
#[derive(Drop)]
pub struct DeskInUse {
    pub desk: Desk,
    pub rows: Vec<u64>,
    pub ran: Vec<u64>,
}

impl DeskInUse {
    // So many items, each written with 0, an empty store with room for so many entries, and a list that holds this number everywhere.
    pub fn new(heap: Global, items: u64, room: u64, blank: u64) -> Result<DeskInUse, AllocError>
        ensures desk { IfOk result (λ used. used.desk.row.items ≡ items ∷ replicate (item_size * min items max_items) 0) }
        ensures store { IfOk result (λ used. used.rows.items ≡ 0 ∷ (room ∷ replicate (entry_size * room) 0)) }
        ensures list { IfOk result (λ used. used.ran.items ≡ replicate (items + 1) blank) }
    {
        Ok(DeskInUse {
            desk: Desk::new(heap, items)?,
            rows: empty_store(heap, room)?,
            ran: vec![in heap; blank; (items as usize).saturating_add(1)]?,
        })
    }
}
