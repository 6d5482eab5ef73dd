// A desk as a test writes it: the items in their row.
ghost use Rattle.items.specs.Rows.{item_size, max_items};
ghost use Rattle.rows.specs.Rows.{written_at};
ghost use Rattle.std.specs.Prelude.{◌≡◌, ◌+◌, ◌*◌, ◌<◌, [], ◌∷◌, replicate, min, IfOk, if◌then◌else◌, nat_lt};
ghost use Rattle.test_rows.specs.Laid.{script_numbers};

use super::pieces::put_script;
use items::{ITEM_SIZE, MAX_ITEMS};
use rows::{push_zeros, put_all};
use std::alloc::{AllocError, Global};

#[derive(Drop)]
pub struct Desk {
    pub row: Vec<u64>,
}

impl Desk {
    // So many items, each of them written with 0. The count is as given, also above 256.
    pub fn new(heap: Global, count: u64) -> Result<Desk, AllocError>
        ensures { IfOk result (λ desk. desk.row.items ≡ count ∷ replicate (item_size * min count max_items) 0) }
    {
        let mut row = Vec::new(heap);
        row.push(count)?;
        push_zeros(&mut row, ITEM_SIZE * MAX_ITEMS.min(count as usize))?;
        Ok(Desk { row })
    }

    // An item past the 256th is not written.
    pub fn write(&mut self, item: usize, value: u64)
        ensures { self.new.row.items ≡ (if nat_lt item max_items then written_at self.old.row.items (1 + item_size * item) (0 ∷ value ∷ []) else self.old.row.items) }
    {
        if item < MAX_ITEMS {
            put_all(self.row.as_mut_slice(), 1 + ITEM_SIZE * item, &[0, value]);
        }
    }

    // Makes an item by a script of at most 32 lines, each of four numbers.
    #[tactic(auto, unfolding(rows::specs::Rows::written_at))]
    pub fn give(&mut self, item: usize, lines: &[[u64; 4]])
        ensures { self.new.row.items ≡ (if nat_lt item max_items then written_at self.old.row.items (1 + item_size * item) (1 ∷ script_numbers lines.now) else self.old.row.items) }
    {
        if item < MAX_ITEMS {
            let start = 1 + ITEM_SIZE * item;
            put_all(self.row.as_mut_slice(), start, &[1]);
            put_script(self.row.as_mut_slice(), start + 1, lines);
        }
    }
}
