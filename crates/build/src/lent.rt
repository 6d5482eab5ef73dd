// What a build reads: the items of the desk, and the store as it stood when the build began.
ghost use Rattle.std.specs.Prelude.{◌≡◌, drop};
ghost use Rattle.entry.specs.Layout.{entry_size};
ghost use Rattle.rows.specs.Parts.{parts_left};
ghost use Rattle.rows.specs.Rows.{chunks};
ghost use Rattle.store.specs.Rows.{count_of};

use entry::ENTRY_SIZE;
use rows::{RowParts, parts};
use store::{entry_count, entry_of};

#[derive(Clone, Copy)]
pub struct Lent<'a> {
    pub items: &'a [u64],
    pub rows: &'a [u64],
}

impl<'a> Lent<'a> {
    // The entries of the store, each from where it begins.
    pub fn entries(self) -> RowParts<'a, u64>
        ensures { parts_left result ≡ chunks (λ xs. xs) entry_size (count_of self.entry.rows.now) (drop 2 self.entry.rows.now) }
    {
        parts(
            entry_of(self.rows, 0),
            ENTRY_SIZE,
            entry_count(self.rows) as usize,
        )
    }
}
