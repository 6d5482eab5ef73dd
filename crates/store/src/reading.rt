// Reads a store: how many entries it keeps and has room for, and each of them.
ghost use Rattle.store.specs.Rows.{count_of, entry_at, room_of};
ghost use Rattle.std.specs.Prelude.{◌≡◌, drop};

use super::layout::{COUNT_AT, ENTRIES_AT, ROOM_AT};
use entry::ENTRY_SIZE;
use rows::{number_after, tail};

pub fn entry_count(rows: &[u64]) -> u64
    ensures { result ≡ count_of rows.now }
{
    number_after(rows, COUNT_AT, 0)
}

pub fn entry_room(rows: &[u64]) -> u64
    ensures { result ≡ room_of rows.now }
{
    number_after(rows, ROOM_AT, 0)
}

// The part of the row that begins with the entry; there is nothing in it if the row ends before.
#[tactic(auto, using(rows::proofs::Chunks::drop_min))]
pub fn entry_of(rows: &[u64], index: usize) -> &[u64]
    ensures { result.now ≡ drop (entry_at index) rows.now }
{
    tail(
        rows,
        ENTRY_SIZE.saturating_mul(index).saturating_add(ENTRIES_AT),
    )
}
