// The askings of an entry in their row: a count, and then an item and an answer for each.
ghost use Rattle.std.specs.Prelude.{◌≡◌, ◌<◌, ◌≤◌, length, drop, MatchOption, slice_index_or};
ghost use Rattle.entry.specs.Rows.{asking_out, askings_in, first_asking};
ghost use Rattle.rows.specs.Rows.{written_at};

use super::layout::ASKING_SIZE;
use rows::{number_after, put_all};
use script::MAX_ASKINGS;

// The item that was asked for, and the answer.
#[derive(Clone, Copy, PartialEq, Debug)]
pub struct Asking {
    pub item: u64,
    pub answer: u64,
}

impl Asking {
    // The asking whose first number stands at `at`.
    pub fn read(row: &[u64], at: usize) -> Asking
        ensures { result ≡ first_asking (drop at row.now) }
    {
        Asking {
            item: number_after(row, at, 0),
            answer: number_after(row, at, 1),
        }
    }

    // What stands for it in a row.
    pub fn numbers(self) -> [u64; ASKING_SIZE]
        ensures { result ≡ asking_out self }
    {
        [self.item, self.answer]
    }

    pub fn write(self, row: &mut [u64], at: usize)
        ensures { row.new ≡ written_at row.old at (asking_out self) }
    {
        put_all(row, at, &self.numbers());
    }
}

// A count above the most that an entry names is read as the most.
pub fn asking_count(askings: &[u64]) -> usize
    ensures value { result ≡ length (askings_in askings.now) }
    ensures bound { result ≤ 32 }
{
    let count = number_after(askings, 0, 0) as usize;
    count.min(MAX_ASKINGS)
}

// The asking with this number, if there are so many; a build goes over all of them in turn instead.
pub fn asking_of(askings: &[u64], index: usize) -> Option<Asking>
    ensures { MatchOption result (length (askings_in askings.now) ≤ index) (λ asking. (index < length (askings_in askings.now)) × (slice_index_or (askings_in askings.now) index asking ≡ asking)) }
{
    if index < asking_count(askings) {
        Some(Asking::read(askings, 1 + ASKING_SIZE * index))
    } else {
        None
    }
}
