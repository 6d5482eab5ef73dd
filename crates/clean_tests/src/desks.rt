// What a clean build answers and lists, held against what a test expects.
ghost use Rattle.clean.specs.Builds.{Listed, says};
ghost use Rattle.items.specs.Rows.{items_in};
ghost use Rattle.std.specs.Prelude.{◌≡◌, ℕ, List, [], true, drop, length, replicate, Decides};
ghost use Rattle.test_rows.specs.Laid.{Lists};
ghost use Rattle.theory.specs.Build.{Built};
ghost use Rattle.theory.specs.Clean.{clean};

use clean::{CleanAnswer, clean_build};
use rows::tail;
use test_rows::{Desk, lists};

// Stands in the lent list wherever nothing is written.
const UNTOUCHED: u64 = 77;

// Whether a clean build answers so and lists these items, and the lent list is untouched behind them.
pub fn builds_so(desk: &Desk, item: u64, answer: CleanAnswer, list: &[u64]) -> bool
    ensures seen { (ran : List ℕ) × Listed (items_in desk.now.row.items) item (replicate 257 77) ran × Decides result ((answer ≡ says (clean (items_in desk.now.row.items) item)) × Lists ran list.now × (drop (length list.now) (drop 1 ran) ≡ drop (length list.now) (replicate 256 77))) }
    ensures list { result ≡ true → Built (items_in desk.now.row.items) [] 0 item (clean (items_in desk.now.row.items) item) list.now [] }
{
    let mut ran = [UNTOUCHED; 257];
    let Ok(told) = clean_build(desk.row.as_slice(), &mut ran, item) else {
        return false;
    };
    shows(told, &ran, answer, list)
}

// Whether this is told, and the row holds the list and is untouched behind it.
fn shows(told: CleanAnswer, ran: &[u64], answer: CleanAnswer, list: &[u64]) -> bool
    ensures { Decides result ((answer ≡ told) × Lists ran.now list.now × (drop (length list.now) (drop 1 ran.now) ≡ drop (length list.now) (replicate 256 77))) }
{
    answer == told && lists(ran, list) && is_untouched(ran, list.len())
}

// Whether the row is untouched behind its count and so many numbers.
fn is_untouched(ran: &[u64], count: usize) -> bool
    ensures { Decides result (drop count (drop 1 ran.now) ≡ drop count (replicate 256 77)) }
{
    tail(tail(ran, 1), count) == tail(&[UNTOUCHED; 256], count)
}
