// A house that is in use, whose rows are lent in good order or not, and commands that are refused there.
ghost use Rattle.house_tests.specs.Drafted.{drafted};
ghost use Rattle.house_tests.specs.Refused.{LentSo, NotRefusedThere, RefusedThere};
ghost use Rattle.house_tests.specs.Rows.{SameRows};
ghost use Rattle.house_tests.specs.Told.{told_as_numbers};
ghost use Rattle.std.specs.Prelude.{◌≡◌, Decides, IfOk, MatchBool};

use super::draft::Draft;
use super::lent_house::{TestedHouse, copy_rows, same_rows, told_numbers};
use super::scripts::TWICE;
use house::{House, HouseSize, Told};
use rows::put_all;
use std::alloc::{AllocError, Global};

// Two desks of three items, and room for two entries.
const SIZE: HouseSize = HouseSize {
    desks: 2,
    items: 3,
    room: 2,
};

// How many entries the store says that it keeps, and how long its row and the list's row are.
#[derive(Clone, Copy)]
pub struct Lent {
    count: u64,
    store: usize,
    list: usize,
}

pub const WHOLE: Lent = Lent {
    count: 1,
    store: 392,
    list: 4,
};

pub const FULL: Lent = Lent { count: 2, ..WHOLE };

pub const SHORT: Lent = Lent {
    store: 391,
    ..WHOLE
};

pub const FULL_SHORT: Lent = Lent { count: 2, ..SHORT };

pub const OVERFULL: Lent = Lent { count: 3, ..WHOLE };

pub const OVERFULL_SHORT: Lent = Lent { count: 3, ..SHORT };

pub const LISTLESS: Lent = Lent { list: 3, ..WHOLE };

pub const NO_LIST: Lent = Lent { list: 0, ..WHOLE };

pub const OVERFULL_LISTLESS: Lent = Lent {
    count: 3,
    ..LISTLESS
};

// All of it is wrong.
pub const BROKEN: Lent = Lent {
    count: 3,
    store: 391,
    list: 3,
};

// Not one number of either row is there.
pub const NOTHING: Lent = Lent {
    count: 0,
    store: 0,
    list: 0,
};

// Commands that fill the rows: item 1 is made from item 0, and its entry is kept.
static USE: [Draft; 3] = [
    Draft::Write(0, 0, 5),
    Draft::Script(0, 1, &TWICE),
    Draft::Build(0, 1),
];

// The house after these commands, whose rows are then lent as told.
fn lent_house(heap: Global, lent: Lent) -> Result<TestedHouse, AllocError>
    ensures { IfOk result (λ tested. (tested.house.size ≡ SIZE) × LentSo SIZE lent tested.house.rows.items tested.house.ran.items) }
{
    let mut tested = TestedHouse::new(heap, SIZE)?;
    for draft in USE.iter() {
        let _ = tested.perform(*draft)?;
    }
    put_all(tested.house.rows.as_mut_slice(), 0, &[lent.count]);
    tested.house.rows.truncate(lent.store);
    tested.house.ran.truncate(lent.list);
    Ok(tested)
}

// Whether the command is refused with this number at this place, and every number of the three rows is as it was.
pub fn is_refused(
    heap: Global,
    lent: Lent,
    draft: Draft,
    refusal: (u64, u64),
) -> Result<bool, AllocError>
    ensures { IfOk result (λ refused. MatchBool refused (RefusedThere SIZE lent (drafted draft) refusal) (NotRefusedThere SIZE lent (drafted draft) refusal)) }
{
    let mut tested = lent_house(heap, lent)?;
    let before = copy_rows(heap, &tested.house)?;
    let told = tested.perform(draft)?;
    Ok(refused_so(told, refusal, &tested.house, &before))
}

// Whether this is told, and the rows are the same before and after.
fn refused_so(told: Told, refusal: (u64, u64), after: &House, before: &House) -> bool
    ensures { Decides result ((told_as_numbers told ≡ (3, refusal.0, refusal.1)) × SameRows after.now before.now) }
{
    told_numbers(told) == (3, refusal.0, refusal.1) && same_rows(after, before)
}
