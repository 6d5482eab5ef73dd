// Houses and rows at their limits: what is just allowed, no room, too many items to count, and a row longer than its list.
use super::days::day_in_new_house;
use super::draft::Draft;
use super::lent_house::TestedHouse;
use super::scripts::{SUM, TWICE};
use super::step::Step;
use house::{HouseSize, Told, new_desks};
use rows::tail;
use script::Refusal;
use std::test::Fail;

const SMALL: HouseSize = HouseSize {
    desks: 2,
    items: 3,
    room: 1,
};

// Asks for item 7 in each of 32 lines and gives 0, since it runs out of them.
const LONGEST: [[u64; 4]; 32] = [[0, 7, 7, 0]; 32];

const MOST_ASKINGS: [[u64; 2]; 32] = [[7, 1]; 32];

// The last line is left out with 31 that are not there.
const FARTHEST: [[u64; 4]; 2] = [[4, 7, 7, 32], [5, 7, 0, 0]];

static ALLOWED: [Step; 8] = [
    Step::Do(Draft::Write(1, 2, u64::MAX), Told::Done),
    Step::Build(1, 2, Told::Value(u64::MAX), &[], 0),
    Step::Do(Draft::Script(1, 2, &FARTHEST), Told::Done),
    Step::Build(1, 2, Told::Value(0), &[2], 1),
    Step::Do(Draft::Remove(0), Told::Done),
    Step::Do(Draft::Import(&LONGEST, &MOST_ASKINGS, 0), Told::Done),
    Step::Do(Draft::Script(0, 0, &LONGEST), Told::Done),
    // No item 7 is there, so it counts as 0, and the imported entry was told 1.
    Step::Build(0, 0, Told::Value(0), &[0], 1),
];

const NO_ROOM: HouseSize = HouseSize {
    desks: 1,
    items: 4,
    room: 0,
};

// Asks for item 2 and gives what it is told.
const ECHO: [[u64; 4]; 2] = [[0, 0, 2, 0], [5, 0, 0, 0]];

static NOTHING_KEPT: [Step; 10] = [
    Step::Do(Draft::Write(0, 0, 5), Told::Done),
    Step::Do(Draft::Write(0, 1, 3), Told::Done),
    Step::Do(Draft::Script(0, 2, &SUM), Told::Done),
    Step::Do(Draft::Script(0, 3, &ECHO), Told::Done),
    Step::Build(0, 3, Told::Value(8), &[2, 3], 0),
    Step::Build(0, 3, Told::Value(8), &[2, 3], 0),
    Step::Do(
        Draft::Import(&ECHO, &[[2, 8]], 8),
        Told::Refused(Refusal::StoreFull { room: 0 }),
    ),
    Step::Do(
        Draft::Remove(0),
        Told::Refused(Refusal::NoSuchEntry { entry: 0 }),
    ),
    Step::Do(Draft::Write(0, 1, 4), Told::Done),
    Step::Build(0, 3, Told::Value(9), &[2, 3], 0),
];

#[test]
fn up_to_the_limits(rt: HostRuntime) -> Result<(), Fail> {
    assert_eq!(rt; day_in_new_house(rt.alloc(), SMALL, &ALLOWED)?, None);
    Ok(())
}

#[test]
fn a_house_of_no_room(rt: HostRuntime) -> Result<(), Fail> {
    assert_eq!(rt; day_in_new_house(rt.alloc(), NO_ROOM, &NOTHING_KEPT)?, None);
    Ok(())
}

// A row of more numbers than can be counted is refused before any memory is taken.
#[test]
fn a_house_that_cannot_be_counted(rt: HostRuntime) -> Result<(), Fail> {
    let size = HouseSize {
        desks: 1,
        items: u64::MAX,
        room: 0,
    };
    assert!(rt; new_desks(rt.alloc(), size).is_err());
    Ok(())
}

// One command of each kind, of which the build runs item 1, and then one that is refused.
static ALL_KINDS: [Draft; 6] = [
    Draft::Write(0, 0, 5),
    Draft::Script(0, 1, &TWICE),
    Draft::Build(0, 1),
    Draft::Remove(0),
    Draft::Import(&LONGEST, &MOST_ASKINGS, 0),
    Draft::Build(0, 3),
];

// The row of the list may be longer than the desk needs, and what stands behind the list stays.
#[test]
fn a_row_too_long_for_its_list(rt: HostRuntime) -> Result<(), Fail> {
    let mut tested = TestedHouse::new(rt.alloc(), SMALL)?;
    tested.house.ran.resize(9, 77)?;
    for draft in ALL_KINDS.iter() {
        let _ = tested.perform(*draft)?;
        assert!(rt; tail(tested.house.ran.as_slice(), 4) == [77; 5].as_slice());
    }
    assert!(rt; tested.house.ran.as_slice().starts_with(&[1, 1]));
    Ok(())
}
