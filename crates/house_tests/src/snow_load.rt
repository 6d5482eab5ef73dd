// A written number is corrected after others have built from it.
use super::days::day_in_new_house;
use super::draft::Draft;
use super::scripts::SUM;
use super::step::Step;
use house::{HouseSize, Told};
use std::test::Fail;

const SIZE: HouseSize = HouseSize {
    desks: 2,
    items: 4,
    room: 8,
};

// Asks for item 2 and gives twice its value.
const CUT_LIST: [[u64; 4]; 3] = [[0, 0, 2, 0], [3, 0, 0, 0], [5, 0, 0, 0]];

// Item 0 is the snow load, 1 the roof's own; 2 is their sum, and 3 is made from it. The snow load is 75 at first, and should be 85.
static DAY: [Step; 22] = [
    Step::Do(Draft::Write(0, 0, 75), Told::Done),
    Step::Do(Draft::Write(0, 1, 12), Told::Done),
    Step::Do(Draft::Script(0, 2, &SUM), Told::Done),
    Step::Do(Draft::Script(0, 3, &CUT_LIST), Told::Done),
    Step::Do(Draft::Write(1, 0, 75), Told::Done),
    Step::Do(Draft::Write(1, 1, 12), Told::Done),
    Step::Do(Draft::Script(1, 2, &SUM), Told::Done),
    Step::Do(Draft::Script(1, 3, &CUT_LIST), Told::Done),
    Step::Build(0, 3, Told::Value(174), &[2, 3], 2),
    Step::Build(1, 3, Told::Value(174), &[], 2),
    // Corrected at the first desk alone.
    Step::Do(Draft::Write(0, 0, 85), Told::Done),
    Step::Build(1, 3, Told::Value(174), &[], 2),
    Step::Build(0, 3, Told::Value(194), &[2, 3], 4),
    Step::Build(0, 2, Told::Value(97), &[], 4),
    Step::Build(1, 3, Told::Value(174), &[], 4),
    Step::Build(1, 2, Told::Value(87), &[], 4),
    // Corrected at the second desk too, which finds what the first one left.
    Step::Do(Draft::Write(1, 0, 85), Told::Done),
    Step::Build(1, 3, Told::Value(194), &[], 4),
    Step::Build(1, 2, Told::Value(97), &[], 4),
    Step::Build(0, 3, Told::Value(194), &[], 4),
    // Back to what it was.
    Step::Do(Draft::Write(0, 0, 75), Told::Done),
    Step::Build(0, 3, Told::Value(174), &[], 4),
];

// The store holds a sum made elsewhere from a load of 75, and this desk is corrected between two builds.
static IMPORTED: [Step; 10] = [
    Step::Do(Draft::Import(&SUM, &[[0, 75], [1, 12]], 87), Told::Done),
    Step::Do(Draft::Write(0, 0, 75), Told::Done),
    Step::Do(Draft::Write(0, 1, 12), Told::Done),
    Step::Do(Draft::Script(0, 2, &SUM), Told::Done),
    Step::Do(Draft::Script(0, 3, &CUT_LIST), Told::Done),
    Step::Build(0, 3, Told::Value(174), &[3], 2),
    Step::Do(Draft::Write(0, 0, 85), Told::Done),
    Step::Build(0, 3, Told::Value(194), &[2, 3], 4),
    Step::Do(Draft::Remove(0), Told::Done),
    Step::Build(0, 3, Told::Value(194), &[], 3),
];

#[test]
fn corrected_snow_load_is_seen_at_every_desk(rt: HostRuntime) -> Result<(), Fail> {
    assert_eq!(rt; day_in_new_house(rt.alloc(), SIZE, &DAY)?, None);
    Ok(())
}

#[test]
fn corrected_snow_load_is_seen_over_an_imported_entry(rt: HostRuntime) -> Result<(), Fail> {
    assert_eq!(rt; day_in_new_house(rt.alloc(), SIZE, &IMPORTED)?, None);
    Ok(())
}
