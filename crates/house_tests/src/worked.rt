// One whole day at a desk of eight items, with room for four entries.
use super::days::day_in_new_house;
use super::draft::Draft;
use super::scripts::SUM;
use super::step::Step;
use house::{HouseSize, Told};
use std::test::Fail;

const SIZE: HouseSize = HouseSize {
    desks: 1,
    items: 8,
    room: 4,
};

// Asks for item 2; if that is 8 it gives 8, otherwise it asks for item 4 and gives what it is told.
const CHOICE: [[u64; 4]; 5] = [
    [0, 0, 2, 0],
    [2, 1, 8, 0],
    [4, 0, 1, 1],
    [0, 0, 4, 0],
    [5, 0, 0, 0],
];

static DAY: [Step; 20] = [
    Step::Do(Draft::Write(0, 0, 5), Told::Done),
    Step::Do(Draft::Write(0, 1, 3), Told::Done),
    Step::Do(Draft::Script(0, 2, &SUM), Told::Done),
    Step::Do(Draft::Script(0, 3, &CHOICE), Told::Done),
    Step::Do(
        Draft::Script(0, 4, &[[0, 0, 3, 0], [5, 0, 0, 0]]),
        Told::Done,
    ),
    Step::Do(
        Draft::Script(0, 5, &[[0, 0, 1, 0], [1, 0, 0, 0], [5, 0, 0, 0]]),
        Told::Done,
    ),
    Step::Do(
        Draft::Script(0, 6, &[[0, 0, 900, 0], [5, 0, 0, 0]]),
        Told::Done,
    ),
    Step::Do(Draft::Script(0, 7, &[[0, 0, 7, 0]]), Told::Done),
    Step::Build(0, 2, Told::Value(8), &[2], 1),
    Step::Build(0, 5, Told::Value(8), &[3, 5], 3),
    Step::Build(0, 5, Told::Value(8), &[], 3),
    Step::Do(Draft::Write(0, 0, 4), Told::Done),
    Step::Do(Draft::Write(0, 1, 4), Told::Done),
    Step::Build(0, 5, Told::Value(8), &[2, 4, 5], 4),
    Step::Build(0, 5, Told::Value(8), &[4, 5], 4),
    Step::Do(Draft::Write(0, 0, 1), Told::Done),
    Step::Build(0, 3, Told::Ring, &[2], 4),
    Step::Build(0, 5, Told::Ring, &[2], 4),
    Step::Build(0, 6, Told::Value(0), &[6], 4),
    Step::Build(0, 7, Told::Ring, &[], 4),
];

#[test]
fn the_worked_day(rt: HostRuntime) -> Result<(), Fail> {
    assert_eq!(rt; day_in_new_house(rt.alloc(), SIZE, &DAY)?, None);
    Ok(())
}
