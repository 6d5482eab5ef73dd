// Two desks over one store: the same items share entries, whatever stands under the same number.
use super::days::day_in_new_house;
use super::draft::Draft;
use super::scripts::{SUM, TWICE};
use super::step::Step;
use house::{HouseSize, Told};
use std::test::Fail;

const SIZE: HouseSize = HouseSize {
    desks: 2,
    items: 4,
    room: 8,
};

static SAME_ITEMS: [Step; 9] = [
    Step::Do(Draft::Write(0, 0, 5), Told::Done),
    Step::Do(Draft::Write(0, 1, 3), Told::Done),
    Step::Do(Draft::Script(0, 2, &SUM), Told::Done),
    Step::Do(Draft::Write(1, 0, 5), Told::Done),
    Step::Do(Draft::Write(1, 1, 3), Told::Done),
    Step::Do(Draft::Script(1, 2, &SUM), Told::Done),
    Step::Build(0, 2, Told::Value(8), &[2], 1),
    Step::Build(1, 2, Told::Value(8), &[], 1),
    Step::Build(0, 2, Told::Value(8), &[], 1),
];

// Item 2 is the sum at one desk and twice item 0 at the other, where item 3 is the sum.
static OTHER_SCRIPTS: [Step; 13] = [
    Step::Do(Draft::Write(0, 0, 5), Told::Done),
    Step::Do(Draft::Write(0, 1, 3), Told::Done),
    Step::Do(Draft::Script(0, 2, &SUM), Told::Done),
    Step::Do(Draft::Write(1, 0, 5), Told::Done),
    Step::Do(Draft::Write(1, 1, 3), Told::Done),
    Step::Do(Draft::Script(1, 2, &TWICE), Told::Done),
    Step::Do(Draft::Script(1, 3, &SUM), Told::Done),
    Step::Build(0, 2, Told::Value(8), &[2], 1),
    Step::Build(1, 2, Told::Value(10), &[2], 2),
    Step::Build(0, 2, Told::Value(8), &[], 2),
    Step::Build(1, 2, Told::Value(10), &[], 2),
    Step::Build(1, 3, Told::Value(8), &[], 2),
    // At the first desk nothing was written into item 3.
    Step::Build(0, 3, Told::Value(0), &[], 2),
];

#[test]
fn desks_with_the_same_items_share_entries(rt: HostRuntime) -> Result<(), Fail> {
    assert_eq!(rt; day_in_new_house(rt.alloc(), SIZE, &SAME_ITEMS)?, None);
    Ok(())
}

#[test]
fn other_scripts_under_one_number_give_other_results(rt: HostRuntime) -> Result<(), Fail> {
    assert_eq!(rt; day_in_new_house(rt.alloc(), SIZE, &OTHER_SCRIPTS)?, None);
    Ok(())
}
