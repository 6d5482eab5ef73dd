// Imports and removals, and what the store's row holds after them, number for number.
use super::draft::Draft;
use super::lent_house::TestedHouse;
use super::step::Step;
use house::{House, HouseSize, Told};
use rows::put_all;
use script::Refusal;
use std::process::Abort;
use std::test::Fail;

const SIZE: HouseSize = HouseSize {
    desks: 1,
    items: 4,
    room: 2,
};

// Asks for item 3 and gives what it is told.
const ECHO: [[u64; 4]; 2] = [[0, 0, 3, 0], [5, 0, 0, 0]];

static FILLING: [Step; 7] = [
    Step::Do(
        Draft::Remove(0),
        Told::Refused(Refusal::NoSuchEntry { entry: 0 }),
    ),
    Step::Do(Draft::Import(&ECHO, &[[3, 9]], 9), Told::Done),
    Step::Do(
        Draft::Remove(1),
        Told::Refused(Refusal::NoSuchEntry { entry: 1 }),
    ),
    Step::Do(Draft::Import(&ECHO, &[[3, 7]], 7), Told::Done),
    Step::Do(
        Draft::Import(&ECHO, &[[3, 9]], 9),
        Told::Refused(Refusal::StoreFull { room: 2 }),
    ),
    Step::Do(
        Draft::Remove(2),
        Told::Refused(Refusal::NoSuchEntry { entry: 2 }),
    ),
    // Nothing is written into item 3, so it is 0, and neither entry tells that.
    Step::Build(0, 3, Told::Value(0), &[], 2),
];

// The entry of 9 goes, and that of 7 moves up.
static REMOVING: [Step; 1] = [Step::Do(Draft::Remove(0), Told::Done)];

// The numbers of an entry of this answer.
fn put_entry(row: &mut [u64], answer: u64) {
    put_all(row, 0, &[2, 0, 0, 3, 0, 5]);
    put_all(row, 129, &[1, 3, answer]);
    put_all(row, 194, &[answer]);
}

fn put_entries(row: &mut [u64; 392], answers: &[u64]) {
    put_all(row, 0, &[answers.len() as u64, 2]);
    for (entry, answer) in row[2..].chunks_exact_mut(195).zip(answers) {
        put_entry(entry, *answer);
    }
}

// The store holds the entries of these answers, and 0 behind them.
fn check_stored(rt: &impl Abort, house: &House, answers: &[u64]) {
    let mut row = [0; 392];
    put_entries(&mut row, answers);
    assert!(rt; house.rows.as_slice() == row.as_slice());
}

#[test]
fn imports_and_removals(rt: HostRuntime) -> Result<(), Fail> {
    let mut tested = TestedHouse::new(rt.alloc(), SIZE)?;
    assert_eq!(rt; tested.spend(&FILLING)?, None);
    check_stored(&rt, &tested.house, &[9, 7]);
    assert_eq!(rt; tested.spend(&REMOVING)?, None);
    check_stored(&rt, &tested.house, &[7]);
    Ok(())
}
