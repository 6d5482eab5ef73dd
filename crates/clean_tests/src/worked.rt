// One desk of eight items, with three pairs of numbers in its first two items.
use super::desks::builds_so;
use clean::CleanAnswer;
use std::alloc::{AllocError, Global};
use std::process::Abort;
use std::test::Fail;
use test_rows::Desk;

const SUM_OF_0_AND_1: [[u64; 4]; 4] = [[0, 0, 0, 0], [0, 1, 1, 0], [3, 2, 0, 1], [5, 2, 0, 0]];

// 8 if item 2 is 8, otherwise item 4.
const EIGHT_OR_4: [[u64; 4]; 5] = [
    [0, 0, 2, 0],
    [2, 1, 8, 0],
    [4, 0, 1, 1],
    [0, 0, 4, 0],
    [5, 0, 0, 0],
];

// The item whose number item 1 holds.
const AT_1: [[u64; 4]; 3] = [[0, 0, 1, 0], [1, 0, 0, 0], [5, 0, 0, 0]];

fn desk(heap: Global, first: u64, second: u64) -> Result<Desk, AllocError> {
    let mut desk = Desk::new(heap, 8)?;
    desk.write(0, first);
    desk.write(1, second);
    desk.give(2, &SUM_OF_0_AND_1);
    desk.give(3, &EIGHT_OR_4);
    desk.give(4, &[[0, 0, 3, 0], [5, 0, 0, 0]]);
    desk.give(5, &AT_1);
    desk.give(6, &[[0, 0, 900, 0], [5, 0, 0, 0]]);
    desk.give(7, &[[0, 0, 7, 0], [5, 0, 0, 0]]);
    Ok(desk)
}

// An item, what its build answers, and what it lists.
type Expected = (u64, CleanAnswer, &'static [u64]);

fn expect_all(rt: &impl Abort, desk: &Desk, builds: &[Expected]) {
    for (item, answer, list) in builds {
        assert!(rt; builds_so(desk, *item, *answer, *list), "item {item}");
    }
}

// Items that are not there count as written with 0.
const AT_FIRST: [Expected; 12] = [
    (0, CleanAnswer::Value(5), &[]),
    (1, CleanAnswer::Value(3), &[]),
    (2, CleanAnswer::Value(8), &[2]),
    (3, CleanAnswer::Value(8), &[2, 3]),
    (4, CleanAnswer::Value(8), &[2, 3, 4]),
    (5, CleanAnswer::Value(8), &[2, 3, 5]),
    (6, CleanAnswer::Value(0), &[6]),
    (7, CleanAnswer::Ring, &[]),
    (8, CleanAnswer::Value(0), &[]),
    (900, CleanAnswer::Value(0), &[]),
    (18446744073709551614, CleanAnswer::Value(0), &[]),
    (18446744073709551615, CleanAnswer::Value(0), &[]),
];

#[test]
fn with_5_and_3(rt: HostRuntime) -> Result<(), Fail> {
    let desk = desk(rt.alloc(), 5, 3)?;
    expect_all(&rt, &desk, &AT_FIRST);
    Ok(())
}

const SAME_SUM: [Expected; 3] = [
    (2, CleanAnswer::Value(8), &[2]),
    (3, CleanAnswer::Value(8), &[2, 3]),
    (5, CleanAnswer::Value(8), &[2, 3, 4, 5]),
];

#[test]
fn with_4_and_4(rt: HostRuntime) -> Result<(), Fail> {
    let desk = desk(rt.alloc(), 4, 4)?;
    expect_all(&rt, &desk, &SAME_SUM);
    Ok(())
}

// Items 3 and 4 now ask for each other.
const WITH_A_RING: [Expected; 5] = [
    (2, CleanAnswer::Value(5), &[2]),
    (3, CleanAnswer::Ring, &[2]),
    (4, CleanAnswer::Ring, &[2]),
    (5, CleanAnswer::Ring, &[2]),
    (6, CleanAnswer::Value(0), &[6]),
];

#[test]
fn with_1_and_4(rt: HostRuntime) -> Result<(), Fail> {
    let desk = desk(rt.alloc(), 1, 4)?;
    expect_all(&rt, &desk, &WITH_A_RING);
    Ok(())
}
