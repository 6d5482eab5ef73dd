// What a build takes over from earlier ones, and what it does not: small days at a desk of four items, with room for four entries.
use super::deeds::Deed;
use super::desk::DeskInUse;
use build::Answer;
use std::alloc::Global;
use std::process::Abort;
use std::test::Fail;

// Scripts that give what one item is, or the sum of two.
const ITEM_0: &[[u64; 4]] = &[[0, 0, 0, 0], [5, 0, 0, 0]];

const ITEM_1: &[[u64; 4]] = &[[0, 0, 1, 0], [5, 0, 0, 0]];

const ITEM_2: &[[u64; 4]] = &[[0, 0, 2, 0], [5, 0, 0, 0]];

const TWICE_0: &[[u64; 4]] = &[[0, 0, 0, 0], [3, 0, 0, 0], [5, 0, 0, 0]];

const SUM_0_1: &[[u64; 4]] = &[[0, 0, 0, 0], [0, 1, 1, 0], [3, 2, 0, 1], [5, 2, 0, 0]];

const SUM_1_2: &[[u64; 4]] = &[[0, 0, 1, 0], [0, 1, 2, 0], [3, 2, 0, 1], [5, 2, 0, 0]];

fn check_day(rt: &impl Abort, heap: Global, deeds: &[Deed]) -> Result<(), Fail> {
    let mut used = DeskInUse::new(heap, 4, 4, 0)?;
    assert_eq!(rt; used.spend_day(deeds), None);
    Ok(())
}

// Items 1 and 2 ask for each other, until 2 is written; and once more, which leaves the entry of item 1 unharmed.
const RING_COMES_AND_GOES: [Deed; 9] = [
    Deed::Give(1, ITEM_2),
    Deed::Give(2, ITEM_1),
    Deed::Build(1, Answer::Ring, &[], 0),
    Deed::Write(2, 7),
    Deed::Build(1, Answer::Value(7), &[1], 1),
    Deed::Give(2, ITEM_1),
    Deed::Build(1, Answer::Ring, &[], 1),
    Deed::Write(2, 7),
    Deed::Build(1, Answer::Value(7), &[], 1),
];

#[test]
fn a_ring_is_not_remembered(rt: HostRuntime) -> Result<(), Fail> {
    check_day(&rt, rt.alloc(), &RING_COMES_AND_GOES)
}

// Items 1 and 2 have the same script.
const SAME_SCRIPT_TWICE: [Deed; 6] = [
    Deed::Write(0, 5),
    Deed::Give(1, ITEM_0),
    Deed::Give(2, ITEM_0),
    Deed::Give(3, SUM_1_2),
    Deed::Build(3, Answer::Value(10), &[1, 2, 3], 3),
    Deed::Build(3, Answer::Value(10), &[], 3),
];

#[test]
fn an_entry_counts_from_the_next_build_on(rt: HostRuntime) -> Result<(), Fail> {
    check_day(&rt, rt.alloc(), &SAME_SCRIPT_TWICE)
}

// Items 0 and 1 change, and their sum does not.
const SAME_SUM: [Deed; 9] = [
    Deed::Write(0, 5),
    Deed::Write(1, 3),
    Deed::Give(2, SUM_0_1),
    Deed::Give(3, ITEM_2),
    Deed::Build(3, Answer::Value(8), &[2, 3], 2),
    Deed::Write(0, 4),
    Deed::Write(1, 4),
    Deed::Build(3, Answer::Value(8), &[2], 3),
    Deed::Build(3, Answer::Value(8), &[], 3),
];

#[test]
fn only_direct_answers_are_compared(rt: HostRuntime) -> Result<(), Fail> {
    check_day(&rt, rt.alloc(), &SAME_SUM)
}

// Item 1's entry saves item 2, which has its script; item 1 itself gets another script.
const FILED_BY_SCRIPT: [Deed; 8] = [
    Deed::Write(0, 5),
    Deed::Give(1, ITEM_0),
    Deed::Give(2, ITEM_0),
    Deed::Build(1, Answer::Value(5), &[1], 1),
    Deed::Build(2, Answer::Value(5), &[], 1),
    Deed::Give(1, TWICE_0),
    Deed::Build(1, Answer::Value(10), &[1], 2),
    Deed::Build(2, Answer::Value(5), &[], 2),
];

#[test]
fn entries_are_filed_by_script_and_not_by_item(rt: HostRuntime) -> Result<(), Fail> {
    check_day(&rt, rt.alloc(), &FILED_BY_SCRIPT)
}

// Item 1's entry says that item 0 is 5, which it is no longer.
const OLD_ANSWER: [Deed; 7] = [
    Deed::Write(0, 5),
    Deed::Give(1, TWICE_0),
    Deed::Build(1, Answer::Value(10), &[1], 1),
    Deed::Write(0, 6),
    Deed::Give(2, ITEM_0),
    Deed::Build(2, Answer::Value(6), &[2], 2),
    Deed::Build(1, Answer::Value(12), &[1], 3),
];

#[test]
fn a_due_item_is_answered_from_the_desk(rt: HostRuntime) -> Result<(), Fail> {
    check_day(&rt, rt.alloc(), &OLD_ANSWER)
}
