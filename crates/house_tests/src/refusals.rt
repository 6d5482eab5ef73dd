// Every refusal at every command that can meet it, and which one is told first; nothing has changed then.
use super::draft::Draft;
use super::lent::{
    BROKEN, FULL, FULL_SHORT, LISTLESS, Lent, NO_LIST, NOTHING, OVERFULL, OVERFULL_LISTLESS,
    OVERFULL_SHORT, SHORT, WHOLE, is_refused,
};
use super::scripts::SUM;
use std::alloc::Global;
use std::process::Abort;
use std::test::Fail;

const MOST: u64 = u64::MAX;

// A command, the rows that it is lent, and the number and the place that are told.
type Case = (Draft, Lent, u64, u64);

static WRITES: [Case; 6] = [
    (Draft::Write(2, 0, 9), WHOLE, 2, 2),
    (Draft::Write(MOST, 0, 9), WHOLE, 2, MOST),
    (Draft::Write(0, 3, 9), WHOLE, 3, 3),
    (Draft::Write(1, MOST, 9), WHOLE, 3, MOST),
    (Draft::Write(2, 3, 9), BROKEN, 2, 2),
    (Draft::Write(1, 3, 9), BROKEN, 3, 3),
];

// 33 lines, of which all are fine or none is.
const LONG: [[u64; 4]; 33] = [[5, 0, 0, 0]; 33];

const LONG_UNKNOWN: [[u64; 4]; 33] = [[6, 8, 0, 0]; 33];

// As many lines as a file can name.
const LONGEST: [[u64; 4]; 255] = [[5, 0, 0, 0]; 255];

static SCRIPTS: [Case; 22] = [
    (Draft::Script(2, 0, &[]), WHOLE, 2, 2),
    (Draft::Script(MOST, 0, &[]), WHOLE, 2, MOST),
    (Draft::Script(0, 3, &[]), WHOLE, 3, 3),
    (Draft::Script(1, MOST, &[]), WHOLE, 3, MOST),
    // The desk, the item, the count of lines, the lines.
    (Draft::Script(2, 3, &LONG_UNKNOWN), BROKEN, 2, 2),
    (Draft::Script(2, 0, &[[6, 0, 0, 0]]), WHOLE, 2, 2),
    (Draft::Script(1, 3, &LONG_UNKNOWN), BROKEN, 3, 3),
    (Draft::Script(1, 3, &[[4, 0, 0, 33]]), WHOLE, 3, 3),
    (Draft::Script(0, 0, &LONG), WHOLE, 4, 32),
    (Draft::Script(0, 0, &LONGEST), WHOLE, 4, 32),
    (Draft::Script(1, 2, &LONG_UNKNOWN), BROKEN, 4, 32),
    // A line's own faults: its kind, its registers, how many lines it leaves out.
    (Draft::Script(0, 1, &[[6, 0, 0, 0]]), WHOLE, 5, 0),
    (Draft::Script(0, 1, &[[MOST, 8, 8, 33]]), WHOLE, 5, 0),
    (Draft::Script(0, 1, &[[5, 8, 0, 0]]), WHOLE, 6, 0),
    (Draft::Script(0, 1, &[[3, 0, 0, 8]]), WHOLE, 6, 0),
    (Draft::Script(0, 1, &[[4, 0, 8, 33]]), WHOLE, 6, 0),
    (Draft::Script(0, 1, &[[4, 0, 0, 33]]), WHOLE, 7, 0),
    // The first line that is not allowed.
    (
        Draft::Script(0, 1, &[[4, 0, 0, 33], [6, 0, 0, 0]]),
        WHOLE,
        7,
        0,
    ),
    (
        Draft::Script(0, 1, &[[1, 0, 8, 0], [6, 0, 0, 0]]),
        WHOLE,
        6,
        0,
    ),
    (
        Draft::Script(0, 1, &[[5, 7, 0, 0], [6, 8, 0, 0]]),
        BROKEN,
        5,
        1,
    ),
    (
        Draft::Script(0, 1, &[[5, 7, 0, 0], [0, 8, 0, 0], [6, 0, 0, 0]]),
        WHOLE,
        6,
        1,
    ),
    (
        Draft::Script(0, 1, &[[0, 7, 0, 0], [4, 7, 7, 32], [4, 7, 7, 33]]),
        WHOLE,
        7,
        2,
    ),
];

static BUILDS: [Case; 14] = [
    (Draft::Build(2, 0), WHOLE, 2, 2),
    (Draft::Build(MOST, 1), WHOLE, 2, MOST),
    (Draft::Build(0, 3), WHOLE, 3, 3),
    (Draft::Build(1, MOST), WHOLE, 3, MOST),
    (Draft::Build(0, 1), SHORT, 12, 391),
    // An item that is written is refused as well.
    (Draft::Build(0, 0), SHORT, 12, 391),
    (Draft::Build(0, 1), NOTHING, 12, 0),
    (Draft::Build(0, 1), OVERFULL, 13, 3),
    (Draft::Build(0, 1), LISTLESS, 14, 3),
    (Draft::Build(0, 1), NO_LIST, 14, 0),
    // The desk, the item, the store's length, its count, the list.
    (Draft::Build(2, 3), BROKEN, 2, 2),
    (Draft::Build(1, 3), BROKEN, 3, 3),
    (Draft::Build(0, 1), BROKEN, 12, 391),
    (Draft::Build(0, 1), OVERFULL_LISTLESS, 13, 3),
];

static REMOVALS: [Case; 8] = [
    (Draft::Remove(1), WHOLE, 8, 1),
    (Draft::Remove(MOST), WHOLE, 8, MOST),
    (Draft::Remove(0), SHORT, 12, 391),
    (Draft::Remove(0), OVERFULL, 13, 3),
    // The entry, the store's length, its count.
    (Draft::Remove(3), OVERFULL_SHORT, 8, 3),
    (Draft::Remove(3), OVERFULL, 8, 3),
    (Draft::Remove(1), SHORT, 8, 1),
    (Draft::Remove(0), OVERFULL_SHORT, 12, 391),
];

// Asks for item 3 and gives what it is told.
const ECHO: [[u64; 4]; 2] = [[0, 0, 3, 0], [5, 0, 0, 0]];

// As many askings as an entry may name, one more, and as many as a file can name.
const JUST_ENOUGH: [[u64; 2]; 32] = [[3, 9]; 32];

const MANY: [[u64; 2]; 33] = [[3, 9]; 33];

const MOST_ASKINGS: [[u64; 2]; 255] = [[3, 9]; 255];

static IMPORTS: [Case; 30] = [
    (Draft::Import(&LONG, &[], 0), WHOLE, 4, 32),
    (Draft::Import(&LONGEST, &MOST_ASKINGS, 0), WHOLE, 4, 32),
    (Draft::Import(&[[6, 0, 0, 0]], &[], 0), WHOLE, 5, 0),
    (Draft::Import(&[[5, 8, 0, 0]], &[], 0), WHOLE, 6, 0),
    (Draft::Import(&[[4, 0, 0, 33]], &[], 0), WHOLE, 7, 0),
    (Draft::Import(&ECHO, &MANY, 9), WHOLE, 9, 32),
    (Draft::Import(&[], &MANY, 0), WHOLE, 9, 32),
    (Draft::Import(&ECHO, &MOST_ASKINGS, 9), WHOLE, 9, 32),
    // Another item is asked for, none, or one too many.
    (Draft::Import(&ECHO, &[[4, 9]], 9), WHOLE, 10, 0),
    (Draft::Import(&SUM, &[[0, 5], [2, 3]], 8), WHOLE, 10, 1),
    (Draft::Import(&[], &[[3, 9]], 0), WHOLE, 10, 0),
    (Draft::Import(&[], &JUST_ENOUGH, 0), WHOLE, 10, 0),
    (Draft::Import(&ECHO, &[[3, 9], [3, 9]], 9), WHOLE, 10, 1),
    // All askings are as in the replay, which goes on asking or gives another result.
    (Draft::Import(&ECHO, &[], 0), WHOLE, 10, 0),
    (Draft::Import(&SUM, &[[0, 5]], 5), WHOLE, 10, 1),
    (Draft::Import(&ECHO, &[[3, 9]], 8), WHOLE, 10, 1),
    (Draft::Import(&SUM, &[[0, 5], [1, 3]], 9), WHOLE, 10, 2),
    (Draft::Import(&ECHO, &[[3, 9]], 9), FULL, 11, 2),
    (Draft::Import(&ECHO, &[[3, 9]], 9), OVERFULL, 11, 2),
    (Draft::Import(&ECHO, &[[3, 9]], 9), SHORT, 12, 391),
    // The count of lines, the lines, the count of askings, honesty, room, the store's length.
    (Draft::Import(&LONG_UNKNOWN, &MANY, 1), FULL_SHORT, 4, 32),
    (Draft::Import(&[[6, 8, 0, 0]], &MANY, 1), FULL_SHORT, 5, 0),
    (
        Draft::Import(&[[0, 0, 3, 0], [6, 8, 0, 0]], &MANY, 1),
        FULL_SHORT,
        5,
        1,
    ),
    (
        Draft::Import(&[[5, 8, 0, 0], [6, 0, 0, 0]], &MANY, 1),
        FULL_SHORT,
        6,
        0,
    ),
    (
        Draft::Import(&[[5, 0, 0, 0], [4, 8, 0, 33]], &MANY, 1),
        FULL_SHORT,
        6,
        1,
    ),
    (
        Draft::Import(&[[4, 0, 0, 33], [6, 0, 0, 0]], &MANY, 1),
        FULL_SHORT,
        7,
        0,
    ),
    (Draft::Import(&ECHO, &MANY, 1), FULL_SHORT, 9, 32),
    (Draft::Import(&ECHO, &[[4, 9]], 9), FULL_SHORT, 10, 0),
    (Draft::Import(&ECHO, &[[3, 9]], 8), SHORT, 10, 1),
    (Draft::Import(&ECHO, &[[3, 9]], 9), FULL_SHORT, 11, 2),
];

fn check_cases(rt: &impl Abort, heap: Global, cases: &[Case]) -> Result<(), Fail> {
    for (draft, lent, number, place) in cases {
        assert!(rt;
            is_refused(heap, *lent, *draft, (*number, *place))?,
            "refusal {number} at {place}"
        );
    }
    Ok(())
}

#[test]
fn of_writes(rt: HostRuntime) -> Result<(), Fail> {
    check_cases(&rt, rt.alloc(), &WRITES)
}

#[test]
fn of_scripts(rt: HostRuntime) -> Result<(), Fail> {
    check_cases(&rt, rt.alloc(), &SCRIPTS)
}

#[test]
fn of_builds(rt: HostRuntime) -> Result<(), Fail> {
    check_cases(&rt, rt.alloc(), &BUILDS)
}

#[test]
fn of_removals(rt: HostRuntime) -> Result<(), Fail> {
    check_cases(&rt, rt.alloc(), &REMOVALS)
}

#[test]
fn of_imports(rt: HostRuntime) -> Result<(), Fail> {
    check_cases(&rt, rt.alloc(), &IMPORTS)
}
