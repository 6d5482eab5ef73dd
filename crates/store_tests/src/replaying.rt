// Which entries replay, and where the others first differ from their replay.
use super::examples::{ECHO, SUM, entry_row};
use entry::replay;

const MOST: u64 = u64::MAX;

// Asks for item 2; if that is 8 it gives 8, otherwise it asks for item 4 and gives what it is told.
const CHOICE: [[u64; 4]; 5] = [
    [0, 0, 2, 0],
    [2, 1, 8, 0],
    [4, 0, 1, 1],
    [0, 0, 4, 0],
    [5, 0, 0, 0],
];

// Asks for item 1, then for the item of that number, and gives that.
const AT: [[u64; 4]; 3] = [[0, 0, 1, 0], [1, 1, 0, 0], [5, 1, 0, 0]];

// Lines, askings with their answers, the result, and where the entry first differs.
const ENTRIES: [(&[[u64; 4]], &[[u64; 2]], u64, Option<u64>); 26] = [
    // No lines: asks for nothing and gives 0.
    (&[], &[], 0, None),
    (&[], &[], 1, Some(0)),
    (&[], &[[3, 9]], 0, Some(0)),
    (&ECHO, &[[3, 9]], 9, None),
    (&ECHO, &[[3, MOST]], MOST, None),
    // The result is off by one.
    (&ECHO, &[[3, 9]], 8, Some(1)),
    (&ECHO, &[[3, 9]], 10, Some(1)),
    (&SUM, &[[0, 5], [1, 3]], 8, None),
    (&SUM, &[[0, 5], [1, 3]], 9, Some(2)),
    (&SUM, &[[0, MOST], [1, 1]], 0, None),
    // Asks for another item.
    (&ECHO, &[[4, 9]], 9, Some(0)),
    (&SUM, &[[0, 5], [2, 3]], 8, Some(1)),
    (&SUM, &[[1, 3], [0, 5]], 8, Some(0)),
    (&SUM, &[[2, 5], [2, 3]], 9, Some(0)),
    // Asks for more.
    (&ECHO, &[], 0, Some(0)),
    (&SUM, &[[0, 5]], 5, Some(1)),
    // Ends early.
    (&ECHO, &[[3, 9], [3, 9]], 9, Some(1)),
    (&SUM, &[[0, 5], [1, 3], [1, 3]], 8, Some(2)),
    (&SUM, &[[0, 5], [1, 3], [1, 3], [1, 3]], 9, Some(2)),
    // Whether there is a second asking depends on the first answer.
    (&CHOICE, &[[2, 8]], 8, None),
    (&CHOICE, &[[2, 8], [4, 7]], 7, Some(1)),
    (&CHOICE, &[[2, 7], [4, 6]], 6, None),
    (&CHOICE, &[[2, 7]], 7, Some(1)),
    // Which item the second asking is for depends on the first answer.
    (&AT, &[[1, 3], [3, 9]], 9, None),
    (&AT, &[[1, 3], [4, 9]], 9, Some(1)),
    (&AT, &[[1, 4], [4, 9]], 4, Some(2)),
];

#[test]
fn entries(rt: HostRuntime) {
    for (index, (lines, askings, result, expected)) in ENTRIES.iter().enumerate() {
        let entry = entry_row(*lines, *askings, *result);
        assert_eq!(rt; replay(&entry).err(), *expected, "entry {index}");
    }
}

// A script of 32 lines that asks for item 7 in each: it runs out of lines and gives 0.
#[test]
fn an_entry_with_32_askings(rt: HostRuntime) {
    let lines = [[0, 0, 7, 0]; 32];
    let mut askings = [[7, 1]; 32];
    assert_eq!(rt; replay(&entry_row(&lines, &askings, 0)).err(), None);
    assert_eq!(rt; replay(&entry_row(&lines, &askings, 1)).err(), Some(32));
    assert_eq!(rt;
        replay(&entry_row(&lines, &askings[..31], 0)).err(),
        Some(31)
    );
    askings[31] = [8, 1];
    assert_eq!(rt; replay(&entry_row(&lines, &askings, 0)).err(), Some(31));
}

// The same up to its last line, which gives the answer.
#[test]
fn an_entry_with_31_askings(rt: HostRuntime) {
    let mut lines = [[0, 0, 7, 0]; 32];
    lines[31] = [5, 0, 0, 0];
    let askings = [[7, 1]; 32];
    assert_eq!(rt; replay(&entry_row(&lines, &askings[..31], 1)).err(), None);
    assert_eq!(rt; replay(&entry_row(&lines, &askings, 1)).err(), Some(31));
    assert_eq!(rt;
        replay(&entry_row(&lines, &askings[..30], 1)).err(),
        Some(30)
    );
}

// An entry of which the row has only a part: what is not there counts as 0.
#[test]
fn entries_in_short_rows(rt: HostRuntime) {
    assert_eq!(rt; replay(&[]).err(), None);
    // One line, which is read as asking for item 0.
    assert_eq!(rt; replay(&[1]).err(), Some(0));
    // Register 0 becomes 9 and is given; the result is read as 0.
    assert_eq!(rt; replay(&[2, 2, 0, 9, 0, 5]).err(), Some(0));
}
