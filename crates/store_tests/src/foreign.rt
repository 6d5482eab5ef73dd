// Rows from elsewhere, in which numbers that are not used may be anything.
use super::examples::{ECHO, echo, entry_row, same_entry};
use entry::{Asking, write_entry, write_from_parts};
use rows::tail;
use script::{Line, SourceLine};
use script_rows::same_script;
use std::test::Fail;
use store::{add_entry, empty_store, entry_of, import_entry};
use test_rows::told;

// The lines of two scripts, and whether they are the same as they are read.
const SCRIPTS: [(&[[u64; 4]], &[[u64; 4]], bool); 13] = [
    (&[], &[], true),
    (&ECHO, &ECHO, true),
    // Numbers that a line does not use.
    (&[[0, 0, 3, 77], [5, 0, 0, 0]], &ECHO, true),
    (&ECHO, &[[0, 0, 3, 0], [5, 0, 77, 0]], true),
    (&ECHO, &[[0, 0, 3, 0], [5, 0, 0, 77]], true),
    // A kind above 5 counts as 5.
    (&ECHO, &[[0, 0, 3, 0], [6, 0, 0, 0]], true),
    (&ECHO, &[[0, 0, 3, 0], [6, 1, 0, 0]], false),
    // Numbers that a line uses.
    (&ECHO, &[[0, 1, 3, 0], [5, 0, 0, 0]], false),
    (&ECHO, &[[0, 0, 4, 0], [5, 0, 0, 0]], false),
    (&ECHO, &[[1, 0, 3, 0], [5, 0, 0, 0]], false),
    (&ECHO, &[[0, 0, 3, 0], [5, 1, 0, 0]], false),
    // One is as the other begins.
    (&ECHO, &[[0, 0, 3, 0]], false),
    (&ECHO, &[[0, 0, 3, 0], [5, 0, 0, 0], [5, 0, 0, 0]], false),
];

#[test]
fn scripts(rt: HostRuntime) {
    for (index, (left, right, expected)) in SCRIPTS.iter().enumerate() {
        let one = entry_row(*left, &[], 0);
        let other = entry_row(*right, &[[1, 2]], 3);
        assert_eq!(rt; same_script(&one, &other), *expected, "scripts {index}");
        assert_eq!(rt;
            same_script(&other, &one),
            *expected,
            "scripts {index} the other way round"
        );
    }
}

// A count above 32 is read as 32, and what stands behind the lines does not count.
#[test]
fn long_scripts(rt: HostRuntime) {
    let lines = [[2, 0, 7, 0]; 32];
    let one = entry_row(&lines, &[], 0);
    let mut other = entry_row(&lines, &[[1, 2]], 3);
    other[0] = 33;
    assert!(rt; same_script(&one, &other));
    other[127] = 8;
    assert!(rt; !same_script(&one, &other));
    other[0] = 31;
    assert!(rt; !same_script(&one, &other));
}

// An entry whose unused numbers are not 0.
fn untidy() -> [u64; 195] {
    let mut entry = entry_row(&[[0, 0, 3, 77], [5, 0, 78, 79]], &[[3, 9]], 9);
    entry[9] = 80;
    entry[128] = 81;
    entry[132] = 82;
    entry[193] = 83;
    entry
}

// They are 0 in the store.
#[test]
fn an_untidy_entry_is_kept_tidy(rt: HostRuntime) -> Result<(), Fail> {
    let mut rows = empty_store(rt.alloc(), 2)?;
    assert_eq!(rt; told(import_entry(rows.as_mut_slice(), &untidy())), None);
    assert!(rt; same_entry(entry_of(rows.as_slice(), 0), &echo(9)));
    let entry = untidy();
    let added = add_entry(rows.as_mut_slice(), &entry, tail(&entry, 129), 9);
    assert_eq!(rt; told(added), None);
    assert!(rt; same_entry(entry_of(rows.as_slice(), 1), &echo(9)));
    let again = add_entry(rows.as_mut_slice(), &entry, tail(&entry, 129), 9);
    assert_eq!(rt; told(again), Some((11, 2)));
    Ok(())
}

#[test]
fn entries_are_written_into_their_own_size(rt: HostRuntime) {
    let entry = untidy();
    let mut short = [7; 194];
    write_entry(&mut short, &entry, tail(&entry, 129), 9);
    assert!(rt; short == [7; 194]);
    let mut long = [7; 196];
    write_entry(&mut long, &entry, tail(&entry, 129), 9);
    assert!(rt; long == [7; 196]);
    let mut right = [7; 195];
    write_entry(&mut right, &entry, tail(&entry, 129), 9);
    assert!(rt; right == echo(9));
}

const LINES: [SourceLine; 2] = [
    SourceLine::Known(Line::Ask {
        register: 0,
        item: 3,
    }),
    SourceLine::Known(Line::Give { register: 0 }),
];

const ASKING: Asking = Asking { item: 3, answer: 9 };

#[test]
fn entries_are_written_from_parts(rt: HostRuntime) {
    let mut row = [7; 195];
    write_from_parts(&mut row, &[LINES[1]; 33], &[ASKING], 9);
    write_from_parts(&mut row, &LINES, &[ASKING; 33], 9);
    assert!(rt; row == [7; 195]);
    write_from_parts(&mut row, &LINES, &[ASKING], 9);
    assert!(rt; row == echo(9));
    let mut short = [7; 194];
    write_from_parts(&mut short, &LINES, &[ASKING], 9);
    assert!(rt; short == [7; 194]);
}
