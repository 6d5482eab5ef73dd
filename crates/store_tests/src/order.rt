// Which refusal is told first, where several apply.
use super::examples::{ECHO, echo, entry_row};
use rows::put_all;
use std::alloc::{AllocError, Global};
use std::test::Fail;
use store::{empty_store, import_entry, remove_entry};
use test_rows::told;

// A store with room for two entries that says that it keeps so many, and whose row ends one number early.
fn short_store(heap: Global, count: u64) -> Result<Vec<u64>, AllocError> {
    let mut rows = empty_store(heap, 2)?;
    rows.truncate(391);
    put_all(rows.as_mut_slice(), 0, &[count]);
    Ok(rows)
}

const LONG: [[u64; 4]; 33] = [[6, 8, 0, 0]; 33];

const MANY: [[u64; 2]; 33] = [[3, 9]; 33];

// Entries, and what is told of each where the store is full and short: a count of lines, the lines one by one, a count of askings, honesty, room.
const ENTRIES: [(&[[u64; 4]], &[[u64; 2]], u64, (u64, u64)); 10] = [
    (&LONG, &MANY, 1, (4, 32)),
    // A kind before a register, a register before how many lines are left out, and each line before the next.
    (&[[6, 8, 0, 0]], &MANY, 1, (5, 0)),
    (&[[5, 8, 0, 0], [6, 0, 0, 0]], &MANY, 1, (6, 0)),
    (&[[4, 0, 8, 33]], &MANY, 1, (6, 0)),
    (
        &[[5, 0, 0, 0], [4, 0, 0, 33], [6, 0, 0, 0]],
        &MANY,
        1,
        (7, 1),
    ),
    (
        &[[4, 0, 0, 32], [3, 7, 7, 7], [6, 0, 0, 0]],
        &MANY,
        1,
        (5, 2),
    ),
    (&ECHO, &MANY, 8, (9, 32)),
    (&ECHO, &[[4, 9]], 8, (10, 0)),
    (&ECHO, &[[3, 9]], 8, (10, 1)),
    (&ECHO, &[[3, 9]], 9, (11, 2)),
];

#[test]
fn imports_into_a_full_short_store(rt: HostRuntime) -> Result<(), Fail> {
    let mut rows = short_store(rt.alloc(), 2)?;
    let before = short_store(rt.alloc(), 2)?;
    for (index, (lines, askings, result, expected)) in ENTRIES.iter().enumerate() {
        let entry = entry_row(*lines, *askings, *result);
        assert_eq!(rt;
            told(import_entry(rows.as_mut_slice(), &entry)),
            Some(*expected),
            "entry {index}"
        );
        assert!(rt; rows.as_slice() == before.as_slice(), "after entry {index}");
    }
    Ok(())
}

#[test]
fn imports_into_a_short_store(rt: HostRuntime) -> Result<(), Fail> {
    let mut rows = short_store(rt.alloc(), 1)?;
    let before = short_store(rt.alloc(), 1)?;
    assert_eq!(rt;
        told(import_entry(rows.as_mut_slice(), &entry_row(&[], &[], 1))),
        Some((10, 0))
    );
    assert_eq!(rt;
        told(import_entry(rows.as_mut_slice(), &echo(9))),
        Some((12, 391))
    );
    assert!(rt; rows.as_slice() == before.as_slice());
    Ok(())
}

// Counts of lines and of askings that are far too high.
#[test]
fn counts_out_of_bounds(rt: HostRuntime) -> Result<(), Fail> {
    let mut rows = empty_store(rt.alloc(), 1)?;
    let mut entry = echo(9);
    entry[129] = u64::MAX;
    assert_eq!(rt;
        told(import_entry(rows.as_mut_slice(), &entry)),
        Some((9, 32))
    );
    entry[0] = u64::MAX;
    assert_eq!(rt;
        told(import_entry(rows.as_mut_slice(), &entry)),
        Some((4, 32))
    );
    Ok(())
}

// An entry that is not there is told before a row that is too short, and that before one that keeps too many.
#[test]
fn removals(rt: HostRuntime) -> Result<(), Fail> {
    let mut rows = short_store(rt.alloc(), 3)?;
    assert_eq!(rt; told(remove_entry(rows.as_mut_slice(), 3)), Some((8, 3)));
    assert_eq!(rt;
        told(remove_entry(rows.as_mut_slice(), u64::MAX)),
        Some((8, u64::MAX))
    );
    assert_eq!(rt; told(remove_entry(rows.as_mut_slice(), 2)), Some((12, 391)));
    rows.push(0)?;
    assert_eq!(rt; told(remove_entry(rows.as_mut_slice(), 3)), Some((8, 3)));
    assert_eq!(rt; told(remove_entry(rows.as_mut_slice(), 2)), Some((13, 3)));
    put_all(rows.as_mut_slice(), 0, &[2]);
    assert_eq!(rt; told(remove_entry(rows.as_mut_slice(), 1)), None);
    Ok(())
}
