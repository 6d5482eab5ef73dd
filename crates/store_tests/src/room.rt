// Stores with no room and with the most, and rows that do not fit their room.
use super::examples::{echo, entry_row, same_entry};
use rows::{number_after, put_all};
use std::alloc::{AllocError, Global};
use std::test::Fail;
use store::{check_store, empty_store, entry_count, entry_of, import_entry, remove_entry};
use test_rows::told;

#[test]
fn no_room(rt: HostRuntime) -> Result<(), Fail> {
    let mut rows = empty_store(rt.alloc(), 0)?;
    assert_eq!(rt; rows.len(), 2);
    assert_eq!(rt; told(check_store(rows.as_slice())), None);
    assert_eq!(rt;
        told(import_entry(rows.as_mut_slice(), &echo(1))),
        Some((11, 0))
    );
    assert_eq!(rt;
        told(import_entry(rows.as_mut_slice(), &entry_row(&[], &[], 1))),
        Some((10, 0))
    );
    assert_eq!(rt; told(remove_entry(rows.as_mut_slice(), 0)), Some((8, 0)));
    assert!(rt; rows.as_slice() == [0, 0].as_slice());
    Ok(())
}

// Fills a store with room for 4,096 entries, and takes one out at the front and one at the back.
#[test]
fn the_most_room(rt: HostRuntime) -> Result<(), Fail> {
    let mut rows = empty_store(rt.alloc(), 4096)?;
    assert_eq!(rt; rows.len(), 798722);
    assert_eq!(rt; number_after(rows.as_slice(), 1, 0), 4096);
    for answer in 0..4096 {
        assert_eq!(rt;
            told(import_entry(rows.as_mut_slice(), &echo(answer))),
            None
        );
    }
    assert_eq!(rt;
        told(import_entry(rows.as_mut_slice(), &echo(0))),
        Some((11, 4096))
    );
    assert!(rt; same_entry(entry_of(rows.as_slice(), 4095), &echo(4095)));
    assert_eq!(rt; told(remove_entry(rows.as_mut_slice(), 0)), None);
    assert_eq!(rt; told(remove_entry(rows.as_mut_slice(), 4094)), None);
    assert_eq!(rt; entry_count(rows.as_slice()), 4094);
    assert!(rt; same_entry(entry_of(rows.as_slice(), 0), &echo(1)));
    assert!(rt; same_entry(entry_of(rows.as_slice(), 4093), &echo(4094)));
    assert!(rt; same_entry(entry_of(rows.as_slice(), 4094), &[]));
    assert!(rt; same_entry(entry_of(rows.as_slice(), 4095), &[]));
    assert_eq!(rt; rows.len(), 798722);
    Ok(())
}

// A row of so many numbers whose first two say how many entries are kept and how many there is room for.
fn row_of(heap: Global, length: usize, count: u64, room: u64) -> Result<Vec<u64>, AllocError> {
    let mut rows = vec![in heap; 0; length]?;
    put_all(rows.as_mut_slice(), 0, &[count, room]);
    Ok(rows)
}

// The highest room for which 64 bits count the numbers of the entries.
const HIGHEST: u64 = 94598687557484880;

// Length, count kept and room, and what is told of the store, of an honest entry that is imported, and of the removal of entry 0.
const STORES: [(
    usize,
    u64,
    u64,
    Option<(u64, u64)>,
    Option<(u64, u64)>,
    Option<(u64, u64)>,
); 14] = [
    (392, 1, 2, None, None, None),
    // One number too few; a store that is full is told as full first.
    (391, 0, 2, Some((12, 391)), Some((12, 391)), Some((8, 0))),
    (391, 1, 2, Some((12, 391)), Some((12, 391)), Some((12, 391))),
    (391, 2, 2, Some((12, 391)), Some((11, 2)), Some((12, 391))),
    (391, 3, 2, Some((12, 391)), Some((11, 2)), Some((12, 391))),
    // No room, for which two numbers are enough.
    (2, 0, 0, None, Some((11, 0)), Some((8, 0))),
    // Rows in which the room does not stand.
    (0, 0, 0, Some((12, 0)), Some((11, 0)), Some((8, 0))),
    (1, 1, 0, Some((12, 1)), Some((11, 0)), Some((12, 1))),
    // Rooms for which 64 bits do not count the numbers that are needed, or just do.
    (
        392,
        1,
        u64::MAX,
        Some((12, 392)),
        Some((12, 392)),
        Some((12, 392)),
    ),
    (
        392,
        1,
        HIGHEST,
        Some((12, 392)),
        Some((12, 392)),
        Some((12, 392)),
    ),
    (
        392,
        1,
        HIGHEST + 1,
        Some((12, 392)),
        Some((12, 392)),
        Some((12, 392)),
    ),
    // More entries than there is room for.
    (392, 3, 2, Some((13, 3)), Some((11, 2)), Some((13, 3))),
    (
        392,
        u64::MAX,
        2,
        Some((13, u64::MAX)),
        Some((11, 2)),
        Some((13, u64::MAX)),
    ),
    (392, 1, 0, Some((13, 1)), Some((11, 0)), Some((13, 1))),
];

#[test]
fn rows_that_do_not_fit(rt: HostRuntime) -> Result<(), Fail> {
    for (index, (length, count, room, store, imported, removed)) in STORES.iter().enumerate() {
        let mut rows = row_of(rt.alloc(), *length, *count, *room)?;
        let before = row_of(rt.alloc(), *length, *count, *room)?;
        assert_eq!(rt; told(check_store(rows.as_slice())), *store, "store {index}");
        let import = told(import_entry(rows.as_mut_slice(), &echo(1)));
        assert_eq!(rt; import, *imported, "import into store {index}");
        if import.is_none() {
            rows = row_of(rt.alloc(), *length, *count, *room)?;
        }
        assert!(rt;
            rows.as_slice() == before.as_slice(),
            "store {index} after the import"
        );
        let removal = told(remove_entry(rows.as_mut_slice(), 0));
        assert_eq!(rt; removal, *removed, "removal from store {index}");
        if removal.is_some() {
            assert!(rt;
                rows.as_slice() == before.as_slice(),
                "store {index} after the removal"
            );
        }
    }
    Ok(())
}
