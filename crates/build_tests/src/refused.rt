// Builds that are refused, and a store whose entry is not honest.
use super::answer::answer_numbers;
use super::desk::DeskInUse;
use build::{Answer, build_item};
use rows::{number_after, put_all};
use script::Refusal;
use std::alloc::{AllocError, Global};
use std::test::Fail;

// A desk of two items, of which the second asks for the first, with room for two entries.
fn desk(heap: Global) -> Result<DeskInUse, AllocError> {
    let mut used = DeskInUse::new(heap, 2, 2, 5)?;
    used.desk.give(1, &[[0, 0, 0, 0], [5, 0, 0, 0]]);
    Ok(used)
}

// The item, the count and the room that the store names, the lengths of store and list, and the refusal.
const REFUSED: [(u64, u64, u64, usize, usize, Refusal); 6] = [
    (2, 3, 2, 391, 2, Refusal::NoSuchItem { item: 2 }),
    (
        u64::MAX,
        0,
        2,
        392,
        3,
        Refusal::NoSuchItem { item: u64::MAX },
    ),
    (1, 3, 2, 391, 2, Refusal::StoreTooShort { length: 391 }),
    (
        1,
        0,
        u64::MAX,
        392,
        3,
        Refusal::StoreTooShort { length: 392 },
    ),
    (1, 3, 2, 392, 2, Refusal::StoreOverfull { count: 3 }),
    (1, 2, 2, 392, 2, Refusal::ListTooShort { length: 2 }),
];

#[test]
fn refusals_in_order(rt: HostRuntime) -> Result<(), Fail> {
    let used = desk(rt.alloc())?;
    for (item, count, room, long, listed, refusal) in REFUSED {
        let mut rows = [5; 392];
        rows[0] = count;
        rows[1] = room;
        let mut ran = [5; 3];
        if long <= 392 && listed <= 3 {
            assert_eq!(rt;
                answer_numbers(build_item(
                    used.desk.row.as_slice(),
                    &mut rows[..long],
                    &mut ran[..listed],
                    item
                )),
                answer_numbers(Answer::Refused(refusal))
            );
        }
        assert_eq!(rt; rows[0], count);
        assert_eq!(rt; rows[2], 5);
        assert_eq!(rt; ran[0], 5);
    }
    Ok(())
}

// An entry of the second item's script that asks for nothing is believed by a build, which ends and leaves it as it was.
#[test]
fn a_dishonest_entry(rt: HostRuntime) -> Result<(), Fail> {
    let mut used = desk(rt.alloc())?;
    let rows = used.rows.as_mut_slice();
    put_all(rows, 0, &[1, 2, 2]);
    put_all(rows, 7, &[5]);
    put_all(rows, 196, &[99]);
    put_all(rows, 391, &[4]);
    assert!(rt; used.builds_so(1, Answer::Value(99), &[], 1));
    assert_eq!(rt; number_after(used.rows.as_slice(), 196, 0), 99);
    assert_eq!(rt; number_after(used.rows.as_slice(), 391, 0), 4);
    Ok(())
}
