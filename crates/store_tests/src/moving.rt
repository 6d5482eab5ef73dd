// What each place of a store holds while it is filled and emptied.
use super::examples::{echo, same_entry};
use rows::number_after;
use std::alloc::{AllocError, Global};
use std::process::Abort;
use std::test::Fail;
use store::{check_store, empty_store, entry_count, entry_of, import_entry, remove_entry};
use test_rows::told;

// The store holds so many entries, and these are its places: an answer for each entry, and 0 for a place that is free.
fn check_places(rt: &impl Abort, rows: &[u64], room: u64, count: u64, answers: &[u64]) {
    assert_eq!(rt; entry_count(rows), count);
    assert_eq!(rt; number_after(rows, 1, 0), room);
    assert_eq!(rt; told(check_store(rows)), None);
    for (index, answer) in answers.iter().enumerate() {
        let holds = if *answer == 0 {
            same_entry(entry_of(rows, index), &[])
        } else {
            same_entry(entry_of(rows, index), &echo(*answer))
        };
        assert!(rt; holds, "place {index}");
    }
}

// A store with room for four entries, which holds those of 1 to 4.
fn full_store(heap: Global) -> Result<Vec<u64>, AllocError> {
    let mut rows = empty_store(heap, 4)?;
    for answer in 1..5 {
        let _ = import_entry(rows.as_mut_slice(), &echo(answer));
    }
    Ok(rows)
}

#[test]
fn filling(rt: HostRuntime) -> Result<(), Fail> {
    let mut rows = empty_store(rt.alloc(), 4)?;
    assert_eq!(rt; rows.len(), 782);
    check_places(&rt, rows.as_slice(), 4, 0, &[0, 0, 0, 0]);
    assert_eq!(rt; told(import_entry(rows.as_mut_slice(), &echo(1))), None);
    check_places(&rt, rows.as_slice(), 4, 1, &[1, 0, 0, 0]);
    assert_eq!(rt; told(import_entry(rows.as_mut_slice(), &echo(2))), None);
    check_places(&rt, rows.as_slice(), 4, 2, &[1, 2, 0, 0]);
    assert_eq!(rt; told(import_entry(rows.as_mut_slice(), &echo(3))), None);
    check_places(&rt, rows.as_slice(), 4, 3, &[1, 2, 3, 0]);
    assert_eq!(rt; told(import_entry(rows.as_mut_slice(), &echo(4))), None);
    check_places(&rt, rows.as_slice(), 4, 4, &[1, 2, 3, 4]);
    assert_eq!(rt;
        told(import_entry(rows.as_mut_slice(), &echo(5))),
        Some((11, 4))
    );
    check_places(&rt, rows.as_slice(), 4, 4, &[1, 2, 3, 4]);
    Ok(())
}

// Removes entries one after the other from a full store. Of each removal stand here: which entry goes, how many are left, and what the places hold then.
fn check_emptying(
    rt: &impl Abort,
    heap: Global,
    removals: &[(u64, u64, &[u64])],
) -> Result<(), Fail> {
    let mut rows = full_store(heap)?;
    check_places(rt, rows.as_slice(), 4, 4, &[1, 2, 3, 4]);
    for (index, count, answers) in removals {
        assert_eq!(rt; told(remove_entry(rows.as_mut_slice(), *index)), None);
        check_places(rt, rows.as_slice(), 4, *count, *answers);
    }
    assert_eq!(rt; told(remove_entry(rows.as_mut_slice(), 0)), Some((8, 0)));
    Ok(())
}

const FROM_THE_FRONT: [(u64, u64, &[u64]); 4] = [
    (0, 3, &[2, 3, 4, 0]),
    (0, 2, &[3, 4, 0, 0]),
    (0, 1, &[4, 0, 0, 0]),
    (0, 0, &[0, 0, 0, 0]),
];

#[test]
fn emptying_from_the_front(rt: HostRuntime) -> Result<(), Fail> {
    check_emptying(&rt, rt.alloc(), &FROM_THE_FRONT)
}

const FROM_THE_BACK: [(u64, u64, &[u64]); 4] = [
    (3, 3, &[1, 2, 3, 0]),
    (2, 2, &[1, 2, 0, 0]),
    (1, 1, &[1, 0, 0, 0]),
    (0, 0, &[0, 0, 0, 0]),
];

#[test]
fn emptying_from_the_back(rt: HostRuntime) -> Result<(), Fail> {
    check_emptying(&rt, rt.alloc(), &FROM_THE_BACK)
}

const FROM_THE_MIDDLE: [(u64, u64, &[u64]); 4] = [
    (1, 3, &[1, 3, 4, 0]),
    (2, 2, &[1, 3, 0, 0]),
    (0, 1, &[3, 0, 0, 0]),
    (0, 0, &[0, 0, 0, 0]),
];

#[test]
fn emptying_from_the_middle(rt: HostRuntime) -> Result<(), Fail> {
    check_emptying(&rt, rt.alloc(), &FROM_THE_MIDDLE)
}

#[test]
fn a_freed_place_is_taken_again(rt: HostRuntime) -> Result<(), Fail> {
    let mut rows = full_store(rt.alloc())?;
    assert_eq!(rt; told(remove_entry(rows.as_mut_slice(), 1)), None);
    assert_eq!(rt; told(import_entry(rows.as_mut_slice(), &echo(5))), None);
    check_places(&rt, rows.as_slice(), 4, 4, &[1, 3, 4, 5]);
    Ok(())
}

// A row that is longer than its room needs: what lies behind stays.
#[test]
fn behind_the_room(rt: HostRuntime) -> Result<(), Fail> {
    let mut rows = empty_store(rt.alloc(), 1)?;
    rows.push(77)?;
    rows.push(78)?;
    assert_eq!(rt; told(import_entry(rows.as_mut_slice(), &echo(1))), None);
    check_places(&rt, rows.as_slice(), 1, 1, &[1]);
    assert_eq!(rt; number_after(rows.as_slice(), 197, 0), 77);
    assert_eq!(rt; told(remove_entry(rows.as_mut_slice(), 0)), None);
    check_places(&rt, rows.as_slice(), 1, 0, &[0]);
    assert_eq!(rt; rows.len(), 199);
    assert_eq!(rt; number_after(rows.as_slice(), 197, 0), 77);
    assert_eq!(rt; number_after(rows.as_slice(), 198, 0), 78);
    Ok(())
}

// An entry that is not there has nothing in it.
#[test]
fn places_past_the_end(rt: HostRuntime) -> Result<(), Fail> {
    let rows = full_store(rt.alloc())?;
    assert_eq!(rt; entry_of(rows.as_slice(), 3).len(), 195);
    assert_eq!(rt; entry_of(rows.as_slice(), 4).len(), 0);
    assert_eq!(rt; entry_of(rows.as_slice(), usize::MAX).len(), 0);
    assert_eq!(rt; entry_count(&[]), 0);
    Ok(())
}
