// When the lent list is too short, and how many items a row has.
use clean::clean_build;
use std::alloc::{AllocError, Global};
use std::test::Fail;
use test_rows::{Desk, told};

// Item 1 is made, and gives item 0.
fn two_items(heap: Global) -> Result<Desk, AllocError> {
    let mut desk = Desk::new(heap, 2)?;
    desk.write(0, 5);
    desk.give(1, &[[0, 0, 0, 0], [5, 0, 0, 0]]);
    Ok(desk)
}

#[test]
fn short_lists_stay_as_they_are(rt: HostRuntime) -> Result<(), Fail> {
    let desk = two_items(rt.alloc())?;
    for length in 0..3 {
        let mut ran = vec![in rt.alloc(); 7; length]?;
        let built = clean_build(desk.row.as_slice(), ran.as_mut_slice(), 1);
        assert_eq!(rt; told(built), Some((14, length as u64)));
        assert!(rt; ran.iter().all(|number| *number == 7));
    }
    Ok(())
}

#[test]
fn long_enough_lists(rt: HostRuntime) -> Result<(), Fail> {
    let desk = two_items(rt.alloc())?;
    let mut ran = [7; 3];
    assert_eq!(rt; told(clean_build(desk.row.as_slice(), &mut ran, 1)), None);
    assert!(rt; ran == [1, 1, 7]);
    assert_eq!(rt; told(clean_build(desk.row.as_slice(), &mut ran, 0)), None);
    assert!(rt; ran == [0, 1, 7]);
    Ok(())
}

// The count in a row of items, the length of the list, and what is told. A count above 256 is read as 256.
const COUNTS: [(u64, usize, Option<(u64, u64)>); 6] = [
    (0, 0, Some((14, 0))),
    (0, 1, None),
    (256, 256, Some((14, 256))),
    (256, 257, None),
    (257, 256, Some((14, 256))),
    (18446744073709551615, 257, None),
];

#[test]
fn lists_for_many_items(rt: HostRuntime) -> Result<(), Fail> {
    for (count, length, expected) in COUNTS {
        let mut ran = vec![in rt.alloc(); 7; length]?;
        assert_eq!(rt;
            told(clean_build(&[count], ran.as_mut_slice(), 0)),
            expected,
            "{count} items"
        );
    }
    Ok(())
}
