// Desks of 256 items: a chain, a ring, and many paths to one item.
use super::desk::DeskInUse;
use build::Answer;
use items::MAX_ITEMS;
use std::alloc::{AllocError, Global};
use std::test::Fail;
use test_rows::first_numbers;

// Each item but the last asks twice for the next one and gives the sum; there is room for 256 entries.
fn chain(heap: Global) -> Result<DeskInUse, AllocError> {
    let mut used = DeskInUse::new(heap, MAX_ITEMS as u64, MAX_ITEMS as u64, 0)?;
    for item in 0..MAX_ITEMS - 1 {
        let next = item as u64 + 1;
        used.desk.give(
            item,
            &[[0, 0, next, 0], [0, 1, next, 0], [3, 2, 0, 1], [5, 2, 0, 0]],
        );
    }
    Ok(used)
}

// 2^255 paths lead from the first item to the last, and each item is finished once; sums wrap.
#[test]
fn many_paths(rt: HostRuntime) -> Result<(), Fail> {
    let mut used = chain(rt.alloc())?;
    used.desk.write(255, 1);
    let others = first_numbers(rt.alloc(), 253)?;
    assert!(rt; used.builds_so(253, Answer::Value(4), &[253, 254], 2));
    assert!(rt; used.builds_so(0, Answer::Value(0), others.as_slice(), 255));
    assert!(rt; used.builds_so(0, Answer::Value(0), &[], 255));
    Ok(())
}

// The last item asks for the first.
#[test]
fn a_ring_of_256(rt: HostRuntime) -> Result<(), Fail> {
    let mut used = chain(rt.alloc())?;
    used.desk.give(255, &[[0, 0, 0, 0], [5, 0, 0, 0]]);
    assert!(rt; used.builds_so(0, Answer::Ring, &[], 0));
    Ok(())
}
