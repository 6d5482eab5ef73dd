// Desks with items that are needed for themselves.
use super::desks::builds_so;
use clean::CleanAnswer;
use std::alloc::{AllocError, Global};
use std::test::Fail;
use test_rows::Desk;

// Item by item asks for the next one, and the last one for the first.
fn ring(heap: Global, count: usize) -> Result<Desk, AllocError> {
    let mut desk = Desk::new(heap, count as u64)?;
    for item in 1..count {
        desk.give(item - 1, &[[0, 0, item as u64, 0], [5, 0, 0, 0]]);
    }
    desk.give(count.saturating_sub(1), &[[0, 0, 0, 0], [5, 0, 0, 0]]);
    Ok(desk)
}

#[test]
fn rings(rt: HostRuntime) -> Result<(), Fail> {
    for count in [1, 2, 3, 256] {
        let desk = ring(rt.alloc(), count as usize)?;
        for item in [0, count / 2, count - 1] {
            assert!(rt; builds_so(&desk, item, CleanAnswer::Ring, &[]));
        }
        assert!(rt; builds_so(&desk, count, CleanAnswer::Value(0), &[]));
    }
    Ok(())
}

// Asks for itself unless item 1 is 1, and then gives what it was told last.
const ON_A_BRANCH: [[u64; 4]; 5] = [
    [0, 0, 1, 0],
    [2, 1, 1, 0],
    [4, 0, 1, 1],
    [0, 0, 0, 0],
    [5, 0, 0, 0],
];

fn branch(heap: Global, value: u64) -> Result<Desk, AllocError> {
    let mut desk = Desk::new(heap, 2)?;
    desk.give(0, &ON_A_BRANCH);
    desk.write(1, value);
    Ok(desk)
}

#[test]
fn ring_on_a_branch(rt: HostRuntime) -> Result<(), Fail> {
    let left_out = branch(rt.alloc(), 1)?;
    assert!(rt; builds_so(&left_out, 0, CleanAnswer::Value(1), &[0]));
    let taken = branch(rt.alloc(), 2)?;
    assert!(rt; builds_so(&taken, 0, CleanAnswer::Ring, &[]));
    Ok(())
}

// Item 2 asks for the item whose number item 0 holds; item 1 asks for item 2 twice.
fn at_register(heap: Global, number: u64) -> Result<Desk, AllocError> {
    let mut desk = Desk::new(heap, 3)?;
    desk.write(0, number);
    desk.give(1, &[[0, 0, 2, 0], [0, 1, 2, 0], [5, 1, 0, 0]]);
    desk.give(2, &[[0, 4, 0, 0], [1, 4, 4, 0], [5, 4, 0, 0]]);
    Ok(desk)
}

#[test]
fn asked_for_through_a_register(rt: HostRuntime) -> Result<(), Fail> {
    let itself = at_register(rt.alloc(), 2)?;
    assert!(rt; builds_so(&itself, 2, CleanAnswer::Ring, &[]));
    assert!(rt; builds_so(&itself, 1, CleanAnswer::Ring, &[]));
    let round = at_register(rt.alloc(), 1)?;
    assert!(rt; builds_so(&round, 2, CleanAnswer::Ring, &[]));
    let written = at_register(rt.alloc(), 0)?;
    assert!(rt; builds_so(&written, 1, CleanAnswer::Value(0), &[1, 2]));
    let missing = at_register(rt.alloc(), u64::MAX)?;
    assert!(rt; builds_so(&missing, 2, CleanAnswer::Value(0), &[2]));
    Ok(())
}

// What has a value before the ring is met is listed, and what comes after it is not looked at.
#[test]
fn ring_after_values(rt: HostRuntime) -> Result<(), Fail> {
    let mut desk = Desk::new(rt.alloc(), 5)?;
    desk.give(0, &[[0, 0, 3, 0], [0, 1, 2, 0], [0, 2, 4, 0], [5, 0, 0, 0]]);
    desk.write(1, 6);
    desk.give(2, &[[0, 0, 1, 0], [0, 1, 2, 0]]);
    desk.give(3, &[[0, 0, 1, 0], [5, 0, 0, 0]]);
    desk.give(4, &[[0, 0, 1, 0], [5, 0, 0, 0]]);
    assert!(rt; builds_so(&desk, 0, CleanAnswer::Ring, &[3]));
    assert!(rt; builds_so(&desk, 3, CleanAnswer::Value(6), &[3]));
    assert!(rt; builds_so(&desk, 4, CleanAnswer::Value(6), &[4]));
    Ok(())
}
