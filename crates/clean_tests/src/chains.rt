// Desks in which each item asks for the next one, once or many times.
use super::desks::builds_so;
use clean::CleanAnswer;
use std::alloc::{AllocError, Global};
use std::test::Fail;
use test_rows::{Desk, first_numbers};

// Item by item asks for the next one and gives that; the last one gives 9.
fn chain(heap: Global, count: usize) -> Result<Desk, AllocError> {
    let mut desk = Desk::new(heap, count as u64)?;
    for item in 1..count {
        desk.give(item - 1, &[[0, 3, item as u64, 0], [5, 3, 0, 0]]);
    }
    desk.give(count.saturating_sub(1), &[[2, 0, 9, 0], [5, 0, 0, 0]]);
    Ok(desk)
}

#[test]
fn chains(rt: HostRuntime) -> Result<(), Fail> {
    for count in [1, 2, 3, 256] {
        let desk = chain(rt.alloc(), count)?;
        let list = first_numbers(rt.alloc(), count as u64)?;
        assert!(rt; builds_so(&desk, 0, CleanAnswer::Value(9), list.as_slice()));
    }
    Ok(())
}

#[test]
fn from_the_middle_of_a_chain(rt: HostRuntime) -> Result<(), Fail> {
    let desk = chain(rt.alloc(), 256)?;
    assert!(rt; builds_so(&desk, 255, CleanAnswer::Value(9), &[255]));
    assert!(rt; builds_so(&desk, 253, CleanAnswer::Value(9), &[253, 254, 255]));
    Ok(())
}

// Each item asks for the next one 32 times, and gives 0 since it runs out of lines; the last one asks for an item that is not there.
#[test]
fn ladder_that_runs_out_of_lines(rt: HostRuntime) -> Result<(), Fail> {
    let mut desk = Desk::new(rt.alloc(), 256)?;
    for item in 0..256 {
        desk.give(item, &[[0, 0, item as u64 + 1, 0]; 32]);
    }
    let list = first_numbers(rt.alloc(), 256)?;
    assert!(rt; builds_so(&desk, 0, CleanAnswer::Value(0), list.as_slice()));
    Ok(())
}

// Each item asks for the next one 31 times and gives what it is told; the last one gives 16.
#[test]
fn ladder_that_gives(rt: HostRuntime) -> Result<(), Fail> {
    let mut desk = Desk::new(rt.alloc(), 256)?;
    for item in 0..255 {
        let mut lines = [[0, 0, item as u64 + 1, 0]; 32];
        lines[31] = [5, 0, 0, 0];
        desk.give(item, &lines);
    }
    desk.give(255, &[[2, 0, 16, 0], [5, 0, 0, 0]]);
    let list = first_numbers(rt.alloc(), 256)?;
    assert!(rt; builds_so(&desk, 0, CleanAnswer::Value(16), list.as_slice()));
    Ok(())
}
