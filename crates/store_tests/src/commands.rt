// Commands that change the store, in a house with room for two entries.
use super::examples::{echo, same_entry};
use entry::Asking;
use house::{Command, HouseSize, Told};
use script::{Line, SourceLine};
use std::alloc::{AllocError, Global};
use std::test::Fail;
use store::{empty_store, entry_count, entry_of};
use test_rows::numbers_of;

const SIZE: HouseSize = HouseSize {
    desks: 1,
    items: 1,
    room: 2,
};

const ASK: SourceLine = SourceLine::Known(Line::Ask {
    register: 0,
    item: 3,
});

const GIVE: SourceLine = SourceLine::Known(Line::Give { register: 0 });

const UNKNOWN: SourceLine = SourceLine::Unknown {
    kind: 6,
    register: 8,
};

// Imports an entry of these lines, which asked for item 3 so often and was told this answer each time.
fn import(
    heap: Global,
    lines: &[SourceLine],
    count: usize,
    answer: u64,
    given: u64,
) -> Result<Command, AllocError> {
    Ok(Command::Import {
        lines: Vec::from_slice(heap, lines)?,
        askings: vec![in heap; Asking { item: 3, answer }; count]?,
        result: given,
    })
}

// An import that is honest.
fn echoing(heap: Global, answer: u64) -> Result<Command, AllocError> {
    import(heap, &[ASK, GIVE], 1, answer, answer)
}

fn performed(command: &Command, rows: &mut [u64]) -> Option<(u64, u64)> {
    let mut desks = [0; 131];
    let mut ran = [0; 2];
    match command.perform(SIZE, &mut desks, rows, &mut ran) {
        Told::Refused(refusal) => Some(numbers_of(refusal)),
        _ => None,
    }
}

fn removed(entry: u64, rows: &mut [u64]) -> Option<(u64, u64)> {
    performed(&Command::Remove { entry }, rows)
}

#[test]
fn refused_imports(rt: HostRuntime) -> Result<(), Fail> {
    let mut rows = empty_store(rt.alloc(), 2)?;
    let unchanged = empty_store(rt.alloc(), 2)?;
    let long = import(rt.alloc(), &[UNKNOWN; 33], 33, 9, 8)?;
    assert_eq!(rt; performed(&long, rows.as_mut_slice()), Some((4, 32)));
    let unknown = import(rt.alloc(), &[ASK, UNKNOWN], 33, 9, 8)?;
    assert_eq!(rt; performed(&unknown, rows.as_mut_slice()), Some((5, 1)));
    let many = import(rt.alloc(), &[ASK, GIVE], 33, 9, 8)?;
    assert_eq!(rt; performed(&many, rows.as_mut_slice()), Some((9, 32)));
    let off = import(rt.alloc(), &[ASK, GIVE], 1, 9, 8)?;
    assert_eq!(rt; performed(&off, rows.as_mut_slice()), Some((10, 1)));
    let early = import(rt.alloc(), &[ASK, GIVE], 2, 9, 9)?;
    assert_eq!(rt; performed(&early, rows.as_mut_slice()), Some((10, 1)));
    let more = import(rt.alloc(), &[ASK, GIVE], 0, 9, 9)?;
    assert_eq!(rt; performed(&more, rows.as_mut_slice()), Some((10, 0)));
    assert!(rt; rows.as_slice() == unchanged.as_slice());
    Ok(())
}

#[test]
fn imports_and_removals(rt: HostRuntime) -> Result<(), Fail> {
    let mut rows = empty_store(rt.alloc(), 2)?;
    assert_eq!(rt; removed(0, rows.as_mut_slice()), Some((8, 0)));
    let nine = echoing(rt.alloc(), 9)?;
    assert_eq!(rt; performed(&nine, rows.as_mut_slice()), None);
    assert_eq!(rt; removed(1, rows.as_mut_slice()), Some((8, 1)));
    let seven = echoing(rt.alloc(), 7)?;
    assert_eq!(rt; performed(&seven, rows.as_mut_slice()), None);
    assert_eq!(rt; performed(&nine, rows.as_mut_slice()), Some((11, 2)));
    assert_eq!(rt; removed(2, rows.as_mut_slice()), Some((8, 2)));
    assert_eq!(rt; entry_count(rows.as_slice()), 2);
    assert!(rt; same_entry(entry_of(rows.as_slice(), 0), &echo(9)));
    assert!(rt; same_entry(entry_of(rows.as_slice(), 1), &echo(7)));
    assert_eq!(rt; removed(0, rows.as_mut_slice()), None);
    assert_eq!(rt; entry_count(rows.as_slice()), 1);
    assert!(rt; same_entry(entry_of(rows.as_slice(), 0), &echo(7)));
    assert!(rt; same_entry(entry_of(rows.as_slice(), 1), &[]));
    Ok(())
}
