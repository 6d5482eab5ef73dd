// One day at a desk of eight items, with room for four entries.
use super::deeds::Deed;
use super::desk::DeskInUse;
use build::Answer;
use std::alloc::{AllocError, Global};
use std::test::Fail;

const DAY: [Deed; 12] = [
    Deed::Build(2, Answer::Value(8), &[2], 1),
    Deed::Build(5, Answer::Value(8), &[3, 5], 3),
    Deed::Build(5, Answer::Value(8), &[], 3),
    Deed::Write(0, 4),
    Deed::Write(1, 4),
    Deed::Build(5, Answer::Value(8), &[2, 4, 5], 4),
    Deed::Build(5, Answer::Value(8), &[4, 5], 4),
    Deed::Write(0, 1),
    Deed::Build(3, Answer::Ring, &[2], 4),
    Deed::Build(5, Answer::Ring, &[2], 4),
    Deed::Build(6, Answer::Value(0), &[6], 4),
    Deed::Build(7, Answer::Ring, &[], 4),
];

fn desk(heap: Global) -> Result<DeskInUse, AllocError> {
    let mut used = DeskInUse::new(heap, 8, 4, 77)?;
    used.desk.write(0, 5);
    used.desk.write(1, 3);
    used.desk.give(2, &[[0, 0, 0, 0], [0, 1, 1, 0], [3, 2, 0, 1], [5, 2, 0, 0]]);
    used.desk.give(
        3,
        &[
            [0, 0, 2, 0],
            [2, 1, 8, 0],
            [4, 0, 1, 1],
            [0, 0, 4, 0],
            [5, 0, 0, 0],
        ],
    );
    used.desk.give(4, &[[0, 0, 3, 0], [5, 0, 0, 0]]);
    used.desk
        .give(5, &[[0, 0, 1, 0], [1, 0, 0, 0], [5, 0, 0, 0]]);
    used.desk.give(6, &[[0, 0, 900, 0], [5, 0, 0, 0]]);
    used.desk.give(7, &[[0, 0, 7, 0], [5, 0, 0, 0]]);
    Ok(used)
}

#[test]
fn the_worked_day(rt: HostRuntime) -> Result<(), Fail> {
    let mut used = desk(rt.alloc())?;
    assert_eq!(rt; used.spend_day(&DAY), None);
    Ok(())
}
