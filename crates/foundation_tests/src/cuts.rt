// A file that is cut anywhere is read up to its last whole command.
use dayfile::{DayError, read_day};
use std::test::Fail;
use test_rows::numbers_of;

// A house and a command of each kind.
const FILE: [&[u8]; 13] = [
    // 2 desks of 3 items, room for 4 entries.
    &[2, 3, 4],
    // Writes 258 into item 1 of desk 0.
    &[0, 0, 1],
    &[2, 1, 0, 0, 0, 0, 0, 0],
    // Gives item 2 of desk 1 a script of two lines: asks for 1, and gives that.
    &[1, 1, 2, 2],
    &[0, 3, 0, 0, 0, 1, 0, 0, 0, 0, 0, 0, 0],
    &[5, 3, 0, 0, 0, 0, 0, 0, 0, 0, 0, 0, 0],
    // Builds item 2 of desk 1.
    &[2, 1, 2],
    // Throws out entry 0.
    &[3, 0],
    // Carries in an entry of one line and one asking, for item 7, answered with 9; the result is 0.
    &[4, 1],
    &[0, 0, 0, 0, 0, 7, 0, 0, 0, 0, 0, 0, 0],
    &[1],
    &[7, 0, 0, 0, 9, 0, 0, 0, 0, 0, 0, 0],
    &[0, 0, 0, 0, 0, 0, 0, 0],
];

// Where the commands begin, and where the file ends.
const STARTS: [usize; 6] = [3, 14, 44, 47, 49, 85];

// How many commands are whole in so many bytes, and where the last of them ends.
fn whole(length: usize) -> (usize, usize) {
    let starts = STARTS.iter().enumerate();
    let last = starts.filter(|(_, start)| **start <= length).last();
    last.map_or((0, 3), |(count, start)| (count, *start))
}

#[test]
fn cut_in_the_head(rt: HostRuntime) -> Result<(), Fail> {
    let file = FILE.concat(rt.alloc())?;
    let bytes = file.as_slice();
    assert!(rt; bytes.len() == 85);
    for length in 0..3 {
        let day = read_day(rt.alloc(), &bytes[..length]);
        assert!(rt;
            matches!(day, Err(DayError::HouseRefused)),
            "{length} bytes"
        );
    }
    Ok(())
}

#[test]
fn cut_behind_the_head(rt: HostRuntime) -> Result<(), Fail> {
    let file = FILE.concat(rt.alloc())?;
    let bytes = file.as_slice();
    assert!(rt; bytes.len() == 85);
    for length in 3..86 {
        let (count, end) = whole(length);
        let day = read_day(rt.alloc(), &bytes[..length])?;
        assert_eq!(rt; day.commands.len(), count, "{length} bytes");
        let stopped = day.stopped.map(|refusal| numbers_of(refusal));
        let expected = if length == end {
            None
        } else {
            Some((1, end as u64))
        };
        assert_eq!(rt; stopped, expected, "{length} bytes");
    }
    Ok(())
}
