// What the commands of a file say, byte by byte.
use dayfile::read_day;
use entry::Asking;
use house::Command;
use script::SourceLine;
use std::test::Fail;
use test_rows::numbers_of;

#[test]
fn a_write_is_read_low_byte_first(rt: HostRuntime) -> Result<(), Fail> {
    let day = read_day(rt.alloc(), &[2, 3, 4, 0, 1, 2, 1, 2, 3, 4, 5, 6, 7, 8])?;
    assert!(rt; day.commands.len() == 1);
    let Command::Write { desk, item, value } = &day.commands[0] else {
        return Err(Fail::new("no write"));
    };
    assert_eq!(rt; (*desk, *item), (1, 2));
    assert_eq!(rt; *value, 0x0807060504030201);
    Ok(())
}

#[test]
fn a_build_and_a_throwing_out(rt: HostRuntime) -> Result<(), Fail> {
    let day = read_day(rt.alloc(), &[2, 3, 4, 2, 1, 2, 3, 9])?;
    assert!(rt; day.commands.len() == 2);
    assert!(rt; matches!(&day.commands[0], Command::Build { desk: 1, item: 2 }));
    assert!(rt; matches!(&day.commands[1], Command::Remove { entry: 9 }));
    Ok(())
}

// Bytes of a line of each kind with no number 0, and the four numbers that it is kept as: what its kind does not use is dropped.
const LINES: [([u8; 13], [u64; 4]); 6] = [
    (
        [0, 1, 2, 3, 4, 5, 6, 7, 8, 9, 10, 11, 12],
        [0, 0x04030201, 0x08070605, 0],
    ),
    (
        [1, 1, 2, 3, 4, 5, 6, 7, 8, 9, 10, 11, 12],
        [1, 0x04030201, 0x08070605, 0],
    ),
    (
        [2, 1, 2, 3, 4, 5, 6, 7, 8, 9, 10, 11, 12],
        [2, 0x04030201, 0x08070605, 0],
    ),
    (
        [3, 1, 2, 3, 4, 5, 6, 7, 8, 9, 10, 11, 12],
        [3, 0x04030201, 0x08070605, 0x0c0b0a09],
    ),
    (
        [4, 1, 2, 3, 4, 5, 6, 7, 8, 9, 10, 11, 12],
        [4, 0x04030201, 0x08070605, 0x0c0b0a09],
    ),
    (
        [5, 1, 2, 3, 4, 5, 6, 7, 8, 9, 10, 11, 12],
        [5, 0x04030201, 0, 0],
    ),
];

#[test]
fn lines_of_a_script(rt: HostRuntime) -> Result<(), Fail> {
    for (index, (bytes, numbers)) in LINES.iter().enumerate() {
        let mut file = Vec::from_slice(rt.alloc(), &[1, 1, 0, 1, 0, 0, 1])?;
        file.extend_from_slice(bytes)?;
        let day = read_day(rt.alloc(), file.as_slice())?;
        assert!(rt; day.commands.len() == 1);
        let Command::Script { lines, .. } = &day.commands[0] else {
            return Err(Fail::new("no script"));
        };
        assert!(rt; lines.len() == 1);
        let SourceLine::Known(line) = lines[0] else {
            return Err(Fail::new("unknown kind"));
        };
        assert_eq!(rt; line.numbers(), *numbers, "line {index}");
    }
    Ok(())
}

// Carries in an entry of no lines and two askings.
const ENTRY: [&[u8]; 5] = [
    &[1, 1, 0],
    &[4, 0, 2],
    &[1, 2, 3, 4, 1, 0, 0, 0, 0, 0, 0, 128],
    &[5, 0, 0, 0, 6, 0, 0, 0, 0, 0, 0, 0],
    &[9, 0, 0, 0, 0, 0, 0, 1],
];

const ASKINGS: [Asking; 2] = [
    Asking {
        item: 0x04030201,
        answer: 0x8000000000000001,
    },
    Asking { item: 5, answer: 6 },
];

#[test]
fn an_entry(rt: HostRuntime) -> Result<(), Fail> {
    let file = ENTRY.concat(rt.alloc())?;
    let day = read_day(rt.alloc(), file.as_slice())?;
    assert!(rt; day.commands.len() == 1);
    let Command::Import {
        lines,
        askings,
        result,
    } = &day.commands[0]
    else {
        return Err(Fail::new("no entry"));
    };
    assert_eq!(rt; lines.len(), 0);
    assert_eq!(rt; askings.as_slice(), ASKINGS.as_slice());
    assert_eq!(rt; *result, 0x0100000000000009);
    Ok(())
}

// Kinds that no command has. What comes behind such a command is not read.
const KINDS: [u8; 3] = [5, 6, 255];

#[test]
fn an_unknown_kind_ends_the_reading(rt: HostRuntime) -> Result<(), Fail> {
    for kind in KINDS {
        let day = read_day(rt.alloc(), &[1, 1, 0, 2, 0, 0, kind, 0, 0, 2, 0, 0])?;
        assert_eq!(rt; day.commands.len(), 1);
        assert_eq!(rt;
            day.stopped.map(|refusal| numbers_of(refusal)),
            Some((1, 6)),
            "kind {kind}"
        );
    }
    Ok(())
}
