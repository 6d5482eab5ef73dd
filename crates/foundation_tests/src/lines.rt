// Which lines are let in, and what is told of the others.
use script::SourceLine;
use script_checks::check_script;
use test_rows::told;

const MOST: u64 = u64::MAX;

// A line that is let in.
const FINE: [u64; 4] = [5, 0, 0, 0];

// No impl of From: it would stand in the crate of scripts, for tests alone.
fn source([kind, first, second, third]: [u64; 4]) -> SourceLine {
    SourceLine::from_numbers(kind, first, second, third)
}

// Lines that are let in; what a kind does not use may be anything.
const LET_IN: [[u64; 4]; 9] = [
    [0, 7, MOST, 0],
    [0, 0, 0, MOST],
    [1, 7, 7, MOST],
    [2, 7, MOST, MOST],
    [3, 7, 7, 7],
    [4, 7, 7, 32],
    [4, 0, 0, 0],
    [5, 7, 0, 0],
    [5, 0, MOST, MOST],
];

#[test]
fn lines_that_are_let_in(rt: HostRuntime) {
    for (index, numbers) in LET_IN.iter().enumerate() {
        assert_eq!(rt;
            told(check_script(&[source(*numbers)])),
            None,
            "line {index}"
        );
    }
}

// Lines that are refused, with the number that is told: first the kind, then the registers, then how many lines are left out.
const REFUSED: [([u64; 4], u64); 21] = [
    ([6, 0, 0, 0], 5),
    ([255, 0, 0, 0], 5),
    ([MOST, 0, 0, 0], 5),
    ([6, 8, 8, 8], 5),
    ([6, 0, 0, 33], 5),
    ([0, 8, 0, 0], 6),
    ([0, MOST, 0, 0], 6),
    ([1, 8, 0, 0], 6),
    ([1, 0, 8, 0], 6),
    ([2, 8, 0, 0], 6),
    ([3, 8, 0, 0], 6),
    ([3, 0, 8, 0], 6),
    ([3, 0, 0, 8], 6),
    ([4, 8, 0, 0], 6),
    ([4, 0, 8, 0], 6),
    ([4, 8, 0, 33], 6),
    ([4, 0, 8, MOST], 6),
    ([5, 8, 0, 0], 6),
    ([5, MOST, 0, 0], 6),
    ([4, 0, 0, 33], 7),
    ([4, 7, 7, MOST], 7),
];

// The first and the last place that a line has.
#[test]
fn lines_that_are_refused(rt: HostRuntime) {
    for (index, (numbers, number)) in REFUSED.iter().enumerate() {
        let mut lines = [source(FINE); 32];
        lines[0] = source(*numbers);
        assert_eq!(rt;
            told(check_script(&lines)),
            Some((*number, 0)),
            "line {index} in front"
        );
        lines[0] = source(FINE);
        lines[31] = source(*numbers);
        assert_eq!(rt;
            told(check_script(&lines)),
            Some((*number, 31)),
            "line {index} at the end"
        );
    }
}

// Pairs of lines: all of the first line is told before any of the second.
const PAIRS: [([u64; 4], [u64; 4], Option<(u64, u64)>); 4] = [
    ([4, 0, 0, 33], [6, 0, 0, 0], Some((7, 0))),
    ([5, 8, 0, 0], [6, 0, 0, 0], Some((6, 0))),
    ([5, 7, 0, 0], [5, 8, 0, 0], Some((6, 1))),
    ([4, 0, 0, 32], [5, 7, 0, 0], None),
];

#[test]
fn line_by_line(rt: HostRuntime) {
    for (index, (first, second, expected)) in PAIRS.iter().enumerate() {
        assert_eq!(rt;
            told(check_script(&[source(*first), source(*second)])),
            *expected,
            "pair {index}"
        );
    }
}

#[test]
fn up_to_32_lines(rt: HostRuntime) {
    assert_eq!(rt; told(check_script(&[])), None);
    assert_eq!(rt; told(check_script(&[source(FINE); 32])), None);
    assert_eq!(rt; told(check_script(&[source(FINE); 33])), Some((4, 32)));
    assert_eq!(rt; told(check_script(&[source(FINE); 255])), Some((4, 32)));
}

// Too many lines are told before any line.
#[test]
fn too_many_lines_come_first(rt: HostRuntime) {
    assert_eq!(rt;
        told(check_script(&[source([6, 8, 0, 0]); 32])),
        Some((5, 0))
    );
    assert_eq!(rt;
        told(check_script(&[source([6, 8, 0, 0]); 33])),
        Some((4, 32))
    );
}
