// What scripts ask for and give. Lines stand as in a row: a kind and three numbers.
use machine::Registers;
use runner::{Step, run};
use script::SCRIPT_SIZE;
use test_rows::put_script;

const MOST: u64 = u64::MAX;

// Where a run stops: a step without the registers that it waits with.
#[derive(Clone, Copy, PartialEq, Debug)]
enum Stop {
    Asks(u64),
    Gives(u64),
}

impl From<Step> for Stop {
    fn from(step: Step) -> Stop {
        match step {
            Step::Asks { item, .. } => Stop::Asks(item),
            Step::Gives(value) => Stop::Gives(value),
        }
    }
}

// Where a script stops first.
fn first_stop(script: &[u64]) -> Stop {
    run(script, Registers::new()).into()
}

// Where a script stops next, after an answer to what it asks for first.
fn next_stop(script: &[u64], answer: u64) -> Stop {
    match run(script, Registers::new()) {
        Step::Asks { waiting, .. } => run(script, waiting.answer(answer)).into(),
        Step::Gives(value) => Stop::Gives(value),
    }
}

// The row of a script: the count of its lines and the lines, of which there are at most 32.
fn row_of(lines: &[[u64; 4]]) -> [u64; SCRIPT_SIZE] {
    let mut row = [0; SCRIPT_SIZE];
    put_script(&mut row, 0, lines);
    row
}

// Scripts that ask for nothing, and what they give.
const GIVING: [(&[[u64; 4]], u64); 23] = [
    // No lines.
    (&[], 0),
    // Runs out of lines.
    (&[[2, 0, 7, 0]], 0),
    (&[[5, 0, 0, 0]], 0),
    (&[[2, 3, 7, 0], [5, 3, 0, 0]], 7),
    (&[[2, 7, MOST, 0], [5, 7, 0, 0]], MOST),
    (&[[2, 3, 7, 0], [5, 2, 0, 0]], 0),
    // Ends at the first line that gives.
    (&[[2, 0, 1, 0], [5, 0, 0, 0], [2, 0, 2, 0], [5, 0, 0, 0]], 1),
    // Sums, two of which wrap.
    (&[[2, 0, 5, 0], [2, 1, 3, 0], [3, 2, 0, 1], [5, 2, 0, 0]], 8),
    (&[[2, 0, 5, 0], [3, 0, 0, 0], [5, 0, 0, 0]], 10),
    (
        &[[2, 7, MOST, 0], [2, 6, 1, 0], [3, 0, 7, 6], [5, 0, 0, 0]],
        0,
    ),
    (
        &[[2, 7, MOST, 0], [3, 7, 7, 7], [5, 7, 0, 0]],
        18446744073709551614,
    ),
    // Equal registers leave out so many lines; others leave out none.
    (
        &[
            [2, 0, 9, 0],
            [4, 1, 2, 1],
            [5, 0, 0, 0],
            [2, 0, 4, 0],
            [5, 0, 0, 0],
        ],
        4,
    ),
    (
        &[
            [2, 0, 9, 0],
            [4, 0, 1, 1],
            [5, 0, 0, 0],
            [2, 0, 4, 0],
            [5, 0, 0, 0],
        ],
        9,
    ),
    (
        &[
            [2, 0, 9, 0],
            [4, 1, 2, 0],
            [5, 0, 0, 0],
            [2, 0, 4, 0],
            [5, 0, 0, 0],
        ],
        9,
    ),
    // Lines left out up to the end and past it.
    (&[[2, 0, 9, 0], [4, 1, 2, 1], [5, 0, 0, 0]], 0),
    (&[[2, 0, 9, 0], [4, 1, 2, 2], [5, 0, 0, 0]], 0),
    (&[[2, 0, 9, 0], [4, 1, 2, 32], [5, 0, 0, 0]], 0),
    // A register above 7 takes no value and holds 0.
    (&[[2, 8, 7, 0], [5, 8, 0, 0]], 0),
    (&[[2, MOST, 7, 0], [5, 7, 0, 0]], 0),
    (&[[2, 0, 7, 0], [3, 1, 0, 9], [5, 1, 0, 0]], 7),
    (&[[2, 0, 7, 0], [4, 8, 1, 1], [5, 1, 0, 0], [5, 0, 0, 0]], 7),
    // A kind above 5 counts as 5.
    (&[[2, 1, 7, 0], [6, 1, 0, 0]], 7),
    (&[[2, 1, 7, 0], [MOST, 1, 0, 0]], 7),
];

#[test]
fn scripts_that_ask_for_nothing(rt: HostRuntime) {
    for (index, (lines, result)) in GIVING.iter().enumerate() {
        assert_eq!(rt;
            first_stop(&row_of(*lines)),
            Stop::Gives(*result),
            "script {index}"
        );
    }
}

// Scripts that ask, the item that each asks for first, an answer, and what comes of it.
const ASKING: [(&[[u64; 4]], u64, u64, Stop); 13] = [
    (&[[0, 3, 900, 0], [5, 3, 0, 0]], 900, 41, Stop::Gives(41)),
    (&[[0, 3, 900, 0], [5, 2, 0, 0]], 900, 41, Stop::Gives(0)),
    (
        &[[0, 0, MOST, 0], [5, 0, 0, 0]],
        MOST,
        MOST,
        Stop::Gives(MOST),
    ),
    // Runs out of lines after the answer.
    (&[[0, 0, 7, 0]], 7, 41, Stop::Gives(0)),
    // By the number in a register.
    (
        &[[2, 1, 6, 0], [1, 0, 1, 0], [5, 0, 0, 0]],
        6,
        41,
        Stop::Gives(41),
    ),
    (&[[1, 0, 5, 0], [5, 0, 0, 0]], 0, 41, Stop::Gives(41)),
    (
        &[[0, 0, 1, 0], [1, 0, 0, 0], [5, 0, 0, 0]],
        1,
        3,
        Stop::Asks(3),
    ),
    // A register above 7.
    (
        &[[2, 8, 6, 0], [1, 0, 8, 0], [5, 0, 0, 0]],
        0,
        41,
        Stop::Gives(41),
    ),
    (&[[0, 8, 7, 0], [5, 8, 0, 0]], 7, 41, Stop::Gives(0)),
    // What was there before the asking is still there after it.
    (
        &[[2, 5, 6, 0], [0, 0, 7, 0], [3, 0, 0, 5], [5, 0, 0, 0]],
        7,
        41,
        Stop::Gives(47),
    ),
    // The sum of two items.
    (
        &[[0, 0, 0, 0], [0, 1, 1, 0], [3, 0, 0, 1], [5, 0, 0, 0]],
        0,
        5,
        Stop::Asks(1),
    ),
    // Whether there is a second asking depends on the first answer.
    (
        &[
            [0, 0, 2, 0],
            [2, 1, 8, 0],
            [4, 0, 1, 1],
            [0, 0, 4, 0],
            [5, 0, 0, 0],
        ],
        2,
        8,
        Stop::Gives(8),
    ),
    (
        &[
            [0, 0, 2, 0],
            [2, 1, 8, 0],
            [4, 0, 1, 1],
            [0, 0, 4, 0],
            [5, 0, 0, 0],
        ],
        2,
        7,
        Stop::Asks(4),
    ),
];

#[test]
fn scripts_that_ask(rt: HostRuntime) {
    for (index, (lines, item, answer, next)) in ASKING.iter().enumerate() {
        let script = row_of(*lines);
        assert_eq!(rt;
            first_stop(&script),
            Stop::Asks(*item),
            "first stop of script {index}"
        );
        assert_eq!(rt;
            next_stop(&script, *answer),
            *next,
            "next stop of script {index}"
        );
    }
}

// Lines that may be left out, and what a script of 32 lines then gives: its second line leaves them out, its last gives 7, the others end it with 0.
const LEAPS: [(u64, u64); 4] = [(28, 0), (29, 7), (30, 0), (32, 0)];

#[test]
fn leaps_in_a_script_of_32_lines(rt: HostRuntime) {
    for (leap, result) in LEAPS {
        let mut lines = [[5, 1, 0, 0]; 32];
        lines[0] = [2, 0, 7, 0];
        lines[1] = [4, 1, 1, leap];
        lines[31] = [5, 0, 0, 0];
        assert_eq!(rt;
            first_stop(&row_of(&lines)),
            Stop::Gives(result),
            "{leap} lines"
        );
    }
}

// Counts of lines in front of 32 lines of which the last gives 7; a count above 32 is read as 32.
const COUNTS: [(u64, u64); 4] = [(31, 0), (32, 7), (33, 7), (MOST, 7)];

#[test]
fn counts_of_lines(rt: HostRuntime) {
    for (count, result) in COUNTS {
        let mut lines = [[2, 0, 7, 0]; 32];
        lines[31] = [5, 0, 0, 0];
        let mut script = row_of(&lines);
        script[0] = count;
        assert_eq!(rt; first_stop(&script), Stop::Gives(result), "count {count}");
    }
}

// The line behind the 32nd is not run, whatever the count says: it would give 7.
#[test]
fn a_33rd_line_is_not_run(rt: HostRuntime) {
    // Lines by which register 2 becomes 2.
    let mut script = [2; 133];
    script[0] = 33;
    // The first line: register 0 becomes 7.
    script[2] = 0;
    script[3] = 7;
    // The 33rd: gives register 0.
    script[129] = 5;
    script[130] = 0;
    assert_eq!(rt; first_stop(&script), Stop::Gives(0));
}
