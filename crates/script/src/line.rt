// One line of a script, and the four numbers that stand for it in a row.
ghost use Rattle.std.specs.Prelude.{◌≡◌, ◌+◌, ◌≤◌, [], ◌∷◌, length};
ghost use Rattle.script.specs.Rows.{InForm, line_at, line_in, line_out, numbers_at};
ghost use Rattle.rows.specs.Rows.{written_at};

use super::layout::{LAST_KIND, LINE_SIZE};
use rows::{number_after, put_all, tail};

// The kinds are numbers of the row's format, and become a `Line` where they are read; an enum of them would be a second list of the same six.
const ASK: u64 = 0;

const ASK_AT: u64 = 1;

const NUMBER: u64 = 2;

const SUM: u64 = 3;

const UNLESS: u64 = 4;

const GIVE: u64 = LAST_KIND;

// Registers are numbered from 0; a row from elsewhere may name one that is not there.
#[derive(Clone, Copy, PartialEq, Debug)]
pub enum Line {
    // Asks for an item; the register becomes the answer.
    Ask {
        register: u64,
        item: u64,
    },
    // Asks for the item whose number stands in register `at`.
    AskAt {
        register: u64,
        at: u64,
    },
    Number {
        register: u64,
        number: u64,
    },
    // The sum wraps at 2^64.
    Sum {
        register: u64,
        left: u64,
        right: u64,
    },
    // If the two registers are equal, the next `skip` lines are left out.
    Unless {
        left: u64,
        right: u64,
        skip: u64,
    },
    // The result is what stands in the register, and the script ends.
    Give {
        register: u64,
    },
}

impl Line {
    // A kind above 5 counts as 5, so that every row can be read.
    pub fn from_numbers(kind: u64, first: u64, second: u64, third: u64) -> Line
        ensures value { result ≡ line_in kind first second third }
        ensures writes_back { InForm kind second third → line_out result ≡ kind ∷ first ∷ second ∷ third ∷ [] }
    {
        match kind {
            ASK => Line::Ask {
                register: first,
                item: second,
            },
            ASK_AT => Line::AskAt {
                register: first,
                at: second,
            },
            NUMBER => Line::Number {
                register: first,
                number: second,
            },
            SUM => Line::Sum {
                register: first,
                left: second,
                right: third,
            },
            UNLESS => Line::Unless {
                left: first,
                right: second,
                skip: third,
            },
            _ => Line::Give { register: first },
        }
    }

    // The line whose first number stands at `at`.
    pub fn read(row: &[u64], at: usize) -> Line
        ensures { result ≡ line_at row.now at }
    {
        let [kind, first, second, third] = numbers_at(row, at);
        Line::from_numbers(kind, first, second, third)
    }

    // Unused numbers are 0.
    pub fn numbers(self) -> [u64; LINE_SIZE]
        ensures value { result ≡ line_out self }
        ensures reads_back { line_at result 0 ≡ self }
    {
        match self {
            Line::Ask { register, item } => [ASK, register, item, 0],
            Line::AskAt { register, at } => [ASK_AT, register, at, 0],
            Line::Number { register, number } => [NUMBER, register, number, 0],
            Line::Sum {
                register,
                left,
                right,
            } => [SUM, register, left, right],
            Line::Unless { left, right, skip } => [UNLESS, left, right, skip],
            Line::Give { register } => [GIVE, register, 0, 0],
        }
    }

    // Writes the line's numbers from `at` on; what would lie past the end of the row is not written.
    #[tactic(auto, using(crate::proofs::Lines::line_written))]
    pub fn write(self, row: &mut [u64], at: usize)
        ensures after { row.new ≡ written_at row.old at (line_out self) }
        ensures reads_back { at + 4 ≤ length row.old → line_at row.new at ≡ self }
    {
        put_all(row, at, &self.numbers());
    }
}

// The numbers of the line whose first stands at `at`. A row may have only a part of them, and the rest then reads as 0.
pub fn numbers_at(row: &[u64], at: usize) -> [u64; LINE_SIZE]
    ensures { result ≡ numbers_at row.now at }
{
    match tail(row, at).first_chunk() {
        Some(whole) => *whole,
        None => [
            number_after(row, at, 0),
            number_after(row, at, 1),
            number_after(row, at, 2),
            number_after(row, at, 3),
        ],
    }
}
