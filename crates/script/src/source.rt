// A line as it comes from outside, which may be no line at all, and the checks that let it in.
ghost use Rattle.script.specs.Allowed.{counted_as, first_source, line_fault, registers_known, skip_of, source_line};
ghost use Rattle.script.specs.Layout.{max_skip};
ghost use Rattle.std.specs.Prelude.{◌≡◌, drop, IfOk, if◌then◌else◌, Some, None, nat_lt};
ghost use Rattle.std.specs.Result.{result_err};

use super::layout::{LAST_KIND, MAX_SKIP, REGISTERS};
use super::line::{Line, numbers_at};
use super::refusal::Refusal;

// An enum and no Result: a line of an unknown kind is kept as it is until it is checked, and is no failure yet.
#[derive(Clone, Copy, PartialEq, Debug)]
pub enum SourceLine {
    Known(Line),
    // A kind that no line has. Its register is kept, since such a line counts as kind 5 where it is run.
    Unknown { kind: u64, register: u64 },
}

impl SourceLine {
    // Numbers that the kind does not use are dropped.
    pub fn from_numbers(kind: u64, first: u64, second: u64, third: u64) -> SourceLine
        ensures { result ≡ source_line kind first second third }
    {
        if kind > LAST_KIND {
            return SourceLine::Unknown {
                kind,
                register: first,
            };
        }
        SourceLine::Known(Line::from_numbers(kind, first, second, third))
    }

    // The line whose first number stands at `at` of a row from elsewhere.
    #[tactic(auto, using(crate::proofs::Lines::source_drop))]
    pub fn read(row: &[u64], at: usize) -> SourceLine
        ensures { result ≡ first_source (drop at row.now) }
    {
        let [kind, first, second, third] = numbers_at(row, at);
        SourceLine::from_numbers(kind, first, second, third)
    }

    // The line itself if it is allowed, or the first reason why it is not; `line` is its number in the script.
    pub fn check(self, line: u64) -> Result<Line, Refusal>
        ensures fault { result_err result ≡ line_fault line self }
        ensures value { IfOk result (λ allowed. self ≡ SourceLine.Known allowed) }
    {
        let SourceLine::Known(known) = self else {
            return Err(Refusal::UnknownKind { line });
        };
        let Some(named) = with_known_registers(known) else {
            return Err(Refusal::NoSuchRegister { line });
        };
        let Some(allowed) = with_short_skip(named) else {
            return Err(Refusal::SkipsTooMany { line });
        };
        Ok(allowed)
    }
}

// The line that it counts as where it is run.
impl From<SourceLine> for Line {
    ghost from_gives = { λ source line. line ≡ counted_as source };

    fn from(source: SourceLine) -> Line {
        match source {
            SourceLine::Known(line) => line,
            SourceLine::Unknown { register, .. } => Line::Give { register },
        }
    }
}

fn is_register(register: u64) -> bool
    ensures { result ≡ nat_lt register 8 }
{
    register < REGISTERS as u64
}

// The line, if every register that it names is there.
fn with_known_registers(line: Line) -> Option<Line>
    ensures { result ≡ (if registers_known line then Some line else None) }
{
    let known = match line {
        Line::Ask { register, .. } => is_register(register),
        Line::AskAt { register, at } => is_register(register) && is_register(at),
        Line::Number { register, .. } => is_register(register),
        Line::Sum {
            register,
            left,
            right,
        } => is_register(register) && is_register(left) && is_register(right),
        Line::Unless { left, right, .. } => is_register(left) && is_register(right),
        Line::Give { register } => is_register(register),
    };
    if known { Some(line) } else { None }
}

// The line, if it does not leave out too many.
fn with_short_skip(line: Line) -> Option<Line>
    ensures { result ≡ (if nat_lt max_skip (skip_of line) then None else Some line) }
{
    match line {
        Line::Unless { skip, .. } if skip > MAX_SKIP => None,
        _ => Some(line),
    }
}
