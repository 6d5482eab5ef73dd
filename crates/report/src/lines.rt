// The lines that are printed of a command.
ghost use Rattle.days.specs.Outcomes.{told_as};
ghost use Rattle.house.specs.Deeds.{deed_of};
ghost use Rattle.report.specs.Text.{item_text, line_end, opening_text, prints, refusal_text, told_text};
ghost use Rattle.std.specs.List.{flat_map};
ghost use Rattle.std.specs.Prelude.{◌≡◌, true, ◌++◌, IfOk, string_bytes, MatchResult};
ghost use Rattle.theory.specs.Clean.{ring, value};

use days::Outcome;
use house::Command;
use script::Refusal;
use std::alloc::{AllocError, Global};

pub fn refusal_line(heap: Global, deed: usize, refusal: Refusal) -> Result<String, AllocError>
    ensures { IfOk result (λ line. string_bytes line ≡ refusal_text deed refusal) }
{
    format!(in heap; "deed {deed} {refusal}\n")
}

// The line goes on with the list, and ends.
fn with_list(heap: Global, mut line: String, ran: &[u64]) -> Result<String, AllocError>
    ensures { IfOk result (λ whole. string_bytes whole ≡ string_bytes line ++ (flat_map item_text ran.now ++ line_end)) }
{
    for item in ran {
        write!(line, " {item}")?;
    }
    line.push_str("\n")?;
    Ok(line)
}

// What is printed of the command with number `deed` in the file; where that is nothing, no memory is wanted.
pub fn outcome_line(
    heap: Global,
    deed: usize,
    command: &Command,
    outcome: &Outcome,
) -> Result<String, AllocError>
    ensures { MatchResult result (λ line. string_bytes line ≡ told_text deed (deed_of command.now) (told_as outcome.now)) (λ _. prints (deed_of command.now) (told_as outcome.now) ≡ true) }
{
    match (command, outcome) {
        (_, Outcome::Refused(refusal)) => refusal_line(heap, deed, *refusal),
        (Command::Build { desk, item }, Outcome::Value { value, ran }) => {
            let opening = format!(in heap; "build {desk} {item} value {value} ran")?;
            with_list(heap, opening, ran.as_slice())
        }
        (Command::Build { desk, item }, Outcome::Ring { ran }) => {
            let opening = format!(in heap; "build {desk} {item} ring ran")?;
            with_list(heap, opening, ran.as_slice())
        }
        // A command that is done prints nothing, and only builds tell an answer.
        _ => Ok(String::new(heap)),
    }
}
