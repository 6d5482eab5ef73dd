// From the bytes of a day to the text that is printed of it.
ghost use Rattle.days.specs.Outcomes.{told_as};
ghost use Rattle.house.specs.Deeds.{deed_of};
ghost use Rattle.report.specs.Text.{DayText, PerformedText, stop_text, tolds_text};
ghost use Rattle.std.specs.Prelude.{◌≡◌, map, IfOk, None, string_bytes, MatchResult, ◌≢◌};

use super::lines::{outcome_line, refusal_line};
use dayfile::{Day, DayError, read_day};
use days::{Outcome, run_day};
use house::Command;
use script::Refusal;
use std::alloc::{AllocError, Global};

pub fn day_text(heap: Global, bytes: &[u8]) -> Result<String, AllocError>
    ensures { IfOk result (λ text. DayText bytes.now (string_bytes text)) }
{
    match read_day(heap, bytes) {
        Ok(day) => performed_text(heap, &day),
        Err(DayError::HouseRefused) => String::from_str(heap, "house refused\n"),
        Err(DayError::OutOfMemory(error)) => Err(error),
    }
}

// Performs the commands of the day, and then tells of each of them and of the one that could not be read.
fn performed_text(heap: Global, day: &Day) -> Result<String, AllocError>
    ensures { IfOk result (λ text. PerformedText day.now (string_bytes text)) }
{
    let commands = day.commands.as_slice();
    let outcomes = run_day(heap, day.size, commands)?;
    let mut text = outcomes_text(heap, commands, outcomes.as_slice())?;
    let last = stop_line(heap, commands.len(), day.stopped)?;
    text.push_str(last.as_str())?;
    Ok(text)
}

// A command that could not be read is told like one that is refused; where every one was read, no memory is wanted.
fn stop_line(heap: Global, deed: usize, stopped: Option<Refusal>) -> Result<String, AllocError>
    ensures { MatchResult result (λ line. string_bytes line ≡ stop_text deed stopped) (λ _. stopped ≢ None) }
{
    match stopped {
        Some(refusal) => refusal_line(heap, deed, refusal),
        None => Ok(String::new(heap)),
    }
}

// The lines of the commands, one after the other.
fn outcomes_text(
    heap: Global,
    commands: &[Command],
    outcomes: &[Outcome],
) -> Result<String, AllocError>
    ensures { IfOk result (λ text. string_bytes text ≡ tolds_text 0 (map deed_of commands.now) (map told_as outcomes.now)) }
{
    let mut text = String::new(heap);
    for (deed, (command, outcome)) in commands.iter().zip(outcomes).enumerate() {
        let line = outcome_line(heap, deed, command, outcome)?;
        text.push_str(line.as_str())?;
    }
    Ok(text)
}
