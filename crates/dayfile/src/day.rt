// Reads a whole day: the head, and then commands up to the end or to the first that cannot be read.
ghost use Rattle.dayfile.specs.Day.{DayRead, Reading};
ghost use Rattle.dayfile.specs.declared.day.DayError.TheVariants.{OutOfMemory};
ghost use Rattle.std.specs.Prelude.{◌≡◌, IfOk};

use super::command::{read_command, whole_command};
use super::head::{HEAD_BYTES, read_head};
use house::{Command, HouseSize};
use rows::tail;
use script::Refusal;
use std::alloc::{AllocError, Global};

#[derive(Drop)]
pub struct Day {
    pub size: HouseSize,
    pub commands: Vec<Command>,
    // Why reading stopped before the end, if it did.
    pub stopped: Option<Refusal>,
}

#[derive(Clone, Copy, Debug)]
pub enum DayError {
    // The head is missing or out of bounds.
    HouseRefused,
    OutOfMemory(AllocError),
}

impl From<AllocError> for DayError {
    ghost from_gives = { λ error r. r ≡ OutOfMemory error };

    fn from(error: AllocError) -> DayError {
        DayError::OutOfMemory(error)
    }
}

pub fn read_day(heap: Global, bytes: &[u8]) -> Result<Day, DayError>
    ensures { DayRead bytes.now result }
{
    let size = read_head(bytes).ok_or(DayError::HouseRefused)?;
    let (commands, stopped) = read_commands(heap, bytes)?;
    Ok(Day {
        size,
        commands,
        stopped,
    })
}

// The commands behind the head, and why reading stopped before the end of the bytes, if it did.
fn read_commands(heap: Global, bytes: &[u8]) -> Result<(Vec<Command>, Option<Refusal>), AllocError>
    ensures { IfOk result (λ read. Reading bytes.now read.0.items read.1) }
{
    let mut commands = Vec::new(heap);
    let mut rest = tail(bytes, HEAD_BYTES);
    while !rest.is_empty() {
        let Some(size) = whole_command(rest) else {
            let at = (bytes.len() - rest.len()) as u64;
            return Ok((commands, Some(Refusal::Unreadable { at })));
        };
        commands.push(read_command(heap, rest)?)?;
        rest = tail(rest, size);
    }
    Ok((commands, None))
}
