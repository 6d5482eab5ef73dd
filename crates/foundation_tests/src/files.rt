// What is told of a file of one command.
ghost use Rattle.foundation_tests.specs.Told.{ToldOfOne, UntoldOf};
ghost use Rattle.foundation_tests.specs.declared.files.Untold.TheVariants.{Day};
ghost use Rattle.std.specs.Prelude.{◌≡◌, MatchResult};

use dayfile::{DayError, read_day};
use std::alloc::Global;

// Why nothing is told of a file: its house or memory, or it holds other than one whole command.
#[derive(Debug, Drop)]
pub enum Untold {
    Day(DayError),
    NotOneCommand,
}

impl From<DayError> for Untold {
    ghost from_gives = { λ error r. r ≡ Day error };

    fn from(error: DayError) -> Untold {
        Untold::Day(error)
    }
}

// The number and the place of what is told of a file's only command, of what needs no store; None if it is let in.
pub fn told(heap: Global, bytes: &[u8]) -> Result<Option<(u64, u64)>, Untold>
    ensures { MatchResult result (ToldOfOne bytes.now) (UntoldOf bytes.now) }
{
    let day = read_day(heap, bytes)?;
    if day.stopped.is_some() || day.commands.len() != 1 {
        return Err(Untold::NotOneCommand);
    }
    Ok(test_rows::told(day.commands[0].check(day.size)))
}
