// A command as it is drawn, with its lines and askings still in a row, and the command that it makes.
ghost use Rattle.house.specs.Deeds.{deed_of};
ghost use Rattle.random_days.specs.Drafted.{carries_lines, drafted, pieces_said};
ghost use Rattle.script.specs.Allowed.{sources_in};
ghost use Rattle.std.specs.Prelude.{◌≡◌, ℕ, true, List, IfOk, MatchResult};

use super::expected::Expected;
use entry::{ASKING_SIZE, Asking, RESULT_AT};
use house::{Command, Place};
use rows::{number_after, parts, tail};
use script::{LINE_SIZE, SCRIPT_SIZE, SourceLine};
use std::alloc::{AllocError, Global};

#[derive(Clone, Copy)]
pub enum Kind {
    Write { place: Place, value: u64 },
    Script { place: Place },
    Build { place: Place },
    Remove { entry: u64 },
    Import,
}

#[derive(Clone, Copy)]
pub struct Draft {
    pub kind: Kind,
    pub expected: Expected,
}

impl Kind {
    // The row begins with a script; for an import it is an entry.
    pub fn command(self, heap: Global, row: &[u64]) -> Result<Command, AllocError>
        ensures { MatchResult result (λ command. deed_of command ≡ drafted self row.now) (λ _. carries_lines self ≡ true) }
    {
        match self {
            Kind::Write {
                place: Place { desk, item },
                value,
            } => Ok(Command::Write { desk, item, value }),
            Kind::Script {
                place: Place { desk, item },
            } => {
                let lines = read_lines(heap, row)?;
                Ok(Command::Script { desk, item, lines })
            }
            Kind::Build {
                place: Place { desk, item },
            } => Ok(Command::Build { desk, item }),
            Kind::Remove { entry } => Ok(Command::Remove { entry }),
            Kind::Import => import_command(heap, row),
        }
    }
}

fn import_command(heap: Global, row: &[u64]) -> Result<Command, AllocError>
    ensures { IfOk result (λ command. deed_of command ≡ drafted Kind.Import row.now) }
{
    let lines = read_lines(heap, row)?;
    let askings = read_counted(heap, tail(row, SCRIPT_SIZE), ASKING_SIZE, |part| {
        Asking::read(part, 0)
    })?;
    let result = number_after(row, RESULT_AT, 0);
    Ok(Command::Import {
        lines,
        askings,
        result,
    })
}

fn read_lines(heap: Global, script: &[u64]) -> Result<Vec<SourceLine>, AllocError>
    ensures { IfOk result (λ lines. lines.items ≡ sources_in script.now) }
{
    read_counted(heap, script, LINE_SIZE, |part| SourceLine::read(part, 0))
}

// As many parts as the row says, also if these are too many.
fn read_counted<T: Drop, F: FnMut(&[u64]) -> T>(
    heap: Global,
    row: &[u64],
    size: usize,
    read: F,
) -> Result<Vec<T>, AllocError>
    requires { (f : _) (part : _) → F.pre f part }
    ensures { (reads : List ℕ → T) → ((f : F) (part : _) (piece : T) (g : F) → F.step f part piece g → (g ≡ f) × (piece ≡ reads part.now)) → IfOk result (λ pieces. pieces.items ≡ pieces_said reads size row.now) }
{
    let count = number_after(row, 0, 0) as usize;
    parts(tail(row, 1), size, count).map(read).collect(heap)
}
