// Commands as a table can hold them, and the commands that they stand for.
ghost use Rattle.entry.specs.Rows.{first_asking};
ghost use Rattle.house.specs.Deeds.{deed_of};
ghost use Rattle.house_tests.specs.Drafted.{carries_lines, drafted};
ghost use Rattle.script.specs.Allowed.{first_source};
ghost use Rattle.std.specs.Prelude.{◌≡◌, true, map, IfOk, MatchResult};

use entry::Asking;
use house::Command;
use script::SourceLine;
use std::alloc::{AllocError, Global};

// A line is a kind and three numbers, an asking an item and its answer.
#[derive(Clone, Copy)]
pub enum Draft {
    // A desk, an item and the number that is written.
    Write(u64, u64, u64),
    // A desk, an item and the lines that it is given.
    Script(u64, u64, &'static [[u64; 4]]),
    // A desk and an item.
    Build(u64, u64),
    // An entry's place in the store.
    Remove(u64),
    // Lines, askings and a result.
    Import(&'static [[u64; 4]], &'static [[u64; 2]], u64),
}

impl Draft {
    pub fn command(self, heap: Global) -> Result<Command, AllocError>
        ensures { MatchResult result (λ command. deed_of command ≡ drafted self) (λ _. carries_lines self ≡ true) }
    {
        match self {
            Draft::Write(desk, item, value) => Ok(Command::Write { desk, item, value }),
            Draft::Script(desk, item, lines) => {
                let lines = lines_of(heap, lines)?;
                Ok(Command::Script { desk, item, lines })
            }
            Draft::Build(desk, item) => Ok(Command::Build { desk, item }),
            Draft::Remove(entry) => Ok(Command::Remove { entry }),
            Draft::Import(lines, askings, result) => {
                let lines = lines_of(heap, lines)?;
                let askings = askings_of(heap, askings)?;
                Ok(Command::Import {
                    lines,
                    askings,
                    result,
                })
            }
        }
    }
}

fn lines_of(heap: Global, numbers: &[[u64; 4]]) -> Result<Vec<SourceLine>, AllocError>
    ensures { IfOk result (λ lines. lines.items ≡ map first_source numbers.now) }
{
    numbers
        .iter()
        .map(|[kind, first, second, third]| {
            SourceLine::from_numbers(*kind, *first, *second, *third)
        })
        .collect(heap)
}

fn askings_of(heap: Global, numbers: &[[u64; 2]]) -> Result<Vec<Asking>, AllocError>
    ensures { IfOk result (λ askings. askings.items ≡ map first_asking numbers.now) }
{
    numbers
        .iter()
        .map(|[item, answer]| Asking {
            item: *item,
            answer: *answer,
        })
        .collect(heap)
}
