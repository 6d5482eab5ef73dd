// The checks of a command that need no store.
ghost use Rattle.house.specs.Deeds.{deed_of};
ghost use Rattle.house.specs.Faults.{early_fault, parts_fault, place_fault};
ghost use Rattle.std.specs.Result.{result_err};
ghost use Rattle.std.specs.Prelude.{◌≡◌};

use super::command::Command;
use super::size::{HouseSize, Place};
use entry::Asking;
use script::{Refusal, SourceLine};
use script_checks::check_script;
use store::check_asking_count;

impl Command {
    // The first refusal that applies, of those that do not depend on the store.
    pub fn check(&self, size: HouseSize) -> Result<(), Refusal>
        ensures { result_err result ≡ early_fault size (deed_of self.now) }
    {
        match *self {
            Command::Write { desk, item, .. } => check_place(size, Place { desk, item }),
            Command::Script {
                desk,
                item,
                ref lines,
            } => {
                check_place(size, Place { desk, item })?;
                check_script(lines.as_slice())
            }
            Command::Build { desk, item } => check_place(size, Place { desk, item }),
            Command::Remove { .. } => Ok(()),
            Command::Import {
                ref lines,
                ref askings,
                ..
            } => check_parts(lines.as_slice(), askings.as_slice()),
        }
    }
}

fn check_place(size: HouseSize, place: Place) -> Result<(), Refusal>
    ensures { result_err result ≡ place_fault size place.desk place.item }
{
    size.find(place.desk, place.item).map(|_| ())
}

// The parts of an entry from elsewhere: its script line by line, and then its count of askings.
pub fn check_parts(lines: &[SourceLine], askings: &[Asking]) -> Result<(), Refusal>
    ensures { result_err result ≡ parts_fault lines.now askings.now }
{
    check_script(lines)?;
    check_asking_count(askings.len() as u64)
}
