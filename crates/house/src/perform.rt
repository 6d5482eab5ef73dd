// Performs one command: at a desk, or on the store.
ghost use Rattle.house.specs.Deeds.{deed_of};
ghost use Rattle.house.specs.Performed.{PerformedSo, told_by, told_of};
ghost use Rattle.std.specs.Prelude.{◌≡◌};

use super::command::Command;
use super::desk_commands::{build_at, script_at, write_at};
use super::import::import;
use super::size::{HouseSize, Place};
use build::Answer;
use script::Refusal;
use store::remove_entry;

// What is told of a command.
#[derive(Clone, Copy, PartialEq, Debug)]
pub enum Told {
    Done,
    Refused(Refusal),
    // The item's value; the list of what ran stands in the lent row.
    Value(u64),
    Ring,
}

impl From<Result<(), Refusal>> for Told {
    ghost from_gives = { λ outcome told. told ≡ told_by outcome };

    fn from(outcome: Result<(), Refusal>) -> Told {
        match outcome {
            Ok(()) => Told::Done,
            Err(refusal) => Told::Refused(refusal),
        }
    }
}

impl From<Answer> for Told {
    ghost from_gives = { λ answer told. told ≡ told_of answer };

    fn from(answer: Answer) -> Told {
        match answer {
            Answer::Value(value) => Told::Value(value),
            Answer::Ring => Told::Ring,
            Answer::Refused(refusal) => Told::Refused(refusal),
        }
    }
}

impl Command {
    // The desks, the store and the list are lent rows, and three of them, since other languages lend them so; a refusal leaves all three as they were.
    pub fn perform(
        &self,
        size: HouseSize,
        desks: &mut [u64],
        rows: &mut [u64],
        ran: &mut [u64],
    ) -> Told
        ensures { PerformedSo size (deed_of self.now) desks.old rows.old ran.old result desks.new rows.new ran.new }
    {
        match *self {
            Command::Write { desk, item, value } => {
                write_at(size, desks, Place { desk, item }, value).into()
            }
            Command::Script {
                desk,
                item,
                ref lines,
            } => script_at(size, desks, Place { desk, item }, lines.as_slice()).into(),
            Command::Build { desk, item } => {
                build_at(size, desks, rows, ran, Place { desk, item }).into()
            }
            Command::Remove { entry } => remove_entry(rows, entry).into(),
            // All by reference: of a number that is copied beside two references the check does not know that it is the command's.
            Command::Import {
                ref lines,
                ref askings,
                ref result,
            } => import(rows, lines.as_slice(), askings.as_slice(), *result).into(),
        }
    }
}
