// Performs a list of commands, one after the other.
ghost use Rattle.days.specs.Outcomes.{Listed};
ghost use Rattle.house.specs.Deeds.{deed_of};
ghost use Rattle.std.specs.Prelude.{map};

use super::listed::outcome_of;
use super::outcome::Outcome;
use house::{Command, HouseSize};
use std::alloc::{AllocError, Global};

// The outcomes stand in the order of the commands. Where memory is short, the first commands were performed and the others were not.
pub fn perform_all(
    heap: Global,
    size: HouseSize,
    desks: &mut [u64],
    rows: &mut [u64],
    ran: &mut [u64],
    commands: &[Command],
) -> Result<Vec<Outcome>, AllocError>
    ensures { Listed size (map deed_of commands.now) desks.old rows.old ran.old result desks.new rows.new ran.new }
{
    // Not a chain with `try_collect`: no proved fact of it says how the rows stand that its closure holds.
    let mut outcomes = Vec::new(heap);
    for command in commands.iter() {
        let told = command.perform(size, desks, rows, ran);
        outcomes.push(outcome_of(heap, told, ran)?)?;
    }
    Ok(outcomes)
}
