// A whole day in a house of its own.
ghost use Rattle.std.specs.Prelude.{map, IfOk};
ghost use Rattle.days.specs.House.{new_house};
ghost use Rattle.days.specs.Outcomes.{WholeDay, told_as};
ghost use Rattle.house.specs.Deeds.{deed_of};

use super::outcome::Outcome;
use super::performing::perform_all;
use house::{Command, House, HouseSize};
use std::alloc::{AllocError, Global};

// The house begins with every item written with 0, and with an empty store.
pub fn run_day(
    heap: Global,
    size: HouseSize,
    commands: &[Command],
) -> Result<Vec<Outcome>, AllocError>
    ensures { IfOk result (λ outcomes. WholeDay (new_house size) (map deed_of commands.now) (map told_as outcomes.items)) }
{
    let mut house = House::new(heap, size)?;
    perform_all(
        heap,
        size,
        house.desks.as_mut_slice(),
        house.rows.as_mut_slice(),
        house.ran.as_mut_slice(),
        commands,
    )
}
