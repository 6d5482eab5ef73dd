// The commands at a desk: writing a number into an item, giving it a script, building it.
ghost use Rattle.capi.specs.Outcomes.{PerformedFor, PerformedOrShort, size_of};
ghost use Rattle.capi.specs.Pieces.{lines_from};
ghost use Rattle.house.specs.Deeds.{build, give, write};
ghost use Rattle.std.specs.Prelude.{◌≡◌};

use super::outcome::{Outcome, no_memory};
use super::pieces::read_lines;
use house::{Command, HouseSize};
use std::alloc::Global;

// How large a house is, in a form that crosses to other languages.
#[repr(C)]
#[derive(Clone, Copy)]
pub struct Size {
    pub desks: u64,
    pub items: u64,
    pub room: u64,
}

impl From<&Size> for HouseSize {
    ghost from_gives = { λ size house. house ≡ size_of size.now };

    fn from(size: &Size) -> HouseSize {
        HouseSize {
            desks: size.desks,
            items: size.items,
            room: size.room,
        }
    }
}

#[unsafe(no_mangle)]
pub extern "C" fn rupdaem_write(
    size: &Size,
    desks: &mut [u64],
    rows: &mut [u64],
    ran: &mut [u64],
    desk: u64,
    item: u64,
    value: u64,
) -> Outcome
    ensures { PerformedFor (size_of size.now) (write desk item value) desks.old rows.old ran.old result desks.new rows.new ran.new }
{
    let command = Command::Write { desk, item, value };
    command.perform(size.into(), desks, rows, ran).into()
}

// The lines stand one behind the other, four numbers each.
#[unsafe(no_mangle)]
pub extern "C" fn rupdaem_script(
    heap: Global,
    size: &Size,
    desks: &mut [u64],
    rows: &mut [u64],
    ran: &mut [u64],
    desk: u64,
    item: u64,
    lines: &[u64],
) -> Outcome
    ensures { PerformedOrShort (size_of size.now) (give desk item (lines_from lines.now)) desks.old rows.old ran.old result desks.new rows.new ran.new }
{
    let Ok(lines) = read_lines(heap, lines) else {
        return no_memory();
    };
    let command = Command::Script { desk, item, lines };
    command.perform(size.into(), desks, rows, ran).into()
}

#[unsafe(no_mangle)]
pub extern "C" fn rupdaem_build(
    size: &Size,
    desks: &mut [u64],
    rows: &mut [u64],
    ran: &mut [u64],
    desk: u64,
    item: u64,
) -> Outcome
    ensures { PerformedFor (size_of size.now) (build desk item) desks.old rows.old ran.old result desks.new rows.new ran.new }
{
    let command = Command::Build { desk, item };
    command.perform(size.into(), desks, rows, ran).into()
}
