// The commands on the store: removing an entry, importing one.
ghost use Rattle.capi.specs.Outcomes.{PerformedFor, PerformedOrShort, size_of};
ghost use Rattle.capi.specs.Pieces.{askings_from, lines_from};
ghost use Rattle.house.specs.Deeds.{bring, forget};

use super::at_desk::Size;
use super::outcome::{Outcome, no_memory};
use super::pieces::{read_askings, read_lines};
use house::Command;
use std::alloc::Global;

#[unsafe(no_mangle)]
pub extern "C" fn rupdaem_remove(
    size: &Size,
    desks: &mut [u64],
    rows: &mut [u64],
    ran: &mut [u64],
    entry: u64,
) -> Outcome
    ensures { PerformedFor (size_of size.now) (forget entry) desks.old rows.old ran.old result desks.new rows.new ran.new }
{
    let command = Command::Remove { entry };
    command.perform(size.into(), desks, rows, ran).into()
}

// The lines stand one behind the other, four numbers each; so do the askings, an item and an answer each.
#[unsafe(no_mangle)]
pub extern "C" fn rupdaem_import(
    heap: Global,
    size: &Size,
    desks: &mut [u64],
    rows: &mut [u64],
    ran: &mut [u64],
    lines: &[u64],
    askings: &[u64],
    given: u64,
) -> Outcome
    ensures { PerformedOrShort (size_of size.now) (bring (lines_from lines.now) (askings_from askings.now) given) desks.old rows.old ran.old result desks.new rows.new ran.new }
{
    let Ok(lines) = read_lines(heap, lines) else {
        return no_memory();
    };
    let Ok(askings) = read_askings(heap, askings) else {
        return no_memory();
    };
    let command = Command::Import {
        lines,
        askings,
        result: given,
    };
    command.perform(size.into(), desks, rows, ran).into()
}
