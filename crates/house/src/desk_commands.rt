// The commands at a desk: writing a number into an item, giving it a script, building it.
ghost use Rattle.house.specs.DeskFaults.{Found, desk_fault, script_at_fault};
ghost use Rattle.house.specs.Desks.{desk_part, with_desk};
ghost use Rattle.house.specs.Performed.{BuiltAt};
ghost use Rattle.items.specs.Rows.{rewritten};
ghost use Rattle.script.specs.Allowed.{counted_as};
ghost use Rattle.std.specs.Prelude.{◌≡◌, map, is_ok, if◌then◌else◌};
ghost use Rattle.std.specs.Result.{result_err};
ghost use Rattle.theory.specs.Items.{made, written};

use super::desks::desk_span;
use super::size::{HouseSize, Place};
use build::{Answer, build_item};
use items::{has_item, write_made, write_value};
use script::{Refusal, SourceLine};
use script_checks::check_script;
use std::ops::Range;

// Where the desk stands, if it is there and has the item: first the desk is refused, then the item.
pub fn find_item(size: HouseSize, desks: &[u64], place: Place) -> Result<Range<usize>, Refusal>
    ensures fault { result_err result ≡ desk_fault size desks.now place.desk place.item }
    ensures value { Found size desks.now place.desk place.item result }
{
    let Place { desk, item } = place;
    let Some(span) = desk_span(size, desks.len(), desk) else {
        return Err(Refusal::NoSuchDesk { desk });
    };
    if !has_item(&desks[span.start..span.end], item) {
        return Err(Refusal::NoSuchItem { item });
    }
    Ok(span)
}

pub fn write_at(size: HouseSize, desks: &mut [u64], place: Place, value: u64) -> Result<(), Refusal>
    ensures fault { result_err result ≡ desk_fault size desks.old place.desk place.item }
    ensures after { desks.new ≡ (if is_ok result then with_desk size desks.old place.desk (rewritten (desk_part size desks.old place.desk) place.item (written value)) else desks.old) }
{
    let span = find_item(size, desks, place)?;
    write_value(&mut desks[span], place.item, value);
    Ok(())
}

pub fn script_at(
    size: HouseSize,
    desks: &mut [u64],
    place: Place,
    lines: &[SourceLine],
) -> Result<(), Refusal>
    ensures fault { result_err result ≡ script_at_fault size desks.old place.desk place.item lines.now }
    ensures after { desks.new ≡ (if is_ok result then with_desk size desks.old place.desk (rewritten (desk_part size desks.old place.desk) place.item (made (map counted_as lines.now))) else desks.old) }
{
    let span = find_item(size, desks, place)?;
    check_script(lines)?;
    write_made(&mut desks[span], place.item, lines);
    Ok(())
}

// Builds an item of the desk over the store; the list of what ran goes into `ran`.
pub fn build_at(
    size: HouseSize,
    desks: &[u64],
    rows: &mut [u64],
    ran: &mut [u64],
    place: Place,
) -> Answer
    ensures { BuiltAt size place.desk place.item desks.now rows.old ran.old result rows.new ran.new }
{
    let Place { desk, item } = place;
    let Some(span) = desk_span(size, desks.len(), desk) else {
        return Answer::Refused(Refusal::NoSuchDesk { desk });
    };
    build_item(&desks[span], rows, ran, item)
}
