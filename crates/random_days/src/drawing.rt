// Draws the next command of a day, and what will be told of it.
ghost use Rattle.house.specs.Faults.{place_fault};
ghost use Rattle.random_days.specs.Drawn.{DrawnFirst, DrawnRemoval, DrawnScript, ExpectedAt, ExpectedOf, ExpectedOfImport, FaultBy, FirstBy, ImportBy, KindBy, PlaceBy, PlacedBy, RowBy, RowOf, ScriptBy, expected_by, first_seed, line_count, room_fault};
ghost use Rattle.random_days.specs.Seeds.{Happens, number_at};
ghost use Rattle.random_days.specs.declared.drafts.Kind.TheVariants.{Import};
ghost use Rattle.script.specs.Layout.{max_lines};
ghost use Rattle.std.specs.Prelude.{◌≡◌, ◌<◌, ◌≤◌, ◌%◌, max};
ghost use Rattle.store.specs.Rows.{count_of};

use super::drafts::{Draft, Kind};
use super::entries::{read_back, record_run};
use super::expected::Expected;
use super::seed::Seed;
use super::spoiling::{spoil_entry, spoil_script};
use super::view::View;
use house::{HouseSize, Place};
use script::Refusal;
use store::entry_count;

// The plans of the desks stand behind the scripts among the seeds of the pool.
const PLANS_AT: u64 = 1000;

// The lines and askings of a script or an import go into the row.
#[tactic(auto, using(crate::proofs::Draws::script_expected, crate::proofs::Draws::removal_expected, crate::proofs::Draws::removal_keeps, crate::proofs::Draws::import_expected, crate::proofs::Draws::import_keeps, crate::proofs::Draws::removal_by, crate::proofs::Draws::import_by, crate::proofs::Draws::removal_placed, crate::proofs::Draws::import_placed, crate::proofs::Draws::removal_row, crate::proofs::Draws::import_row))]
pub fn draw(view: View<'_>, seed: Seed, row: &mut [u64]) -> Draft
    ensures expected { ExpectedOf view.entry.house.now.size view.entry.house.now.rows.items (number_at seed.number 2) result.kind result.expected }
    ensures kind { KindBy (number_at seed.number 1) result.kind }
    ensures row { RowOf (number_at seed.number 2) result.kind row.old row.new }
    ensures place { PlacedBy view.entry.house.now.size (number_at (number_at seed.number 0) 2) result.kind }
    ensures by { RowBy view.entry.house.now.size view.entry.house.now.rows.items view.entry.pool.scripts (number_at seed.number 2) result.kind result.expected row.old row.new }
{
    let (place, expected) = draw_place(view.house.size, seed.at(0));
    match seed.at(1).below(100) {
        0..=49 => Draft {
            kind: Kind::Build {
                place: draw_later(view.house.size, seed.at(2), place),
            },
            expected,
        },
        50..=71 => Draft {
            kind: Kind::Write {
                place,
                value: view.draw_value(seed.at(2)),
            },
            expected,
        },
        72..=85 => Draft {
            kind: Kind::Script { place },
            expected: expected.then(draw_script(view, seed.at(2), place.item, row)),
        },
        86..=90 => draw_remove(view, seed.at(2)),
        _ => draw_import(view, seed.at(2), row),
    }
}

// What an item is at the start of a day: most are made by a script, the first is written; every second desk is alike.
pub fn draw_first(view: View<'_>, place: Place, row: &mut [u64]) -> Draft
    ensures drawn { DrawnFirst view.entry.house.now.size.items place result row.old row.new }
    ensures by { FirstBy view.entry.pool.scripts (first_seed view.entry.pool.seed.number place) place result.kind row.old row.new }
{
    let plan = place
        .desk
        .saturating_mul(place.desk % 2)
        .saturating_add(PLANS_AT);
    let seed = view.pool.seed.at(plan).at(place.item);
    let expected = Expected::Performed;
    if place.item == 0 || seed.at(0).percent(25) {
        let value = view.draw_value(seed.at(1));
        return Draft {
            kind: Kind::Write { place, value },
            expected,
        };
    }
    view.pool
        .write_script(view.pool.choose(seed.at(1), place.item), row);
    Draft {
        kind: Kind::Script { place },
        expected,
    }
}

// An item at a desk, or one that is not there: of the two the desk is refused first.
#[tactic(auto, using(crate::proofs::Draws::place_by))]
fn draw_place(size: HouseSize, seed: Seed) -> (Place, Expected)
    ensures expected { ExpectedAt size result.0 result.1 }
    ensures fault { FaultBy (number_at seed.number 2) result.1 }
    ensures place { PlaceBy size (number_at seed.number 2) result.0 }
{
    let desk = seed.at(0).below(size.desks);
    let item = seed.at(1).below(size.items);
    match seed.at(2).below(60) {
        0 => {
            let desk = size.desks.saturating_add(item);
            let refusal = Refusal::NoSuchDesk { desk };
            (Place { desk, item: desk }, Expected::Refused(refusal))
        }
        1 => {
            let item = size.items.saturating_add(desk);
            let refusal = Refusal::NoSuchItem { item };
            (Place { desk, item }, Expected::Refused(refusal))
        }
        _ => (Place { desk, item }, Expected::Performed),
    }
}

// The place, or one later at the desk: later items need more than earlier ones.
fn draw_later(size: HouseSize, seed: Seed, place: Place) -> Place
    ensures desk { result.desk ≡ place.desk }
    ensures item { 0 < size.items → result.item ≡ max place.item (seed.number % size.items) }
    ensures fault { 0 < size.items → place_fault size result.desk result.item ≡ place_fault size place.desk place.item }
{
    let Place { desk, item } = place;
    Place {
        desk,
        item: item.max(seed.below(size.items)),
    }
}

fn draw_script(view: View<'_>, seed: Seed, item: u64, row: &mut [u64]) -> Expected
    ensures expected { DrawnScript seed.number result }
    ensures row { (¬ Happens (number_at seed.number 1) 15) → line_count row.new ≤ max_lines }
    ensures by { ScriptBy view.entry.pool.scripts seed.number item result row.old row.new }
{
    view.pool
        .write_script(view.pool.choose(seed.at(0), item), row);
    if seed.at(1).percent(15) {
        spoil_script(seed.at(2), row)
    } else {
        Expected::Performed
    }
}

fn draw_remove(view: View<'_>, seed: Seed) -> Draft
    ensures { DrawnRemoval seed.number (count_of view.entry.house.now.rows.items) result.kind result.expected }
{
    let count = entry_count(view.house.rows.as_slice());
    let entry = seed.between(0, count);
    let expected = if entry < count {
        Expected::Performed
    } else {
        Expected::Refused(Refusal::NoSuchEntry { entry })
    };
    Draft {
        kind: Kind::Remove { entry },
        expected,
    }
}

// Half of the imports are honest; those are refused only if there is no room.
#[tactic(auto, using(crate::proofs::Draws::spoiled_first))]
fn draw_import(view: View<'_>, seed: Seed, row: &mut [u64]) -> Draft
    ensures kind { result.kind ≡ Import }
    ensures expected { ExpectedOfImport seed.number view.entry.house.now.size.room (count_of view.entry.house.now.rows.items) result.expected }
    ensures by { ImportBy seed.number view.entry.house.now.rows.items result.expected row.old row.new }
{
    let count = entry_count(view.house.rows.as_slice());
    if count > 0 && seed.at(0).percent(50) {
        read_back(view.house.rows.as_slice(), seed.at(1).below(count), row);
    } else {
        record_run(view, seed.at(1), row);
    }
    let spoiled = if seed.at(2).percent(50) {
        spoil_entry(seed.at(3), row)
    } else {
        Expected::Performed
    };
    Draft {
        kind: Kind::Import,
        expected: spoiled.then(room_for(view.house.size.room, count)),
    }
}

// What a store with so many entries says of one more.
fn room_for(room: u64, count: u64) -> Expected
    ensures { result ≡ expected_by (room_fault room count) }
{
    if count < room {
        return Expected::Performed;
    }
    Expected::Refused(Refusal::StoreFull { room })
}
