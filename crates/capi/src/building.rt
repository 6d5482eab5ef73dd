// The build of one item over the row of its desk, the store and the list.
ghost use Rattle.capi.specs.Outcomes.{BuiltFor};

use super::outcome::Outcome;
use build::build_item;

#[unsafe(no_mangle)]
pub extern "C" fn rupdaem_build_item(
    items: &[u64],
    rows: &mut [u64],
    ran: &mut [u64],
    item: u64,
) -> Outcome
    ensures { BuiltFor items.now rows.old ran.old item result rows.new ran.new }
{
    build_item(items, rows, ran, item).into()
}
