// One build of one item of a desk, over the rows that are lent.
ghost use Rattle.std.specs.Prelude.{◌≡◌, ◌+◌, length, IfOk, if◌then◌else◌, Some, None, nat_lt};
ghost use Rattle.build.specs.Build.{BuiltSo, WentSo};
ghost use Rattle.build.specs.Faults.{build_fault};
ghost use Rattle.items.specs.Rows.{items_in};
ghost use Rattle.std.specs.Result.{result_err};

use super::ending::keep_runs;
use super::lent::Lent;
use super::scratch::Scratch;
use items::{Ring, item_count, list_runs};
use script::Refusal;
use store::check_store;

// One enum of all three, as the rules of the project name it.
#[derive(Clone, Copy, PartialEq, Debug)]
pub enum Answer {
    Value(u64),
    // The item is needed for itself.
    Ring,
    Refused(Refusal),
}

// Builds item k of the desk. The rows are the store, which takes the entries of the runs; the list of what was run goes into `ran`.
// Nothing is assumed of the rows; the values are the clean ones where every entry is honest.
pub fn build_item(items: &[u64], rows: &mut [u64], ran: &mut [u64], k: u64) -> Answer
    ensures { BuiltSo items.now rows.old ran.old k result rows.new ran.new }
{
    match check_build(items, rows, ran, k) {
        Ok(count) => build_checked(items, rows, ran, k, count),
        Err(refusal) => Answer::Refused(refusal),
    }
}

// How many items the desk has, or the first refusal that applies.
fn check_build(items: &[u64], rows: &[u64], ran: &[u64], k: u64) -> Result<usize, Refusal>
    ensures fault { result_err result ≡ build_fault items.now rows.now ran.now k }
    ensures count { IfOk result (λ n. n ≡ length (items_in items.now)) }
{
    let Some(count) = count_above(items, k) else {
        return Err(Refusal::NoSuchItem { item: k });
    };
    check_store(rows)?;
    // The list of all items has its length in front.
    let Some(_) = ran.get(count) else {
        return Err(Refusal::ListTooShort {
            length: ran.len() as u64,
        });
    };
    Ok(count)
}

// The count of items, if item k is one of them.
fn count_above(items: &[u64], k: u64) -> Option<usize>
    ensures { result ≡ (if nat_lt k (length (items_in items.now)) then Some (length (items_in items.now)) else None) }
{
    let count = item_count(items);
    (k < count as u64).then_some(count)
}

fn build_checked(items: &[u64], rows: &mut [u64], ran: &mut [u64], k: u64, count: usize) -> Answer
    requires fine { build_fault items.now rows.old ran.old k ≡ None }
    requires all { count ≡ length (items_in items.now) }
    ensures { WentSo items.now rows.old ran.old k result rows.new ran.new }
{
    let mut scratch = Scratch::new();
    let found = scratch.evaluate(Lent { items, rows }, count + 1, k);
    list_runs(&scratch, count, ran);
    keep_runs(items, &scratch, count, rows);
    match found {
        Ok(value) => Answer::Value(value),
        Err(Ring) => Answer::Ring,
    }
}
