// Takes the outcome of a command out of what was told and the row that a build left its list in.
ghost use Rattle.days.specs.Outcomes.{told_as};
ghost use Rattle.days.specs.Rows.{comes_with_list, list_in, told_in};
ghost use Rattle.std.specs.Prelude.{◌≡◌, true, IfOk, MatchResult};

use super::outcome::Outcome;
use house::Told;
use rows::{front, number_after, tail};
use std::alloc::{AllocError, Global};

// Only a list can want for memory.
pub fn outcome_of(heap: Global, told: Told, ran: &[u64]) -> Result<Outcome, AllocError>
    ensures { MatchResult result (λ outcome. told_as outcome ≡ told_in told ran.now) (λ _. comes_with_list told ≡ true) }
{
    match told {
        Told::Done => Ok(Outcome::Done),
        Told::Refused(refusal) => Ok(Outcome::Refused(refusal)),
        Told::Value(value) => {
            let ran = list_of(heap, ran)?;
            Ok(Outcome::Value { value, ran })
        }
        Told::Ring => {
            let ran = list_of(heap, ran)?;
            Ok(Outcome::Ring { ran })
        }
    }
}

// The list in the row, whose length stands in front of it.
fn list_of(heap: Global, ran: &[u64]) -> Result<Vec<u64>, AllocError>
    ensures { IfOk result (λ list. list.items ≡ list_in ran.now) }
{
    let count = number_after(ran, 0, 0);
    Vec::from_slice(heap, front(tail(ran, 1), count as usize))
}
