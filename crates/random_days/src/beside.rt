// The clean build of what was just built, beside it.
ghost use Rattle.clean.specs.Builds.{says};
ghost use Rattle.house.specs.Desks.{desk_in, desk_size};
ghost use Rattle.random_days.specs.Judged.{SameAnswer, told_of};
ghost use Rattle.std.specs.Prelude.{◌≡◌, ◌+◌, ◌*◌, ◌≤◌, length, true, Decides, MatchResult};
ghost use Rattle.theory.specs.Clean.{clean};

use super::view::{LIST_SIZE, desk_items};
use super::watched::listed;
use clean::{CleanAnswer, clean_build};
use house::{House, Place, Told};
use script::Refusal;

// What the clean build says of a build.
#[derive(Clone, Copy)]
pub struct Beside {
    pub agrees: bool,
    // Whether the list is part of the clean build's list, in the same order.
    pub within: bool,
}

// For a desk that is there, an answer agrees only if it is that of the clean build.
pub fn build_clean(house: &House, place: Place, told: Told) -> Beside
    ensures { desk_size house.now.size.items * (place.desk + 1) ≤ length house.now.desks.items → result.agrees ≡ true → SameAnswer told (told_of (says (clean (desk_in house.now.size house.now.desks.items place.desk) place.item))) }
{
    let mut ran = [0; LIST_SIZE];
    let items = desk_items(house.size, house.desks.as_slice(), place.desk);
    let clean = told_of(clean_build(items, &mut ran, place.item));
    Beside {
        agrees: is_same(told, clean),
        within: is_within(listed(house.ran.as_slice()), listed(&ran)),
    }
}

// No `From`, since both types belong to other crates.
fn told_of(built: Result<CleanAnswer, Refusal>) -> Told
    ensures { MatchResult built (λ answer. result ≡ told_of answer) (λ refusal. result ≡ Told.Refused refusal) }
{
    match built {
        Ok(CleanAnswer::Value(value)) => Told::Value(value),
        Ok(CleanAnswer::Ring) => Told::Ring,
        Err(refusal) => Told::Refused(refusal),
    }
}

// Whether both are the same answer of a build.
pub fn is_same(left: Told, right: Told) -> bool
    ensures { Decides result (SameAnswer left right) }
{
    left == right && matches!(left, Told::Value(_) | Told::Ring)
}

// Each item of the list is sought behind the one before it.
fn is_within(list: &[u64], whole: &[u64]) -> bool {
    let mut rest = whole.iter();
    list.iter().all(|item| rest.any(|other| other == item))
}
