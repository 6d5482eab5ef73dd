// What is told of an outcome, as the rules number it: they number the refusals, and tests hold these numbers against the rules.
ghost use Rattle.script.specs.Refusals.{number_of, place_of};
ghost use Rattle.std.specs.Prelude.{◌≡◌, Some, None, MatchResult};

use script::Refusal;

// The number and the place that a refusal is told with.
pub fn numbers_of(refusal: Refusal) -> (u64, u64)
    ensures { result ≡ (number_of refusal, place_of refusal) }
{
    (refusal.number(), refusal.place())
}

// Those of an outcome's refusal, if there is one.
pub fn told<T: Drop>(outcome: Result<T, Refusal>) -> Option<(u64, u64)>
    ensures { MatchResult outcome (λ _. result ≡ None) (λ f. result ≡ Some (number_of f, place_of f)) }
{
    outcome.err().map(numbers_of)
}
