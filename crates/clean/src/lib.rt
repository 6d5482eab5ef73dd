// The clean build: every script that is needed is run, once, and nothing is remembered from build to build.
#![tactic(auto)]

ghost use Rattle.clean.specs.Builds.{Listed, list_fault, says};
ghost use Rattle.items.specs.Rows.{items_in};
ghost use Rattle.std.specs.Prelude.{◌≡◌, IfOk, MatchResult};
ghost use Rattle.std.specs.Result.{result_err};
ghost use Rattle.theory.specs.Clean.{clean};

mod answer;
mod evaluation;
mod mark;

pub use answer::CleanAnswer;
use evaluation::Evaluation;
use items::{item_count, list_runs};
use script::Refusal;

// Builds an item of the row. `ran` takes the count of the items whose scripts ran to their end, and then their numbers;
// it is refused if it has no room for all items.
pub fn clean_build(items: &[u64], ran: &mut [u64], item: u64) -> Result<CleanAnswer, Refusal>
    ensures fault { result_err result ≡ list_fault (items_in items.now) ran.old }
    ensures answer { IfOk result (λ answer. answer ≡ says (clean (items_in items.now) item)) }
    ensures list { MatchResult result (λ _. Listed (items_in items.now) item ran.old ran.new) (λ _. ran.new ≡ ran.old) }
{
    let count = item_count(items);
    if ran.len() < 1 + count {
        return Err(Refusal::ListTooShort {
            length: ran.len() as u64,
        });
    }
    let mut evaluation = Evaluation::new(items);
    let answer = evaluation.evaluate(count, item);
    list_runs(&evaluation, count, ran);
    Ok(answer.into())
}
