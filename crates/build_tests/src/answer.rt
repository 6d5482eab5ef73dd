// An answer as numbers. The rules number the refusals, and the test of refusals holds these numbers.
ghost use Rattle.build_tests.specs.Answer.{answer_as_numbers};
ghost use Rattle.std.specs.Prelude.{◌≡◌};

use build::Answer;

// An answer as three numbers: which it is, and a value, or a refusal's number and place.
pub fn answer_numbers(answer: Answer) -> (u64, u64, u64)
    ensures { result ≡ answer_as_numbers answer }
{
    match answer {
        Answer::Value(value) => (0, value, 0),
        Answer::Ring => (1, 0, 0),
        Answer::Refused(refusal) => (2, refusal.number(), refusal.place()),
    }
}
