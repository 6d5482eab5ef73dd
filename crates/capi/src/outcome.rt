// What is told of a command, in a form that crosses to other languages.
ghost use Rattle.capi.specs.Outcomes.{no_memory, outcome_by, outcome_of};
ghost use Rattle.std.specs.Prelude.{◌≡◌};

use build::Answer;
use house::Told;

const DONE: u64 = 0;

const VALUE: u64 = 1;

const RING: u64 = 2;

const REFUSED: u64 = 3;

const NO_MEMORY: u64 = 4;

// `told` is 0 for done, 1 for a value, 2 for ring, 3 for a refusal, 4 for want of memory;
// `number` is the value or the refusal's number, `place` the refusal's place, and what is not used is 0.
// Numbers stand here where an enum would, since other languages read these three.
#[repr(C)]
#[derive(Clone, Copy)]
pub struct Outcome {
    pub told: u64,
    pub number: u64,
    pub place: u64,
}

impl From<Told> for Outcome {
    ghost from_gives = { λ told outcome. outcome ≡ outcome_of told };

    fn from(told: Told) -> Outcome {
        match told {
            Told::Done => bare(DONE),
            Told::Value(value) => Outcome {
                told: VALUE,
                number: value,
                place: 0,
            },
            Told::Ring => bare(RING),
            Told::Refused(refusal) => Outcome {
                told: REFUSED,
                number: refusal.number(),
                place: refusal.place(),
            },
        }
    }
}

impl From<Answer> for Outcome {
    ghost from_gives = { λ answer outcome. outcome ≡ outcome_by answer };

    fn from(answer: Answer) -> Outcome {
        match answer {
            Answer::Value(value) => Told::Value(value).into(),
            Answer::Ring => Told::Ring.into(),
            Answer::Refused(refusal) => Told::Refused(refusal).into(),
        }
    }
}

// What an export returns is no `Result`, so one that lacks memory leaves with this by `let .. else`.
pub fn no_memory() -> Outcome
    ensures { result ≡ no_memory }
{
    bare(NO_MEMORY)
}

fn bare(told: u64) -> Outcome
    ensures { result ≡ record { told = told; number = 0; place = 0 } }
{
    Outcome {
        told,
        number: 0,
        place: 0,
    }
}
