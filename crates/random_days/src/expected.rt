// What the rules say will be told of a command, as far as it is known when the command is drawn.
ghost use Rattle.random_days.specs.Judged.{Meets, first_told};
ghost use Rattle.std.specs.Prelude.{◌≡◌, Decides};

use house::Told;
use script::Refusal;

#[derive(Clone, Copy)]
pub enum Expected {
    // A build is answered, any other command is done.
    Performed,
    Refused(Refusal),
    // An answer of an entry was changed: it may still replay.
    Open,
}

impl Expected {
    // Of two that are checked one after the other, the first refusal is told.
    pub fn then(self, later: Expected) -> Expected
        ensures { result ≡ first_told self later }
    {
        match self {
            Expected::Performed => later,
            _ => self,
        }
    }

    pub fn meets(self, told: Told) -> bool
        ensures { Decides result (Meets self told) }
    {
        match (self, told) {
            (Expected::Open, _) => true,
            (Expected::Refused(expected), Told::Refused(refusal)) => refusal == expected,
            (Expected::Refused(_), _) => false,
            (Expected::Performed, Told::Refused(_)) => false,
            (Expected::Performed, _) => true,
        }
    }
}
