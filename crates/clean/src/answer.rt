// What a build says of an item.
use items::Ring;

// An item has a value, or it is needed for itself on the way to one. An enum and no Result, as the rules have it: ring is an answer, and no failure of the build.
#[derive(Clone, Copy, PartialEq, Debug)]
pub enum CleanAnswer {
    Value(u64),
    Ring,
}

impl From<Result<u64, Ring>> for CleanAnswer {
    ghost use Rattle.clean.specs.Builds.{answer_of};
    ghost use Rattle.std.specs.Prelude.{◌≡◌};

    ghost from_gives = { λ outcome answer. answer ≡ answer_of outcome };

    fn from(outcome: Result<u64, Ring>) -> CleanAnswer {
        match outcome {
            Ok(value) => CleanAnswer::Value(value),
            Err(Ring) => CleanAnswer::Ring,
        }
    }
}
