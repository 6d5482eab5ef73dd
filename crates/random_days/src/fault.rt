// What can be otherwise than the rules have it, after a command or at the end of a day.
use std::fmt;

#[derive(Clone, Copy, PartialEq, Debug)]
pub enum Fault {
    ToldOtherwise,
    RefusedWithChange,
    DoneOtherwise,
    AnsweredWithoutBuild,
    AnotherAnswer,
    RanMore,
    KeptOtherwise,
    RanAgain,
    MoreThanRoom,
    NotHonest,
}

impl fmt::Display for Fault {
    fn fmt<W: fmt::Write>(&self, f: &mut fmt::Formatter<W>) -> fmt::Result {
        f.write_str(match self {
            Fault::ToldOtherwise => "told otherwise than expected",
            Fault::RefusedWithChange => "refused, and something changed",
            Fault::DoneOtherwise => "done otherwise than it should be",
            Fault::AnsweredWithoutBuild => "answered, and no build",
            Fault::AnotherAnswer => "another answer than the clean build's",
            Fault::RanMore => "ran what the clean build does not run",
            Fault::KeptOtherwise => "kept otherwise than it should be",
            Fault::RanAgain => "built again at once, and something ran",
            Fault::MoreThanRoom => "more entries than room",
            Fault::NotHonest => "an entry that is not honest",
        })
    }
}
