// Why a command is refused: the whole list, in the order in which the first that applies is told.
ghost use Rattle.std.specs.Prelude.{◌≡◌, Some};
ghost use Rattle.script.specs.Refusals.{number_of, place_of, refused_text};

use std::fmt;

// Each variant holds its place, except where the place is always the limit itself.
#[derive(Clone, Copy, PartialEq, Debug)]
pub enum Refusal {
    // The command's kind is unknown, or its bytes end early; at its first byte.
    Unreadable { at: u64 },
    NoSuchDesk { desk: u64 },
    NoSuchItem { item: u64 },
    TooManyLines,
    UnknownKind { line: u64 },
    NoSuchRegister { line: u64 },
    // A line of kind 4 leaves out more lines than it may.
    SkipsTooMany { line: u64 },
    NoSuchEntry { entry: u64 },
    TooManyAskings,
    // An imported entry does not replay: the first asking that differs, or how many there are.
    NotHonest { asking: u64 },
    StoreFull { room: u64 },
    // The lent store is too short for its room.
    StoreTooShort { length: u64 },
    // The lent store says that it holds more entries than it has room for.
    StoreOverfull { count: u64 },
    // The lent list is too short for the desk's items.
    ListTooShort { length: u64 },
}

impl Refusal {
    pub fn number(self) -> u64
        ensures { result ≡ number_of self }
    {
        match self {
            Refusal::Unreadable { .. } => 1,
            Refusal::NoSuchDesk { .. } => 2,
            Refusal::NoSuchItem { .. } => 3,
            Refusal::TooManyLines => 4,
            Refusal::UnknownKind { .. } => 5,
            Refusal::NoSuchRegister { .. } => 6,
            Refusal::SkipsTooMany { .. } => 7,
            Refusal::NoSuchEntry { .. } => 8,
            Refusal::TooManyAskings => 9,
            Refusal::NotHonest { .. } => 10,
            Refusal::StoreFull { .. } => 11,
            Refusal::StoreTooShort { .. } => 12,
            Refusal::StoreOverfull { .. } => 13,
            Refusal::ListTooShort { .. } => 14,
        }
    }

    pub fn place(self) -> u64
        ensures { result ≡ place_of self }
    {
        match self {
            Refusal::Unreadable { at } => at,
            Refusal::NoSuchDesk { desk } => desk,
            Refusal::NoSuchItem { item } => item,
            Refusal::TooManyLines => 32,
            Refusal::UnknownKind { line } => line,
            Refusal::NoSuchRegister { line } => line,
            Refusal::SkipsTooMany { line } => line,
            Refusal::NoSuchEntry { entry } => entry,
            Refusal::TooManyAskings => 32,
            Refusal::NotHonest { asking } => asking,
            Refusal::StoreFull { room } => room,
            Refusal::StoreTooShort { length } => length,
            Refusal::StoreOverfull { count } => count,
            Refusal::ListTooShort { length } => length,
        }
    }
}

// As a command or an entry that is refused is told of.
impl fmt::Display for Refusal {
    ghost output = { λ refusal. Some (refused_text refusal) };

    fn fmt<W: fmt::Write>(&self, f: &mut fmt::Formatter<W>) -> fmt::Result {
        let number = self.number();
        let place = self.place();
        write!(f, "refused {number} at {place}")
    }
}
