// How many commands were refused with each refusal that the commands of a house can meet.
ghost use Rattle.random_days.specs.Counted.{Counted};

use super::counter::Counter;
use script::Refusal;
use std::fmt;

#[derive(Clone, Copy, Default)]
pub struct Refusals {
    no_such_desk: Counter,
    no_such_item: Counter,
    too_many_lines: Counter,
    unknown_kind: Counter,
    no_such_register: Counter,
    skips_too_many: Counter,
    no_such_entry: Counter,
    too_many_askings: Counter,
    not_honest: Counter,
    store_full: Counter,
}

impl Refusals {
    pub fn count(&mut self, refusal: Refusal)
        ensures { Counted refusal self.old self.new }
    {
        match refusal {
            Refusal::NoSuchDesk { .. } => self.no_such_desk.count(),
            Refusal::NoSuchItem { .. } => self.no_such_item.count(),
            Refusal::TooManyLines => self.too_many_lines.count(),
            Refusal::UnknownKind { .. } => self.unknown_kind.count(),
            Refusal::NoSuchRegister { .. } => self.no_such_register.count(),
            Refusal::SkipsTooMany { .. } => self.skips_too_many.count(),
            Refusal::NoSuchEntry { .. } => self.no_such_entry.count(),
            Refusal::TooManyAskings => self.too_many_askings.count(),
            Refusal::NotHonest { .. } => self.not_honest.count(),
            Refusal::StoreFull { .. } => self.store_full.count(),
            // Bytes are not read here, and the house's rows are long enough.
            Refusal::Unreadable { .. }
            | Refusal::StoreTooShort { .. }
            | Refusal::StoreOverfull { .. }
            | Refusal::ListTooShort { .. } => {}
        }
    }
}

// Each is printed with its number in the list of refusals.
impl fmt::Display for Refusals {
    fn fmt<W: fmt::Write>(&self, f: &mut fmt::Formatter<W>) -> fmt::Result {
        let Refusals {
            no_such_desk,
            no_such_item,
            too_many_lines,
            unknown_kind,
            no_such_register,
            skips_too_many,
            no_such_entry,
            too_many_askings,
            not_honest,
            store_full,
        } = self;
        write!(f, "{no_such_desk} refused with 2, {no_such_item} with 3, ")?;
        write!(f, "{too_many_lines} with 4, {unknown_kind} with 5, ")?;
        write!(f, "{no_such_register} with 6, {skips_too_many} with 7, ")?;
        write!(f, "{no_such_entry} with 8, {too_many_askings} with 9, ")?;
        write!(f, "{not_honest} with 10, {store_full} with 11")
    }
}
