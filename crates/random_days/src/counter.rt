// A number that counts.
ghost use Rattle.std.specs.Prelude.{◌≡◌, ◌+◌, ◌-◌, ◌^◌, true, false, min, Decides};

use std::fmt;

#[derive(Clone, Copy, Default)]
pub struct Counter {
    number: u64,
}

impl Counter {
    pub fn count(&mut self)
        ensures { self.new.number ≡ min (self.old.number + 1) (2 ^ 64 - 1) }
    {
        self.number = self.number.saturating_add(1);
    }

    pub fn count_if(&mut self, holds: bool)
        ensures counted { holds ≡ true → self.new.number ≡ min (self.old.number + 1) (2 ^ 64 - 1) }
        ensures left { holds ≡ false → self.new.number ≡ self.old.number }
    {
        if holds {
            self.count();
        }
    }

    pub fn is_zero(self) -> bool
        ensures { Decides result (self.number ≡ 0) }
    {
        self.number == 0
    }
}

impl fmt::Display for Counter {
    fn fmt<W: fmt::Write>(&self, f: &mut fmt::Formatter<W>) -> fmt::Result {
        write!(f, "{}", self.number)
    }
}
