// Days at a desk, whose builds answer, list and keep what they should.
ghost use Rattle.build_tests.specs.Did.{AsSaid, BuildTold, Did, Otherwise};
ghost use Rattle.std.specs.Prelude.{Decides, MatchBool, MatchOption};
ghost use Rattle.test_rows.specs.Spent.{Spent, StopsAt};

use super::deeds::Deed;
use super::desk::DeskInUse;
use build::{Answer, build_item};
use store::entry_count;
use test_rows::lists;

impl DeskInUse {
    // Builds the item. Whether it is answered so, these items are listed, and so many entries are kept then.
    pub fn builds_so(&mut self, item: u64, answer: Answer, list: &[u64], kept: u64) -> bool
        ensures { (told : Answer) × BuildTold item told self.old self.new × Decides result (AsSaid told answer list.now kept self.new) }
    {
        let told = build_item(
            self.desk.row.as_slice(),
            self.rows.as_mut_slice(),
            self.ran.as_mut_slice(),
            item,
        );
        told == answer
            && lists(self.ran.as_slice(), list)
            && entry_count(self.rows.as_slice()) == kept
    }

    // The number of the first deed that goes otherwise than it says; None if all go so.
    pub fn spend_day(&mut self, deeds: &[Deed]) -> Option<usize>
        ensures { MatchOption result (Spent Did deeds.now self.old self.new) (λ number. StopsAt Did Otherwise deeds.now number self.old self.new) }
    {
        for (number, deed) in deeds.iter().enumerate() {
            if !self.goes_so(*deed) {
                return Some(number);
            }
        }
        None
    }

    // Whether the deed goes as it says; only a build can go otherwise.
    fn goes_so(&mut self, deed: Deed) -> bool
        ensures { MatchBool result (Did deed self.old self.new) (Otherwise deed self.old self.new) }
    {
        match deed {
            Deed::Write(item, value) => {
                self.desk.write(item, value);
                true
            }
            Deed::Give(item, lines) => {
                self.desk.give(item, lines);
                true
            }
            Deed::Build(item, answer, list, kept) => self.builds_so(item, answer, list, kept),
        }
    }
}
