// Days of commands, and the first step that goes otherwise than it says: what is told, listed and kept.
ghost use Rattle.house_tests.specs.Stepped.{Otherwise, SpentAnew, Stepped, StoppedAnew, Unmade};
ghost use Rattle.std.specs.Prelude.{◌≡◌, ℕ, Decides, IfOk, MatchBool, MatchOption, OnErr};
ghost use Rattle.store.specs.Rows.{count_of};
ghost use Rattle.test_rows.specs.Laid.{Lists};
ghost use Rattle.test_rows.specs.Spent.{Spent, StopsAt};

use super::draft::Draft;
use super::lent_house::TestedHouse;
use super::step::Step;
use house::HouseSize;
use std::alloc::{AllocError, Global};
use store::entry_count;
use test_rows::lists;

// The number of the first step that goes otherwise in a new house, if one does.
pub fn day_in_new_house(
    heap: Global,
    size: HouseSize,
    day: &[Step],
) -> Result<Option<usize>, AllocError>
    ensures { IfOk result (λ wrong. MatchOption wrong (SpentAnew size day.now) (λ i. StoppedAnew size day.now i)) }
{
    let mut tested = TestedHouse::new(heap, size)?;
    tested.spend(day)
}

impl TestedHouse {
    // The same from how the house is; the day ends with that step.
    pub fn spend(&mut self, day: &[Step]) -> Result<Option<usize>, AllocError>
        ensures went { IfOk result (λ wrong. MatchOption wrong (Spent Stepped day.now self.old.house self.new.house) (λ i. StopsAt Stepped Otherwise day.now i self.old.house self.new.house)) }
        ensures unmade { OnErr result ((i : ℕ) × StopsAt Stepped Unmade day.now i self.old.house self.new.house) }
    {
        for (index, step) in day.iter().enumerate() {
            if !self.take_step(*step)? {
                return Ok(Some(index));
            }
        }
        Ok(None)
    }

    // Whether all is as the step says.
    fn take_step(&mut self, step: Step) -> Result<bool, AllocError>
        ensures went { IfOk result (λ right. MatchBool right (Stepped step self.old.house self.new.house) (Otherwise step self.old.house self.new.house)) }
        ensures unmade { OnErr result (Unmade step self.old.house self.new.house) }
    {
        match step {
            Step::Do(draft, told) => Ok(self.perform(draft)? == told),
            Step::Build(desk, item, told, ran, kept) => {
                let so = self.perform(Draft::Build(desk, item))? == told;
                Ok(so && self.left(ran, kept))
            }
        }
    }

    // Whether the list that stands in its row and the count of the entries are these.
    fn left(&self, ran: &[u64], kept: u64) -> bool
        ensures { Decides result (Lists self.now.house.ran.items ran.now × (count_of self.now.house.rows.items ≡ kept)) }
    {
        lists(self.house.ran.as_slice(), ran) && entry_count(self.house.rows.as_slice()) == kept
    }
}
