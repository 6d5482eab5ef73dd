// From item to item: an item's script is run, and each asking is answered by evaluating the item asked for.
ghost use Rattle.clean.specs.Builds.{is_known};
ghost use Rattle.clean.specs.Marks.{mark_of};
ghost use Rattle.clean.specs.Outcomes.{Evaluated, Ran};
ghost use Rattle.clean.specs.Sound.{Ready};
ghost use Rattle.items.specs.Rows.{items_in, max_items};
ghost use Rattle.script.specs.Rows.{script_in};
ghost use Rattle.script.specs.Rule.{task_of};
ghost use Rattle.std.specs.Prelude.{◌≡◌, replicate};

use super::mark::Mark;
use items::{HasRun, Item, MAX_ITEMS, Ring, item_of};
use machine::Registers;
use runner::{Step, run};

// The items of a desk, and how far a build has come with each.
#[derive(Drop)]
pub struct Evaluation<'a> {
    items: &'a [u64],
    marks: [Mark; MAX_ITEMS],
}

impl<'a> Evaluation<'a> {
    pub fn new(items: &'a [u64]) -> Evaluation<'a>
        ensures same { result.items.now ≡ items.now }
        ensures fresh { result.marks ≡ replicate max_items Mark.Unseen }
    {
        Evaluation {
            items,
            marks: [Mark::Unseen; MAX_ITEMS],
        }
    }

    // An item that is met while it is open is needed for itself. No more items than `depth` are unseen, so the depth lasts.
    #[cycle(evaluate_run_script)]
    pub fn evaluate(&mut self, depth: usize, item: u64) -> Result<u64, Ring>
        requires { Ready (items_in self.old.items.now) self.old.marks depth }
        ensures same { self.new.items.now ≡ self.old.items.now }
        ensures outcome { Evaluated (items_in self.old.items.now) self.old.marks self.new.marks item result }
    {
        let items = self.items;
        let script = match item_of(items, item) {
            Item::Written(value) => return Ok(value),
            Item::Made(script) => script,
        };
        match self.marks[item as usize] {
            Mark::Known(value) => return Ok(value),
            Mark::Open => return Err(Ring),
            Mark::Unseen => self.marks[item as usize] = Mark::Open,
        }
        let value = self.run_script(depth - 1, script)?;
        self.marks[item as usize] = Mark::Known(value);
        Ok(value)
    }

    // A ring ends the run, and with it everything above. Its return is written out, so that the edit of it that must fail changes nothing else.
    #[cycle(evaluate_run_script)]
    fn run_script(&mut self, depth: usize, script: &[u64]) -> Result<u64, Ring>
        requires { Ready (items_in self.old.items.now) self.old.marks depth }
        ensures same { self.new.items.now ≡ self.old.items.now }
        ensures outcome { Ran (items_in self.old.items.now) self.old.marks self.new.marks (task_of (script_in script.now)) result }
    {
        let mut registers = Registers::new();
        loop {
            match run(script, registers) {
                Step::Gives(value) => return Ok(value),
                Step::Asks { item, waiting } => {
                    let Ok(value) = self.evaluate(depth, item) else {
                        return Err(Ring);
                    };
                    registers = waiting.answer(value);
                }
            }
        }
    }
}

// The items whose scripts ran to their end are those that are known.
impl HasRun for Evaluation<'_> {
    ghost has_run = { λ evaluation item. is_known (mark_of evaluation.marks item) };

    fn has_run(&self, item: u64) -> bool {
        matches!(self.marks.get(item as usize), Some(Mark::Known(_)))
    }
}
