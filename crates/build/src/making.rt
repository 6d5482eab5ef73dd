// What an item comes to: the recursion from item to item, over the scratch of one build.
ghost use Rattle.std.specs.Prelude.{◌<◌};
ghost use Rattle.build.specs.Sound.{IfReady};
ghost use Rattle.build.specs.Made.{AgreedSo, Evaluated, MadeSo, RanSo, RecalledSo};
ghost use Rattle.entry.specs.Entry.{Honest};
ghost use Rattle.entry.specs.Rows.{entry_in};
ghost use Rattle.items.specs.Rows.{max_items};
ghost use Rattle.script.specs.Rows.{script_in};

use super::lent::Lent;
use super::scratch::{Scratch, State};
use super::trace::push_asking;
use entry::{ASKING_SIZE, ASKINGS_SIZE, Asking, RESULT_AT, asking_count};
use items::{Item, Ring, item_of};
use machine::Registers;
use rows::{number_after, parts, tail};
use runner::{Step, run};
use script::SCRIPT_SIZE;
use script_rows::same_script;

// What a run of a script gave, with its askings.
#[derive(Clone, Copy)]
pub struct Gave {
    value: u64,
    askings: [u64; ASKINGS_SIZE],
}

// What is lent stays beside the scratch, since the rows take the new entries while the scratch is still read.
impl Scratch {
    // The value of an item. The depth is never used up before the items are.
    #[cycle(evaluate_make_recall_run_script_answers_agree)]
    pub fn evaluate(&mut self, lent: Lent, depth: usize, item: u64) -> Result<u64, Ring>
        ensures { IfReady lent.entry self.old depth (λ d es. Evaluated d es self.old item result self.new) }
    {
        match item_of(lent.items, item) {
            Item::Written(value) => Ok(value),
            Item::Made(script) => match *self.state(item) {
                State::Found(value) | State::Ran(value, _) => Ok(value),
                State::Open => Err(Ring),
                State::Unseen => {
                    if depth == 0 {
                        return Err(Ring);
                    }
                    self.make(lent, depth - 1, item, script)
                }
            },
        }
    }

    // An item that was not seen before: by an entry that holds, or else by a run.
    #[cycle(evaluate_make_recall_run_script_answers_agree)]
    fn make(&mut self, lent: Lent, depth: usize, item: u64, script: &[u64]) -> Result<u64, Ring>
        requires { item < max_items }
        ensures { MadeSo lent.entry (script_in script.now) depth self.old item result self.new }
    {
        self.mark(item, State::Open);
        if let Some(value) = self.recall(lent, depth, script)? {
            self.mark(item, State::Found(value));
            return Ok(value);
        }
        let gave = self.run_script(lent, depth, script)?;
        self.mark(item, State::Ran(gave.value, gave.askings));
        Ok(gave.value)
    }

    // The result of the first entry of this script whose answers are all right; with none, the script has to be run.
    #[cycle(evaluate_make_recall_run_script_answers_agree)]
    fn recall(&mut self, lent: Lent, depth: usize, script: &[u64]) -> Result<Option<u64>, Ring>
        ensures { IfReady lent.entry self.old depth (λ d es. RecalledSo d es (script_in script.now) self.old result self.new) }
    {
        for row in lent.entries() {
            if same_script(script, row) && self.answers_agree(lent, depth, row)? {
                return Ok(Some(number_after(row, RESULT_AT, 0)));
            }
        }
        Ok(None)
    }

    // Looks at what an entry asked for, in order, as long as the answers agree: what comes after one that differs is not the script's asking.
    #[cycle(evaluate_make_recall_run_script_answers_agree)]
    fn answers_agree(&mut self, lent: Lent, depth: usize, row: &[u64]) -> Result<bool, Ring>
        ensures { IfReady lent.entry self.old depth (λ d es. Honest (entry_in row.now) → AgreedSo d es (entry_in row.now) self.old result self.new) }
    {
        let askings = tail(row, SCRIPT_SIZE);
        for part in parts(tail(askings, 1), ASKING_SIZE, asking_count(askings)) {
            let asking = Asking::read(part, 0);
            if self.evaluate(lent, depth, asking.item)? != asking.answer {
                return Ok(false);
            }
        }
        Ok(true)
    }

    // Runs a script from one asking to the next, each answered with what the item comes to at the desk.
    #[inline(always)]
    #[cycle(evaluate_make_recall_run_script_answers_agree)]
    fn run_script(&mut self, lent: Lent, depth: usize, script: &[u64]) -> Result<Gave, Ring>
        ensures { IfReady lent.entry self.old depth (λ d es. RanSo d es (script_in script.now) self.old result self.new) }
    {
        let mut registers = Registers::new();
        let mut askings = [0; ASKINGS_SIZE];
        loop {
            match run(script, registers) {
                Step::Asks { item, waiting } => {
                    let answer = self.evaluate(lent, depth, item)?;
                    push_asking(&mut askings, Asking { item, answer });
                    registers = waiting.answer(answer);
                }
                Step::Gives(value) => return Ok(Gave { value, askings }),
            }
        }
    }
}
