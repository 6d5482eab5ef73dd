// Whether an entry is honest: its script is run on nothing but the recorded answers.
ghost use Rattle.entry.specs.Entry.{Honest};
ghost use Rattle.entry.specs.Replay.{difference, differs};
ghost use Rattle.entry.specs.Rows.{askings_in, entry_in};
ghost use Rattle.script.specs.Rows.{script_in};
ghost use Rattle.script.specs.Rule.{task_of};
ghost use Rattle.std.specs.Prelude.{◌≡◌, is_ok, Decides};
ghost use Rattle.std.specs.Result.{result_err};

use super::asking::{Asking, asking_count};
use super::layout::{ASKING_SIZE, RESULT_AT};
use machine::Registers;
use rows::{number_after, tail};
use runner::{Step, run};
use script::SCRIPT_SIZE;

// Otherwise it says which asking first differs from the replay, or how many askings there are: the error is that number, and no code.
pub fn replay(entry: &[u64]) -> Result<(), u64>
    ensures place { result_err result ≡ difference (entry_in entry.now) }
    ensures exactly { Decides (is_ok result) (Honest (entry_in entry.now)) }
{
    replay_parts(
        entry,
        tail(entry, SCRIPT_SIZE),
        number_after(entry, RESULT_AT, 0),
    )
}

fn replay_parts(script: &[u64], askings: &[u64], given: u64) -> Result<(), u64>
    ensures { result_err result ≡ differs 0 (task_of (script_in script.now)) (askings_in askings.now) given }
{
    let count = asking_count(askings);
    let mut registers = Registers::new();
    // By number and not over the askings: the number is what is told.
    for index in 0..count {
        let Step::Asks { item, waiting } = run(script, registers) else {
            return Err(index as u64);
        };
        let asking = Asking::read(askings, 1 + ASKING_SIZE * index);
        if asking.item != item {
            return Err(index as u64);
        }
        registers = waiting.answer(asking.answer);
    }
    let Step::Gives(value) = run(script, registers) else {
        return Err(count as u64);
    };
    if value == given {
        Ok(())
    } else {
        Err(count as u64)
    }
}
