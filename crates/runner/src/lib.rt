// Runs a script from one asking to the next.
#![tactic(auto)]

ghost use Rattle.runner.specs.Run.{Progress, stepped};
ghost use Rattle.script.specs.Rows.{script_in};
ghost use Rattle.machine.specs.Machine.{rest};
ghost use Rattle.std.specs.Prelude.{◌≡◌};

use machine::{Effect, Registers, Waiting};
use script_rows::line_of;

#[derive(Clone, Copy)]
pub enum Step {
    // The script waits for an item; `waiting` takes the answer and goes on.
    Asks { item: u64, waiting: Waiting },
    Gives(u64),
}

// Runs the script of a row from the registers' next line on. A script that runs out of lines gives 0.
pub fn run(script: &[u64], registers: Registers) -> Step
    ensures step { rest (script_in script.now) registers ≡ stepped (script_in script.now) result }
    ensures progress { Progress (script_in script.now) registers result }
{
    let mut state = registers;
    while let Some(line) = line_of(script, state.next_line()) {
        match state.execute(line) {
            Effect::Goes(next) => state = next,
            Effect::Asks { item, waiting } => return Step::Asks { item, waiting },
            Effect::Gives(value) => return Step::Gives(value),
        }
    }
    Step::Gives(0)
}
