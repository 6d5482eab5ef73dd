// What one build knows of each item of the desk, on the stack.
ghost use Rattle.std.specs.Prelude.{◌≡◌, ◌<◌};
ghost use Rattle.items.specs.Rows.{max_items};
ghost use Rattle.build.specs.Scratch.{fresh, marked, state_of};

use entry::ASKINGS_SIZE;
use items::{HasRun, MAX_ITEMS};

// How far one item has come in this build.
#[derive(Clone, Copy)]
pub enum State {
    Unseen,
    // It is being made, or was when a ring ended the build.
    Open,
    // An entry gave the value.
    Found(u64),
    // Its script was run: the value, and the askings of the run.
    Ran(u64, [u64; ASKINGS_SIZE]),
}

#[derive(Drop)]
pub struct Scratch {
    states: [State; MAX_ITEMS],
}

impl Scratch {
    pub fn new() -> Scratch
        ensures { result ≡ fresh }
    {
        Scratch {
            states: [State::Unseen; MAX_ITEMS],
        }
    }

    pub fn state(&self, item: u64) -> &State
        requires { item < max_items }
        ensures { result.now ≡ state_of self.now item }
    {
        &self.states[item as usize]
    }

    pub fn mark(&mut self, item: u64, state: State)
        requires { item < max_items }
        ensures { self.new ≡ marked self.old item state }
    {
        self.states[item as usize] = state;
    }
}

impl HasRun for Scratch {
    ghost use Rattle.build.specs.Leaves.{is_run};
    ghost use Rattle.build.specs.Scratch.{state_of};

    ghost has_run = { λ scratch item. is_run (state_of scratch item) };

    fn has_run(&self, item: u64) -> bool {
        matches!(self.states.get(item as usize), Some(State::Ran(..)))
    }
}
