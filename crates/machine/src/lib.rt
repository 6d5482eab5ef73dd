// The machine that a script runs on: its registers, and one line's work on them.
#![tactic(auto)]

mod effect;
mod registers;

pub use effect::{Effect, Waiting};
pub use registers::Registers;
