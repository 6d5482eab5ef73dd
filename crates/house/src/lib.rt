// The house: its desks, and the commands that are given at them.
#![tactic(auto)]

mod check;
mod command;
mod desk_commands;
mod desks;
mod import;
mod owned;
mod perform;
mod size;

pub use command::Command;
pub use desks::new_desks;
pub use owned::House;
pub use perform::Told;
pub use size::{HouseSize, Place};
