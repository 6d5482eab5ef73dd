// Days of commands: performing a list of them, and what a house promises over every one.
#![tactic(auto)]

mod day;
mod laws;
mod listed;
mod outcome;
mod performing;

pub use day::run_day;
pub use laws::day_laws;
pub use outcome::Outcome;
pub use performing::perform_all;
