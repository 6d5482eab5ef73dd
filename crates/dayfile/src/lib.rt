// Reads the bytes of a day's file.
#![tactic(auto)]

mod command;
mod day;
mod head;
mod kind;
mod pieces;

pub use day::{Day, DayError, read_day};
