// From the bytes of a day to what is printed of it.
#![tactic(auto)]

mod lines;
mod text;

pub use text::day_text;
