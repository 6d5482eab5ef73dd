// The build that remembers: an item is made by a kept entry where one still holds, and run where none does.
#![tactic(auto)]

mod building;
mod ending;
mod lent;
mod making;
mod scratch;
mod trace;

pub use building::{Answer, build_item};
