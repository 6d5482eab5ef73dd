// What tests of several crates share: refusals as the rules number them, rows as the rules lay them out, and how one thing comes after the other.
#![tactic(auto)]

mod desk;
mod listed;
mod numbers;
mod pieces;
mod refusals;

pub use desk::Desk;
pub use listed::lists;
pub use numbers::first_numbers;
pub use pieces::{put_pieces, put_script};
pub use refusals::{numbers_of, told};
