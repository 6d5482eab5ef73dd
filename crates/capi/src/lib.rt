// The house for programs that are not Rattle: the build itself, and one function for each kind of command.
// A lent row crosses as a pointer and a length. That the pointers are good for it, and that no two rows that are written overlap, is the caller's to see to.
// The size and the three rows of a house cross one by one in each function, since this is how the others call them.
#![tactic(auto)]

mod at_desk;
mod at_store;
mod building;
mod outcome;
mod pieces;

pub use at_desk::Size;
pub use outcome::Outcome;
