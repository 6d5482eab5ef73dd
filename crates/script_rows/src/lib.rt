// A script in a row: reading its lines, writing it, comparing two.
#![tactic(auto)]

mod comparing;
mod reading;
mod writing;

pub use comparing::same_script;
pub use reading::{line_count, line_of};
pub use writing::{write_script, write_source};
