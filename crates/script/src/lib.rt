// Scripts: their lines, how a line stands in a row, and the list of refusals.
#![tactic(auto)]

mod layout;
mod line;
mod refusal;
mod source;

pub use layout::{LAST_KIND, LINE_SIZE, MAX_ASKINGS, MAX_LINES, MAX_SKIP, REGISTERS, SCRIPT_SIZE};
pub use line::Line;
pub use refusal::Refusal;
pub use source::SourceLine;
