// Entries: what one run of a script leaves, in its row of numbers, and whether it replays.
#![tactic(auto)]

mod asking;
mod honesty;
mod layout;
mod parts;
mod writing;

pub use asking::{Asking, asking_count, asking_of};
pub use honesty::replay;
pub use layout::{ASKING_SIZE, ASKINGS_SIZE, ENTRY_SIZE, RESULT_AT};
pub use parts::write_from_parts;
pub use writing::write_entry;
