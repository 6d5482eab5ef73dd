// The store of entries in its row: adding, importing, removing, and the room for them.
#![tactic(auto)]

mod adding;
mod check;
mod empty;
mod layout;
mod reading;
mod removing;

pub use adding::{add_entry, admit_entry, import_entry};
pub use check::{check_asking_count, check_entry, check_store};
pub use empty::empty_store;
pub use reading::{entry_count, entry_of, entry_room};
pub use removing::remove_entry;
