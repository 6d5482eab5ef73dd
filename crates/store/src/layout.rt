// Where the parts of a store stand in its row.

// How many entries are kept.
pub const COUNT_AT: usize = 0;

// How many there is room for.
pub const ROOM_AT: usize = 1;

pub const ENTRIES_AT: usize = 2;
