// Where the parts of an entry stand in its row.
use script::{MAX_ASKINGS, SCRIPT_SIZE};

// Numbers that an asking takes: the item and the answer.
pub const ASKING_SIZE: usize = 2;

// Numbers that the askings take: a count of them, and room for the most that an entry names.
pub const ASKINGS_SIZE: usize = 1 + ASKING_SIZE * MAX_ASKINGS;

// The result is the last number.
pub const RESULT_AT: usize = SCRIPT_SIZE + ASKINGS_SIZE;

// Numbers that an entry takes: its script, its askings and its result.
pub const ENTRY_SIZE: usize = RESULT_AT + 1;
