// The sizes of a script and of its place in a row of numbers, each named once.

// Numbers that a line takes in a row: its kind and three more.
pub const LINE_SIZE: usize = 4;

// The highest kind of a line, which gives; any above it counts as it where the line is run.
pub const LAST_KIND: u64 = 5;

// Lines that a script has at most.
pub const MAX_LINES: usize = 32;

// Numbers that a script takes in a row: a count of lines, and room for the most that it has.
pub const SCRIPT_SIZE: usize = 1 + LINE_SIZE * MAX_LINES;

// Lines that a line of kind 4 leaves out at most.
pub const MAX_SKIP: u64 = 32;

// Askings that an entry names at most.
pub const MAX_ASKINGS: usize = 32;

// Registers that a script works on.
pub const REGISTERS: usize = 8;
