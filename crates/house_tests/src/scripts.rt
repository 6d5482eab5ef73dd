// Scripts that several tests give to items: each line is a kind and three numbers.

// Asks for items 0 and 1 and gives their sum.
pub const SUM: [[u64; 4]; 4] = [[0, 0, 0, 0], [0, 1, 1, 0], [3, 2, 0, 1], [5, 2, 0, 0]];

// Asks for item 0 and gives twice its value.
pub const TWICE: [[u64; 4]; 3] = [[0, 0, 0, 0], [3, 0, 0, 0], [5, 0, 0, 0]];
