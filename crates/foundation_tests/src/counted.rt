// A counted list that is written by what gives the numbers of each piece.
use rows::put_counted;

const PIECES: [[u64; 2]; 3] = [[11, 12], [21, 22], [31, 32]];

// How many pieces of two numbers, how long a row of nines they are written into, and what it is then: a row with no room stays as it was.
const WRITTEN: [(usize, usize, [u64; 8]); 8] = [
    (3, 8, [3, 11, 12, 21, 22, 31, 32, 0]),
    (3, 7, [3, 11, 12, 21, 22, 31, 32, 9]),
    (3, 6, [9, 9, 9, 9, 9, 9, 9, 9]),
    (2, 8, [2, 11, 12, 21, 22, 0, 0, 0]),
    (2, 5, [2, 11, 12, 21, 22, 9, 9, 9]),
    (2, 4, [9, 9, 9, 9, 9, 9, 9, 9]),
    (0, 8, [0, 0, 0, 0, 0, 0, 0, 0]),
    (0, 0, [9, 9, 9, 9, 9, 9, 9, 9]),
];

#[test]
fn pieces_stand_behind_their_count(rt: HostRuntime) {
    for (case, (count, length, expected)) in WRITTEN.iter().enumerate() {
        let mut row = [9; 8];
        put_counted(&mut row[..*length], 2, *count, |index| PIECES[index % 3]);
        assert_eq!(rt; row, *expected, "case {case}");
    }
}

// Pieces of one length that are slices, and more of them than there can be numbers.
#[test]
fn sizes_that_are_counted_at_run_time(rt: HostRuntime) {
    let mut row = [9; 8];
    put_counted(&mut row, 3, 2, |_| &[7, 8, 9][..]);
    assert_eq!(rt; row, [2, 7, 8, 9, 7, 8, 9, 0]);
    put_counted(&mut row, usize::MAX, 2, |_| &[1][..]);
    assert_eq!(rt; row, [2, 7, 8, 9, 7, 8, 9, 0]);
}
