// Reads pieces of one length that stand one behind the other: the lines and the askings of a command.
ghost use Rattle.std.specs.Prelude.{◌≡◌, ℕ, List, IfOk};
ghost use Rattle.dayfile.specs.Format.{asking_bytes, asking_in_bytes, line_bytes, line_in_bytes};
ghost use Rattle.rows.specs.Rows.{chunks};

use byte_reading::{byte_at, read_u32, read_u64};
use entry::Asking;
use rows::{parts, tail};
use script::SourceLine;
use std::alloc::{AllocError, Global};

// What can be read from the first of its bytes on.
pub trait Piece: Sized {
    ghost reads: { List ℕ → Self };

    ghost SIZE: { ℕ };

    // How many bytes it takes.
    const SIZE: usize;

    fn read(bytes: &[u8]) -> Self
        ensures { result ≡ reads bytes.now };
}

impl Piece for SourceLine {
    ghost reads = { line_in_bytes };

    ghost SIZE = { line_bytes };

    const SIZE: usize = 13;

    fn read(bytes: &[u8]) -> SourceLine {
        let first = read_u32(tail(bytes, 1));
        let second = read_u32(tail(bytes, 5));
        let third = read_u32(tail(bytes, 9));
        SourceLine::from_numbers(u64::from(byte_at(bytes, 0)), first, second, third)
    }
}

impl Piece for Asking {
    ghost reads = { asking_in_bytes };

    ghost SIZE = { asking_bytes };

    const SIZE: usize = 12;

    fn read(bytes: &[u8]) -> Asking {
        Asking {
            item: read_u32(bytes),
            answer: read_u64(tail(bytes, 4)),
        }
    }
}

pub fn read_pieces<T: Piece + Drop>(
    heap: Global,
    bytes: &[u8],
    count: u8,
) -> Result<Vec<T>, AllocError>
    ensures { IfOk result (λ pieces. pieces.items ≡ chunks T.Piece.reads T.Piece.SIZE count bytes.now) }
{
    parts(bytes, T::SIZE, usize::from(count))
        .map(|piece| T::read(piece))
        .collect(heap)
}
