// Reads the lines and the askings that a command carries from lent rows; numbers past the last whole one are not read.
ghost use Rattle.capi.specs.Pieces.{askings_from, lines_from};
ghost use Rattle.std.specs.Prelude.{◌≡◌, IfOk};

use entry::{ASKING_SIZE, Asking};
use script::{LINE_SIZE, SourceLine};
use std::alloc::{AllocError, Global};

// Two chains: one that takes the size and a closure for the piece would be no shorter where it is called.
pub fn read_lines(heap: Global, numbers: &[u64]) -> Result<Vec<SourceLine>, AllocError>
    ensures { IfOk result (λ lines. lines.items ≡ lines_from numbers.now) }
{
    numbers
        .chunks_exact(LINE_SIZE)
        .map(|piece| SourceLine::read(piece, 0))
        .collect(heap)
}

pub fn read_askings(heap: Global, numbers: &[u64]) -> Result<Vec<Asking>, AllocError>
    ensures { IfOk result (λ askings. askings.items ≡ askings_from numbers.now) }
{
    numbers
        .chunks_exact(ASKING_SIZE)
        .map(|piece| Asking::read(piece, 0))
        .collect(heap)
}
