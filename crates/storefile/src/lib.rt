// Reads the row of a store from the bytes of a file.
#![tactic(auto)]

ghost use Rattle.std.specs.Prelude.{◌≡◌, IfOk};
ghost use Rattle.storefile.specs.File.{StoreRead, numbers_in};
ghost use Rattle.storefile.specs.declared.StoreFileError.TheVariants.{OutOfMemory};

use byte_reading::read_u64;
use std::alloc::{AllocError, Global};
use thiserror::Error;

// Bytes that a number takes.
const NUMBER_BYTES: usize = 8;

#[derive(Clone, Copy, Debug, Error)]
pub enum StoreFileError {
    // The bytes do not come out even in numbers.
    #[error("no row of 64-bit numbers")]
    NotWholeNumbers,
    #[error("out of memory")]
    OutOfMemory(AllocError),
}

impl From<AllocError> for StoreFileError {
    ghost from_gives = { λ error r. r ≡ OutOfMemory error };

    fn from(error: AllocError) -> StoreFileError {
        StoreFileError::OutOfMemory(error)
    }
}

// Numbers of eight bytes each, low byte first, in the layout of a store's row.
pub fn read_store(heap: Global, bytes: &[u8]) -> Result<Vec<u64>, StoreFileError>
    ensures { StoreRead bytes.now result }
{
    if bytes.len() % NUMBER_BYTES != 0 {
        return Err(StoreFileError::NotWholeNumbers);
    }
    Ok(read_numbers(heap, bytes)?)
}

fn read_numbers(heap: Global, bytes: &[u8]) -> Result<Vec<u64>, AllocError>
    ensures { IfOk result (λ numbers. numbers.items ≡ numbers_in bytes.now) }
{
    bytes.chunks_exact(NUMBER_BYTES).map(read_u64).collect(heap)
}
