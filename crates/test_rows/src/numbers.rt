// Lists of numbers that tests expect.
ghost use Rattle.std.specs.Prelude.{◌≡◌, ℕ, ◌<◌, length, slice_index, IfOk};

use std::alloc::{AllocError, Global};

// The numbers from 0 on.
pub fn first_numbers(heap: Global, count: u64) -> Result<Vec<u64>, AllocError>
    ensures { IfOk result (λ numbers. (length numbers.items ≡ count) × ((k : ℕ) → k < count → slice_index numbers.items k ≡ k)) }
{
    (0..count).collect(heap)
}
