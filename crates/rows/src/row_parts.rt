// The parts of one size that stand in a row one behind the other.
ghost use Rattle.rows.specs.Parts.{parts_left};
ghost use Rattle.rows.specs.Rows.{chunks};
ghost use Rattle.std.specs.Iterator.{YieldsFirstRef, item_count};
ghost use Rattle.std.specs.Prelude.{◌≡◌};

use super::tail;

// Each part is the rest of the row from its first number on, so that it is read where it stands.
#[derive(Drop)]
pub struct RowParts<'a, N> {
    rest: &'a [N],
    size: usize,
    left: usize,
}

// So many parts, also past the row's end, where nothing is left of them.
pub fn parts<N>(row: &[N], size: usize, count: usize) -> RowParts<'_, N>
    ensures { parts_left result ≡ chunks (λ xs. xs) size count row.now }
{
    RowParts {
        rest: row,
        size,
        left: count,
    }
}

impl<'a, N> Iterator for RowParts<'a, N> {
    type Item = &'a [N];

    ghost next_gives = { YieldsFirstRef parts_left };

    ghost remaining = { item_count parts_left };

    #[tactic(auto, using(crate::proofs::Chunks::chunks_next, crate::proofs::Chunks::chunks_over, crate::proofs::Chunks::length_chunks))]
    fn next(&mut self) -> Option<&'a [N]> {
        self.left = self.left.checked_sub(1)?;
        let part = self.rest;
        self.rest = tail(part, self.size);
        Some(part)
    }

    // So that who collects what the parts say asks for memory once.
    #[tactic(auto, using(crate::proofs::Chunks::length_chunks))]
    fn size_hint(&self) -> (usize, Option<usize>) {
        (self.left, Some(self.left))
    }
}
