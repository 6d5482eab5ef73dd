// The list of the items that a build ran, in a lent row: how many, and then their numbers.
ghost use Rattle.std.specs.Prelude.{◌≡◌, ℕ, ◌+◌, ◌<◌, Bool, List, [], ◌∷◌, ◌++◌, length, slice_index, if◌then◌else◌, nat_lt};
ghost use Rattle.items.specs.Listing.{listed};
ghost use Rattle.theory.specs.Reference.{passing};

// What a build knows of each item.
pub trait HasRun {
    ghost has_run: { Self → ℕ → Bool };

    // Whether the item's script was run to its end; one that the build knows nothing of was not run.
    fn has_run(&self, item: u64) -> bool
        ensures { result ≡ has_run self.now item };
}

// Writes how many of the items below `count` were run, and then their numbers, which rise; a row with no room for all of them stays as it was.
pub fn list_runs<S: HasRun>(states: &S, count: usize, row: &mut [u64])
    ensures { row.new ≡ (if nat_lt count (length row.old) then listed (passing (S.has_run states.now) 0 count) row.old else row.old) }
{
    if row.len() <= count {
        return;
    }
    row[0] = 0;
    for item in 0..count as u64 {
        if states.has_run(item) {
            push(row, item);
        }
    }
}

// Puts a number behind those that the row counts.
fn push(row: &mut [u64], number: u64)
    requires { slice_index row.old 0 + 1 < length row.old }
    ensures { (list before : List ℕ) → row.old ≡ listed list before → row.new ≡ listed (list ++ number ∷ []) before }
{
    row[0] += 1;
    row[row[0] as usize] = number;
}
