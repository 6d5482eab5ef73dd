// Imports an entry from outside into the store.
ghost use Rattle.std.specs.Prelude.{◌≡◌, ◌≤◌, length, is_ok, if◌then◌else◌};
ghost use Rattle.entry.specs.Replay.{difference};
ghost use Rattle.entry.specs.Rows.{entry_of};
ghost use Rattle.house.specs.Faults.{bring_fault};
ghost use Rattle.script.specs.Allowed.{or_else};
ghost use Rattle.script.specs.Layout.{max_askings, max_lines};
ghost use Rattle.script.specs.declared.refusal.Refusal.TheVariants.{NotHonest};
ghost use Rattle.std.specs.Option.{option_map};
ghost use Rattle.std.specs.Result.{result_err};
ghost use Rattle.store.specs.Faults.{add_fault};
ghost use Rattle.store.specs.Rows.{added};

use super::check::check_parts;
use entry::{Asking, ENTRY_SIZE, write_from_parts};
use script::{Refusal, SourceLine};
use store::admit_entry;

// Its script is checked line by line, then its count of askings; it is believed only if it replays, and goes to the end.
pub fn import(
    rows: &mut [u64],
    lines: &[SourceLine],
    askings: &[Asking],
    given: u64,
) -> Result<(), Refusal>
    ensures fault { result_err result ≡ bring_fault rows.old lines.now askings.now given }
    ensures after { rows.new ≡ (if is_ok result then added rows.old (entry_of lines.now askings.now given) else rows.old) }
{
    check_parts(lines, askings)?;
    admit(rows, lines, askings, given)
}

fn admit(
    rows: &mut [u64],
    lines: &[SourceLine],
    askings: &[Asking],
    given: u64,
) -> Result<(), Refusal>
    requires lines { length lines.now ≤ max_lines }
    requires askings { length askings.now ≤ max_askings }
    ensures fault { result_err result ≡ or_else (option_map NotHonest (difference (entry_of lines.now askings.now given))) (add_fault rows.old) }
    ensures after { rows.new ≡ (if is_ok result then added rows.old (entry_of lines.now askings.now given) else rows.old) }
{
    let mut row = [0; ENTRY_SIZE];
    write_from_parts(&mut row, lines, askings, given);
    admit_entry(rows, &row)
}
