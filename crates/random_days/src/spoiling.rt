// Makes scripts and entries in rows that the rules refuse, and says how.
ghost use Rattle.entry.specs.Layout.{entry_size};
ghost use Rattle.random_days.specs.Drawn.{EntryRefusedOrOpen, ScriptRefused};
ghost use Rattle.random_days.specs.Recorded.{Believed};
ghost use Rattle.random_days.specs.Spoiled.{ChangedEntry, Changeable, EntryTold, ScriptTold, SpoiledScript, asking_place, raised};
ghost use Rattle.script.specs.Allowed.{ScriptAllowed, sources_in};
ghost use Rattle.script.specs.Layout.{max_askings, max_lines, script_size};
ghost use Rattle.std.specs.Prelude.{◌≡◌, ◌≤◌, ◌⊎◌, length, slice_index};

use super::expected::Expected;
use super::seed::Seed;
use entry::{ASKING_SIZE, RESULT_AT};
use rows::{number_after, put_all};
use script::{LINE_SIZE, MAX_ASKINGS, Refusal, SCRIPT_SIZE};

// One more than a script has of lines and an entry of askings.
const TOO_MANY: u64 = 33;

// Where an entry's askings begin, with their count.
const ASKINGS_AT: usize = SCRIPT_SIZE;

// Says that the script has too many lines, or puts a line into it that is not allowed.
pub fn spoil_script(seed: Seed, row: &mut [u64]) -> Expected
    ensures refusal { ScriptRefused result }
    ensures changed { script_size ≤ length row.old → slice_index row.old 0 ≤ max_lines → SpoiledScript result row.old row.new }
    ensures told { script_size ≤ length row.old → ScriptAllowed (sources_in row.old) → ScriptTold result row.new }
{
    let count = number_after(row, 0, 0);
    let line = seed.at(1).below(count);
    let beyond = seed.at(2).below(100);
    let (numbers, refusal) = match seed.at(0).below(4) {
        0 => {
            put_all(row, 0, &[TOO_MANY]);
            return Expected::Refused(Refusal::TooManyLines);
        }
        1 => (
            [beyond.saturating_add(6), 0, 0, 0],
            Refusal::UnknownKind { line },
        ),
        2 => (
            [4, 1, beyond.saturating_add(8), beyond],
            Refusal::NoSuchRegister { line },
        ),
        _ => (
            [4, 1, 2, beyond.saturating_add(TOO_MANY)],
            Refusal::SkipsTooMany { line },
        ),
    };
    let at = LINE_SIZE.saturating_mul(line as usize).saturating_add(1);
    put_all(row, 0, &[count.max(1)]);
    put_all(row, at, &numbers);
    Expected::Refused(refusal)
}

// Changes an honest entry: its script, or one number behind it.
#[tactic(auto, using(crate::proofs::Draws::script_spoils))]
pub fn spoil_entry(seed: Seed, row: &mut [u64]) -> Expected
    ensures refusal { EntryRefusedOrOpen result }
    ensures changed { entry_size ≤ length row.old → slice_index row.old 0 ≤ max_lines → slice_index row.old script_size ≤ max_askings → SpoiledScript result row.old row.new ⊎ ChangedEntry result row.old row.new }
    ensures told { entry_size ≤ length row.old → Believed row.old → EntryTold result row.new }
{
    if seed.at(3).percent(25) {
        return spoil_script(seed, row);
    }
    let count = number_after(row, ASKINGS_AT, 0);
    let asking = seed.at(4).below(count);
    match Changed::draw(seed.at(5), count) {
        Changed::TooManyAskings => {
            put_all(row, ASKINGS_AT, &[TOO_MANY]);
            Expected::Refused(Refusal::TooManyAskings)
        }
        Changed::Count => {
            raise(row, ASKINGS_AT);
            not_honest(count)
        }
        Changed::Item => {
            raise(row, asking_at(asking));
            not_honest(asking)
        }
        Changed::Answer => {
            raise(row, asking_at(asking).saturating_add(1));
            Expected::Open
        }
        Changed::Result => {
            raise(row, RESULT_AT);
            not_honest(count)
        }
    }
}

// The number of an entry that is changed; all but the first are raised by one.
#[derive(Clone, Copy)]
enum Changed {
    // The count of askings, to more than there may be.
    TooManyAskings,
    Count,
    // What an asking asks for, and its answer.
    Item,
    Answer,
    Result,
}

impl Changed {
    // An entry with no asking has none to change, and one with the most has no more.
    fn draw(seed: Seed, count: u64) -> Changed
        ensures { Changeable result count }
    {
        match seed.below(6) {
            0 => Changed::TooManyAskings,
            1 if count < MAX_ASKINGS as u64 => Changed::Count,
            2 | 3 if count > 0 => Changed::Item,
            4 if count > 0 => Changed::Answer,
            _ => Changed::Result,
        }
    }
}

// Where an asking stands in the entry.
fn asking_at(asking: u64) -> usize
    ensures { asking ≤ max_askings → result ≡ asking_place asking }
{
    ASKING_SIZE
        .saturating_mul(asking as usize)
        .saturating_add(ASKINGS_AT + 1)
}

#[tactic(auto, using(crate::proofs::Spoils::written_one))]
fn raise(row: &mut [u64], at: usize)
    ensures { row.new ≡ raised at row.old }
{
    put_all(row, at, &[number_after(row, at, 0).wrapping_add(1)]);
}

fn not_honest(asking: u64) -> Expected
    ensures { result ≡ Expected.Refused (Refusal.NotHonest asking) }
{
    Expected::Refused(Refusal::NotHonest { asking })
}
