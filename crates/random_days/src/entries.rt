// Honest entries in a row: read back from the store, or recorded from a run of a script.
ghost use Rattle.entry.specs.Layout.{entry_size};
ghost use Rattle.random_days.specs.Recorded.{RecordedEntry};
ghost use Rattle.rows.specs.Rows.{written_at};
ghost use Rattle.std.specs.Prelude.{◌≡◌, drop, take};
ghost use Rattle.store.specs.Rows.{entry_at};

use super::seed::Seed;
use super::view::View;
use entry::{ASKING_SIZE, Asking, ENTRY_SIZE, RESULT_AT};
use house::Place;
use machine::Registers;
use rows::{front, put_all};
use runner::{Step, run};
use script::{MAX_ASKINGS, SCRIPT_SIZE};
use store::entry_of;

pub fn read_back(store: &[u64], index: u64, row: &mut [u64])
    ensures { row.new ≡ written_at row.old 0 (take entry_size (drop (entry_at index) store.now)) }
{
    put_all(row, 0, front(entry_of(store, index as usize), ENTRY_SIZE));
}

// Runs a script of the day on a desk's clean values, or on answers that no desk may have.
pub fn record_run(view: View<'_>, seed: Seed, row: &mut [u64])
    ensures behind { drop entry_size row.new ≡ drop entry_size row.old }
    ensures honest { RecordedEntry row.old row.new }
{
    view.pool
        .write_script(seed.at(0).below(view.pool.scripts), row);
    let mut registers = Registers::new();
    // By its number, which is counted in the row and by which each answer is drawn.
    for index in 0..MAX_ASKINGS {
        let Step::Asks { item, waiting } = run(row, registers) else {
            break;
        };
        let answer = draw_answer(view, seed, index as u64, item);
        put_all(row, SCRIPT_SIZE, &[index as u64 + 1]);
        Asking { item, answer }.write(row, SCRIPT_SIZE + 1 + ASKING_SIZE * index);
        registers = waiting.answer(answer);
    }
    if let Step::Gives(result) = run(row, registers) {
        put_all(row, RESULT_AT, &[result]);
    }
}

fn draw_answer(view: View<'_>, seed: Seed, asking: u64, item: u64) -> u64 {
    let drawn = view.draw_value(seed.at(1).at(asking));
    let desk = seed.at(2).below(view.house.size.desks);
    if seed.at(3).percent(40) {
        return drawn;
    }
    view.clean_value(Place { desk, item }).unwrap_or(drawn)
}
