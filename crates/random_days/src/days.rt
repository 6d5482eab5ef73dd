// One day from its seed: a house is drawn, its items are filled one by one, and then commands come as they are drawn.
ghost use Rattle.random_days.specs.Counted.{OneMore};
ghost use Rattle.random_days.specs.Days.{AfterCommands, DaySize, FaultAt, FaultlessDay, Foreseen, IsDayCount, RightStep, WrongStep};
ghost use Rattle.random_days.specs.Entries.{first_entries};
ghost use Rattle.random_days.specs.Faultless.{AllFaultless};
ghost use Rattle.random_days.specs.Seeds.{number_at};
ghost use Rattle.std.specs.Prelude.{◌≡◌, ◌≢◌, ◌+◌, ◌*◌, ◌%◌, ◌^◌, ◌<◌, ◌≤◌, Err, IfErr, IfOk, MatchOption, OnOk};
ghost use Rattle.store.specs.Rows.{count_of};

use super::drafts::Draft;
use super::drawing::{draw, draw_first};
use super::fault::Fault;
use super::judging::perform_judged;
use super::pool::Pool;
use super::seed::Seed;
use super::tally::Tally;
use super::view::View;
use super::watched::{Watched, entries};
use entry::ENTRY_SIZE;
use house::{HouseSize, Place};
use std::alloc::{AllocError, Global};
use store::{check_entry, entry_count};

// What is otherwise than the rules have it, and after which command of the day.
#[derive(Clone, Copy)]
pub struct Wrong {
    pub deed: u64,
    pub fault: Fault,
}

// A day ends early where something is wrong.
pub fn run_day(heap: Global, number: u64, tally: &mut Tally) -> Result<Option<Wrong>, AllocError>
    ensures { IfOk result (λ wrong. MatchOption wrong (FaultlessDay tally.old.commands tally.new.commands) (λ wrong. FaultAt tally.old.commands tally.new.commands wrong)) }
{
    let mut day = Day::new(heap, Seed::new(number))?;
    let deeds = day.draw_count();
    for deed in 0..deeds {
        if let Err(fault) = day.perform(heap, deed, tally)? {
            return Ok(Some(Wrong { deed, fault }));
        }
    }
    let honest = judge_entries(day.watched.house.rows.as_slice(), tally);
    Ok(honest.err().map(|fault| Wrong { deed: deeds, fault }))
}

#[derive(Drop)]
struct Day {
    seed: Seed,
    pool: Pool,
    watched: Watched,
}

impl Day {
    fn new(heap: Global, seed: Seed) -> Result<Day, AllocError>
        ensures { IfOk result (λ day. AfterCommands 0 day.watched.house) }
    {
        Ok(Day {
            seed,
            pool: Pool {
                seed: seed.at(1),
                scripts: seed.at(2).between(1, 8),
            },
            watched: Watched::new(heap, draw_size(seed.at(0)))?,
        })
    }

    // How many commands the day has, with those that fill the items.
    fn draw_count(&self) -> u64
        ensures in_day { DaySize self.now.watched.house.size → IsDayCount result }
        ensures number { let size = self.now.watched.house.size in DaySize size → result ≡ size.desks * size.items + (20 + number_at self.now.seed.number 3 % 61) }
    {
        let HouseSize { desks, items, .. } = self.watched.house.size;
        let more = self.seed.at(3).between(20, 80);
        desks.saturating_mul(items).saturating_add(more)
    }

    fn perform(
        &mut self,
        heap: Global,
        deed: u64,
        tally: &mut Tally,
    ) -> Result<Result<(), Fault>, AllocError>
        ensures right { IfOk result (λ judged. OnOk judged (RightStep self.old.watched.house self.new.watched.house)) }
        ensures wrong { IfOk result (λ judged. IfErr judged (WrongStep self.old.watched.house)) }
        ensures fault { IfOk result (λ judged. judged ≢ Err Fault.NotHonest) }
        ensures counted { IfOk result (λ _. OneMore tally.old.commands tally.new.commands) }
    {
        let mut row = [0; ENTRY_SIZE];
        let draft = self.draw(deed, &mut row);
        let command = draft.kind.command(heap, &row)?;
        Ok(perform_judged(&mut self.watched, draft, &command, tally))
    }

    // The first commands fill the items of all desks.
    fn draw(&self, deed: u64, row: &mut [u64]) -> Draft
        ensures { Foreseen self.now.watched.house self.now.pool.seed.number self.now.pool.scripts result row.old row.new }
    {
        let house = &self.watched.house;
        let view = View {
            house,
            pool: self.pool,
        };
        let desk = deed.checked_div(house.size.items).unwrap_or(0);
        let item = deed.checked_rem(house.size.items).unwrap_or(0);
        if desk < house.size.desks {
            draw_first(view, Place { desk, item }, row)
        } else {
            draw(view, self.seed.at(4).at(deed), row)
        }
    }
}

// Most houses are small; some have no room, and some have more than their builds leave.
fn draw_size(seed: Seed) -> HouseSize
    ensures { DaySize result }
{
    let items = if seed.at(0).percent(4) {
        seed.at(1).between(13, 40)
    } else {
        seed.at(1).between(1, 12)
    };
    let room = match seed.at(2).below(10) {
        0 => 0,
        1 => 1,
        2..=5 => seed.at(3).between(2, 8),
        6..=8 => seed.at(3).between(9, 24),
        _ => 100,
    };
    HouseSize {
        desks: seed.at(4).between(1, 8),
        items,
        room,
    }
}

// At the end of a day every entry replays.
fn judge_entries(store: &[u64], tally: &mut Tally) -> Result<(), Fault>
    ensures honest { OnOk result (AllFaultless (first_entries (count_of store.now) store.now)) }
    ensures dishonest { IfErr result (λ _. ¬ AllFaultless (first_entries (count_of store.now) store.now)) }
    ensures fault { IfErr result (λ fault. fault ≡ Fault.NotHonest) }
    ensures counted { tally.new.commands ≡ tally.old.commands }
{
    let mut judged = Ok(());
    for entry in entries(store, entry_count(store)).chunks_exact(ENTRY_SIZE) {
        tally.entries.count();
        match check_entry(entry) {
            Ok(_) => tally.honest.count(),
            Err(_) => judged = Err(Fault::NotHonest),
        }
    }
    judged
}
