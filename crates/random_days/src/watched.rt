// A house, and as it was before its last command.
ghost use Rattle.house.specs.Deeds.{deed_of};
ghost use Rattle.house.specs.New.{NewHouse};
ghost use Rattle.house.specs.Performed.{PerformedSo};
ghost use Rattle.random_days.specs.Entries.{first_entries};
ghost use Rattle.random_days.specs.Lists.{due_of, list_of};
ghost use Rattle.std.specs.Prelude.{◌≡◌, ◌≤◌, length, IfOk, Decides};
ghost use Rattle.store.specs.Rows.{count_of, room_of};

use entry::ENTRY_SIZE;
use house::{Command, House, HouseSize, Told};
use rows::{front, number_after, tail};
use std::alloc::{AllocError, Global};
use store::{entry_count, entry_of};

// The rows of both have the same lengths.
#[derive(Drop)]
pub struct Watched {
    pub house: House,
    before: House,
    ghost desks: { length before.desks.items ≡ length house.desks.items },
    ghost store: { length before.rows.items ≡ length house.rows.items },
    ghost list: { length before.ran.items ≡ length house.ran.items },
}

impl Watched {
    // As a day begins.
    pub fn new(heap: Global, size: HouseSize) -> Result<Watched, AllocError>
        ensures house { IfOk result (λ watched. NewHouse size watched.house) }
        ensures before { IfOk result (λ watched. NewHouse size watched.before) }
    {
        Ok(Watched {
            house: House::new(heap, size)?,
            before: House::new(heap, size)?,
        })
    }

    pub fn perform(&mut self, command: &Command) -> Told
        ensures size { self.new.house.size ≡ self.old.house.size }
        ensures performed { PerformedSo self.old.house.size (deed_of command.now) self.old.house.desks.items self.old.house.rows.items self.old.house.ran.items result self.new.house.desks.items self.new.house.rows.items self.new.house.ran.items }
        ensures desks { self.new.before.desks.items ≡ self.old.house.desks.items }
        ensures store { self.new.before.rows.items ≡ self.old.house.rows.items }
        ensures ran { self.new.before.ran.items ≡ self.old.house.ran.items }
    {
        self.keep();
        self.house.perform(command)
    }

    fn keep(&mut self)
        ensures house { self.new.house ≡ self.old.house }
        ensures desks { self.new.before.desks.items ≡ self.old.house.desks.items }
        ensures store { self.new.before.rows.items ≡ self.old.house.rows.items }
        ensures ran { self.new.before.ran.items ≡ self.old.house.ran.items }
    {
        self.before
            .desks
            .as_mut_slice()
            .copy_from_slice(self.house.desks.as_slice());
        self.before
            .rows
            .as_mut_slice()
            .copy_from_slice(self.house.rows.as_slice());
        self.before
            .ran
            .as_mut_slice()
            .copy_from_slice(self.house.ran.as_slice());
    }

    pub fn same_desks(&self) -> bool
        ensures { Decides result (self.now.house.desks.items ≡ self.now.before.desks.items) }
    {
        self.house.desks.as_slice() == self.before.desks.as_slice()
    }

    pub fn same_store(&self) -> bool
        ensures { Decides result (self.now.house.rows.items ≡ self.now.before.rows.items) }
    {
        self.house.rows.as_slice() == self.before.rows.as_slice()
    }

    pub fn same_ran(&self) -> bool
        ensures { Decides result (self.now.house.ran.items ≡ self.now.before.ran.items) }
    {
        self.house.ran.as_slice() == self.before.ran.as_slice()
    }

    pub fn same_all(&self) -> bool
        ensures { Decides result ((self.now.house.desks.items ≡ self.now.before.desks.items) × (self.now.house.rows.items ≡ self.now.before.rows.items) × (self.now.house.ran.items ≡ self.now.before.ran.items)) }
    {
        self.same_desks() && self.same_store() && self.same_ran()
    }

    // Whether the entries that were there still stand in their places.
    pub fn same_entries(&self) -> bool
        ensures { Decides result (first_entries (count_of self.now.before.rows.items) self.now.house.rows.items ≡ first_entries (count_of self.now.before.rows.items) self.now.before.rows.items) }
    {
        let count = self.old_count();
        entries(self.house.rows.as_slice(), count) == entries(self.before.rows.as_slice(), count)
    }

    pub fn old_count(&self) -> u64
        ensures { result ≡ count_of self.now.before.rows.items }
    {
        entry_count(self.before.rows.as_slice())
    }

    pub fn count(&self) -> u64
        ensures { result ≡ count_of self.now.house.rows.items }
    {
        entry_count(self.house.rows.as_slice())
    }

    // Whether the store has its room, and holds no more entries.
    pub fn in_room(&self) -> bool
        ensures { Decides result ((room_of self.now.house.rows.items ≡ self.now.house.size.room) × (count_of self.now.house.rows.items ≤ self.now.house.size.room)) }
    {
        let room = self.house.size.room;
        number_after(self.house.rows.as_slice(), 1, 0) == room && self.count() <= room
    }

    // How many items the list has.
    pub fn listed(&self) -> u64
        ensures { result ≡ length (list_of self.now.house.ran.items) }
    {
        listed(self.house.ran.as_slice()).len() as u64
    }

    // How many entries there are if a build keeps all that it ran.
    pub fn due(&self) -> u64
        ensures { result ≡ due_of self.now.before.rows.items self.now.house.ran.items }
    {
        self.old_count().saturating_add(self.listed())
    }
}

// The numbers of the first so many entries.
#[tactic(auto, using(crate::proofs::Fronts::take_most))]
pub fn entries(store: &[u64], count: u64) -> &[u64]
    ensures { result.now ≡ first_entries count store.now }
{
    front(
        entry_of(store, 0),
        ENTRY_SIZE.saturating_mul(count as usize),
    )
}

// The list that stands in a row behind its length.
pub fn listed(ran: &[u64]) -> &[u64]
    ensures { result.now ≡ list_of ran.now }
{
    front(tail(ran, 1), number_after(ran, 0, 0) as usize)
}
