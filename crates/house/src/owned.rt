// A house that owns its three rows: the desks, the store, and the list of what ran.
ghost use Rattle.house.specs.Deeds.{deed_of};
ghost use Rattle.house.specs.New.{NewHouse};
ghost use Rattle.house.specs.Performed.{PerformedSo};
ghost use Rattle.std.specs.Prelude.{◌≡◌, length, IfOk};

use super::command::Command;
use super::desks::new_desks;
use super::perform::Told;
use super::size::HouseSize;
use std::alloc::{AllocError, Global};
use store::empty_store;

#[derive(Drop)]
pub struct House {
    pub size: HouseSize,
    pub desks: Vec<u64>,
    // The store.
    pub rows: Vec<u64>,
    pub ran: Vec<u64>,
}

impl House {
    // The house of a day's beginning.
    pub fn new(heap: Global, size: HouseSize) -> Result<House, AllocError>
        ensures { IfOk result (λ house. NewHouse size house) }
    {
        Ok(House {
            size,
            desks: new_desks(heap, size)?,
            rows: empty_store(heap, size.room)?,
            // Its length, and room for every item of a desk.
            ran: vec![in heap; 0; (size.items as usize).saturating_add(1)]?,
        })
    }

    pub fn perform(&mut self, command: &Command) -> Told
        ensures size { self.new.size ≡ self.old.size }
        ensures lengths { (length self.new.desks.items ≡ length self.old.desks.items) × (length self.new.rows.items ≡ length self.old.rows.items) × (length self.new.ran.items ≡ length self.old.ran.items) }
        ensures performed { PerformedSo self.old.size (deed_of command.now) self.old.desks.items self.old.rows.items self.old.ran.items result self.new.desks.items self.new.rows.items self.new.ran.items }
    {
        command.perform(
            self.size,
            self.desks.as_mut_slice(),
            self.rows.as_mut_slice(),
            self.ran.as_mut_slice(),
        )
    }
}
