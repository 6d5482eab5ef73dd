// A house as tests use it: it is given drafts of commands, and its rows are compared.
ghost use Rattle.house.specs.New.{NewHouse};
ghost use Rattle.house.specs.Performed.{PerformedSo};
ghost use Rattle.house_tests.specs.Drafted.{carries_lines, drafted};
ghost use Rattle.house_tests.specs.Rows.{SameRows};
ghost use Rattle.house_tests.specs.Told.{told_as_numbers};
ghost use Rattle.std.specs.Prelude.{◌≡◌, length, true, Decides, IfOk, OnErr};

use super::draft::Draft;
use house::{House, HouseSize, Told};
use std::alloc::{AllocError, Global};

// A house, and the heap that its commands are made on.
#[derive(Drop)]
pub struct TestedHouse {
    pub heap: Global,
    pub house: House,
}

impl TestedHouse {
    pub fn new(heap: Global, size: HouseSize) -> Result<TestedHouse, AllocError>
        ensures { IfOk result (λ tested. NewHouse size tested.house) }
    {
        Ok(TestedHouse {
            heap,
            house: House::new(heap, size)?,
        })
    }

    pub fn perform(&mut self, draft: Draft) -> Result<Told, AllocError>
        ensures size { self.new.house.size ≡ self.old.house.size }
        ensures lengths { (length self.new.house.rows.items ≡ length self.old.house.rows.items) × (length self.new.house.ran.items ≡ length self.old.house.ran.items) }
        ensures performed { IfOk result (λ told. PerformedSo self.old.house.size (drafted draft) self.old.house.desks.items self.old.house.rows.items self.old.house.ran.items told self.new.house.desks.items self.new.house.rows.items self.new.house.ran.items) }
        ensures unmoved { OnErr result ((self.new.house ≡ self.old.house) × (carries_lines draft ≡ true)) }
    {
        let command = draft.command(self.heap)?;
        Ok(self.house.perform(&command))
    }
}

// A house with the rows of this one.
pub fn copy_rows(heap: Global, house: &House) -> Result<House, AllocError>
    ensures { IfOk result (λ copy. SameRows copy house.now) }
{
    Ok(House {
        size: house.size,
        desks: house.desks.as_slice().iter().copied().collect(heap)?,
        rows: house.rows.as_slice().iter().copied().collect(heap)?,
        ran: house.ran.as_slice().iter().copied().collect(heap)?,
    })
}

pub fn same_rows(house: &House, other: &House) -> bool
    ensures { Decides result (SameRows house.now other.now) }
{
    house.desks.as_slice() == other.desks.as_slice()
        && house.rows.as_slice() == other.rows.as_slice()
        && house.ran.as_slice() == other.ran.as_slice()
}

// What is told, as numbers: which it is, and a value, or a refusal's number and place. The rules number the refusals, and the tables of cases hold these numbers.
pub fn told_numbers(told: Told) -> (u64, u64, u64)
    ensures { result ≡ told_as_numbers told }
{
    match told {
        Told::Done => (0, 0, 0),
        Told::Value(value) => (1, value, 0),
        Told::Ring => (2, 0, 0),
        Told::Refused(refusal) => (3, refusal.number(), refusal.place()),
    }
}
