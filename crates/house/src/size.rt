// How large a house is, and which desks and items are in it.
ghost use Rattle.house.specs.Faults.{place_fault};
ghost use Rattle.std.specs.Prelude.{◌≡◌, IfOk, if◌then◌else◌, Some, None, nat_lt};
ghost use Rattle.std.specs.Result.{result_err};

use script::Refusal;

#[derive(Clone, Copy)]
pub struct HouseSize {
    pub desks: u64,
    // Items at each desk.
    pub items: u64,
    // Entries that the store has room for.
    pub room: u64,
}

// An item at a desk, of which either may be missing.
#[derive(Clone, Copy)]
pub struct Place {
    pub desk: u64,
    pub item: u64,
}

impl HouseSize {
    // Refuses a desk that is not there, and then an item that the desk does not have.
    pub fn find(self, desk: u64, item: u64) -> Result<Place, Refusal>
        ensures fault { result_err result ≡ place_fault self desk item }
        ensures value { IfOk result (λ place. (place.desk ≡ desk) × (place.item ≡ item)) }
    {
        let Some(desk) = below(desk, self.desks) else {
            return Err(Refusal::NoSuchDesk { desk });
        };
        let Some(item) = below(item, self.items) else {
            return Err(Refusal::NoSuchItem { item });
        };
        Ok(Place { desk, item })
    }
}

// The number, if it is one of so many.
pub fn below(number: u64, count: u64) -> Option<u64>
    ensures { result ≡ (if nat_lt number count then Some number else None) }
{
    (number < count).then_some(number)
}
