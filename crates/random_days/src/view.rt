// What can be seen of a house while its next command is drawn.
ghost use Rattle.house.specs.Desks.{desk_in, desk_part, desk_size};
ghost use Rattle.std.specs.Prelude.{◌≡◌, ◌+◌, ◌-◌, ◌*◌, ◌^◌, ◌≤◌, ◌⊎◌, length, IfSome};
ghost use Rattle.theory.specs.Clean.{clean, value};

use super::pool::Pool;
use super::seed::Seed;
use clean::{CleanAnswer, clean_build};
use house::{House, HouseSize, Place};
use items::{ITEM_SIZE, MAX_ITEMS};
use rows::{front, tail};

// Numbers of the longest list, with its length.
pub const LIST_SIZE: usize = 1 + MAX_ITEMS;

#[derive(Clone, Copy)]
pub struct View<'a> {
    pub house: &'a House,
    pub pool: Pool,
}

impl View<'_> {
    // A small number, so that answers repeat and name items; seldom one that makes sums wrap.
    pub fn draw_value(self, seed: Seed) -> u64
        ensures { (result ≡ 2 ^ 64 - 1) ⊎ (result ≤ self.entry.house.now.size.items) }
    {
        if seed.at(0).percent(2) {
            return u64::MAX;
        }
        seed.at(1).between(0, self.house.size.items)
    }

    // The clean value of an item, if it has one.
    pub fn clean_value(self, place: Place) -> Option<u64>
        ensures { let house = self.entry.house.now in desk_size house.size.items * (place.desk + 1) ≤ length house.desks.items → IfSome result (λ v. clean (desk_in house.size house.desks.items place.desk) place.item ≡ value v) }
    {
        let mut ran = [0; LIST_SIZE];
        let items = desk_items(self.house.size, self.house.desks.as_slice(), place.desk);
        match clean_build(items, &mut ran, place.item) {
            Ok(CleanAnswer::Value(value)) => Some(value),
            _ => None,
        }
    }
}

// The desk's own part of the row of desks.
pub fn desk_items(size: HouseSize, desks: &[u64], desk: u64) -> &[u64]
    ensures { desk_size size.items * (desk + 1) ≤ length desks.now → result.now ≡ desk_part size desks.now desk }
{
    let numbers = ITEM_SIZE
        .saturating_mul(size.items as usize)
        .saturating_add(1);
    let rest = tail(desks, numbers.saturating_mul(desk as usize));
    front(rest, numbers)
}
