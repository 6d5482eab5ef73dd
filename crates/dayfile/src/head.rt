// Reads the head of a day's file: how large the house is.
ghost use Rattle.dayfile.specs.Format.{head_in};
ghost use Rattle.std.specs.Prelude.{◌≡◌};

use house::HouseSize;

pub const HEAD_BYTES: usize = 3;

// What the program serves at most.
const MAX_DESKS: u8 = 8;

const MAX_ITEMS: u8 = 16;

const MAX_ROOM: u8 = 16;

pub fn read_head(bytes: &[u8]) -> Option<HouseSize>
    ensures { result ≡ head_in bytes.now }
{
    let [desks, items, room, ..] = bytes else {
        return None;
    };
    let served = (1..=MAX_DESKS).contains(desks)
        && (1..=MAX_ITEMS).contains(items)
        && (0..=MAX_ROOM).contains(room);
    served.then_some(HouseSize {
        desks: u64::from(*desks),
        items: u64::from(*items),
        room: u64::from(*room),
    })
}
