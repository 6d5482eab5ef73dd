// Which houses are let in.
use dayfile::{Day, DayError, read_day};
use std::test::Fail;

// 1 to 8 desks, 1 to 16 items, room for 0 to 16 entries.
const HEADS: [([u8; 3], bool); 14] = [
    ([1, 1, 0], true),
    ([8, 16, 16], true),
    ([0, 1, 0], false),
    ([1, 1, 16], true),
    ([8, 1, 0], true),
    ([9, 1, 0], false),
    ([255, 1, 0], false),
    ([1, 0, 0], false),
    ([1, 16, 0], true),
    ([1, 17, 0], false),
    ([1, 255, 0], false),
    ([1, 1, 17], false),
    ([1, 1, 255], false),
    ([0, 0, 17], false),
];

#[test]
fn bounds_of_a_house(rt: HostRuntime) -> Result<(), Fail> {
    for (index, (head, let_in)) in HEADS.iter().enumerate() {
        let seen = match read_day(rt.alloc(), head) {
            Ok(Day { size, .. }) => {
                assert_eq!(rt; size.desks, u64::from(head[0]));
                assert_eq!(rt; size.items, u64::from(head[1]));
                assert_eq!(rt; size.room, u64::from(head[2]));
                true
            }
            Err(DayError::HouseRefused) => false,
            Err(DayError::OutOfMemory(_)) => return Err(Fail::new("out of memory")),
        };
        assert_eq!(rt; seen, *let_in, "head {index}");
    }
    Ok(())
}
