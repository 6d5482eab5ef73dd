// What is told of whole commands, as they stand in a file. The house has 2 desks of 3 items.
use super::files::told;
use super::pieces::{FINE, add_lines};
use std::alloc::{AllocError, Global};
use std::test::Fail;

const HEAD: [u8; 3] = [2, 3, 4];

const UNKNOWN_KIND: [u8; 13] = [6, 8, 0, 0, 0, 0, 0, 0, 0, 0, 0, 0, 0];

const REGISTER_8: [u8; 13] = [5, 8, 0, 0, 0, 0, 0, 0, 0, 0, 0, 0, 0];

// The last number is 33.
const LONG_LEAP: [u8; 13] = [4, 0, 0, 0, 0, 0, 0, 0, 0, 33, 0, 0, 0];

// Desks and items, and what is told of a command there: first of the desk, then of the item.
const PLACES: [(u8, u8, Option<(u64, u64)>); 8] = [
    (0, 0, None),
    (1, 2, None),
    (2, 0, Some((2, 2))),
    (255, 2, Some((2, 255))),
    (0, 3, Some((3, 3))),
    (1, 255, Some((3, 255))),
    (2, 3, Some((2, 2))),
    (255, 255, Some((2, 255))),
];

#[test]
fn places_of_a_write(rt: HostRuntime) -> Result<(), Fail> {
    for (desk, item, expected) in PLACES {
        let mut file = Vec::from_slice(rt.alloc(), &HEAD)?;
        file.extend_from_slice(&[0, desk, item])?;
        file.extend_from_slice(&[255; 8])?;
        assert_eq!(rt;
            told(rt.alloc(), file.as_slice())?,
            expected,
            "{desk} {item}"
        );
    }
    Ok(())
}

#[test]
fn places_of_a_build(rt: HostRuntime) -> Result<(), Fail> {
    for (desk, item, expected) in PLACES {
        let file = [2, 3, 4, 2, desk, item];
        assert_eq!(rt; told(rt.alloc(), &file)?, expected, "{desk} {item}");
    }
    Ok(())
}

#[test]
fn places_of_a_script(rt: HostRuntime) -> Result<(), Fail> {
    for (desk, item, expected) in PLACES {
        let file = [2, 3, 4, 1, desk, item, 0];
        assert_eq!(rt; told(rt.alloc(), &file)?, expected, "{desk} {item}");
    }
    Ok(())
}

// Which entries there are is not known before the store is.
#[test]
fn throwing_out_is_not_refused_early(rt: HostRuntime) -> Result<(), Fail> {
    assert_eq!(rt; told(rt.alloc(), &[2, 3, 4, 3, 255])?, None);
    Ok(())
}

// A file that gives an item a script of so many lines, of which this is the first.
fn script_file(
    heap: Global,
    desk: u8,
    item: u8,
    count: u8,
    first: [u8; 13],
) -> Result<Vec<u8>, AllocError> {
    let mut file = Vec::from_slice(heap, &HEAD)?;
    file.extend_from_slice(&[1, desk, item])?;
    add_lines(&mut file, count, first)?;
    Ok(file)
}

// Desk, item, count of lines and first line: desk before item before count before line.
const SCRIPTS: [(u8, u8, u8, [u8; 13], Option<(u64, u64)>); 11] = [
    (0, 0, 32, FINE, None),
    (0, 0, 33, FINE, Some((4, 32))),
    (0, 0, 255, FINE, Some((4, 32))),
    (0, 0, 1, UNKNOWN_KIND, Some((5, 0))),
    (0, 0, 32, REGISTER_8, Some((6, 0))),
    (0, 0, 1, LONG_LEAP, Some((7, 0))),
    (2, 0, 1, UNKNOWN_KIND, Some((2, 2))),
    (2, 3, 33, UNKNOWN_KIND, Some((2, 2))),
    (1, 3, 1, LONG_LEAP, Some((3, 3))),
    (1, 3, 33, FINE, Some((3, 3))),
    (1, 2, 33, UNKNOWN_KIND, Some((4, 32))),
];

#[test]
fn scripts_in_a_file(rt: HostRuntime) -> Result<(), Fail> {
    for (index, (desk, item, count, first, expected)) in SCRIPTS.iter().enumerate() {
        let file = script_file(rt.alloc(), *desk, *item, *count, *first)?;
        assert_eq!(rt;
            told(rt.alloc(), file.as_slice())?,
            *expected,
            "script {index}"
        );
    }
    Ok(())
}

// A file that carries in an entry with so many lines, of which this is the first, and so many askings.
fn entry_file(
    heap: Global,
    lines: u8,
    first: [u8; 13],
    askings: u8,
) -> Result<Vec<u8>, AllocError> {
    let mut file = Vec::from_slice(heap, &HEAD)?;
    file.push(4)?;
    add_lines(&mut file, lines, first)?;
    file.push(askings)?;
    // Each asking is of 12 bytes, and the result of 8.
    let length = file.len().saturating_add(12 * usize::from(askings) + 8);
    file.resize(length, 0)?;
    Ok(file)
}

// Count of lines, first line and count of askings: the script before the askings.
const ENTRIES: [(u8, [u8; 13], u8, Option<(u64, u64)>); 11] = [
    (0, FINE, 0, None),
    (32, FINE, 32, None),
    (0, FINE, 33, Some((9, 32))),
    (1, FINE, 255, Some((9, 32))),
    (33, FINE, 0, Some((4, 32))),
    (255, FINE, 255, Some((4, 32))),
    (1, UNKNOWN_KIND, 0, Some((5, 0))),
    (1, REGISTER_8, 0, Some((6, 0))),
    (1, LONG_LEAP, 0, Some((7, 0))),
    (1, LONG_LEAP, 33, Some((7, 0))),
    (33, UNKNOWN_KIND, 33, Some((4, 32))),
];

#[test]
fn entries_in_a_file(rt: HostRuntime) -> Result<(), Fail> {
    for (index, (lines, first, askings, expected)) in ENTRIES.iter().enumerate() {
        let file = entry_file(rt.alloc(), *lines, *first, *askings)?;
        assert_eq!(rt;
            told(rt.alloc(), file.as_slice())?,
            *expected,
            "entry {index}"
        );
    }
    Ok(())
}
