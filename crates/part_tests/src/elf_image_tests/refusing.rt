//! Files that are refused, each for the first check that fails.

use crate::placing::{Placed, file_of_segments};
use crate::rows::{refuses, says};
use elf_image::{LoadRefused, RamSize, load};
use std::alloc::Global;
use test_support::EXIT_WITH_5;

/// The number of the refusal, None where the file is accepted; 0 where there is no such size of
/// RAM.
fn refusal(file: &[u8], ram: u32, alloc: Global) -> Option<u8> {
    let Some(ram) = RamSize::new(ram) else {
        return Some(0);
    };
    match load(alloc, file, ram) {
        Ok(_) => None,
        Err(reason) => Some(reason.number()),
    }
}

/// A place, and the byte that stands there in the place of that of `EXIT_WITH_5`.
type Change = (u32, u8);

/// The last byte as it is.
const SAME: Change = (95, 0);

/// Two changes, and the number of the refusal, None where the file is accepted.
static CHANGED: [(Change, Change, Option<u8>); 33] = [
    (SAME, SAME, None),
    ((0, 0x7e), SAME, Some(2)),
    ((3, 0x47), SAME, Some(2)),
    ((4, 2), SAME, Some(3)),
    ((4, 2), (1, 0), Some(2)),
    ((5, 2), SAME, Some(4)),
    ((6, 0), SAME, Some(5)),
    ((20, 2), SAME, Some(5)),
    ((16, 3), SAME, Some(6)),
    ((18, 242), SAME, Some(7)),
    ((40, 51), SAME, Some(8)),
    ((42, 31), SAME, Some(8)),
    // The table ends at the end of the file, or a byte past it; it may be empty there.
    ((28, 64), SAME, Some(10)),
    ((28, 65), SAME, Some(9)),
    ((31, 0xff), SAME, Some(9)),
    ((44, 3), SAME, Some(9)),
    ((44, 0), SAME, Some(10)),
    ((44, 0), (28, 96), Some(10)),
    ((44, 0), (28, 97), Some(9)),
    ((52, 2), SAME, Some(10)),
    ((56, 85), SAME, Some(11)),
    ((68, 0), (56, 96), None),
    ((68, 0), (56, 97), Some(11)),
    ((72, 11), SAME, Some(12)),
    ((68, 0), (72, 0), Some(12)),
    ((63, 0x7f), SAME, Some(13)),
    ((61, 0x20), SAME, Some(13)),
    ((76, 4), SAME, Some(15)),
    ((76, 7), SAME, None),
    ((72, 13), SAME, Some(16)),
    ((60, 2), SAME, Some(16)),
    ((24, 2), SAME, Some(17)),
    ((24, 12), SAME, Some(17)),
];

fn changed(one: Change, other: Change) -> [u8; 96] {
    let mut file = EXIT_WITH_5;
    for (place, value) in [one, other] {
        if let Some(byte) = file.get_mut(place as usize) {
            *byte = value;
        }
    }
    file
}

#[test]
fn each_changed_byte_fails_its_own_check(rt: HostRuntime) {
    for (row, changes) in CHANGED.iter().enumerate() {
        let (one, other, number) = *changes;
        let file = changed(one, other);
        refuses(&rt, row, refusal(&file, 8192, rt.alloc()), number);
    }
}

#[test]
fn a_file_that_was_cut_is_refused_where_it_ends(rt: HostRuntime) {
    for length in 0..97usize {
        let number = match length {
            0..=51 => Some(1),
            52..=83 => Some(9),
            84..=95 => Some(11),
            _ => None,
        };
        let found = refusal(&EXIT_WITH_5[..length], 8192, rt.alloc());
        refuses(&rt, length, found, number);
    }
}

const AT_START: Placed = (100, 0x8000_0000, 4, 4, 5);

/// A size of RAM, an entry and segments, and the number of the refusal, None where the file is
/// accepted.
static PLACED: [(u32, u32, &[Placed], Option<u8>); 15] = [
    // The last word of RAM, and a byte past it.
    (4096, 0x8000_0ffc, &[(84, 0x8000_0ffc, 4, 4, 5)], None),
    (4096, 0x8000_0ffc, &[(84, 0x8000_0ffc, 4, 5, 5)], Some(13)),
    (8192, 0x8000_0ffc, &[(84, 0x8000_0ffc, 4, 8, 5)], None),
    (4096, 0x8000_0000, &[(84, 0xffff_fffc, 4, 8, 5)], Some(13)),
    // Neighbours are apart; one shared byte is an overlap, also of the zeros past a file part.
    (
        4096,
        0x8000_0000,
        &[AT_START, (100, 0x8000_0004, 4, 4, 6)],
        None,
    ),
    (
        4096,
        0x8000_0000,
        &[AT_START, (100, 0x8000_0003, 4, 4, 6)],
        Some(14),
    ),
    (
        4096,
        0x8000_0000,
        &[(100, 0x8000_0004, 4, 4, 6), AT_START],
        None,
    ),
    (
        4096,
        0x8000_0000,
        &[(100, 0x8000_0000, 0, 8, 5), (100, 0x8000_0004, 4, 4, 6)],
        Some(14),
    ),
    (
        4096,
        0x8000_0000,
        &[(100, 0x8000_0000, 4, 12, 6), AT_START],
        Some(14),
    ),
    // Two executable segments, and an entry in the one that is not.
    (
        4096,
        0x8000_0000,
        &[AT_START, (100, 0x8000_0010, 4, 4, 5)],
        Some(15),
    ),
    (
        4096,
        0x8000_0010,
        &[AT_START, (100, 0x8000_0010, 4, 4, 6)],
        Some(17),
    ),
    // Every header is checked before the next check begins.
    (
        4096,
        0x8000_0000,
        &[(100, 0x8000_0000, 4, 0, 5), (200, 0x8000_0010, 4, 4, 5)],
        Some(11),
    ),
    (
        4096,
        0x8000_0000,
        &[(100, 0x7000_0000, 4, 4, 5), (100, 0x8000_0010, 4, 3, 5)],
        Some(12),
    ),
    // Eight segments, and one more.
    (
        4096,
        0x8000_0000,
        &[
            AT_START,
            (100, 0x8000_0010, 1, 1, 4),
            (100, 0x8000_0020, 1, 1, 4),
            (100, 0x8000_0030, 1, 1, 4),
            (100, 0x8000_0040, 1, 1, 4),
            (100, 0x8000_0050, 1, 1, 4),
            (100, 0x8000_0060, 1, 1, 4),
            (100, 0x8000_0070, 1, 1, 4),
        ],
        None,
    ),
    (
        4096,
        0x8000_0000,
        &[
            AT_START, AT_START, AT_START, AT_START, AT_START, AT_START, AT_START, AT_START,
            AT_START,
        ],
        Some(10),
    ),
];

/// The number of the refusal of a file of these segments; that of want of memory where there is
/// none for the file.
fn refusal_of(entry: u32, segments: &[Placed], ram: u32, alloc: Global) -> Option<u8> {
    match file_of_segments(entry, segments, alloc) {
        Ok(file) => refusal(&file, ram, alloc),
        Err(_) => Some(18),
    }
}

#[test]
fn segments_are_checked_against_ram_and_each_other(rt: HostRuntime) {
    for (row, placed) in PLACED.iter().enumerate() {
        let (ram, entry, segments, number) = *placed;
        let found = refusal_of(entry, segments, ram, rt.alloc());
        refuses(&rt, row, found, number);
    }
}

#[test]
fn a_refusal_says_its_reason(rt: HostRuntime) {
    let ram = RamSize::new(4096).expect(&rt, "a size");
    let short = load(rt.alloc(), &[0x7f, 0x45, 0x4c, 0x46], ram).err();
    assert!(rt; short == Some(LoadRefused::TooShort));
    let overlap = LoadRefused::SegmentsOverlap;
    assert!(rt; says(&overlap, "two segments overlap", rt.alloc()));
    assert!(rt; LoadRefused::OutOfMemory.number() == 18);
}
