//! Sizes of RAM, and when two images are the same.

use crate::placing::{Placed, image_of_segments};
use crate::rows::holds_at;
use elf_image::RamSize;
use std::alloc::Global;
use test_support::{EXIT_WITH_5, image_of};

/// The bytes of a size of RAM, if there is one of so many.
fn ram_of(bytes: u32) -> Option<u32> {
    let size = RamSize::new(bytes)?;
    Some(size.bytes())
}

#[test]
fn sizes_of_ram_are_multiples_of_4096(rt: HostRuntime) {
    for bytes in [4096, 65536, 16_777_216] {
        holds_at(&rt, bytes, ram_of(bytes) == Some(bytes));
    }
    for bytes in [0, 2048, 4095, 6144, 16_781_312] {
        holds_at(&rt, bytes, ram_of(bytes).is_none());
    }
}

const CODE: Placed = (116, 0x8000_0000, 8, 8, 5);

const DATA: Placed = (124, 0x8000_1000, 4, 4, 6);

/// An entry and segments, and whether their image is that of CODE and DATA with the first entry.
static COMPARED: [(u32, Placed, Placed, bool); 6] = [
    (0x8000_0004, CODE, DATA, false),
    (0x8000_0000, CODE, (124, 0x8000_1004, 4, 4, 6), false),
    (0x8000_0000, CODE, (125, 0x8000_1000, 4, 4, 6), false),
    (0x8000_0000, CODE, (124, 0x8000_1000, 4, 5, 6), false),
    (0x8000_0000, CODE, (124, 0x8000_1000, 4, 4, 4), false),
    (0x8000_0000, DATA, CODE, true),
];

/// Whether the image of such a file is that of the first, where both files are accepted.
fn is_same(alloc: Global, entry: u32, one: Placed, other: Placed) -> Option<bool> {
    let first = image_of_segments(0x8000_0000, &[CODE, DATA], 8192, alloc)?;
    let second = image_of_segments(entry, &[one, other], 8192, alloc)?;
    Some(first.same_as(&second))
}

/// Whether a copy of an image is the same, where there is memory for one.
fn is_copy_same(alloc: Global) -> Option<bool> {
    let image = image_of(&EXIT_WITH_5, 8192, alloc)?;
    match image.try_clone() {
        Ok(copy) => Some(copy.same_as(&image)),
        Err(_) => None,
    }
}

#[test]
fn a_copy_is_the_same_image_and_another_entry_is_not(rt: HostRuntime) {
    assert!(rt; is_copy_same(rt.alloc()) == Some(true));
    for (entry, one, other, same) in &COMPARED {
        assert!(rt; is_same(rt.alloc(), *entry, *one, *other) == Some(*same));
    }
}
