//! What comes of files made by hand from ELF32's layout: their images here, and in `refusing` the
//! refusals.

mod refusing;

use crate::placing::{Placed, image_of_segments};
use crate::rows::holds_at;
use elf_image::Image;
use std::alloc::Global;
use std::process::Abort;
use std::test::Fail;
use test_support::{EXIT_WITH_5, image_of};

/// Compares the words and the bytes at some addresses.
fn has(rt: &impl Abort, image: &Image, words: &[(u32, Option<u32>)], bytes: &[(u32, Option<u8>)]) {
    for (pc, word) in words {
        holds_at(rt, *pc, image.code_word(*pc) == *word);
    }
    for (address, byte) in bytes {
        holds_at(rt, *address, image.byte(*address) == *byte);
    }
}

static WORDS: [(u32, Option<u32>); 7] = [
    (0x8000_0000, Some(0x0050_0513)),
    (0x8000_0004, Some(0x05d0_0893)),
    (0x8000_0008, Some(0x0000_0073)),
    (0x8000_000c, None),
    (0x8000_0002, None),
    (0x7fff_fffc, None),
    (0xffff_fffc, None),
];

static BYTES: [(u32, Option<u8>); 8] = [
    (0x7fff_ffff, None),
    (0x8000_0000, Some(0x13)),
    (0x8000_0007, Some(0x05)),
    (0x8000_0008, Some(0x73)),
    (0x8000_000c, Some(0)),
    (0x8000_1fff, Some(0)),
    (0x8000_2000, None),
    (0xffff_ffff, None),
];

#[test]
fn loads_the_words_and_bytes_of_a_file(rt: HostRuntime) -> Result<(), Fail> {
    let image = image_of(&EXIT_WITH_5, 8192, rt.alloc()).ok_or("refused")?;
    let places = (image.ram().bytes(), image.entry(), image.code());
    assert!(rt; places == (8192, 0x8000_0000, (0x8000_0000, 12)));
    has(&rt, &image, &WORDS, &BYTES);
    Ok(())
}

/// Whether the code of the program of three words may be written, where its segment has these flags.
fn is_writable(flags: u8, alloc: Global) -> Option<bool> {
    let mut file = EXIT_WITH_5;
    file[76] = flags;
    Some(image_of(&file, 8192, alloc)?.code_writable())
}

#[test]
fn code_may_be_written_where_its_segment_has_the_flag(rt: HostRuntime) {
    assert!(rt; is_writable(5, rt.alloc()) == Some(false));
    assert!(rt; is_writable(7, rt.alloc()) == Some(true));
    assert!(rt; is_writable(3, rt.alloc()) == Some(true));
}

static PLACED_WORDS: [(u32, Option<u32>); 2] = [
    (0x8000_0204, Some(0x100f_0e0d)),
    (0x8000_0208, Some(0)),
];

static PLACED_BYTES: [(u32, Option<u8>); 6] = [
    (0x8000_00ff, Some(0)),
    (0x8000_0100, Some(5)),
    (0x8000_0101, Some(6)),
    (0x8000_0102, Some(0)),
    (0x8000_0200, Some(9)),
    (0x8000_0208, Some(0)),
];

#[test]
fn segments_lie_where_their_headers_say_and_end_in_zeros(rt: HostRuntime) -> Result<(), Fail> {
    let segments = [
        (120, 0x8000_0100, 2, 4, 0xfffe),
        (124, 0x8000_0200, 8, 12, 1),
    ];
    let image = image_of_segments(0x8000_0204, &segments, 4096, rt.alloc()).ok_or("refused")?;
    assert!(rt; (image.entry(), image.code()) == (0x8000_0204, (0x8000_0200, 12)));
    has(&rt, &image, &PLACED_WORDS, &PLACED_BYTES);
    Ok(())
}

/// Where the k-th segment of data lies, at this place behind a multiple of eight: its offset in the
/// file, its address, three bytes of the file, and five in memory.
fn shifted(k: u32, shift: u32) -> Placed {
    let behind = shift.wrapping_add(k) % 8;
    let offset = shift.wrapping_add(k.wrapping_mul(3)) % 8;
    let address = 0x8000_0100u32
        .wrapping_add(k.wrapping_mul(16))
        .wrapping_add(behind);
    (308 + offset, address, 3, 5, 6)
}

/// Whether a segment of data has its three bytes, of the bytes 1 to 16 from 308 on in the file, and
/// zeros before and behind them.
fn lies_there(image: &Image, segment: Placed) -> bool {
    let (offset, address, _, _, _) = segment;
    let first = u8::try_from(offset.wrapping_sub(307)).unwrap_or(0);
    let bytes = [0, first, first.wrapping_add(1), first.wrapping_add(2), 0, 0];
    let mut is = true;
    for (place, byte) in (0..6u32).zip(&bytes) {
        let at = address.wrapping_add(place).wrapping_sub(1);
        is &= image.byte(at) == Some(*byte);
    }
    is
}

#[test]
fn eight_segments_lie_at_every_alignment(rt: HostRuntime) -> Result<(), Fail> {
    for shift in 0..8 {
        let mut segments = [(316, 0x8000_0000, 4, 4, 5); 8];
        for (k, segment) in (1..8).zip(segments[1..].iter_mut()) {
            *segment = shifted(k, shift);
        }
        let image = image_of_segments(0x8000_0000, &segments, 4096, rt.alloc()).ok_or("refused")?;
        let are = segments[1..]
            .iter()
            .all(|segment| lies_there(&image, *segment));
        holds_at(&rt, shift, are);
    }
    Ok(())
}
