//! Files that are written of an image, by ELF32's layout, and loaded again.

use crate::placing::file_of_segments;
use elf_image::write;
use std::alloc::Global;
use std::test::Fail;
use test_support::{EXIT_WITH_5, image_of};

/// Whether these bytes, from a place on, are written of a file's image, and what is written is
/// loaded as the same image.
fn is_written(file: &[u8], place: usize, bytes: &[u8], alloc: Global) -> Option<bool> {
    let image = image_of(file, 8192, alloc)?;
    let Ok(written) = write(alloc, &image) else {
        return None;
    };
    let again = image_of(&written, 8192, alloc)?;
    Some(written.get(place..) == Some(bytes) && again.same_as(&image))
}

/// From the program headers on. The segments come by rising address, and what is zero in memory
/// alone is in the file.
static WRITTEN: [u8; 75] = [
    1, 0, 0, 0, 116, 0, 0, 0, 0, 0, 0, 0x80, 0, 0, 0, 0x80, // the data, at byte 116
    3, 0, 0, 0, 3, 0, 0, 0, 6, 0, 0, 0, 1, 0, 0, 0, // 3 bytes, flags R and W
    1, 0, 0, 0, 119, 0, 0, 0, 0, 1, 0, 0x80, 0, 1, 0, 0x80, // the code, right after it
    8, 0, 0, 0, 8, 0, 0, 0, 5, 0, 0, 0, 1, 0, 0, 0, // 8 bytes, flags R and X
    1, 0, 0, 2, 3, 4, 5, 0, 0, 0, 0,
];

#[test]
fn a_written_file_has_the_format_and_is_loaded_again(rt: HostRuntime) -> Result<(), Fail> {
    assert!(rt; is_written(&EXIT_WITH_5, 0, &EXIT_WITH_5, rt.alloc()) == Some(true));
    let segments = [(117, 0x8000_0100, 4, 8, 5), (116, 0x8000_0000, 1, 3, 0x16)];
    let file = file_of_segments(0x8000_0104, &segments, rt.alloc())?;
    assert!(rt; is_written(&file, 52, &WRITTEN, rt.alloc()) == Some(true));
    Ok(())
}
