//! Files of several segments, made by hand from ELF32's layout, and their images.

use elf_image::Image;
use std::alloc::{AllocError, Global};
use test_support::{image_of, push_words};

/// What a segment's program header says: offset, address, file size, memory size, flags.
pub type Placed = (u32, u32, u32, u32, u32);

/// A file of these segments, at most 99, where the bytes 1 to 16 come after the headers, at 52 and
/// 32 for each. Its header is that of the program of three words but for the entry and the number of segments.
pub fn file_of_segments(
    entry: u32,
    segments: &[Placed],
    alloc: Global,
) -> Result<Vec<u8>, AllocError> {
    let count = segments.len().min(99) as u32;
    let header = [
        0x464c_457f,
        0x0001_0101,
        0,
        0,
        0x00f3_0002,
        1,
        entry,
        52,
        0,
        0,
        0x0020_0034,
        count,
        0,
    ];
    let mut file = Vec::new(alloc);
    push_words(&mut file, &header)?;
    for (offset, address, size, memory, flags) in segments {
        let words = [1, *offset, *address, *address, *size, *memory, *flags, 1];
        push_words(&mut file, &words)?;
    }
    push_words(
        &mut file,
        &[0x0403_0201, 0x0807_0605, 0x0c0b_0a09, 0x100f_0e0d],
    )?;
    Ok(file)
}

/// The image of a file of these segments, where it is accepted.
pub fn image_of_segments(
    entry: u32,
    segments: &[Placed],
    ram: u32,
    alloc: Global,
) -> Option<Image> {
    match file_of_segments(entry, segments, alloc) {
        Ok(file) => image_of(&file, ram, alloc),
        Err(_) => None,
    }
}
