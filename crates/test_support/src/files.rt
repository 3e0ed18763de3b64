//! The files of the programs that the crates of tests run, and the images of files.

use elf_image::{Image, RamSize, load};
use std::alloc::{AllocError, Global};

/// The file of a program of three words: `addi x10,x0,5`, `addi x17,x0,93`, `ecall` at 80000000,
/// where it enters.
pub static EXIT_WITH_5: [u8; 96] = [
    0x7f, 0x45, 0x4c, 0x46, 1, 1, 1, 0, 0, 0, 0, 0, 0, 0, 0, 0, // identification
    2, 0, 243, 0, 1, 0, 0, 0, 0, 0, 0, 0x80, 52, 0, 0, 0, // executable, RISC-V, version, entry, table
    0, 0, 0, 0, 0, 0, 0, 0, 52, 0, 32, 0, 1, 0, 0, 0, 0, 0, 0, 0, // header sizes, one program header
    1, 0, 0, 0, 84, 0, 0, 0, 0, 0, 0, 0x80, 0, 0, 0, 0x80, // loadable, at byte 84, address 80000000
    12, 0, 0, 0, 12, 0, 0, 0, 5, 0, 0, 0, 1, 0, 0, 0, // 12 bytes in file and memory, flags R and X
    0x13, 0x05, 0x50, 0x00, 0x93, 0x08, 0xd0, 0x05, 0x73, 0x00, 0x00, 0x00,
];

/// Appends words, the lowest byte of each first.
pub fn push_words(file: &mut Vec<u8>, words: &[u32]) -> Result<(), AllocError> {
    for word in words {
        file.extend_from_slice(&word.to_le_bytes())?;
    }
    Ok(())
}

/// The file of a program of these words, at most 63, at 80000000, where it enters. Its one segment
/// is readable and executable, and has so many more words, at most 63, of zeros in memory.
pub fn file_of(words: &[u32], zeros: u8, alloc: Global) -> Result<Vec<u8>, AllocError> {
    let size = 4 * words.len().min(63) as u8;
    let mut file = Vec::new(alloc);
    file.extend_from_slice(&EXIT_WITH_5[..84])?;
    for (place, size) in [(68, size), (72, size.wrapping_add(4 * zeros.min(63)))] {
        if let Some(byte) = file.get_mut(place) {
            *byte = size;
        }
    }
    push_words(&mut file, words)?;
    Ok(file)
}

/// A program that copies its last word over its fifth, which is reached behind `fence.i`: `auipc x6`,
/// `lw x5,28(x6)`, `sw x5,16(x6)`, `fence.i`, `addi x10,x0,5`, `addi x17,x0,93`, `ecall`, and the word
/// `addi x10,x0,9`.
pub static PATCHED: [u32; 8] = [
    0x0000_0317,
    0x01c3_2283,
    0x0053_2823,
    0x0000_100f,
    0x0050_0513,
    0x05d0_0893,
    0x0000_0073,
    0x0090_0513,
];

/// The file of a program of these words, at most 63, as `file_of` makes it, but that its segment may be
/// written too.
pub fn writable_file_of(words: &[u32], alloc: Global) -> Result<Vec<u8>, AllocError> {
    let mut file = file_of(words, 0, alloc)?;
    if let Some(flags) = file.get_mut(76) {
        *flags = 7;
    }
    Ok(file)
}

/// The image of a file with so many bytes of RAM, where there is such a size and the file is
/// accepted.
pub fn image_of(file: &[u8], ram: u32, alloc: Global) -> Option<Image> {
    load(alloc, file, RamSize::new(ram)?).ok()
}
