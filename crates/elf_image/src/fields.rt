//! Fields of two and of four bytes, the lowest byte first, read and written.

ghost use Rattle.std.specs.Prelude.{◌≡◌, ◌+◌, ◌≤◌, ◌++◌, length, OnOk, flat_map};
ghost use Rattle.elf_image.specs.Layout.{half_at, word_at};
ghost use Rattle.elf_image.specs.Written.{half_bytes, word_bytes};

use byteorder::{ByteOrder, LittleEndian};
use std::alloc::AllocError;

/// The field of two bytes at a place.
#[tactic(auto, unfolding(crate::specs::Layout::half_at))]
pub fn read_half(file: &[u8], place: usize) -> u16
    requires { place + 2 ≤ length file.now }
    ensures { result ≡ half_at file.now place }
{
    LittleEndian::read_u16(&file[place..])
}

/// The field of four bytes at a place.
#[tactic(auto, unfolding(crate::specs::Layout::word_at))]
pub fn read_word(file: &[u8], place: usize) -> u32
    requires { place + 4 ≤ length file.now }
    ensures { result ≡ word_at file.now place }
{
    LittleEndian::read_u32(&file[place..])
}

/// Appends fields of two bytes.
#[tactic(auto, unfolding(crate::specs::Written::half_bytes))]
pub(crate) fn push_halves(file: &mut Vec<u8>, halves: &[u16]) -> Result<(), AllocError>
    ensures { OnOk result (file.new.items ≡ file.old.items ++ flat_map half_bytes halves.now) }
{
    for half in halves {
        let mut bytes = [0; 2];
        LittleEndian::write_u16(&mut bytes, *half);
        file.extend_from_slice(&bytes)?;
    }
    Ok(())
}

/// Appends fields of four bytes.
#[tactic(auto, unfolding(crate::specs::Written::word_bytes))]
pub(crate) fn push_words(file: &mut Vec<u8>, words: &[u32]) -> Result<(), AllocError>
    ensures { OnOk result (file.new.items ≡ file.old.items ++ flat_map word_bytes words.now) }
{
    for word in words {
        let mut bytes = [0; 4];
        LittleEndian::write_u32(&mut bytes, *word);
        file.extend_from_slice(&bytes)?;
    }
    Ok(())
}
