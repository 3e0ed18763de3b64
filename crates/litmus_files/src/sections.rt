//! Where the parts of a file lie that aren't loaded (ELF32, "Sections").

ghost use Rattle.std.specs.Prelude.{◌≡◌, ◌≤◌, ◌++◌, length, take, OnOk};
ghost use Rattle.litmus_files.specs.File.{begun, located, numbered, section_headers, spoken_for, strings_located};
ghost use Rattle.litmus_files.specs.File.{symbols_located};

use crate::names::push_words;
use elf_image::RAM_START;
use std::alloc::AllocError;

/// The size of a section's header in bytes.
const HEADER: u32 = 40;

/// The size of a symbol's entry in bytes.
const ENTRY: u32 = 16;

/// Where the words of the locations lie in the file: behind its header and those of two segments.
const LOCATIONS_BEGIN: u32 = 116;

/// How long a part of a file is.
#[derive(Clone, Copy, Drop)]
pub(crate) struct Lengths {
    /// Of the file of the image, in bytes.
    pub(crate) image: u32,
    /// How many words the locations have.
    pub(crate) words: u32,
    /// Of the table of symbols, in bytes.
    pub(crate) symbols: u32,
    /// Of all names, in bytes.
    pub(crate) strings: u32,
}

/// Appends the headers of four sections: one that is empty, the words of the locations, the table of symbols, and the
/// names. The last two lie behind these headers.
#[tactic(auto, unfolding(crate::specs::File::section_headers))]
pub(crate) fn push_sections(file: &mut Vec<u8>, lengths: Lengths) -> Result<(), AllocError>
    requires image { lengths.image ≤ 16777216 }
    requires words { lengths.words ≤ 64 }
    requires symbols { lengths.symbols ≤ 16777216 }
    ensures { OnOk result (file.new.items ≡ file.old.items
        ++ section_headers lengths.image lengths.words lengths.symbols lengths.strings) }
{
    file.extend_from_slice(&[0; 40])?;
    push_locations(file, lengths.words)?;
    let begin = lengths.image + 4 * HEADER;
    push_symbols(file, begin, lengths.symbols)?;
    push_strings(file, begin + lengths.symbols, lengths.strings)
}

/// Appends the header of the section of so many words of locations, which are loaded and may be written.
#[tactic(auto, unfolding(crate::specs::File::located))]
fn push_locations(file: &mut Vec<u8>, words: u32) -> Result<(), AllocError>
    requires { words ≤ 64 }
    ensures { OnOk result (file.new.items ≡ file.old.items ++ located words) }
{
    push_words(
        file,
        &[1, 1, 3, RAM_START, LOCATIONS_BEGIN, 4 * words, 0, 0, 4, 0],
    )
}

/// Appends the header of the table of symbols. The first that all parts of the program know is its second.
#[tactic(auto, unfolding(crate::specs::File::symbols_located))]
fn push_symbols(file: &mut Vec<u8>, begin: u32, length: u32) -> Result<(), AllocError>
    ensures { OnOk result (file.new.items ≡ file.old.items ++ symbols_located begin length) }
{
    push_words(file, &[12, 2, 0, 0, begin, length, 3, 1, 4, ENTRY])
}

/// Appends the header of the names.
#[tactic(auto, unfolding(crate::specs::File::strings_located))]
fn push_strings(file: &mut Vec<u8>, begin: u32, length: u32) -> Result<(), AllocError>
    ensures { OnOk result (file.new.items ≡ file.old.items ++ strings_located begin length) }
{
    push_words(file, &[20, 3, 0, 0, begin, length, 0, 0, 1, 0])
}

/// Appends the file of an image, with what its header says of sections: they are four, behind it, and the last has their
/// names.
pub(crate) fn push_image(file: &mut Vec<u8>, image: &[u8]) -> Result<(), AllocError>
    requires header { 52 ≤ length image.now }
    requires few { length image.now ≤ 16777216 }
    ensures { OnOk result (file.new.items ≡ file.old.items ++ spoken_for image.now) }
{
    push_begun(file, image)?;
    push_numbered(file, image)?;
    file.extend_from_slice(&image[52..])?;
    Ok(())
}

/// Appends the header up to where the headers of the sections lie: behind the file.
#[tactic(auto, unfolding(crate::specs::File::begun))]
fn push_begun(file: &mut Vec<u8>, image: &[u8]) -> Result<(), AllocError>
    requires header { 52 ≤ length image.now }
    requires few { length image.now ≤ 16777216 }
    ensures { OnOk result (file.new.items ≡ file.old.items ++ begun image.now) }
{
    file.extend_from_slice(first_part(image))?;
    push_words(file, &[image.len() as u32])
}

fn first_part(image: &[u8]) -> &[u8]
    requires { 52 ≤ length image.now }
    ensures { result.now ≡ take 32 image.now }
{
    &image[..32]
}

/// Appends the rest of the header, with how many sections there are.
#[tactic(auto, unfolding(crate::specs::File::numbered))]
fn push_numbered(file: &mut Vec<u8>, image: &[u8]) -> Result<(), AllocError>
    requires { 52 ≤ length image.now }
    ensures { OnOk result (file.new.items ≡ file.old.items ++ numbered image.now) }
{
    file.extend_from_slice(&image[36..46])?;
    file.extend_from_slice(&[40, 0, 4, 0, 3, 0])?;
    Ok(())
}
