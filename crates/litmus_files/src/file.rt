//! The whole file.

ghost use Rattle.std.specs.Prelude.{◌≡◌, ◌≤◌, ◌++◌, length, IfOk, OnOk};
ghost use Rattle.litmus_tests.specs.WellFormed.{IsWellFormed};
ghost use Rattle.litmus_files.specs.File.{file_with, fronted, joined, named_file, test_file};

use crate::names::{strings_of, symbols_of};
use crate::sections::{Lengths, push_image, push_sections};
use elf_image::Image;
use litmus_tests::{LitmusTest, Location};
use std::alloc::{AllocError, Global};

/// How long the file of an image is at the most, and all names together, and the table of symbols, in bytes. No test
/// comes to so many.
const MOST_BYTES: usize = 16_777_216;

/// How long the header of a file is, in bytes.
const HEADER: usize = 52;

/// The ELF file of a test's image. Its table of symbols has the test's locations and its arrays, each an object of its
/// bytes that all parts of the program know, so that each command that shows or takes names knows them. Fails for want
/// of memory.
pub fn file_of(test: &LitmusTest, image: &Image, alloc: Global) -> Result<Vec<u8>, AllocError>
    requires { IsWellFormed test.now }
    ensures { IfOk result (λ file. file.items ≡ test_file test.now image.now) }
{
    let plain = elf_image::write(alloc, image)?;
    file_with(plain, test.words.len(), test.locations.as_slice(), alloc)
}

/// The file of an image with the names of these locations, of so many words, if there are some.
fn file_with(
    plain: Vec<u8>,
    words: usize,
    locations: &[Location],
    alloc: Global,
) -> Result<Vec<u8>, AllocError>
    requires { words ≤ 64 }
    ensures { IfOk result (λ file. file.items ≡ file_with words locations.now plain.items) }
{
    if locations.is_empty() {
        return Ok(plain);
    }
    named_file(plain.as_slice(), words, locations, alloc)
}

/// The file of an image with the names of these locations, of so many words.
fn named_file(
    image: &[u8],
    words: usize,
    locations: &[Location],
    alloc: Global,
) -> Result<Vec<u8>, AllocError>
    requires { words ≤ 64 }
    ensures { IfOk result (λ file. file.items ≡ named_file words locations.now image.now) }
{
    let strings = strings_of(locations, alloc)?;
    let symbols = symbols_of(locations, alloc)?;
    joined(image, words, symbols.as_slice(), strings.as_slice(), alloc)
}

/// The file of an image with this table of symbols, of so many words, and these names.
fn joined(
    image: &[u8],
    words: usize,
    symbols: &[u8],
    strings: &[u8],
    alloc: Global,
) -> Result<Vec<u8>, AllocError>
    requires { words ≤ 64 }
    ensures { IfOk result (λ file. file.items ≡ joined image.now words symbols.now strings.now) }
{
    if image.len() < HEADER || image.len() > MOST_BYTES {
        return Err(AllocError);
    }
    if symbols.len() > MOST_BYTES || strings.len() > MOST_BYTES {
        return Err(AllocError);
    }
    let lengths = Lengths {
        image: image.len() as u32,
        words: words as u32,
        symbols: symbols.len() as u32,
        strings: strings.len() as u32,
    };
    let mut file = Vec::new(alloc);
    push_front(&mut file, image, lengths)?;
    push_back(&mut file, symbols, strings)?;
    Ok(file)
}

/// Appends the file of an image, and the headers of its sections, which are so long.
#[tactic(auto, unfolding(crate::specs::File::fronted))]
fn push_front(file: &mut Vec<u8>, image: &[u8], lengths: Lengths) -> Result<(), AllocError>
    requires header { 52 ≤ length image.now }
    requires image { lengths.image ≡ length image.now }
    requires few { lengths.image ≤ 16777216 }
    requires words { lengths.words ≤ 64 }
    requires symbols { lengths.symbols ≤ 16777216 }
    ensures { OnOk result (file.new.items ≡ file.old.items
        ++ fronted image.now lengths.words lengths.symbols lengths.strings) }
{
    push_image(file, image)?;
    push_sections(file, lengths)
}

/// Appends the table of symbols, and the names.
fn push_back(file: &mut Vec<u8>, symbols: &[u8], strings: &[u8]) -> Result<(), AllocError>
    ensures { OnOk result (file.new.items ≡ file.old.items ++ (symbols.now ++ strings.now)) }
{
    file.extend_from_slice(symbols)?;
    file.extend_from_slice(strings)?;
    Ok(())
}
