//! From an image to a file.

ghost use Rattle.std.specs.Prelude.{◌≡◌, ◌+◌, ◌*◌, ◌≤◌, ◌++◌, length, All, IfOk, OnOk, flat_map};
ghost use Rattle.elf_image.specs.Image.{ProgramImage};
ghost use Rattle.elf_image.specs.Checks.{Passes};
ghost use Rattle.elf_image.specs.Loaded.{IsImageOf};
ghost use Rattle.elf_image.specs.declared.refusal.LoadRefused.{LoadRefused as Refusal};
ghost use Rattle.elf_image.specs.Written.{file_header, program_header, program_headers, file_of};

use crate::fields::{push_halves, push_words};
use crate::image::Image;
use crate::segment::Segment;
use std::alloc::{AllocError, Global};

/// A file that is only the file header, of an image with this entry and so many segments.
#[tactic(auto, unfolding(crate::specs::Written::file_header))]
fn start_file(alloc: Global, entry: u32, count: u16) -> Result<Vec<u8>, AllocError>
    ensures { IfOk result (λ file. file.items ≡ file_header entry count) }
{
    let mut file = Vec::new(alloc);
    file.extend_from_slice(&[0x7f, b'E', b'L', b'F', 1, 1, 1, 0, 0, 0, 0, 0, 0, 0, 0, 0])?;
    push_halves(&mut file, &[2, 243])?;
    push_words(&mut file, &[1, entry, 52, 0, 0])?;
    push_halves(&mut file, &[52, 32, count, 0, 0, 0])?;
    Ok(file)
}

/// Appends the program header of a segment whose bytes lie at an offset.
#[tactic(auto, unfolding(crate::specs::Written::program_header))]
fn push_program_header(file: &mut Vec<u8>, segment: &Segment, offset: u32) -> Result<(), AllocError>
    requires { length segment.now.bytes ≤ 16777216 }
    ensures { OnOk result (file.new.items ≡ file.old.items ++ program_header segment.now offset) }
{
    let size = segment.bytes().len() as u32;
    let address = segment.address();
    push_words(
        file,
        &[1, offset, address, address, size, size, segment.flags(), 1],
    )
}

/// Appends the program headers of segments whose bytes lie one after the other from an offset on.
fn push_program_headers(
    file: &mut Vec<u8>,
    segments: &[Segment],
    offset: u32,
) -> Result<(), AllocError>
    requires most { length segments.now ≤ 8 }
    requires sizes { All (λ s. length s.bytes ≤ 16777216) segments.now }
    requires offset { offset ≤ 1024 }
    ensures { OnOk result (file.new.items ≡ file.old.items ++ program_headers segments.now offset) }
{
    let mut offset = offset;
    for segment in segments {
        push_program_header(file, segment, offset)?;
        offset += segment.bytes().len() as u32;
    }
    Ok(())
}

/// Appends the bytes of the segments.
fn push_contents(file: &mut Vec<u8>, segments: &[Segment]) -> Result<(), AllocError>
    ensures { OnOk result
        (file.new.items ≡ file.old.items ++ flat_map (λ s. s.bytes) segments.now) }
{
    for segment in segments {
        file.extend_from_slice(segment.bytes())?;
    }
    Ok(())
}

/// The file of an image: the file header, one program header for each segment by rising address,
/// and the segments' bytes in that order without gaps.
#[tactic(auto, unfolding(crate::specs::Written::file_of))]
pub fn write(alloc: Global, image: &Image) -> Result<Vec<u8>, AllocError>
    ensures exact { IfOk result (λ file. file.items ≡ file_of image.now) }
    // `load` accepts the file in a RAM of the image's own size, and its image is this one.
    ensures passes { IfOk result (λ file. (check : Refusal)
        → Passes file.items image.now.ram check) }
    ensures only { IfOk result (λ file. (other : ProgramImage)
        → IsImageOf file.items image.now.ram other → other ≡ image.now) }
{
    let segments = image.segments();
    let mut file = start_file(alloc, image.entry(), segments.len() as u16)?;
    push_program_headers(&mut file, segments, 52 + 32 * segments.len() as u32)?;
    push_contents(&mut file, segments)?;
    Ok(file)
}
