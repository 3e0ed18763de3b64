//! From a file to an image.

ghost use Rattle.std.specs.Prelude.{◌≡◌, ◌+◌, ◌≤◌, length, map, All, IfOk, IfErr, OnOk};
ghost use Rattle.std.specs.Prelude.{IsPermutation};
ghost use Rattle.std.specs.List.Sorted.{IsNonDecreasingBy};
ghost use Rattle.elf_image.specs.declared.refusal.LoadRefused.{LoadRefused as Refusal};
ghost use Rattle.elf_image.specs.Checks.{Passes, IsLoadRefusal};
ghost use Rattle.elf_image.specs.Layout.{entry_of, loadable};
ghost use Rattle.elf_image.specs.Loaded.{segment_of, IsImageOf};

use crate::checks::{check_code, check_places};
use crate::file_header::read_file_header;
use crate::image::Image;
use crate::program_header::{ProgramHeader, read_loadable};
use crate::ram_size::RamSize;
use crate::refusal::LoadRefused;
use crate::segment::Segment;
use std::alloc::{AllocError, Global};

/// Puts the headers in the order of their addresses.
fn sort_by_address(headers: &mut [ProgramHeader])
    ensures permutation { IsPermutation headers.old headers.new }
    ensures rising { IsNonDecreasingBy (λ h. h.address) headers.new }
{
    headers.sort_unstable_by_key(|h| h.address);
}

/// The segment of a header: its bytes in the file, and then zeros.
fn read_segment(alloc: Global, file: &[u8], header: &ProgramHeader) -> Result<Segment, AllocError>
    requires in_file { header.now.offset + header.now.file_size ≤ length file.now }
    requires in_memory { header.now.file_size ≤ header.now.memory_size }
    ensures { IfOk result (λ segment. segment ≡ segment_of file.now header.now) }
{
    let start = header.offset as usize;
    let mut bytes = Vec::with_capacity(alloc, header.memory_size as usize)?;
    bytes.extend_from_slice(&file[start..start + header.file_size as usize])?;
    bytes.resize(header.memory_size as usize, 0)?;
    Ok(Segment::new(header.address, bytes, (header.flags % 8) as u8))
}

/// The segments of these headers, in the same order.
fn read_segments(
    alloc: Global,
    file: &[u8],
    headers: &[ProgramHeader],
) -> Result<Vec<Segment>, AllocError>
    requires in_file { All (λ h. h.offset + h.file_size ≤ length file.now) headers.now }
    requires in_memory { All (λ h. h.file_size ≤ h.memory_size) headers.now }
    ensures { IfOk result (λ segments. segments.items ≡ map (segment_of file.now) headers.now) }
{
    let mut segments = Vec::with_capacity(alloc, headers.len())?;
    for header in headers {
        segments.push(read_segment(alloc, file, header)?)?;
    }
    Ok(segments)
}

/// The image of a file that passes all checks, where these are its loadable headers by rising
/// address.
fn make_image(
    alloc: Global,
    file: &[u8],
    ram: RamSize,
    entry: u32,
    order: &[ProgramHeader],
) -> Result<Image, AllocError>
    requires passed { (check : Refusal) → Passes file.now ram check }
    requires entry { entry ≡ entry_of file.now }
    requires all { IsPermutation (loadable file.now) order.now }
    requires rising { IsNonDecreasingBy (λ h. h.address) order.now }
    ensures { IfOk result (λ image. IsImageOf file.now ram image) }
{
    // The getter tells the proof that the size is one that RAM may have.
    let _size = ram.bytes();
    let segments = read_segments(alloc, file, order)?;
    Ok(Image::new(ram, entry, segments))
}

/// The image of an ELF32 file, in a RAM of this size. The first check that the file fails is the
/// refusal; memory is asked for after all of them.
pub fn load(alloc: Global, file: &[u8], ram: RamSize) -> Result<Image, LoadRefused>
    ensures refused { IfErr result (λ reason. IsLoadRefusal file.now ram reason) }
    ensures passes { OnOk result ((check : Refusal) → Passes file.now ram check) }
    ensures image { IfOk result (λ image. IsImageOf file.now ram image) }
{
    let header = read_file_header(file)?;
    let place = header.table_offset as usize;
    let mut headers = read_loadable(file, place, header.table_count as usize).ok_or(
        LoadRefused::WrongSegmentCount,
    )?;
    check_places(file, ram, &headers)?;
    check_code(file, ram, &headers, header.entry)?;
    sort_by_address(&mut headers);
    make_image(alloc, file, ram, header.entry, &headers).map_err(|_| LoadRefused::OutOfMemory)
}
