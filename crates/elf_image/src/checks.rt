//! The checks of the segments: each is made over all loadable segments before the next.

ghost use Rattle.std.specs.Prelude.{◌≡◌, ◌+◌, ◌%◌, ◌<◌, ◌≤◌, ◌↔◌, length, IsTrue, All};
ghost use Rattle.std.specs.Prelude.{AllPairs, count_by, IfErr, OnOk};
ghost use Rattle.elf_image.specs.Image.{ram_start};
ghost use Rattle.elf_image.specs.Checks.{is_executable, AreApart, Passes};
ghost use Rattle.elf_image.specs.Checks.{IsLoadRefusal};
ghost use Rattle.elf_image.specs.Layout.{entry_of, loadable};
ghost use Rattle.elf_image.specs.Refusal.{reason_number};
ghost use Rattle.elf_image.specs.declared.refusal.LoadRefused.{LoadRefused as Refusal};

use crate::program_header::ProgramHeader;
use crate::ram_size::{RAM_START, RamSize};
use crate::refusal::LoadRefused;

/// Makes the checks of where the loadable segments lie, 10 to 14, on a file that passes those
/// before.
pub(crate) fn check_places(
    file: &[u8],
    ram: RamSize,
    headers: &[ProgramHeader],
) -> Result<(), LoadRefused>
    requires headers { headers.now ≡ loadable file.now }
    requires most { length headers.now ≤ 8 }
    requires passed { (check : Refusal) → reason_number check < 10 → Passes file.now ram check }
    ensures refused { IfErr result (λ reason. IsLoadRefusal file.now ram reason) }
    ensures passes { OnOk result ((check : Refusal) → reason_number check < 15
        → Passes file.now ram check) }
{
    if headers.is_empty() {
        return Err(LoadRefused::WrongSegmentCount);
    }
    if !are_in_file(headers, file) {
        return Err(LoadRefused::SegmentOutsideFile);
    }
    if !have_memory(headers) {
        return Err(LoadRefused::WrongMemorySize);
    }
    if !are_in_ram(headers, ram) {
        return Err(LoadRefused::SegmentOutsideRam);
    }
    if !are_apart(headers) {
        return Err(LoadRefused::SegmentsOverlap);
    }
    Ok(())
}

/// Makes the checks of the code and the entry, 15 to 17, on a file that passes those before.
pub(crate) fn check_code(
    file: &[u8],
    ram: RamSize,
    headers: &[ProgramHeader],
    entry: u32,
) -> Result<(), LoadRefused>
    requires headers { headers.now ≡ loadable file.now }
    requires most { length headers.now ≤ 8 }
    requires entry { entry ≡ entry_of file.now }
    requires passed { (check : Refusal) → reason_number check < 15 → Passes file.now ram check }
    ensures refused { IfErr result (λ reason. IsLoadRefusal file.now ram reason) }
    ensures passes { OnOk result ((check : Refusal) → Passes file.now ram check) }
{
    if !one_is_executable(headers) {
        return Err(LoadRefused::WrongCodeSegment);
    }
    if !code_is_aligned(headers) {
        return Err(LoadRefused::MisalignedCode);
    }
    if entry % 4 != 0 || !entry_is_in_code(headers, entry) {
        return Err(LoadRefused::WrongEntry);
    }
    Ok(())
}

/// Whether each segment's bytes in the file are there.
fn are_in_file(headers: &[ProgramHeader], file: &[u8]) -> bool
    ensures { IsTrue result ↔ All (λ h. h.offset + h.file_size ≤ length file.now) headers.now }
{
    headers
        .iter()
        .all(|h| h.offset as usize + h.file_size as usize <= file.len())
}

/// Whether each segment has bytes in memory, and no fewer than in the file.
fn have_memory(headers: &[ProgramHeader]) -> bool
    ensures { IsTrue result
        ↔ All (λ h. (0 < h.memory_size) × (h.file_size ≤ h.memory_size)) headers.now }
{
    headers
        .iter()
        .all(|h| 0 < h.memory_size && h.file_size <= h.memory_size)
}

/// Whether each segment is wholly in RAM.
fn are_in_ram(headers: &[ProgramHeader], ram: RamSize) -> bool
    ensures { IsTrue result
        ↔ All (λ h. (ram_start ≤ h.address) × (h.address + h.memory_size ≤ ram_start + ram))
        headers.now }
{
    let end = RAM_START as u64 + ram.bytes() as u64;
    headers.iter().all(|h| RAM_START <= h.address && h.address as u64 + h.memory_size as u64 <= end)
}

/// Whether no two segments share an address.
fn are_apart(headers: &[ProgramHeader]) -> bool
    ensures { IsTrue result ↔ AllPairs AreApart headers.now }
{
    for later in 0..headers.len() {
        for earlier in 0..later {
            if !headers[earlier].is_apart_from(&headers[later]) {
                return false;
            }
        }
    }
    true
}

/// Whether exactly one segment is executable.
fn one_is_executable(headers: &[ProgramHeader]) -> bool
    requires { length headers.now ≤ 8 }
    ensures { IsTrue result ↔ (count_by is_executable headers.now ≡ 1) }
{
    headers.iter().filter(|h| h.is_executable()).count() == 1
}

/// Whether an executable segment's address and size are multiples of 4.
fn code_is_aligned(headers: &[ProgramHeader]) -> bool
    ensures { IsTrue result
        ↔ All (λ h. IsTrue (is_executable h) → (h.address % 4 ≡ 0) × (h.memory_size % 4 ≡ 0))
        headers.now }
{
    headers.iter().all(|h| !h.is_executable() || h.address % 4 == 0 && h.memory_size % 4 == 0)
}

/// Whether the entry is in each executable segment.
fn entry_is_in_code(headers: &[ProgramHeader], entry: u32) -> bool
    ensures { IsTrue result
        ↔ All (λ h. IsTrue (is_executable h)
        → (h.address ≤ entry) × (entry < h.address + h.memory_size)) headers.now }
{
    headers.iter().all(|h| {
        !h.is_executable()
            || h.address <= entry && (entry as u64) < h.address as u64 + h.memory_size as u64
    })
}
