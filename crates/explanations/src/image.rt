//! What is said of an image.

ghost use Rattle.std.specs.Prelude.{◌≡◌, ◌+◌, ◌*◌, ◌<◌, ◌≤◌, IfOk, OnOk, length};
ghost use Rattle.text_fields.specs.{Printing.Prints};
ghost use Rattle.elf_image.specs.Refusal.{reason_number};
ghost use Rattle.elf_image.specs.Layout.{table_offset, table_count, loadable};
ghost use Rattle.std.specs.Io.KnownBytes.{Appends};
ghost use Rattle.explanations.specs.Explained.{IsImageExplained, IsRefusedBy};
ghost use Rattle.explanations.specs.ImageRefusal.{IsImageRefusedText, refused_line, fault_text, found_text};
ghost use Rattle.explanations.specs.ImageText.{IsImageText, IsImageTextBehind};

use crate::check_words::{mended, words_of_check};
use crate::enough_ram::ram_that_would_do;
use crate::file_fault::{
    write_byte, write_first_bytes, write_header_sizes, write_length, write_machine, write_table,
    write_type, write_version,
};
use crate::headers::read_loadable;
use crate::lines::joined;
use crate::names::write_names;
use crate::segment_fault::{
    write_code, write_count, write_entry_and_code, write_outside_file, write_outside_ram,
    write_wrong_size,
};
use crate::segments::{free_behind, write_image, write_segments};
use arrayvec::ArrayString;
use elf_image::{Image, LoadRefused, ProgramHeader, RamSize, load, read_half, read_word};
use std::alloc::{AllocError, Global};
use std::io;
use std::io::Write;
use text_fields::{push_ascii, push_small_number};

/// What is said of an image.
#[derive(Drop)]
pub struct ImageExplained {
    /// The first check that it fails; none where it passes all.
    pub refused: Option<LoadRefused>,
    /// Lines for a person. The first says whether it is accepted, or the number of the check.
    pub text: Vec<u8>,
}

/// Says of a file what is in it as an image, or why it is none, for a memory of this size. Fails only
/// for want of memory.
pub fn explain_image(file: &[u8], ram: RamSize, alloc: Global) -> Result<ImageExplained, AllocError>
    ensures { IfOk result (IsImageExplained file.now ram) }
{
    match load(alloc, file, ram) {
        Ok(image) => {
            let text = accepted_text(file, &image, alloc)?;
            Ok(ImageExplained {
                refused: None,
                text,
            })
        }
        Err(LoadRefused::OutOfMemory) => Err(AllocError),
        Err(check) => {
            let text = refused_text(file, ram, check, alloc)?;
            Ok(ImageExplained {
                refused: Some(check),
                text,
            })
        }
    }
}

/// What is said of a file that is the file of this image.
#[tactic(auto, using(crate::proofs::Printed::told_image))]
fn accepted_text(file: &[u8], image: &Image, alloc: Global) -> Result<Vec<u8>, AllocError>
    requires whole { 52 ≤ length file.now }
    requires table { table_offset file.now + 32 * table_count file.now ≤ length file.now }
    ensures { IfOk result (λ text. IsImageText file.now image.now text.items) }
{
    let headers = read_loadable(file, alloc)?;
    let free = free_behind(image);
    let mut rest = Vec::new(alloc);
    match write_all(file, image, &headers, free, &mut rest, alloc) {
        Ok(()) => joined(b"image accepted\n", &rest, alloc),
        Err(_) => Err(AllocError),
    }
}

/// Writes what is in an image, with so many bytes free behind its last segment, and which names its file has.
fn write_all<W: Write>(
    file: &[u8],
    image: &Image,
    headers: &[ProgramHeader],
    free: u64,
    out: &mut W,
    alloc: Global,
) -> io::Result<()>
    ensures { OnOk result (Prints (W.contents out.old) (W.contents out.new)
        (IsImageTextBehind file.now headers.now image.now free)) }
{
    write_image(image, headers, free, out)?;
    write_names(file, image.entry(), out, alloc)
}

/// What is said of a file that fails this check first.
#[tactic(auto, using(crate::proofs::Printed::told_refusal))]
fn refused_text(
    file: &[u8],
    ram: RamSize,
    check: LoadRefused,
    alloc: Global,
) -> Result<Vec<u8>, AllocError>
    requires { IsRefusedBy file.now ram check }
    ensures { IfOk result (λ text. IsImageRefusedText file.now ram check text.items) }
{
    let headers = headers_for(file, check, alloc)?;
    let enough = ram_that_would_do(&headers);
    let mut rest = Vec::new(alloc);
    match write_fault(file, &headers, ram, enough, check, &mut rest) {
        Ok(()) => joined(refused_line(check.number()).as_bytes(), &rest, alloc),
        Err(_) => Err(AllocError),
    }
}

/// The first line where the check of this number fails.
fn refused_line(number: u8) -> ArrayString<24>
    ensures { result.bytes ≡ refused_line number }
{
    let mut line = ArrayString::new();
    line.push_str("image refused ");
    push_small_number(&mut line, number);
    push_ascii(&mut line, b'\n');
    line
}

/// The headers of the loadable segments, for a check that looks at them; else none.
fn headers_for(
    file: &[u8],
    check: LoadRefused,
    alloc: Global,
) -> Result<Vec<ProgramHeader>, AllocError>
    requires whole { 10 ≤ reason_number check → 52 ≤ length file.now }
    requires table { 10 ≤ reason_number check
        → table_offset file.now + 32 * table_count file.now ≤ length file.now }
    ensures { IfOk result (λ headers. 10 ≤ reason_number check → headers.items ≡ loadable file.now) }
{
    if check.number() < 10 {
        return Ok(Vec::new(alloc));
    }
    read_loadable(file, alloc)
}

/// Writes what is behind that line: what the check is, where it fails, and what usually mends it.
fn write_fault<W: Write>(
    file: &[u8],
    headers: &[ProgramHeader],
    ram: RamSize,
    enough: Option<u32>,
    check: LoadRefused,
    out: &mut W,
) -> io::Result<()>
    requires { 2 ≤ reason_number check → 52 ≤ length file.now }
    ensures { OnOk result (Appends (W.contents out.old) (W.contents out.new)
        (fault_text file.now headers.now ram enough check)) }
{
    out.write_all(words_of_check(check).as_bytes())?;
    out.write_all(b"\n")?;
    write_found(file, headers, ram, enough, check, out)?;
    out.write_all(mended(check).as_bytes())
}

/// Writes what the file has where the check looks, or the segments that fail it.
fn write_found<W: Write>(
    file: &[u8],
    headers: &[ProgramHeader],
    ram: RamSize,
    enough: Option<u32>,
    check: LoadRefused,
    out: &mut W,
) -> io::Result<()>
    requires { 2 ≤ reason_number check → 52 ≤ length file.now }
    ensures { OnOk result (Appends (W.contents out.old) (W.contents out.new)
        (found_text file.now headers.now ram enough check)) }
{
    match check {
        LoadRefused::TooShort => write_length(file.len(), out),
        LoadRefused::NotElf => write_first_bytes(&file[..4], out),
        LoadRefused::NotClass32 => write_byte(4, file[4], out),
        LoadRefused::NotLittleEndian => write_byte(5, file[5], out),
        LoadRefused::WrongVersion => write_version(file[6], read_word(file, 20), out),
        LoadRefused::NotExecutable => write_type(read_half(file, 16), out),
        LoadRefused::NotRiscV => write_machine(read_half(file, 18), out),
        LoadRefused::WrongHeaderSize => {
            write_header_sizes(read_half(file, 40), read_half(file, 42), out)
        }
        LoadRefused::TableOutsideFile => {
            write_table(read_word(file, 28), read_half(file, 44), file.len(), out)
        }
        LoadRefused::WrongSegmentCount => write_count(headers.len(), out),
        LoadRefused::SegmentOutsideFile => write_outside_file(headers, file.len(), out),
        LoadRefused::WrongMemorySize => write_wrong_size(headers, out),
        LoadRefused::SegmentOutsideRam => write_outside_ram(headers, ram, enough, out),
        LoadRefused::SegmentsOverlap => write_segments(headers, out),
        LoadRefused::WrongCodeSegment => write_segments(headers, out),
        LoadRefused::MisalignedCode => write_code(headers, out),
        LoadRefused::WrongEntry => write_entry_and_code(read_word(file, 24), headers, out),
        LoadRefused::OutOfMemory => out.write_all(b""),
    }
}
