//! The segments of a file that fail a check.

ghost use Rattle.std.specs.Prelude.{◌≡◌, ◌+◌, ◌++◌, ◌&&◌, nat_le, nat_lt, OnOk};
ghost use Rattle.std.specs.Io.KnownBytes.{Appends};
ghost use Rattle.text_fields.specs.Each.{each_from};
ghost use Rattle.elf_image.specs.{Image.ram_start, Checks.is_executable};
ghost use Rattle.explanations.specs.ImageText.{entry_line};
ghost use Rattle.explanations.specs.ImageRefusal.{count_line, begins_line, within_line, outside_file, wrong_size};
ghost use Rattle.explanations.specs.ImageRefusal.{outside_ram, code_line, ram_wanted};
ghost use Rattle.explanations.specs.ImageRefusal.{would_do_line, before_code_line, enough_line};

use crate::segments::{write_entry, write_ram, write_segment};
use elf_image::{ProgramHeader, RAM_START, RamSize};
use std::io;
use std::io::Write;

/// Writes how many loadable segments the file has.
#[tactic(auto, unfolding(crate::specs::ImageRefusal::count_line))]
pub(crate) fn write_count<W: Write>(count: usize, out: &mut W) -> io::Result<()>
    ensures { OnOk result (Appends (W.contents out.old) (W.contents out.new) (count_line count)) }
{
    writeln!(out, "the file has {count}")
}

/// Writes the segments whose bytes in a file of this length aren't all there.
pub(crate) fn write_outside_file<W: Write>(
    headers: &[ProgramHeader],
    length: usize,
    out: &mut W,
) -> io::Result<()>
    ensures { OnOk result (Appends (W.contents out.old) (W.contents out.new)
        (each_from (outside_file length) 0 headers.now ++ within_line length)) }
{
    write_each_outside_file(headers, length, out)?;
    write_within(length, out)
}

#[tactic(auto, unfolding(crate::specs::ImageRefusal::within_line))]
fn write_within<W: Write>(length: usize, out: &mut W) -> io::Result<()>
    ensures { OnOk result (Appends (W.contents out.old) (W.contents out.new) (within_line length)) }
{
    writeln!(
        out,
        "expected: all of them within the file, of {length} bytes"
    )
}

fn write_each_outside_file<W: Write>(
    headers: &[ProgramHeader],
    length: usize,
    out: &mut W,
) -> io::Result<()>
    ensures { OnOk result (Appends (W.contents out.old) (W.contents out.new)
        (each_from (outside_file length) 0 headers.now)) }
{
    for (number, header) in headers.iter().enumerate() {
        write_where_outside_file(number, header, length, out)?;
    }
    Ok(())
}

fn write_where_outside_file<W: Write>(
    number: usize,
    header: &ProgramHeader,
    length: usize,
    out: &mut W,
) -> io::Result<()>
    ensures { OnOk result (Appends (W.contents out.old) (W.contents out.new)
        (outside_file length number header.now)) }
{
    if is_in_file(header, length) {
        return out.write_all(b"");
    }
    write_segment(number, header, out)?;
    write_begins(header.offset, out)
}

#[tactic(auto, unfolding(crate::specs::ImageRefusal::begins_line))]
fn write_begins<W: Write>(offset: u32, out: &mut W) -> io::Result<()>
    ensures { OnOk result (Appends (W.contents out.old) (W.contents out.new) (begins_line offset)) }
{
    writeln!(out, "its bytes in the file begin at {offset}")
}

/// Whether a segment's bytes are in a file of this length.
fn is_in_file(header: &ProgramHeader, length: usize) -> bool
    ensures { result ≡ nat_le (header.now.offset + header.now.file_size) length }
{
    header.offset as usize + header.file_size as usize <= length
}

/// Writes the segments that have no bytes in memory, or fewer than in the file.
pub(crate) fn write_wrong_size<W: Write>(headers: &[ProgramHeader], out: &mut W) -> io::Result<()>
    ensures { OnOk result (Appends (W.contents out.old) (W.contents out.new)
        (each_from wrong_size 0 headers.now)) }
{
    for (number, header) in headers.iter().enumerate() {
        write_where_wrong_size(number, header, out)?;
    }
    Ok(())
}

fn write_where_wrong_size<W: Write>(
    number: usize,
    header: &ProgramHeader,
    out: &mut W,
) -> io::Result<()>
    ensures { OnOk result (Appends (W.contents out.old) (W.contents out.new) (wrong_size number header.now)) }
{
    if has_memory(header) {
        return out.write_all(b"");
    }
    write_segment(number, header, out)
}

/// Whether a segment has bytes in memory, and no fewer than in the file.
fn has_memory(header: &ProgramHeader) -> bool
    ensures { result ≡ (nat_lt 0 header.now.memory_size && nat_le header.now.file_size header.now.memory_size) }
{
    0 < header.memory_size && header.file_size <= header.memory_size
}

/// Writes the segments that aren't wholly in RAM, where RAM is, and what usually mends it: so much of it as would do,
/// where any would.
pub(crate) fn write_outside_ram<W: Write>(
    headers: &[ProgramHeader],
    ram: RamSize,
    enough: Option<u32>,
    out: &mut W,
) -> io::Result<()>
    ensures { OnOk result (Appends (W.contents out.old) (W.contents out.new)
        (each_from (outside_ram ram) 0 headers.now ++ (ram_wanted ram ++ enough_line enough))) }
{
    write_each_outside_ram(headers, ram, out)?;
    write_ram_wanted(ram, out)?;
    write_enough(enough, out)
}

#[tactic(auto, unfolding(crate::specs::ImageRefusal::ram_wanted))]
fn write_ram_wanted<W: Write>(ram: RamSize, out: &mut W) -> io::Result<()>
    ensures { OnOk result (Appends (W.contents out.old) (W.contents out.new) (ram_wanted ram)) }
{
    write_ram("expected: within", ram, out)
}

fn write_each_outside_ram<W: Write>(
    headers: &[ProgramHeader],
    ram: RamSize,
    out: &mut W,
) -> io::Result<()>
    ensures { OnOk result (Appends (W.contents out.old) (W.contents out.new)
        (each_from (outside_ram ram) 0 headers.now)) }
{
    for (number, header) in headers.iter().enumerate() {
        write_where_outside_ram(number, header, ram, out)?;
    }
    Ok(())
}

fn write_where_outside_ram<W: Write>(
    number: usize,
    header: &ProgramHeader,
    ram: RamSize,
    out: &mut W,
) -> io::Result<()>
    ensures { OnOk result (Appends (W.contents out.old) (W.contents out.new)
        (outside_ram ram number header.now)) }
{
    if is_in_ram(header, ram) {
        return out.write_all(b"");
    }
    write_segment(number, header, out)
}

/// Whether a segment is wholly in RAM.
fn is_in_ram(header: &ProgramHeader, ram: RamSize) -> bool
    ensures { result ≡ (nat_le ram_start header.now.address
        && nat_le (header.now.address + header.now.memory_size) (ram_start + ram)) }
{
    RAM_START <= header.address
        && header.address as u64 + header.memory_size as u64
            <= RAM_START as u64 + ram.bytes() as u64
}

fn write_enough<W: Write>(enough: Option<u32>, out: &mut W) -> io::Result<()>
    ensures { OnOk result (Appends (W.contents out.old) (W.contents out.new) (enough_line enough)) }
{
    match enough {
        Some(bytes) => write_would_do(bytes, out),
        None => write_before_code(out),
    }
}

#[tactic(auto, unfolding(crate::specs::ImageRefusal::would_do_line))]
fn write_would_do<W: Write>(bytes: u32, out: &mut W) -> io::Result<()>
    ensures { OnOk result (Appends (W.contents out.old) (W.contents out.new) (would_do_line bytes)) }
{
    writeln!(out, "usually: `ram` is too small: `ram = {bytes}` would do")
}

#[tactic(auto, unfolding(crate::specs::ImageRefusal::before_code_line))]
fn write_before_code<W: Write>(out: &mut W) -> io::Result<()>
    ensures { OnOk result (Appends (W.contents out.old) (W.contents out.new) before_code_line) }
{
    out.write_all(
        b"usually: the headers of the file lie before the code: link with \
        `-z max-page-size=4` by `examples/start/program.ld`\n",
    )
}

/// Writes the segments that may be executed.
pub(crate) fn write_code<W: Write>(headers: &[ProgramHeader], out: &mut W) -> io::Result<()>
    ensures { OnOk result (Appends (W.contents out.old) (W.contents out.new)
        (each_from code_line 0 headers.now)) }
{
    for (number, header) in headers.iter().enumerate() {
        write_where_code(number, header, out)?;
    }
    Ok(())
}

fn write_where_code<W: Write>(number: usize, header: &ProgramHeader, out: &mut W) -> io::Result<()>
    ensures { OnOk result (Appends (W.contents out.old) (W.contents out.new) (code_line number header.now)) }
{
    if header.flags % 2 == 1 {
        write_segment(number, header, out)
    } else {
        out.write_all(b"")
    }
}

/// Writes where a hart begins, and the segments that may be executed.
pub(crate) fn write_entry_and_code<W: Write>(
    entry: u32,
    headers: &[ProgramHeader],
    out: &mut W,
) -> io::Result<()>
    ensures { OnOk result (Appends (W.contents out.old) (W.contents out.new)
        (entry_line entry ++ each_from code_line 0 headers.now)) }
{
    write_entry(entry, out)?;
    write_code(headers, out)
}
