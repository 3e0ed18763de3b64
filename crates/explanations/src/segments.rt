//! The segments of an image, as lines.

ghost use Rattle.std.specs.Prelude.{◌<◌, OnOk};
ghost use Rattle.std.specs.Io.KnownBytes.{Appends};
ghost use Rattle.explanations.specs.ImageText.{IsFree, image_text, entry_line, free_line, ram_line, range_line};
ghost use Rattle.explanations.specs.ImageText.{segment_lines, segment_line, start_text, end_text, held_text};
ghost use Rattle.explanations.specs.ImageText.{flags_text, flag_text};

use elf_image::{Image, ProgramHeader, RAM_START, RamSize};
use std::io;
use std::io::Write;

/// Writes what is in an image that is accepted, of whose file these are the loadable headers, with so many bytes free
/// behind its last segment.
#[tactic(auto, unfolding(crate::specs::ImageText::image_text))]
pub(crate) fn write_image<W: Write>(
    image: &Image,
    headers: &[ProgramHeader],
    free: u64,
    out: &mut W,
) -> io::Result<()>
    ensures { OnOk result (Appends (W.contents out.old) (W.contents out.new)
        (image_text headers.now image.now free)) }
{
    write_ram("ram", image.ram(), out)?;
    write_segments(headers, out)?;
    write_entry(image.entry(), out)?;
    write_free(free, out)
}

/// Writes where a hart begins.
#[tactic(auto, unfolding(crate::specs::ImageText::entry_line))]
pub(crate) fn write_entry<W: Write>(entry: u32, out: &mut W) -> io::Result<()>
    ensures { OnOk result (Appends (W.contents out.old) (W.contents out.new) (entry_line entry)) }
{
    writeln!(out, "entry {entry:08x}")
}

#[tactic(auto, unfolding(crate::specs::ImageText::free_line))]
fn write_free<W: Write>(free: u64, out: &mut W) -> io::Result<()>
    ensures { OnOk result (Appends (W.contents out.old) (W.contents out.new) (free_line free)) }
{
    writeln!(out, "free behind the last segment {free}")
}

/// Writes a word, and from where to where RAM is.
pub(crate) fn write_ram<W: Write>(word: &str, ram: RamSize, out: &mut W) -> io::Result<()>
    ensures { OnOk result (Appends (W.contents out.old) (W.contents out.new) (ram_line word.now ram)) }
{
    let bytes = ram.bytes();
    write_range(word, RAM_START + (bytes - 1), bytes, out)
}

#[tactic(auto, unfolding(crate::specs::ImageText::range_line))]
fn write_range<W: Write>(word: &str, last: u32, bytes: u32, out: &mut W) -> io::Result<()>
    ensures { OnOk result (Appends (W.contents out.old) (W.contents out.new) (range_line word.now last bytes)) }
{
    writeln!(out, "{word} {RAM_START:08x} to {last:08x}, {bytes} bytes")
}

/// How many bytes of RAM are behind the last segment.
pub(crate) fn free_behind(image: &Image) -> u64
    ensures { IsFree image.now result }
{
    let segments = image.segments();
    let last = &segments[segments.len() - 1];
    let end = last.address() as u64 + last.bytes().len() as u64;
    RAM_START as u64 + image.ram().bytes() as u64 - end
}

/// Writes a line for each segment, by its number among the loadable ones.
pub(crate) fn write_segments<W: Write>(headers: &[ProgramHeader], out: &mut W) -> io::Result<()>
    ensures { OnOk result (Appends (W.contents out.old) (W.contents out.new) (segment_lines headers.now)) }
{
    for (number, header) in headers.iter().enumerate() {
        write_segment(number, header, out)?;
    }
    Ok(())
}

/// Writes where a segment is, its bytes in the file and in memory, and its flags.
pub(crate) fn write_segment<W: Write>(
    number: usize,
    header: &ProgramHeader,
    out: &mut W,
) -> io::Result<()>
    ensures { OnOk result (Appends (W.contents out.old) (W.contents out.new) (segment_line number header.now)) }
{
    write_start(number, header, out)?;
    write_end(header, out)?;
    write_held(header, out)?;
    write_flags(header.flags, out)
}

#[tactic(auto, unfolding(crate::specs::ImageText::start_text))]
fn write_start<W: Write>(number: usize, header: &ProgramHeader, out: &mut W) -> io::Result<()>
    ensures { OnOk result (Appends (W.contents out.old) (W.contents out.new) (start_text number header.now)) }
{
    write!(out, "segment {number} at {:08x}", header.address)
}

#[tactic(auto, unfolding(crate::specs::ImageText::end_text))]
fn write_end<W: Write>(header: &ProgramHeader, out: &mut W) -> io::Result<()>
    ensures { OnOk result (Appends (W.contents out.old) (W.contents out.new) (end_text header.now)) }
{
    if header.memory_size == 0 {
        return out.write_all(b"");
    }
    let last = u64::from(header.address) + u64::from(header.memory_size - 1);
    write!(out, " to {last:08x}")
}

#[tactic(auto, unfolding(crate::specs::ImageText::held_text))]
fn write_held<W: Write>(header: &ProgramHeader, out: &mut W) -> io::Result<()>
    ensures { OnOk result (Appends (W.contents out.old) (W.contents out.new) (held_text header.now)) }
{
    write!(
        out,
        ", {} bytes in the file, {} in memory,",
        header.file_size, header.memory_size
    )
}

/// Writes the letters of flags, and the end of the line.
#[tactic(auto, unfolding(crate::specs::ImageText::flags_text))]
fn write_flags<W: Write>(flags: u32, out: &mut W) -> io::Result<()>
    ensures { OnOk result (Appends (W.contents out.old) (W.contents out.new) (flags_text flags)) }
{
    write_flag(flags, 4, " R", out)?;
    write_flag(flags, 2, " W", out)?;
    write_flag(flags, 1, " X", out)?;
    out.write_all(b"\n")
}

fn write_flag<W: Write>(flags: u32, bit: u32, letter: &str, out: &mut W) -> io::Result<()>
    requires { 0 < bit }
    ensures { OnOk result (Appends (W.contents out.old) (W.contents out.new) (flag_text flags bit letter.now)) }
{
    if flags / bit % 2 == 1 {
        out.write_all(letter.as_bytes())
    } else {
        out.write_all(b"")
    }
}
