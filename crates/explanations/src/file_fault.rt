//! What stands in a file header that fails a check.

ghost use Rattle.std.specs.Prelude.{OnOk, flat_map};
ghost use Rattle.std.specs.Io.KnownBytes.{Appends};
ghost use Rattle.explanations.specs.ImageRefusal.{length_line, byte_text};
ghost use Rattle.explanations.specs.ImageRefusal.{first_bytes_lead, first_bytes_line, byte_line};
ghost use Rattle.explanations.specs.ImageRefusal.{version_line, type_line, machine_line, header_sizes_line, table_line};

use std::io;
use std::io::Write;

/// Writes how many bytes the file has.
#[tactic(auto, unfolding(crate::specs::ImageRefusal::length_line))]
pub(crate) fn write_length<W: Write>(bytes: usize, out: &mut W) -> io::Result<()>
    ensures { OnOk result (Appends (W.contents out.old) (W.contents out.new) (length_line bytes)) }
{
    writeln!(out, "the file has {bytes} bytes")
}

/// Writes the file's first bytes, in hexadecimal digits.
pub(crate) fn write_first_bytes<W: Write>(bytes: &[u8], out: &mut W) -> io::Result<()>
    ensures { OnOk result (Appends (W.contents out.old) (W.contents out.new) (first_bytes_line bytes.now)) }
{
    write_first_lead(out)?;
    write_bytes(bytes, out)?;
    out.write_all(b"\n")
}

#[tactic(auto, unfolding(crate::specs::ImageRefusal::first_bytes_lead))]
fn write_first_lead<W: Write>(out: &mut W) -> io::Result<()>
    ensures { OnOk result (Appends (W.contents out.old) (W.contents out.new) first_bytes_lead) }
{
    out.write_all(b"the first bytes are")
}

fn write_bytes<W: Write>(bytes: &[u8], out: &mut W) -> io::Result<()>
    ensures { OnOk result (Appends (W.contents out.old) (W.contents out.new) (flat_map byte_text bytes.now)) }
{
    for byte in bytes {
        write_hex(*byte, out)?;
    }
    Ok(())
}

#[tactic(auto, unfolding(crate::specs::ImageRefusal::byte_text))]
fn write_hex<W: Write>(byte: u8, out: &mut W) -> io::Result<()>
    ensures { OnOk result (Appends (W.contents out.old) (W.contents out.new) (byte_text byte)) }
{
    write!(out, " {byte:02x}")
}

/// Writes the byte at a place.
#[tactic(auto, unfolding(crate::specs::ImageRefusal::byte_line))]
pub(crate) fn write_byte<W: Write>(place: u8, byte: u8, out: &mut W) -> io::Result<()>
    ensures { OnOk result (Appends (W.contents out.old) (W.contents out.new) (byte_line place byte)) }
{
    writeln!(out, "byte {place} is {byte}")
}

/// Writes the two fields that have a version.
#[tactic(auto, unfolding(crate::specs::ImageRefusal::version_line))]
pub(crate) fn write_version<W: Write>(byte: u8, version: u32, out: &mut W) -> io::Result<()>
    ensures { OnOk result (Appends (W.contents out.old) (W.contents out.new) (version_line byte version)) }
{
    writeln!(out, "byte 6 is {byte}, the version {version}")
}

/// Writes the file's type.
#[tactic(auto, unfolding(crate::specs::ImageRefusal::type_line))]
pub(crate) fn write_type<W: Write>(kind: u16, out: &mut W) -> io::Result<()>
    ensures { OnOk result (Appends (W.contents out.old) (W.contents out.new) (type_line kind)) }
{
    writeln!(out, "the type is {kind}")
}

/// Writes the machine that the file is for.
#[tactic(auto, unfolding(crate::specs::ImageRefusal::machine_line))]
pub(crate) fn write_machine<W: Write>(machine: u16, out: &mut W) -> io::Result<()>
    ensures { OnOk result (Appends (W.contents out.old) (W.contents out.new) (machine_line machine)) }
{
    writeln!(out, "the machine is {machine}")
}

/// Writes how large the headers are.
#[tactic(auto, unfolding(crate::specs::ImageRefusal::header_sizes_line))]
pub(crate) fn write_header_sizes<W: Write>(
    file_header: u16,
    program_header: u16,
    out: &mut W,
) -> io::Result<()>
    ensures { OnOk result (Appends (W.contents out.old) (W.contents out.new)
        (header_sizes_line file_header program_header)) }
{
    writeln!(
        out,
        "the file header has {file_header} bytes, a program header {program_header}"
    )
}

/// Writes where the table of program headers is, and in a file of how many bytes.
#[tactic(auto, unfolding(crate::specs::ImageRefusal::table_line))]
pub(crate) fn write_table<W: Write>(
    offset: u32,
    count: u16,
    bytes: usize,
    out: &mut W,
) -> io::Result<()>
    ensures { OnOk result (Appends (W.contents out.old) (W.contents out.new) (table_line offset count bytes)) }
{
    writeln!(
        out,
        "the table is at {offset}, of {count} headers; the file has {bytes} bytes"
    )
}
