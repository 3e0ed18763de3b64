//! The names of an image's program, as lines.

ghost use Rattle.std.specs.Prelude.{◌≡◌, ◌++◌, OnOk};
ghost use Rattle.std.specs.Io.KnownBytes.{Appends};
ghost use Rattle.text_fields.specs.{Printing.Prints};
ghost use Rattle.symbols.specs.Tables.{table_of};
ghost use Rattle.explanations.specs.ImageText.{AreNamesText, names_line, counts_line, damaged_line};
ghost use Rattle.explanations.specs.ImageText.{entry_name, entry_in, entry_lead, behind_text};

use crate::lines::no_memory;
use shown_text::write_shown;
use std::alloc::Global;
use std::io;
use std::io::Write;
use symbols::{Symbols, Unread, name_at, read};

/// Writes how many names a file's table of symbols has, and in what the entry is; nothing where it has no such table.
pub(crate) fn write_names<W: Write>(
    file: &[u8],
    entry: u32,
    out: &mut W,
    alloc: Global,
) -> io::Result<()>
    ensures { OnOk result (Prints (W.contents out.old) (W.contents out.new) (AreNamesText file.now entry)) }
{
    match read(file, alloc) {
        Ok(symbols) => write_symbols(&symbols, entry, out),
        Err(Unread::Absent) => out.write_all(b""),
        Err(Unread::Damaged) => write_damaged(out),
        Err(Unread::Memory) => Err(no_memory()),
    }
}

#[tactic(auto, unfolding(crate::specs::ImageText::damaged_line))]
fn write_damaged<W: Write>(out: &mut W) -> io::Result<()>
    ensures { OnOk result (Appends (W.contents out.old) (W.contents out.new) damaged_line) }
{
    out.write_all(b"names none: the table of symbols is damaged\n")
}

fn write_symbols<W: Write>(symbols: &Symbols<'_>, entry: u32, out: &mut W) -> io::Result<()>
    ensures { OnOk result (Appends (W.contents out.old) (W.contents out.new)
        (names_line symbols.now.symbols.items ++ entry_name (table_of symbols.now) entry)) }
{
    write_counts(symbols, out)?;
    write_entry_name(symbols, entry, out)
}

fn write_counts<W: Write>(symbols: &Symbols<'_>, out: &mut W) -> io::Result<()>
    ensures { OnOk result
        (Appends (W.contents out.old) (W.contents out.new) (names_line symbols.now.symbols.items)) }
{
    write_counted(
        symbols.functions(),
        symbols.objects(),
        symbols.labels(),
        out,
    )
}

#[tactic(auto, unfolding(crate::specs::ImageText::counts_line))]
fn write_counted<W: Write>(
    functions: usize,
    objects: usize,
    labels: usize,
    out: &mut W,
) -> io::Result<()>
    ensures { OnOk result
        (Appends (W.contents out.old) (W.contents out.new) (counts_line functions objects labels)) }
{
    writeln!(
        out,
        "names of functions {functions}, of objects {objects}, labels {labels}"
    )
}

/// Writes in what the entry is, where it is in one.
fn write_entry_name<W: Write>(symbols: &Symbols<'_>, entry: u32, out: &mut W) -> io::Result<()>
    ensures { OnOk result
        (Appends (W.contents out.old) (W.contents out.new) (entry_name (table_of symbols.now) entry)) }
{
    match name_at(symbols, entry) {
        Some(place) => write_entry_in(place.name, place.behind, out),
        None => out.write_all(b""),
    }
}

/// Writes in what the entry is, and how many bytes behind its start, where it isn't that.
#[tactic(auto, unfolding(crate::specs::ImageText::entry_in))]
fn write_entry_in<W: Write>(name: &[u8], behind: u32, out: &mut W) -> io::Result<()>
    ensures { OnOk result (Appends (W.contents out.old) (W.contents out.new) (entry_in name.now behind)) }
{
    write_lead(out)?;
    write_shown(name, out)?;
    write_behind(behind, out)?;
    out.write_all(b"`\n")
}

#[tactic(auto, unfolding(crate::specs::ImageText::entry_lead))]
fn write_lead<W: Write>(out: &mut W) -> io::Result<()>
    ensures { OnOk result (Appends (W.contents out.old) (W.contents out.new) entry_lead) }
{
    out.write_all(b"the entry is `")
}

fn write_behind<W: Write>(behind: u32, out: &mut W) -> io::Result<()>
    ensures { OnOk result (Appends (W.contents out.old) (W.contents out.new) (behind_text behind)) }
{
    if behind > 0 {
        write!(out, "+{behind}")
    } else {
        out.write_all(b"")
    }
}
