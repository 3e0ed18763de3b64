//! What a step shows.

ghost use Rattle.std.specs.Prelude.{◌≡◌, OnOk};
ghost use Rattle.std.specs.Io.KnownBytes.{Appends};
ghost use Rattle.symbols.specs.Tables.{table_of};
ghost use Rattle.story_text.specs.Deeds.{
  again_text,
  atomic_text,
  byte_text,
  deed_text,
  failed_text,
  lost_text,
  note_text,
  read_text,
  reason_text,
  reserved_text,
  row_text,
  shown_text,
  stored_text,
  taker_text,
  written_text,
};

use crate::fields::write_number;
use crate::names::name_of;
use crate::places::write_place;
use arrayvec::ArrayString;
use std::io;
use std::io::Write;
use stories::{Deed, Note, Row};
use symbols::Symbols;
use text_fields::push_hex;

/// What stands between a place and the number that was read there.
const READ: &[u8] = b" \xe2\x86\x92 ";

/// What stands between a place and the number that was written there.
const WRITTEN: &[u8] = b" \xe2\x86\x90 ";

/// Writes what a step shows, with what earlier rows make of it.
pub fn write_deed<W: Write>(
    deed: &Deed,
    note: &Option<Note>,
    names: &Symbols<'_>,
    out: &mut W,
) -> io::Result<()>
    ensures { OnOk result (Appends (W.contents out.old) (W.contents out.new)
        (deed_text (table_of names.now) note.now deed.now)) }
{
    out.write_all(name_of(deed).as_bytes())?;
    out.write_all(b" ")?;
    write_shown(deed, note, names, out)
}

/// Writes what stands behind the name.
fn write_shown<W: Write>(
    deed: &Deed,
    note: &Option<Note>,
    names: &Symbols<'_>,
    out: &mut W,
) -> io::Result<()>
    ensures { OnOk result (Appends (W.contents out.old) (W.contents out.new)
        (shown_text (table_of names.now) note.now deed.now)) }
{
    match *deed {
        Deed::Loaded { addr, number, .. } => write_read(addr, number, names, out),
        Deed::Reserved { addr, number } => write_reserved(addr, number, note, names, out),
        Deed::Stored { addr, number, .. } => write_stored(addr, number, note, names, out),
        Deed::Conditional { addr, number } => write_written(addr, number, names, out),
        Deed::Failed { addr } => write_failed(addr, note, names, out),
        Deed::Atomic { addr, old, new, .. } => write_atomic(addr, old, new, names, out),
        Deed::Out(byte) => write_byte(byte, out),
        Deed::Ended(number) => write_number(u64::from(number), out),
        Deed::Stopped(cause) => write_number(u64::from(cause), out),
    }
}

fn write_read<W: Write>(addr: u32, number: u32, names: &Symbols<'_>, out: &mut W) -> io::Result<()>
    ensures { OnOk result (Appends (W.contents out.old) (W.contents out.new)
        (read_text (table_of names.now) addr number)) }
{
    write_place(names, addr, out)?;
    out.write_all(READ)?;
    write_number(u64::from(number), out)
}

/// Writes what an LR has read, and behind that what earlier rows make of it.
fn write_reserved<W: Write>(
    addr: u32,
    number: u32,
    note: &Option<Note>,
    names: &Symbols<'_>,
    out: &mut W,
) -> io::Result<()>
    ensures { OnOk result (Appends (W.contents out.old) (W.contents out.new)
        (reserved_text (table_of names.now) note.now addr number)) }
{
    write_read(addr, number, names, out)?;
    write_note(note, out)
}

/// Writes what a store has written, and behind that what earlier rows make of it.
fn write_stored<W: Write>(
    addr: u32,
    number: u32,
    note: &Option<Note>,
    names: &Symbols<'_>,
    out: &mut W,
) -> io::Result<()>
    ensures { OnOk result (Appends (W.contents out.old) (W.contents out.new)
        (stored_text (table_of names.now) note.now addr number)) }
{
    write_written(addr, number, names, out)?;
    write_note(note, out)
}

fn write_written<W: Write>(
    addr: u32,
    number: u32,
    names: &Symbols<'_>,
    out: &mut W,
) -> io::Result<()>
    ensures { OnOk result (Appends (W.contents out.old) (W.contents out.new)
        (written_text (table_of names.now) addr number)) }
{
    write_place(names, addr, out)?;
    out.write_all(WRITTEN)?;
    write_number(u64::from(number), out)
}

fn write_atomic<W: Write>(
    addr: u32,
    old: u32,
    new: u32,
    names: &Symbols<'_>,
    out: &mut W,
) -> io::Result<()>
    ensures { OnOk result (Appends (W.contents out.old) (W.contents out.new)
        (atomic_text (table_of names.now) addr old new)) }
{
    write_place(names, addr, out)?;
    out.write_all(b" ")?;
    write_number(u64::from(old), out)?;
    out.write_all(READ)?;
    write_number(u64::from(new), out)
}

fn write_failed<W: Write>(
    addr: u32,
    note: &Option<Note>,
    names: &Symbols<'_>,
    out: &mut W,
) -> io::Result<()>
    ensures { OnOk result (Appends (W.contents out.old) (W.contents out.new)
        (failed_text (table_of names.now) note.now addr)) }
{
    write_place(names, addr, out)?;
    out.write_all(b" fails: ")?;
    write_reason(note, out)
}

/// Writes why an SC has written nothing.
fn write_reason<W: Write>(note: &Option<Note>, out: &mut W) -> io::Result<()>
    ensures { OnOk result (Appends (W.contents out.old) (W.contents out.new) (reason_text note.now)) }
{
    match note {
        Some(Note::Taken(row)) => write_taker(row, out),
        _ => out.write_all(b"no reservation"),
    }
}

/// Writes which row took a reservation.
fn write_taker<W: Write>(row: &Row, out: &mut W) -> io::Result<()>
    ensures { OnOk result (Appends (W.contents out.old) (W.contents out.new) (taker_text row.now)) }
{
    write_row(row, out)?;
    out.write_all(b" took the reservation")
}

/// Writes what earlier rows make of a store or an LR, where they make something of it.
fn write_note<W: Write>(note: &Option<Note>, out: &mut W) -> io::Result<()>
    ensures { OnOk result (Appends (W.contents out.old) (W.contents out.new) (note_text note.now)) }
{
    match note {
        Some(Note::Overwrites { read, write }) => write_lost_update(read, write, out),
        Some(Note::Again { read, write }) => write_again(read, write, out),
        _ => out.write_all(b""),
    }
}

fn write_lost_update<W: Write>(read: &Row, write: &Row, out: &mut W) -> io::Result<()>
    ensures { OnOk result (Appends (W.contents out.old) (W.contents out.new) (lost_text read.now write.now)) }
{
    out.write_all(b", lost update: ")?;
    write_row(write, out)?;
    out.write_all(b" came after the read at row ")?;
    write_number(read.number, out)
}

fn write_again<W: Write>(read: &Row, write: &Row, out: &mut W) -> io::Result<()>
    ensures { OnOk result (Appends (W.contents out.old) (W.contents out.new) (again_text read.now write.now)) }
{
    out.write_all(b", ABA: as at row ")?;
    write_number(read.number, out)?;
    out.write_all(b", though ")?;
    write_row(write, out)?;
    out.write_all(b" wrote since")
}

/// Writes which row it is: its hart, its mnemonic and its number.
fn write_row<W: Write>(row: &Row, out: &mut W) -> io::Result<()>
    ensures { OnOk result (Appends (W.contents out.old) (W.contents out.new) (row_text row.now)) }
{
    out.write_all(b"hart ")?;
    write_number(u64::from(row.hart), out)?;
    out.write_all(b"'s ")?;
    out.write_all(name_of(&row.deed).as_bytes())?;
    out.write_all(b" at row ")?;
    write_number(row.number, out)
}

/// Writes a byte that was put out: as a character where it is one that can be seen, else by its number.
fn write_byte<W: Write>(byte: u8, out: &mut W) -> io::Result<()>
    ensures { OnOk result (Appends (W.contents out.old) (W.contents out.new) (byte_text byte)) }
{
    if 32 <= byte && byte < 127 {
        return out.write_all(&[b'\'', byte, b'\'']);
    }
    let mut digits = ArrayString::<2>::new();
    push_hex(&mut digits, u32::from(byte), 2);
    out.write_all(b"0x")?;
    out.write_all(digits.as_bytes())
}
