//! The text of a row in its box.

ghost use Rattle.std.specs.Prelude.{◌≡◌, OnOk};
ghost use Rattle.std.specs.Io.KnownBytes.{Appends};
ghost use Rattle.symbols.specs.Tables.{table_of};
ghost use Rattle.address_labels.specs.Texts.{behind_text};
ghost use Rattle.story_text.specs.Deeds.{address_text};
ghost use Rattle.story_pictures.specs.Words.{
  atomic_words,
  byte_words,
  deed_words,
  drawn_place,
  failed_words,
  place_words,
  read_words,
  shown_words,
  written_words,
};

use crate::elements::write_number;
use arrayvec::ArrayString;
use std::io;
use std::io::Write;
use stories::Deed;
use story_text::name_of;
use svg_drawing::{write_drawn_name, write_shown_text};
use symbols::{Place, Symbols, name_at};
use text_fields::{push_ascii, push_decimal, push_hex};

/// What stands between a place and the number that was read there.
const READ: &[u8] = b" \xe2\x86\x92 ";

/// What stands between a place and the number that was written there.
const WRITTEN: &[u8] = b" \xe2\x86\x90 ";

/// Writes what a row shows.
#[tactic(auto, unfolding(crate::specs::Words::deed_words))]
pub(crate) fn write_deed<W: Write>(deed: &Deed, names: &Symbols<'_>, out: &mut W) -> io::Result<()>
    ensures { OnOk result (Appends (W.contents out.old) (W.contents out.new)
        (deed_words (table_of names.now) deed.now)) }
{
    out.write_all(name_of(deed).as_bytes())?;
    out.write_all(b" ")?;
    write_shown(deed, names, out)
}

/// Writes what stands behind the name.
fn write_shown<W: Write>(deed: &Deed, names: &Symbols<'_>, out: &mut W) -> io::Result<()>
    ensures { OnOk result (Appends (W.contents out.old) (W.contents out.new)
        (shown_words (table_of names.now) deed.now)) }
{
    match *deed {
        Deed::Loaded { addr, number, .. } | Deed::Reserved { addr, number } => {
            write_read(addr, number, names, out)
        }
        Deed::Stored { addr, number, .. } | Deed::Conditional { addr, number } => {
            write_written(addr, number, names, out)
        }
        Deed::Failed { addr } => write_failed(addr, names, out),
        Deed::Atomic { addr, old, new, .. } => write_atomic(addr, old, new, names, out),
        Deed::Out(byte) => write_byte(byte, out),
        Deed::Ended(number) => write_number(u64::from(number), out),
        Deed::Stopped(cause) => write_number(u64::from(cause), out),
    }
}

fn write_read<W: Write>(addr: u32, number: u32, names: &Symbols<'_>, out: &mut W) -> io::Result<()>
    ensures { OnOk result (Appends (W.contents out.old) (W.contents out.new)
        (read_words (table_of names.now) addr number)) }
{
    write_place(names, addr, out)?;
    out.write_all(READ)?;
    write_number(u64::from(number), out)
}

fn write_written<W: Write>(
    addr: u32,
    number: u32,
    names: &Symbols<'_>,
    out: &mut W,
) -> io::Result<()>
    ensures { OnOk result (Appends (W.contents out.old) (W.contents out.new)
        (written_words (table_of names.now) addr number)) }
{
    write_place(names, addr, out)?;
    out.write_all(WRITTEN)?;
    write_number(u64::from(number), out)
}

fn write_atomic<W: Write>(
    addr: u32,
    old: u32,
    new: u32,
    names: &Symbols<'_>,
    out: &mut W,
) -> io::Result<()>
    ensures { OnOk result (Appends (W.contents out.old) (W.contents out.new)
        (atomic_words (table_of names.now) addr old new)) }
{
    write_place(names, addr, out)?;
    out.write_all(b" ")?;
    write_number(u64::from(old), out)?;
    out.write_all(READ)?;
    write_number(u64::from(new), out)
}

fn write_failed<W: Write>(addr: u32, names: &Symbols<'_>, out: &mut W) -> io::Result<()>
    ensures { OnOk result (Appends (W.contents out.old) (W.contents out.new)
        (failed_words (table_of names.now) addr)) }
{
    write_place(names, addr, out)?;
    out.write_all(b" fails")
}

/// Writes a byte that was put out: as a character where it is one that can be seen, else by its number.
fn write_byte<W: Write>(byte: u8, out: &mut W) -> io::Result<()>
    ensures { OnOk result (Appends (W.contents out.old) (W.contents out.new) (byte_words byte)) }
{
    if 32 <= byte && byte < 127 {
        out.write_all(b"'")?;
        write_shown_text(&[byte], out)?;
        return out.write_all(b"'");
    }
    let mut digits = ArrayString::<2>::new();
    push_hex(&mut digits, u32::from(byte), 2);
    out.write_all(b"0x")?;
    out.write_all(digits.as_bytes())
}

/// Writes where an address is: the name that covers it, and how many bytes it is behind the start of that, where it
/// isn't that; else its eight digits.
fn write_place<W: Write>(names: &Symbols<'_>, address: u32, out: &mut W) -> io::Result<()>
    ensures { OnOk result (Appends (W.contents out.old) (W.contents out.new)
        (place_words (table_of names.now) address)) }
{
    match name_at(names, address) {
        Some(place) => write_named(&place, out),
        None => write_address(address, out),
    }
}

fn write_named<W: Write>(place: &Place<'_>, out: &mut W) -> io::Result<()>
    ensures { OnOk result (Appends (W.contents out.old) (W.contents out.new)
        (drawn_place (record { name = place.now.name.now; behind = place.now.behind }))) }
{
    write_drawn_name(place.name, out)?;
    write_behind(place.behind, out)
}

fn write_behind<W: Write>(behind: u32, out: &mut W) -> io::Result<()>
    ensures { OnOk result (Appends (W.contents out.old) (W.contents out.new) (behind_text behind)) }
{
    if behind == 0 {
        return out.write_all(b"");
    }
    let mut text = ArrayString::<16>::new();
    push_ascii(&mut text, b'+');
    push_decimal(&mut text, behind);
    out.write_all(text.as_bytes())
}

/// Writes the eight digits of an address.
pub(crate) fn write_address<W: Write>(address: u32, out: &mut W) -> io::Result<()>
    ensures { OnOk result (Appends (W.contents out.old) (W.contents out.new) (address_text address)) }
{
    let mut text = ArrayString::<8>::new();
    push_hex(&mut text, address, 8);
    out.write_all(text.as_bytes())
}
