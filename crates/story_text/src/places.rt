//! Where something is in memory.

ghost use Rattle.std.specs.Prelude.{◌≡◌, OnOk, option_map};
ghost use Rattle.std.specs.Io.KnownBytes.{Appends};
ghost use Rattle.symbols.specs.Tables.{table_of};
ghost use Rattle.address_labels.specs.Texts.{behind_text};
ghost use Rattle.story_text.specs.Deeds.{address_text, place_of, place_text};

use arrayvec::ArrayString;
use shown_text::write_name;
use std::io;
use std::io::Write;
use symbols::{Place, Symbols, name_at};
use text_fields::{push_ascii, push_decimal, push_hex};

/// Writes where an address is: the name that covers it, and how many bytes it is behind the start of that, where it
/// isn't that; else its eight digits.
pub(crate) fn write_place<W: Write>(
    names: &Symbols<'_>,
    address: u32,
    out: &mut W,
) -> io::Result<()>
    ensures { OnOk result (Appends (W.contents out.old) (W.contents out.new)
        (place_text (table_of names.now) address)) }
{
    match name_at(names, address) {
        Some(place) => write_named(&place, out),
        None => write_address(address, out),
    }
}

fn write_named<W: Write>(place: &Place<'_>, out: &mut W) -> io::Result<()>
    ensures { OnOk result (Appends (W.contents out.old) (W.contents out.new)
        (place_of (record { name = place.now.name.now; behind = place.now.behind }))) }
{
    write_name(place.name, out)?;
    write_behind(place.behind, out)
}

fn write_behind<W: Write>(behind: u32, out: &mut W) -> io::Result<()>
    ensures { OnOk result (Appends (W.contents out.old) (W.contents out.new) (behind_text behind)) }
{
    if behind == 0 {
        return out.write_all(b"");
    }
    let mut text = ArrayString::<16>::new();
    push_ascii(&mut text, b'+');
    push_decimal(&mut text, behind);
    out.write_all(text.as_bytes())
}

fn write_address<W: Write>(address: u32, out: &mut W) -> io::Result<()>
    ensures { OnOk result (Appends (W.contents out.old) (W.contents out.new) (address_text address)) }
{
    let mut text = ArrayString::<8>::new();
    push_hex(&mut text, address, 8);
    out.write_all(text.as_bytes())
}
