//! What stands beside an address.

ghost use Rattle.std.specs.Prelude.{◌≡◌, OnOk, option_map};
ghost use Rattle.std.specs.Io.KnownBytes.{Appends};
ghost use Rattle.symbols.specs.Tables.{table_of};
ghost use Rattle.source_lines.specs.Lines.{origin_of, origins_of};
ghost use Rattle.address_labels.specs.Labels.{marks_of};
ghost use Rattle.address_labels.specs.Texts.{
  behind_text,
  close_of,
  labels_text,
  line_field,
  name_by,
  name_field,
  open_of,
  origin_field,
  place_field,
};

use crate::labels::Labels;
use arrayvec::ArrayString;
use shown_text::write_name;
use source_lines::{SourceLine, SourceLines};
use std::io;
use std::io::Write;
use svg_drawing::write_drawn_name;
use symbols::{Place, Symbols, name_at};
use text_fields::{push_ascii, push_decimal};

/// Where labels stand, which says how they are spelled.
#[derive(Clone, Copy, PartialEq, Eq, Drop)]
pub enum Form {
    /// Behind a line of text.
    Word,
    /// In a listing, in which names stand in angle brackets.
    Listing,
    /// In a picture.
    Drawn,
}

/// Writes what is wanted beside an address, a space before each: the name that covers it, and how many bytes it is
/// behind the start of that, where it isn't that; then the file and the line that its word comes from. A dash stands
/// for either that isn't known.
pub fn write_labels<W: Write>(
    labels: &Labels<'_>,
    form: Form,
    address: u32,
    out: &mut W,
) -> io::Result<()>
    ensures { OnOk result (Appends (W.contents out.old) (W.contents out.new)
        (labels_text form (marks_of labels.now) address)) }
{
    write_name_field(labels.names, form, address, out)?;
    write_line_field(labels.lines, form, address, out)
}

fn write_name_field<W: Write>(
    names: Option<&Symbols<'_>>,
    form: Form,
    address: u32,
    out: &mut W,
) -> io::Result<()>
    ensures { OnOk result (Appends (W.contents out.old) (W.contents out.new)
        (name_field form (option_map (λ names. table_of names.now) names.entry) address)) }
{
    match names {
        Some(names) => write_place_field(name_at(names, address), form, out),
        None => out.write_all(b""),
    }
}

fn write_place_field<W: Write>(place: Option<Place<'_>>, form: Form, out: &mut W) -> io::Result<()>
    ensures { OnOk result (Appends (W.contents out.old) (W.contents out.new)
        (place_field form (option_map (λ place. record { name = place.name.now; behind = place.behind }) place.entry))) }
{
    let Some(place) = place else {
        return out.write_all(b" -");
    };
    out.write_all(open_of(form).as_bytes())?;
    write_word(place.name, form, out)?;
    write_behind(place.behind, out)?;
    out.write_all(close_of(form).as_bytes())
}

/// What stands before a name, and behind it.
fn open_of(form: Form) -> &'static str
    ensures { result.now ≡ open_of form }
{
    match form {
        Form::Word | Form::Drawn => " ",
        Form::Listing => " <",
    }
}

fn close_of(form: Form) -> &'static str
    ensures { result.now ≡ close_of form }
{
    match form {
        Form::Word | Form::Drawn => "",
        Form::Listing => ">",
    }
}

/// Writes a name of the input as one word.
fn write_word<W: Write>(name: &[u8], form: Form, out: &mut W) -> io::Result<()>
    ensures { OnOk result (Appends (W.contents out.old) (W.contents out.new) (name_by form name.now)) }
{
    match form {
        Form::Word | Form::Listing => write_name(name, out),
        Form::Drawn => write_drawn_name(name, out),
    }
}

/// Writes how many bytes an address is behind a start, where it isn't that.
fn write_behind<W: Write>(behind: u32, out: &mut W) -> io::Result<()>
    ensures { OnOk result (Appends (W.contents out.old) (W.contents out.new) (behind_text behind)) }
{
    if behind == 0 {
        return out.write_all(b"");
    }
    let mut text = ArrayString::<16>::new();
    push_ascii(&mut text, b'+');
    push_decimal(&mut text, behind);
    out.write_all(text.as_bytes())
}

fn write_line_field<W: Write>(
    lines: Option<&SourceLines<'_>>,
    form: Form,
    address: u32,
    out: &mut W,
) -> io::Result<()>
    ensures { OnOk result (Appends (W.contents out.old) (W.contents out.new)
        (line_field form (option_map (λ lines. origins_of lines.now.lines.items) lines.entry) address)) }
{
    match lines {
        Some(lines) => write_origin_field(lines.line_at(address), form, out),
        None => out.write_all(b""),
    }
}

fn write_origin_field<W: Write>(
    line: Option<SourceLine<'_>>,
    form: Form,
    out: &mut W,
) -> io::Result<()>
    ensures { OnOk result (Appends (W.contents out.old) (W.contents out.new)
        (origin_field form (option_map origin_of line.entry))) }
{
    let Some(line) = line else {
        return out.write_all(b" -");
    };
    out.write_all(b" ")?;
    write_word(line.file, form, out)?;
    let mut text = ArrayString::<16>::new();
    push_ascii(&mut text, b':');
    push_decimal(&mut text, line.number);
    out.write_all(text.as_bytes())
}
