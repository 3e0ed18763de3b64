//! Parts of the file.

ghost use Rattle.std.specs.Prelude.{◌≡◌, OnOk};
ghost use Rattle.std.specs.Io.KnownBytes.{Appends};
ghost use Rattle.std.specs.Fmt.{decimal};
ghost use Rattle.story_pictures.specs.Elements.{close_text, open_text, place_attributes, point_text};

use arrayvec::ArrayString;
use std::io;
use std::io::Write;
use text_fields::push_decimal;

/// Writes a number.
pub(crate) fn write_number<W: Write>(number: u64, out: &mut W) -> io::Result<()>
    ensures { OnOk result (Appends (W.contents out.old) (W.contents out.new) (decimal number)) }
{
    let mut text = ArrayString::<24>::new();
    push_decimal(&mut text, number);
    out.write_all(text.as_bytes())
}

/// Writes a point of a path.
#[tactic(auto, unfolding(crate::specs::Elements::point_text))]
pub(crate) fn write_point<W: Write>(x: u32, y: u32, out: &mut W) -> io::Result<()>
    ensures { OnOk result (Appends (W.contents out.old) (W.contents out.new) (point_text x y)) }
{
    write_number(u64::from(x), out)?;
    out.write_all(b" ")?;
    write_number(u64::from(y), out)
}

/// Writes where something stands.
#[tactic(auto, unfolding(crate::specs::Elements::place_attributes))]
pub(crate) fn write_place_attributes<W: Write>(x: u32, y: u32, out: &mut W) -> io::Result<()>
    ensures { OnOk result (Appends (W.contents out.old) (W.contents out.new) (place_attributes x y)) }
{
    out.write_all(b"x=\"")?;
    write_number(u64::from(x), out)?;
    out.write_all(b"\" y=\"")?;
    write_number(u64::from(y), out)?;
    out.write_all(b"\"")
}

/// Writes the beginning of a text of these classes that stands at a point.
pub(crate) fn write_open_text<W: Write>(class: &str, x: u32, y: u32, out: &mut W) -> io::Result<()>
    ensures { OnOk result (Appends (W.contents out.old) (W.contents out.new) (open_text class.now x y)) }
{
    out.write_all(b"<text class=\"")?;
    out.write_all(class.as_bytes())?;
    out.write_all(b"\" ")?;
    write_place_attributes(x, y, out)?;
    out.write_all(b">")
}

pub(crate) fn write_close_text<W: Write>(out: &mut W) -> io::Result<()>
    ensures { OnOk result (Appends (W.contents out.old) (W.contents out.new) close_text) }
{
    out.write_all(b"</text>\n")
}
