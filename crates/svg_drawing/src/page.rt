//! The file: its element, its style, and its page.

ghost use Rattle.std.specs.Prelude.{OnOk};
ghost use Rattle.std.specs.Io.KnownBytes.{Appends};
ghost use Rattle.svg_drawing.specs.Page.{end_text, page_text, style_text};

use std::io;
use std::io::Write;

/// Writes the beginning of a picture of this size, in the picture's units.
pub fn write_begin<W: Write>(width: u32, height: u32, out: &mut W) -> io::Result<()> {
    out.write_all(b"<svg xmlns=\"http://www.w3.org/2000/svg\" ")?;
    write!(out, "width=\"{width}\" height=\"{height}\" ")?;
    writeln!(out, "viewBox=\"0 0 {width} {height}\">")
}

/// Writes the rules of a picture's style, each with its line end, and the page behind all that is drawn, whose class
/// is `page`.
pub fn write_style<W: Write>(rules: &str, out: &mut W) -> io::Result<()>
    ensures { OnOk result (Appends (W.contents out.old) (W.contents out.new)
        (style_text rules.now)) }
{
    out.write_all(b"<style>\n")?;
    out.write_all(rules.as_bytes())?;
    write_page(out)
}

/// Writes the end of the style, and the page.
#[tactic(auto, unfolding(crate::specs::Page::page_text))]
fn write_page<W: Write>(out: &mut W) -> io::Result<()>
    ensures { OnOk result (Appends (W.contents out.old) (W.contents out.new) page_text) }
{
    out.write_all(b"</style>\n<rect class=\"page\" width=\"100%\" height=\"100%\"/>\n")
}

/// Writes the end of a picture.
pub fn write_end<W: Write>(out: &mut W) -> io::Result<()>
    ensures { OnOk result (Appends (W.contents out.old) (W.contents out.new) end_text) }
{
    out.write_all(b"</svg>\n")
}
