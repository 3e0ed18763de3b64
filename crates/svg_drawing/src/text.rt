//! Texts in a picture.

ghost use Rattle.std.specs.Prelude.{OnOk};
ghost use Rattle.std.specs.Io.KnownBytes.{Appends};
ghost use Rattle.svg_drawing.specs.Text.{drawn, drawn_byte, drawn_name, drawn_name_byte};

use shown_text::{write_name, write_shown};
use std::io;
use std::io::Write;

/// Writes a text of one class, whose left end or middle, as its class says, stands at this point. It is drawn as it is:
/// nothing of XML may be in it.
pub fn write_label<W: Write>(
    class: &str,
    x: u32,
    y: u32,
    text: &str,
    out: &mut W,
) -> io::Result<()> {
    writeln!(
        out,
        "<text class=\"{class}\" x=\"{x}\" y=\"{y}\">{text}</text>"
    )
}

/// Writes a text of an input as one of XML, a control character as `\x` and its two hexadecimal digits. What isn't
/// ASCII is a question mark.
pub fn write_shown_text<W: Write>(text: &[u8], out: &mut W) -> io::Result<()>
    ensures { OnOk result (Appends (W.contents out.old) (W.contents out.new) (drawn text.now)) }
{
    for byte in text {
        write_byte(*byte, out)?;
    }
    Ok(())
}

/// Writes a name as one word of XML: as `write_shown_text` does, and a blank is `\x20`.
pub fn write_drawn_name<W: Write>(name: &[u8], out: &mut W) -> io::Result<()>
    ensures { OnOk result (Appends (W.contents out.old) (W.contents out.new) (drawn_name name.now)) }
{
    for byte in name {
        write_name_byte(*byte, out)?;
    }
    Ok(())
}

fn write_name_byte<W: Write>(byte: u8, out: &mut W) -> io::Result<()>
    ensures { OnOk result (Appends (W.contents out.old) (W.contents out.new) (drawn_name_byte byte)) }
{
    if byte == b' ' {
        return write_name(&[byte], out);
    }
    write_byte(byte, out)
}

fn write_byte<W: Write>(byte: u8, out: &mut W) -> io::Result<()>
    ensures { OnOk result (Appends (W.contents out.old) (W.contents out.new) (drawn_byte byte)) }
{
    if byte == b'<' {
        return out.write_all(b"&lt;");
    }
    if byte == b'&' {
        return out.write_all(b"&amp;");
    }
    if byte >= 128 {
        return out.write_all(b"?");
    }
    write_shown(&[byte], out)
}
