//! A text to be read.

ghost use Rattle.std.specs.Prelude.{◌≡◌, ◌∷◌, OnOk};
ghost use Rattle.std.specs.Io.KnownBytes.{Appends};
ghost use Rattle.text_fields.specs.Spelling.{hex};
ghost use Rattle.shown_text.specs.Shown.{is_control, shown_byte, shown, shown_name, shown_name_byte};

use arrayvec::ArrayString;
use std::io;
use std::io::Write;
use text_fields::push_hex;

/// Writes a text in which each control character of ASCII, newlines too, is `\x` and its two
/// hexadecimal digits. All else stands as it is.
pub fn write_shown<W: Write>(text: &[u8], out: &mut W) -> io::Result<()>
    ensures { OnOk result (Appends (W.contents out.old) (W.contents out.new) (shown text.now)) }
{
    for byte in text {
        write_byte(*byte, out)?;
    }
    Ok(())
}

fn write_byte<W: Write>(byte: u8, out: &mut W) -> io::Result<()>
    ensures { OnOk result (Appends (W.contents out.old) (W.contents out.new) (shown_byte byte)) }
{
    if is_control(byte) {
        out.write_all(escape_of(byte).as_bytes())
    } else {
        out.write_all(&[byte])
    }
}

/// Writes a name as one word: as `write_shown` does, and a blank is `\x20`.
pub fn write_name<W: Write>(name: &[u8], out: &mut W) -> io::Result<()>
    ensures { OnOk result (Appends (W.contents out.old) (W.contents out.new) (shown_name name.now)) }
{
    for byte in name {
        write_name_byte(*byte, out)?;
    }
    Ok(())
}

fn write_name_byte<W: Write>(byte: u8, out: &mut W) -> io::Result<()>
    ensures { OnOk result (Appends (W.contents out.old) (W.contents out.new) (shown_name_byte byte)) }
{
    if byte == b' ' {
        return out.write_all(escape_of(byte).as_bytes());
    }
    write_byte(byte, out)
}

/// Whether a byte is a control character of ASCII.
pub(crate) fn is_control(byte: u8) -> bool
    ensures { result ≡ is_control byte }
{
    byte < 0x20 || byte == 0x7f
}

/// What stands for a control character.
pub(crate) fn escape_of(byte: u8) -> ArrayString<4>
    ensures { result.bytes ≡ 92 ∷ 120 ∷ hex 2 byte }
{
    let mut text = ArrayString::new();
    text.push_str("\\x");
    push_hex(&mut text, u32::from(byte), 2);
    text
}
