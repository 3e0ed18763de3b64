//! A line with a word and a number.

ghost use Rattle.std.specs.Prelude.{◌≡◌, ◌≤◌, length, OnOk};
ghost use Rattle.std.specs.Io.KnownBytes.{Appends};
ghost use Rattle.report_lines.specs.Lines.{count_line};

use arrayvec::ArrayString;
use std::io;
use std::io::Write;
use text_fields::{push_ascii, push_decimal};

/// Room for a word with its number, or for the line of a hart.
pub type Line = ArrayString<64>;

/// Writes a word, a number and a newline.
pub fn report_count<W: Write>(name: &str, count: u64, out: &mut W) -> io::Result<()>
    requires { length name.now ≤ 32 }
    ensures { OnOk result
        (Appends (W.contents out.old) (W.contents out.new) (count_line name.now count)) }
{
    let mut line = Line::new();
    line.push_str(name);
    push_ascii(&mut line, b' ');
    push_decimal(&mut line, count);
    push_ascii(&mut line, b'\n');
    out.write_all(line.as_bytes())
}
