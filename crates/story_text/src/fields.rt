//! Numbers and columns.

ghost use Rattle.std.specs.Prelude.{◌≡◌, ◌*◌, ◌≤◌, ◌<◌, OnOk, replicate};
ghost use Rattle.std.specs.Io.KnownBytes.{Appends};
ghost use Rattle.std.specs.Fmt.{decimal};
ghost use Rattle.numbers.specs.Sizes.{most_harts};
ghost use Rattle.story_text.specs.Fields.{column_width, column, number_field, steps_word, unseen_text};

use arrayvec::ArrayString;
use std::io;
use std::io::Write;
use text_fields::{push_ascii, push_decimal};

/// How many characters the number of a row has, with the space behind it.
pub(crate) const NUMBER_WIDTH: usize = 5;

/// The most spaces that are written at once.
const MOST_BLANKS: usize = 128;

static BLANKS: [u8; MOST_BLANKS] = [b' '; MOST_BLANKS];

/// Writes spaces, `MOST_BLANKS` at the most.
pub(crate) fn write_blanks<W: Write>(count: usize, out: &mut W) -> io::Result<()>
    requires { count ≤ 128 }
    ensures { OnOk result (Appends (W.contents out.old) (W.contents out.new) (replicate count 32)) }
{
    out.write_all(&BLANKS[..count])
}

/// Writes a number.
pub fn write_number<W: Write>(number: u64, out: &mut W) -> io::Result<()>
    ensures { OnOk result (Appends (W.contents out.old) (W.contents out.new) (decimal number)) }
{
    let mut text = ArrayString::<24>::new();
    push_decimal(&mut text, number);
    out.write_all(text.as_bytes())
}

/// Writes the number of a row, up to where hart 0's column begins.
pub(crate) fn write_number_field<W: Write>(number: u64, out: &mut W) -> io::Result<()>
    ensures { OnOk result (Appends (W.contents out.old) (W.contents out.new) (number_field number)) }
{
    let mut text = ArrayString::<24>::new();
    push_decimal(&mut text, number);
    push_ascii(&mut text, b' ');
    let bytes = text.as_bytes();
    out.write_all(bytes)?;
    write_blanks(NUMBER_WIDTH.saturating_sub(bytes.len()), out)
}

/// How many characters a hart's column has: few where there are many harts, since what is longer than its column does
/// no harm.
pub(crate) fn column_width(harts: u8) -> usize
    ensures value { result ≡ column_width harts }
    ensures few { result * most_harts ≤ 128 * 3 }
{
    if harts <= 4 { 24 } else { 8 }
}

/// Writes the spaces before a hart's column.
pub(crate) fn write_column<W: Write>(harts: u8, hart: u8, out: &mut W) -> io::Result<()>
    requires inside { hart < harts }
    requires few { harts ≤ most_harts }
    ensures { OnOk result (Appends (W.contents out.old) (W.contents out.new) (column harts hart)) }
{
    write_blanks(column_width(harts) * usize::from(hart), out)
}

/// Writes how many steps came that have no row, where some did.
pub(crate) fn write_unseen<W: Write>(count: u64, out: &mut W) -> io::Result<()>
    ensures { OnOk result (Appends (W.contents out.old) (W.contents out.new) (unseen_text count)) }
{
    if count == 0 {
        return out.write_all(b"");
    }
    out.write_all(b"     (")?;
    write_number(count, out)?;
    out.write_all(steps_word(count).as_bytes())
}

fn steps_word(count: u64) -> &'static str
    ensures { result.now ≡ steps_word count }
{
    if count == 1 { " step)\n" } else { " steps)\n" }
}
