//! The foot of a picture: a text, in lines that end on the page.

ghost use Rattle.std.specs.Prelude.{◌≡◌, ◌≤◌, ◌<◌, ◌+◌, ◌++◌, OnOk, codes, length};
ghost use Rattle.std.specs.Io.KnownBytes.{Appends};
ghost use Rattle.story_pictures.specs.Foot.{
  caret_behind,
  character_text,
  ends_line,
  fills_line,
  foot_height,
  foot_open,
  foot_shown,
  foot_text,
  goes_on,
  has_at,
  is_arrow_at,
  is_of_arrow,
  lines_text,
  most_foot,
  next_caret,
  next_line,
  piece_text,
  pieces_text,
};

use crate::elements::write_number;
use std::io;
use std::io::Write;
use svg_drawing::write_shown_text;

/// The most bytes of a text that are drawn. A longer one shows nobody anything.
const MOST_FOOT: usize = 10_000;

/// How many characters a line has before it ends at its next blank, and how many at the most.
const LINE: u32 = 90;

const LONGEST_LINE: u32 = 110;

/// How far it is from a line to the next one, in the picture's units.
const LINE_HEIGHT: u32 = 18;

/// Where a text goes on: how many characters stand in the line, and how many lines have ended.
#[derive(Clone, Copy, Drop)]
pub(crate) struct Caret {
    pub(crate) column: u32,
    pub(crate) lines: u32,
}

/// How much higher a foot makes the page.
pub(crate) fn foot_height(foot: &[u8]) -> u32
    ensures value { result ≡ foot_height foot.now }
    ensures few { result ≤ 200000 }
{
    if foot.is_empty() {
        return 0;
    }
    LINE_HEIGHT * (caret_behind(foot_shown(foot)).lines + 1)
}

/// Writes a foot, which stands below this height; nothing where the text is empty.
pub(crate) fn write_foot<W: Write>(foot: &[u8], y: u32, out: &mut W) -> io::Result<()>
    ensures { OnOk result (Appends (W.contents out.old) (W.contents out.new) (foot_text foot.now y)) }
{
    if foot.is_empty() {
        return out.write_all(b"");
    }
    write_lines(foot_shown(foot), y, out)
}

/// What is drawn of a text.
fn foot_shown(foot: &[u8]) -> &[u8]
    ensures shown { result.now ≡ foot_shown foot.now }
    ensures few { length result.now ≤ most_foot }
{
    &foot[..MOST_FOOT.min(foot.len())]
}

/// Where a text goes on behind its last byte.
fn caret_behind(text: &[u8]) -> Caret
    requires { length text.now ≤ most_foot }
    ensures value { result ≡ caret_behind text.now }
    ensures few { result.lines ≤ most_foot }
{
    let mut caret = Caret {
        column: 0,
        lines: 0,
    };
    for byte in text {
        caret = next_caret(caret, *byte);
    }
    caret
}

/// Where a text goes on behind one byte more.
fn next_caret(caret: Caret, byte: u8) -> Caret
    requires column { caret.column ≤ most_foot }
    requires lines { caret.lines ≤ most_foot }
    ensures value { result ≡ next_caret caret byte }
    ensures column { result.column ≤ caret.column + 1 }
    ensures lines { result.lines ≤ caret.lines + 1 }
{
    if ends_line(byte, caret) {
        return Caret {
            column: 0,
            lines: caret.lines + 1,
        };
    }
    if fills_line(byte, caret) {
        return Caret {
            column: 1,
            lines: caret.lines + 1,
        };
    }
    if goes_on(byte) {
        return caret;
    }
    Caret {
        column: caret.column + 1,
        lines: caret.lines,
    }
}

/// Whether a line ends at a byte.
fn ends_line(byte: u8, caret: Caret) -> bool
    ensures { result ≡ ends_line byte caret }
{
    byte == b'\n' || (byte == b' ' && LINE <= caret.column)
}

/// Whether a line ends before a byte, since it is full.
fn fills_line(byte: u8, caret: Caret) -> bool
    ensures { result ≡ fills_line byte caret }
{
    LONGEST_LINE <= caret.column && !goes_on(byte)
}

/// Whether a byte goes on with a character.
fn goes_on(byte: u8) -> bool
    ensures { result ≡ goes_on byte }
{
    128 <= byte && byte < 192
}

fn write_lines<W: Write>(text: &[u8], y: u32, out: &mut W) -> io::Result<()>
    requires { length text.now ≤ most_foot }
    ensures { OnOk result (Appends (W.contents out.old) (W.contents out.new) (lines_text text.now y)) }
{
    write_foot_open(y, out)?;
    write_pieces(text, out)?;
    out.write_all(b"</tspan></text>\n")
}

#[tactic(auto, unfolding(crate::specs::Foot::foot_open))]
fn write_foot_open<W: Write>(y: u32, out: &mut W) -> io::Result<()>
    ensures { OnOk result (Appends (W.contents out.old) (W.contents out.new) (foot_open y)) }
{
    out.write_all(b"<text class=\"foot\" y=\"")?;
    write_number(u64::from(y), out)?;
    out.write_all(b"\"><tspan x=\"16\" dy=\"18\">")
}

/// Writes the bytes of a text, with the ends of lines.
fn write_pieces<W: Write>(text: &[u8], out: &mut W) -> io::Result<()>
    requires { length text.now ≤ most_foot }
    ensures { OnOk result (Appends (W.contents out.old) (W.contents out.new) (pieces_text text.now)) }
{
    let mut caret = Caret {
        column: 0,
        lines: 0,
    };
    for (index, byte) in text.iter().enumerate() {
        write_piece(text, index, *byte, caret, out)?;
        caret = next_caret(caret, *byte);
    }
    Ok(())
}

fn write_piece<W: Write>(
    text: &[u8],
    index: usize,
    byte: u8,
    caret: Caret,
    out: &mut W,
) -> io::Result<()>
    requires { index ≤ most_foot }
    ensures { OnOk result (Appends (W.contents out.old) (W.contents out.new)
        (piece_text text.now index byte caret)) }
{
    if ends_line(byte, caret) {
        return write_next_line(out);
    }
    if fills_line(byte, caret) {
        write_next_line(out)?;
        return write_character(text, index, byte, out);
    }
    write_character(text, index, byte, out)
}

fn write_next_line<W: Write>(out: &mut W) -> io::Result<()>
    ensures { OnOk result (Appends (W.contents out.old) (W.contents out.new) next_line) }
{
    out.write_all(b"</tspan>\n<tspan x=\"16\" dy=\"18\">")
}

/// Writes a byte of a text, where one of its character is drawn.
fn write_character<W: Write>(text: &[u8], index: usize, byte: u8, out: &mut W) -> io::Result<()>
    requires { index ≤ most_foot }
    ensures { OnOk result (Appends (W.contents out.old) (W.contents out.new)
        (character_text text.now index byte)) }
{
    if byte < 128 {
        return write_shown_text(&[byte], out);
    }
    if is_of_arrow(text, index) {
        return out.write_all(&[byte]);
    }
    if goes_on(byte) {
        return out.write_all(b"");
    }
    out.write_all(b"?")
}

/// Whether a byte is one of an arrow.
fn is_of_arrow(text: &[u8], index: usize) -> bool
    requires { index ≤ most_foot }
    ensures { result ≡ is_of_arrow text.now index }
{
    is_arrow_at(text, index)
        || is_arrow_at(text, index.saturating_sub(1))
        || is_arrow_at(text, index.saturating_sub(2))
}

/// Whether an arrow begins at an index.
fn is_arrow_at(text: &[u8], index: usize) -> bool
    requires { index ≤ most_foot }
    ensures { result ≡ is_arrow_at text.now index }
{
    has_at(text, index, 0xe2)
        && has_at(text, index + 1, 0x86)
        && (has_at(text, index + 2, 0x90) || has_at(text, index + 2, 0x92))
}

fn has_at(text: &[u8], index: usize, byte: u8) -> bool
    ensures { result ≡ has_at text.now index byte }
{
    match text.get(index) {
        Some(found) => *found == byte,
        None => false,
    }
}
