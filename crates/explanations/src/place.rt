//! Where something stands in a text.

ghost use Rattle.std.specs.Prelude.{◌≡◌, ◌≤◌, ◌<◌, ◌+◌, ◌-◌, ◌^◌, length, drop, OnOk};
ghost use Rattle.std.specs.Io.KnownBytes.{Appends};
ghost use Rattle.explanations.specs.Places.{next_place, place_from, first_place, place_at, place_text, found_at};
ghost use Rattle.explanations.specs.Places.{is_of_name, is_name_end, has_name, is_quote, begins_line, behind_quote};
ghost use Rattle.explanations.specs.Places.{key_place, quoted_place};

use std::io;
use std::io::Write;

/// A line and a column of a text, both from 1. A column counts characters.
#[derive(Clone, Copy, PartialEq, Eq, Drop)]
pub(crate) struct Place {
    line: usize,
    column: usize,
}

impl Place {
    /// The place of this byte of a text.
    pub fn at(text: &[u8], byte: usize) -> Place
        ensures { result ≡ place_at text.now byte }
    {
        if byte < text.len() {
            Place::behind_all(&text[..byte])
        } else {
            Place::behind_all(text)
        }
    }

    /// The place behind these bytes.
    fn behind_all(text: &[u8]) -> Place
        ensures { result ≡ place_from first_place text.now }
    {
        let mut place = Place { line: 1, column: 1 };
        for byte in 0..text.len() {
            place = place.behind(text[byte]);
        }
        place
    }

    /// The place behind this byte, of which there are fewer than 2^63 before it.
    fn behind(self, byte: u8) -> Place
        requires line { self.line < 2 ^ 64 - 1 }
        requires column { self.column < 2 ^ 64 - 1 }
        ensures { result ≡ next_place self byte }
    {
        if byte == b'\n' {
            Place {
                line: self.line + 1,
                column: 1,
            }
        } else if byte / 64 == 2 {
            self
        } else {
            Place {
                line: self.line,
                column: self.column + 1,
            }
        }
    }

    /// Writes `line 3, column 1: `.
    pub fn write<W: Write>(&self, out: &mut W) -> io::Result<()>
        ensures { OnOk result (Appends (W.contents out.old) (W.contents out.new)
            (place_text self.now.line self.now.column)) }
    {
        write_place(self.line, self.column, out)
    }
}

#[tactic(auto, unfolding(crate::specs::Places::place_text))]
fn write_place<W: Write>(line: usize, column: usize, out: &mut W) -> io::Result<()>
    ensures { OnOk result (Appends (W.contents out.old) (W.contents out.new) (place_text line column)) }
{
    write!(out, "line {line}, column {column}: ")
}

/// Writes the place of this byte of a text; nothing where there is none.
pub(crate) fn write_found<W: Write>(text: &[u8], byte: Option<usize>, out: &mut W) -> io::Result<()>
    ensures { OnOk result (Appends (W.contents out.old) (W.contents out.new) (found_at text.now byte)) }
{
    match byte {
        Some(byte) => Place::at(text, byte).write(out),
        None => out.write_all(b""),
    }
}

/// The byte at which a key is given in the text of a configuration: the first at which a line begins
/// with it, behind blanks, and behind the brackets of a table or a quotation mark. None where the key
/// is spelled in another way.
pub(crate) fn place_of_key(text: &[u8], key: &str) -> Option<usize>
    ensures { result ≡ key_place text.now key.now }
{
    let mut begins = true;
    for byte in 0..text.len() {
        if begins && is_name_at(text, byte, key) {
            return Some(byte);
        }
        begins = begins_line(begins, text[byte]);
    }
    None
}

/// The byte at which a name stands in quotation marks.
pub(crate) fn place_of_quoted(text: &[u8], name: &str) -> Option<usize>
    ensures { result ≡ quoted_place text.now name.now }
{
    let mut quoted = false;
    for byte in 0..text.len() {
        if quoted && is_name_at(text, byte, name) {
            return Some(byte);
        }
        quoted = is_quote(text[byte]);
    }
    None
}

/// Whether a line begins behind this byte, where one does or doesn't begin before it.
fn begins_line(begins: bool, byte: u8) -> bool
    ensures { result ≡ begins_line begins byte }
{
    byte == b'\n' || (begins && (byte == b' ' || byte == b'\t' || byte == b'[' || is_quote(byte)))
}

fn is_quote(byte: u8) -> bool
    ensures { result ≡ is_quote byte }
{
    byte == b'"' || byte == b'\''
}

/// Whether a name stands at this byte of a text, and ends where it ends.
fn is_name_at(text: &[u8], byte: usize, name: &str) -> bool
    requires { byte ≤ length text.now }
    ensures { result ≡ has_name name.now (drop byte text.now) }
{
    let rest = &text[byte..];
    let name = name.as_bytes();
    rest.starts_with(name) && is_name_end(&rest[name.len()..])
}

/// Whether a name ends before these bytes.
fn is_name_end(rest: &[u8]) -> bool
    ensures { result ≡ is_name_end rest.now }
{
    match rest {
        [next, ..] => !is_of_name(*next),
        [] => true,
    }
}

/// Whether a byte may stand in a key without quotation marks.
fn is_of_name(byte: u8) -> bool
    ensures { result ≡ is_of_name byte }
{
    byte.is_ascii_alphanumeric() || byte == b'_' || byte == b'-'
}
