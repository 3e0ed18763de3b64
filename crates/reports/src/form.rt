//! A number under its word: in a line, or in a JSON object.

ghost use Rattle.std.specs.Prelude.{◌≡◌, ◌≤◌, ◌++◌, length, OnOk};
ghost use Rattle.std.specs.Io.KnownBytes.{Appends};
ghost use Rattle.arrayvec.specs.ArrayString.{array_string_len};
ghost use Rattle.reports.specs.Form.{member_text, number_text};

use report_lines::{Line, report_count};
use std::io;
use std::io::Write;
use text_fields::{push_ascii, push_decimal};

/// As what numbers are written.
#[derive(Clone, Copy, PartialEq, Eq, Drop)]
pub(crate) enum Form {
    /// A line each.
    Lines,
    /// Members of a JSON object.
    Members,
}

/// Writes a number under its word; as a member of an object behind `lead`.
pub(crate) fn write_number<W: Write>(
    form: Form,
    lead: &str,
    name: &str,
    number: usize,
    out: &mut W,
) -> io::Result<()>
    requires lead { length lead.now ≤ 2 }
    requires name { length name.now ≤ 32 }
    ensures { OnOk result
        (Appends (W.contents out.old) (W.contents out.new)
        (number_text form lead.now name.now number)) }
{
    match form {
        Form::Lines => report_count(name, number as u64, out),
        Form::Members => write_member(lead, name, number as u64, out),
    }
}

/// Writes a member of a JSON object behind `lead`, which opens the object or parts it from the member
/// before.
pub(crate) fn write_member<W: Write>(
    lead: &str,
    name: &str,
    number: u64,
    out: &mut W,
) -> io::Result<()>
    requires lead { length lead.now ≤ 2 }
    requires name { length name.now ≤ 32 }
    ensures { OnOk result
        (Appends (W.contents out.old) (W.contents out.new)
        (member_text lead.now name.now number)) }
{
    let mut line = Line::new();
    line.push_str(lead);
    push_ascii(&mut line, b'"');
    line.push_str(name);
    line.push_str("\":");
    push_decimal(&mut line, number);
    out.write_all(line.as_bytes())
}
