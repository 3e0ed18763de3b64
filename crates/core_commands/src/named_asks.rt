//! The lines of asks, with what is wanted beside the pc of each fetch.

ghost use Rattle.std.specs.Prelude.{◌≡◌, ◌∷◌, ◌++◌, OnOk, IfSome, IfNone};
ghost use Rattle.std.specs.Io.KnownBytes.{Appends};
ghost use Rattle.text_fields.specs.Printing.{Prints};
ghost use Rattle.text_fields.specs.Splitting.{Lacks, rest};
ghost use Rattle.address_labels.specs.Labels.{marks_of};
ghost use Rattle.core_commands.specs.NamedAsks.{IsNamedText, fetched_pc, last_line, named_line, pc_in};

use address_labels::{Form, Labels, write_labels};
use std::io;
use std::io::Write;
use text_fields::{read_hex, split_field};

/// Writes the lines of asks, each of them explained or not. Behind that of a fetch stands what is wanted beside its pc.
pub(crate) fn write_named<W: Write>(text: &[u8], labels: &Labels<'_>, out: &mut W) -> io::Result<()>
    ensures { OnOk result (Prints (W.contents out.old) (W.contents out.new)
        (IsNamedText (marks_of labels.now) text.now)) }
{
    let mut left = text;
    while let Some((line, others)) = cut_line(left) {
        write_named_line(line, labels, out)?;
        left = others;
    }
    write_last(left, labels, out)
}

/// The first line of a text, without its newline, and what stands behind that; none where there is no newline.
fn cut_line(text: &[u8]) -> Option<(&[u8], &[u8])>
    ensures cut { IfSome result (λ p. text.now ≡ p.0.now ++ 10 ∷ p.1.now) }
    ensures line { IfSome result (λ p. Lacks 10 p.0.now) }
    ensures none { IfNone result (Lacks 10 text.now) }
{
    let (line, others) = split_field(text, b'\n');
    if line.len() == text.len() {
        return None;
    }
    Some((line, others))
}

/// Writes what stands behind the last newline, as a line, where there is something.
fn write_last<W: Write>(text: &[u8], labels: &Labels<'_>, out: &mut W) -> io::Result<()>
    ensures { OnOk result (Appends (W.contents out.old) (W.contents out.new)
        (last_line (marks_of labels.now) text.now)) }
{
    if text.is_empty() {
        return Ok(());
    }
    write_named_line(text, labels, out)
}

/// Writes a line, which comes without its newline.
fn write_named_line<W: Write>(line: &[u8], labels: &Labels<'_>, out: &mut W) -> io::Result<()>
    ensures { OnOk result (Appends (W.contents out.old) (W.contents out.new)
        (named_line (marks_of labels.now) line.now)) }
{
    out.write_all(line)?;
    if let Some(pc) = pc_in(line) {
        write_labels(labels, Form::Word, pc, out)?;
    }
    out.write_all(b"\n")
}

/// The pc of a line that is of a fetch, behind the word of its ask, where that is explained.
fn pc_in(line: &[u8]) -> Option<u32>
    ensures { result ≡ pc_in line.now }
{
    match fetched_pc(line) {
        Some(pc) => Some(pc),
        None => fetched_pc(split_field(line, b' ').1),
    }
}

/// The pc of a line that begins as that of a fetch.
fn fetched_pc(line: &[u8]) -> Option<u32>
    ensures { result ≡ fetched_pc line.now }
{
    if !line.starts_with(b"done F ") {
        return None;
    }
    // `done F`, actor, hart and number stand before it.
    let left = behind(behind(behind(behind(behind(line)))));
    read_hex(split_field(left, b' ').0, 8).ok()
}

/// What stands behind the first space.
fn behind(text: &[u8]) -> &[u8]
    ensures { result.now ≡ rest 32 text.now }
{
    split_field(text, b' ').1
}
