//! Why a line of a trace can't be read.

ghost use Rattle.std.specs.Prelude.{IfOk};
ghost use Rattle.refused_traces.specs.Why.{IsLineWhy};

use crate::forms::{Field, config_field, event_field};
use crate::parts::text_of_line;
use crate::rules::line_rule;
use event_text::{FIRST_RANGES, Ranges, SECOND_RANGES, THIRD_RANGES};
use events::EventKind;
use numbers::sizes::MOST_ACTORS;
use shown_text::write_shown;
use std::alloc::{AllocError, Global};
use std::io;
use std::io::Write;
use text_fields::{field_count, split_field};

/// How many bytes of a text of the trace are shown.
const MOST_SHOWN: usize = 100;

/// The lines that say why a line of a trace's text, from 1, is refused by a rule: the line, the rule, and of the field
/// that is refused what may stand there.
///
/// Fails only for want of memory.
pub fn explain_line(
    trace: &[u8],
    line: usize,
    rule: u8,
    alloc: Global,
) -> Result<Vec<u8>, AllocError>
    ensures { IfOk result (λ text. IsLineWhy line rule text.items) }
{
    let text = line_of(trace, line);
    let shown = shown_line(text, alloc)?;
    let may = fault_of(trace, text, line, rule, alloc)?;
    text_of_line(line, rule, shown.as_slice(), may.as_slice(), alloc)
}

fn shown_line(text: &[u8], alloc: Global) -> Result<Vec<u8>, AllocError> {
    let mut shown = Vec::new(alloc);
    match write_cut(text, &mut shown) {
        Ok(()) => Ok(shown),
        Err(_) => Err(AllocError),
    }
}

/// The words of the rule, and of the field that is refused what may stand there.
fn fault_of(
    trace: &[u8],
    text: &[u8],
    line: usize,
    rule: u8,
    alloc: Global,
) -> Result<Vec<u8>, AllocError> {
    let mut may = Vec::new(alloc);
    match write_fault_of(trace, text, line, rule, &mut may) {
        Ok(()) => Ok(may),
        Err(_) => Err(AllocError),
    }
}

fn write_fault_of<W: Write>(
    trace: &[u8],
    text: &[u8],
    line: usize,
    rule: u8,
    out: &mut W,
) -> io::Result<()> {
    out.write_all(line_rule(rule).as_bytes())?;
    out.write_all(b"\n")?;
    match ranges_of(trace) {
        _ if rule == 2 => out.write_all(b"end: the text ends without a newline\n"),
        _ if line == 1 => write_version(text, out),
        Some(ranges) if line == 2 && ranges != FIRST_RANGES => write_config_fault(text, rule, out),
        ranges => write_event_fault(text, rule, ranges.unwrap_or(THIRD_RANGES), out),
    }
}

/// The line of a text, from 1, without its newline.
fn line_of(trace: &[u8], line: usize) -> &[u8] {
    let mut rest = trace;
    for _ in 1..line {
        let (_, behind) = split_field(rest, b'\n');
        rest = behind;
    }
    let (text, _) = split_field(rest, b'\n');
    text
}

/// The ranges of the version that the first line names.
fn ranges_of(trace: &[u8]) -> Option<Ranges> {
    let (first, _) = split_field(trace, b'\n');
    if first == b"smt-trace 1".as_slice() {
        return Some(FIRST_RANGES);
    }
    if first == b"smt-trace 2".as_slice() {
        return Some(SECOND_RANGES);
    }
    if first == b"smt-trace 3".as_slice() {
        return Some(THIRD_RANGES);
    }
    None
}

/// Writes a text as it is shown to a person, cut where it is long.
fn write_cut<W: Write>(text: &[u8], out: &mut W) -> io::Result<()> {
    write_begin(text, out)?;
    let bytes = text.len();
    if bytes <= MOST_SHOWN {
        return Ok(());
    }
    write!(out, " .. ({bytes} bytes)")
}

/// Writes what is shown of a text.
fn write_begin<W: Write>(text: &[u8], out: &mut W) -> io::Result<()> {
    for (place, byte) in text.iter().enumerate() {
        if place >= MOST_SHOWN {
            return Ok(());
        }
        write_shown(&[*byte], out)?;
    }
    Ok(())
}

/// Writes a field of a line as it is shown.
fn write_field<W: Write>(text: &[u8], out: &mut W) -> io::Result<()> {
    if text.is_empty() {
        return out.write_all(b"nothing");
    }
    write_cut(text, out)
}

fn write_version<W: Write>(text: &[u8], out: &mut W) -> io::Result<()> {
    let may = "smt-trace 1, smt-trace 2 or smt-trace 3";
    write_there("version", text, may, out)
}

/// Writes what stands in a field, and what may stand there.
fn write_there<W: Write>(name: &str, text: &[u8], may: &str, out: &mut W) -> io::Result<()> {
    write_has(name, text, out)?;
    out.write_all(may.as_bytes())?;
    out.write_all(b"\n")
}

fn write_has<W: Write>(name: &str, text: &[u8], out: &mut W) -> io::Result<()> {
    write!(out, "{name}: the line has ")?;
    write_field(text, out)?;
    out.write_all(b"; there may stand ")
}

/// Writes why the line of a core is refused.
fn write_config_fault<W: Write>(text: &[u8], rule: u8, out: &mut W) -> io::Result<()> {
    let (word, fields) = split_field(text, b' ');
    match rule {
        3 => write_there("first field", word, "config", out),
        4 => {
            let count = count_behind(word, text, fields);
            let most = MOST_ACTORS.saturating_add(3);
            write!(
                out,
                "fields: the line has {count} behind config; there may stand 4 to {most}: "
            )?;
            writeln!(out, "harts extra queue, and 1 to {MOST_ACTORS} roles")
        }
        _ => write_first_fault(None, fields, THIRD_RANGES, out),
    }
}

/// Writes why the line of an event is refused.
fn write_event_fault<W: Write>(
    text: &[u8],
    rule: u8,
    ranges: Ranges,
    out: &mut W,
) -> io::Result<()> {
    let (letter, fields) = split_field(text, b' ');
    let kind = kind_named(letter);
    match (rule, kind) {
        (4, Some(kind)) => write_count(kind, letter, text, fields, ranges, out),
        (5 | 6, Some(_)) => write_first_fault(kind, fields, ranges, out),
        _ if ranges.refetches => {
            write_there("first field", letter, "F, D, R, I, C, X, T or G", out)
        }
        _ => write_there("first field", letter, "F, D, R, I, C, X or T", out),
    }
}

fn kind_named(letter: &[u8]) -> Option<EventKind> {
    if letter.len() != 1 {
        return None;
    }
    EventKind::from_letter(letter[0])
}

/// How many fields stand behind the first of a line.
fn count_behind(first: &[u8], text: &[u8], fields: &[u8]) -> usize {
    if first.len() == text.len() {
        return 0;
    }
    field_count(fields, b' ')
}

/// Writes how many fields a line has, and which it has to have.
fn write_count<W: Write>(
    kind: EventKind,
    letter: &[u8],
    text: &[u8],
    fields: &[u8],
    ranges: Ranges,
    out: &mut W,
) -> io::Result<()> {
    let count = count_behind(letter, text, fields);
    write!(out, "fields: the line has {count} behind ")?;
    out.write_all(letter)?;
    let wanted = kind.fields_after();
    write!(out, "; there may stand {wanted}:")?;
    for place in 0..wanted {
        let Field { name, .. } = event_field(kind, place, ranges);
        write!(out, " {name}")?;
    }
    out.write_all(b"\n")
}

/// Writes which field is the first that may not stand there, and what may: of an event, or of the line of a core.
fn write_first_fault<W: Write>(
    kind: Option<EventKind>,
    fields: &[u8],
    ranges: Ranges,
    out: &mut W,
) -> io::Result<()> {
    let mut rest = fields;
    for place in 0..field_count(fields, b' ') {
        let (text, behind) = split_field(rest, b' ');
        let field = match kind {
            Some(kind) => event_field(kind, place, ranges),
            None => config_field(place),
        };
        if !field.form.accepts(text) {
            return write_fault(field, text, out);
        }
        if kind == Some(EventKind::Retire) && place == 5 && is_half_write(fields) {
            return write_half_write(fields, out);
        }
        rest = behind;
    }
    Ok(())
}

fn write_fault<W: Write>(field: Field, text: &[u8], out: &mut W) -> io::Result<()> {
    write_has(field.name, text, out)?;
    field.form.write(out)?;
    out.write_all(b"\n")
}

/// The address and the data in the fields of a retirement.
fn write_of(fields: &[u8]) -> (&[u8], &[u8]) {
    let mut rest = fields;
    for _ in 0..4 {
        let (_, behind) = split_field(rest, b' ');
        rest = behind;
    }
    let (address, behind) = split_field(rest, b' ');
    let (data, _) = split_field(behind, b' ');
    (address, data)
}

/// Whether one of the two is there alone.
fn is_half_write(fields: &[u8]) -> bool {
    let (address, data) = write_of(fields);
    is_dash(address) != is_dash(data)
}

fn is_dash(text: &[u8]) -> bool {
    text == b"-".as_slice()
}

fn write_half_write<W: Write>(fields: &[u8], out: &mut W) -> io::Result<()> {
    let (address, data) = write_of(fields);
    out.write_all(b"address and data: the line has ")?;
    write_field(address, out)?;
    out.write_all(b" and ")?;
    write_field(data, out)?;
    out.write_all(b"; there may stand both or none\n")
}
