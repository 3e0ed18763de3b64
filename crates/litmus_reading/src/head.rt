//! What stands before the braces: `RISCV` and the name of the test, a string, and lines `Key=..`.

ghost use Rattle.std.specs.Prelude.{◌≡◌, ◌≤◌, ◌<◌, ℕ, Bool, List, length, slice_index, slice_range, true, IfOk};
ghost use Rattle.litmus_words.specs.Answered.{Gives};
ghost use Rattle.litmus_reading.specs.Heads.{
  IsHeadOf,
  IsKeyLine,
  IsLineTo,
  IsMetadata,
  IsPart,
  IsString,
  IsTrimmed,
};

use litmus_words::{Fault, Stop, name_end, skip_blanks};

/// Where the name of a test stands, and where its braces begin.
#[derive(Clone, Copy, Drop)]
pub(crate) struct Head {
    pub name_start: usize,
    pub name_end: usize,
    pub braces: usize,
}

/// Reads what stands before the braces.
pub(crate) fn read_head(text: &[u8]) -> Result<Head, Stop>
    ensures name { IfOk result (λ head. head.name_start ≤ head.name_end) }
    ensures inside { IfOk result (λ head. head.name_end ≤ length text.now) }
    ensures braces { IfOk result (λ head. head.braces ≤ length text.now) }
    ensures head { IfOk result (λ head.
        IsHeadOf text.now (slice_range text.now head.name_start head.name_end) head.braces) }
    ensures only { (name : List ℕ) → (braces : ℕ) → IsHeadOf text.now name braces → Gives result (λ head.
        (slice_range text.now head.name_start head.name_end ≡ name) × (head.braces ≡ braces)) }
{
    let at = skip_blanks(text, 0)?;
    let end = name_end(text, at);
    if &text[at..end] != b"RISCV".as_slice() {
        return Err(Stop::at(at, Fault::NotRiscv));
    }
    let line = line_end(text, end);
    let (name_start, name_end) = trimmed(text, end, line);
    if name_start >= name_end {
        return Err(Stop::at(at, Fault::NoName));
    }
    let first = skip_blanks(text, name_end)?;
    let braces = skip_metadata(text, first)?;
    Ok(Head {
        name_start,
        name_end,
        braces,
    })
}

/// Where the line ends that goes on at this byte.
fn line_end(text: &[u8], from: usize) -> usize
    requires { from ≤ length text.now }
    ensures { IsLineTo text.now from result }
{
    let mut at = from;
    while at < text.len() && text[at] != b'\n' {
        at += 1;
    }
    at
}

/// A part of a text without the blanks around it.
fn trimmed(text: &[u8], start: usize, end: usize) -> (usize, usize)
    requires { (start ≤ end) × (end ≤ length text.now) }
    ensures { IsTrimmed text.now start end result.0 result.1 }
{
    let mut from = start;
    while from < end && text[from].is_ascii_whitespace() {
        from += 1;
    }
    let mut to = end;
    while from < to && text[to - 1].is_ascii_whitespace() {
        to -= 1;
    }
    (from, to)
}

/// Where the braces begin: behind a string, of which there may be one, and lines `Key=..`.
fn skip_metadata(text: &[u8], from: usize) -> Result<usize, Stop>
    requires { from ≤ length text.now }
    ensures inside { IfOk result (λ at. at ≤ length text.now) }
    ensures metadata { IfOk result (IsMetadata text.now true from) }
    ensures only { (to : ℕ) → IsMetadata text.now true from to → Gives result (λ at. at ≡ to) }
{
    let mut may_quote = true;
    let mut at = from;
    while at < text.len() && text[at] != b'{' {
        let (behind, left) = part_end(text, may_quote, at)?;
        may_quote = left;
        at = skip_blanks(text, behind)?;
    }
    Ok(at)
}

/// The byte behind the string, if one may stand there, or behind the line `Key=..` that begins there, and whether a string
/// may stand behind it.
fn part_end(text: &[u8], may_quote: bool, at: usize) -> Result<(usize, bool), Stop>
    requires { at < length text.now }
    ensures on { IfOk result (λ p. at < p.0) }
    ensures inside { IfOk result (λ p. p.0 ≤ length text.now) }
    ensures part { IfOk result (λ p. IsPart text.now may_quote at p.1 p.0) }
    ensures only { (left : Bool) → (behind : ℕ) → IsPart text.now may_quote at left behind
        → Gives result (λ p. (p.0 ≡ behind) × (p.1 ≡ left)) }
{
    if may_quote {
        if text[at] == b'"' {
            let behind = string_end(text, at)?;
            return Ok((behind, false));
        }
    }
    let behind = metadata_end(text, at)?;
    Ok((behind, may_quote))
}

/// The byte behind the string that begins there.
fn string_end(text: &[u8], from: usize) -> Result<usize, Stop>
    requires inside { from < length text.now }
    requires opens { slice_index text.now from ≡ 34 }
    ensures on { IfOk result (λ at. from < at) }
    ensures inside { IfOk result (λ at. at ≤ length text.now) }
    ensures string { IfOk result (IsString text.now from) }
    ensures only { (to : ℕ) → IsString text.now from to → Gives result (λ at. at ≡ to) }
{
    for at in from + 1..text.len() {
        if text[at] == b'"' {
            return Ok(at + 1);
        }
    }
    Err(Stop::at(from, Fault::EndlessString))
}

/// Where the line `Key=..` ends that begins there.
fn metadata_end(text: &[u8], from: usize) -> Result<usize, Stop>
    requires { from < length text.now }
    ensures on { IfOk result (λ at. from < at) }
    ensures inside { IfOk result (λ at. at ≤ length text.now) }
    ensures line { IfOk result (IsKeyLine text.now from) }
    ensures only { (to : ℕ) → IsKeyLine text.now from to → Gives result (λ at. at ≡ to) }
{
    let end = name_end(text, from);
    if end <= from || end >= text.len() {
        return Err(Stop::at(from, Fault::NotMetadata));
    }
    if text[end] != b'=' {
        return Err(Stop::at(from, Fault::NotMetadata));
    }
    Ok(line_end(text, end))
}
