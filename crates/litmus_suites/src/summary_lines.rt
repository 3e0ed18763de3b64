//! The lines of a summary that was printed before.

ghost use Rattle.std.specs.Prelude.{◌≡◌, ◌≤◌, ◌||◌, ◌∷◌, ◌++◌, IfErr, IfOk, IfSome, is_some, length, option_map, take};
ghost use Rattle.litmus_suites.specs.Reading.{AreLinesOf, IsSummaryLine, IsSummaryRefusal, before_blank, begins_with_line};
ghost use Rattle.litmus_suites.specs.Reading.{behind_blank, is_asked, is_counts, is_word_of, line_of, name_before, name_in};
ghost use Rattle.litmus_suites.specs.Reading.{name_of_whole, not_empty, number_in};
ghost use Rattle.litmus_suites.specs.Expecting.{over};
ghost use Rattle.text_fields.specs.Splitting.{rest};

use std::alloc::Global;
use text_fields::{field_count, read_decimal, split_field};

/// A line of a summary that was printed before.
#[derive(Clone, Copy, Drop)]
pub(crate) struct ExpectedLine<'a> {
    /// The name of the test, or the whole of a line of counts.
    pub(crate) name: &'a [u8],
    /// What is said of it, with the blank before it; of a line of counts nothing.
    pub(crate) verdict: &'a [u8],
    /// Whether a test has taken it. None takes a line of counts, which is over from the start.
    pub(crate) is_over: bool,
}

impl ExpectedLine<'_> {
    /// The line once a test has taken it.
    pub(crate) fn taken(&self) -> Self
        ensures { result ≡ over self.now }
    {
        ExpectedLine {
            name: self.name,
            verdict: self.verdict,
            is_over: true,
        }
    }
}

/// Why a text is no summary.
#[derive(Clone, Copy, Debug, PartialEq, Eq, Drop)]
pub enum SummaryRefused {
    /// The line with this number, from 1, is the first that isn't one of a summary.
    Line(usize),
    /// There isn't enough memory.
    Memory,
}

/// The lines of a text, where each is one of a summary.
pub(crate) fn read_lines(
    text: &[u8],
    alloc: Global,
) -> Result<Vec<ExpectedLine<'_>>, SummaryRefused>
    ensures read { IfOk result (λ lines. AreLinesOf text.now lines.items) }
    ensures refused { IfErr result (IsSummaryRefusal text.now) }
{
    let mut lines = Vec::new(alloc);
    let mut left = text;
    while !left.is_empty() {
        let Some(line) = next_line(left) else {
            return Err(SummaryRefused::Line(lines.len() + 1));
        };
        if lines.push(line).is_err() {
            return Err(SummaryRefused::Memory);
        }
        left = split_field(left, b'\n').1;
    }
    Ok(lines)
}

/// The first line of a text, where it is one of a summary, with a newline behind it.
fn next_line(text: &[u8]) -> Option<ExpectedLine<'_>>
    ensures cut { IfSome result (λ line. text.now ≡ line_of line ++ 10 ∷ rest 10 text.now) }
    ensures one { IfSome result IsSummaryLine }
    ensures begins { is_some result ≡ begins_with_line text.now }
{
    if field_count(text, b'\n') == 1 {
        return None;
    }
    read_line(split_field(text, b'\n').0)
}

/// The line of a summary that a text is.
fn read_line(text: &[u8]) -> Option<ExpectedLine<'_>>
    ensures whole { IfSome result (λ line. line_of line ≡ text.now) }
    ensures one { IfSome result IsSummaryLine }
    ensures is { is_some result ≡ (is_some (name_in text.now) || is_counts text.now) }
{
    if let Some(name) = name_in(text) {
        return Some(ExpectedLine {
            name,
            verdict: &text[name.len()..],
            is_over: false,
        });
    }
    if !is_counts(text) {
        return None;
    }
    Some(ExpectedLine {
        name: text,
        verdict: &[],
        is_over: true,
    })
}

/// Whether a line has counts.
#[tactic(auto, unfolding(crate::specs::Reading::is_counts))]
fn is_counts(line: &[u8]) -> bool
    ensures { result ≡ is_counts line.now }
{
    line.starts_with(b"tests ") && number_in(split_last(line).1).is_some()
}

/// The number that a text is.
fn number_in(text: &[u8]) -> Option<u32>
    ensures { result ≡ number_in text.now }
{
    read_decimal(text, u32::MAX).ok()
}

/// The name of the test of which a line is.
#[tactic(auto, unfolding(crate::specs::Reading::name_in))]
fn name_in(line: &[u8]) -> Option<&[u8]>
    ensures name { option_map (λ name. name.now) result ≡ name_in line.now }
    ensures begin { IfSome result (λ name. name.now ≡ take (length name.now) line.now) }
    ensures long { IfSome result (λ name. length name.now ≤ length line.now) }
{
    if line.ends_with(b" not complete") {
        return not_empty(&line[..line.len() - 13]);
    }
    if line.ends_with(b" stuck") {
        return name_of_whole(&line[..line.len() - 6]);
    }
    name_of_whole(line)
}

/// A name, where it is one.
fn not_empty(name: &[u8]) -> Option<&[u8]>
    ensures name { option_map (λ name. name.now) result ≡ not_empty name.now }
    ensures begin { IfSome result (λ found. found.now ≡ name.now) }
{
    if name.is_empty() {
        return None;
    }
    Some(name)
}

/// The name before the numbers and whether the states are as asked.
#[tactic(auto, unfolding(crate::specs::Reading::name_of_whole))]
fn name_of_whole(line: &[u8]) -> Option<&[u8]>
    ensures name { option_map (λ name. name.now) result ≡ name_of_whole line.now }
    ensures begin { IfSome result (λ name. name.now ≡ take (length name.now) line.now) }
    ensures long { IfSome result (λ name. length name.now ≤ length line.now) }
{
    let (numbers, asked) = split_last(line);
    if !is_asked(asked) {
        return None;
    }
    let (numbers, others) = split_last(numbers);
    name_before(numbers, others)
}

/// The name before a word and a number, behind which this other number stands.
fn name_before<'a>(numbers: &'a [u8], others: &[u8]) -> Option<&'a [u8]>
    ensures name { option_map (λ name. name.now) result ≡ name_before numbers.now others.now }
    ensures begin { IfSome result (λ name. name.now ≡ take (length name.now) numbers.now) }
    ensures long { IfSome result (λ name. length name.now ≤ length numbers.now) }
{
    let (words, held) = split_last(numbers);
    let (name, word) = split_last(words);
    if !is_word_of(word, number_in(held), number_in(others)) {
        return None;
    }
    not_empty(name)
}

fn is_asked(word: &[u8]) -> bool
    ensures { result ≡ is_asked word.now }
{
    word == b"Ok".as_slice() || word == b"No".as_slice()
}

/// Whether this word says how often the condition holds, by these numbers.
fn is_word_of(word: &[u8], held: Option<u32>, others: Option<u32>) -> bool
    ensures { result ≡ is_word_of word.now held others }
{
    let Some(held) = held else {
        return false;
    };
    let Some(others) = others else {
        return false;
    };
    if held == 0 {
        return word == b"Never".as_slice();
    }
    if others == 0 {
        return word == b"Always".as_slice();
    }
    word == b"Sometimes".as_slice()
}

/// What stands before the last space, and what behind it; nothing before it where there is none.
fn split_last(text: &[u8]) -> (&[u8], &[u8])
    ensures before { result.0.now ≡ before_blank text.now }
    ensures behind { result.1.now ≡ behind_blank text.now }
    ensures begin { result.0.now ≡ take (length result.0.now) text.now }
    ensures long { length result.0.now ≤ length text.now }
{
    for back in 0..text.len() {
        let place = text.len() - 1 - back;
        if text[place] == b' ' {
            return (&text[..place], &text[place + 1..]);
        }
    }
    (&[], text)
}
