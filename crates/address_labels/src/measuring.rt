//! How wide labels are.

ghost use Rattle.std.specs.Prelude.{◌≡◌, ◌≤◌, length, option_map};
ghost use Rattle.std.specs.Fmt.{decimal};
ghost use Rattle.symbols.specs.Tables.{table_of};
ghost use Rattle.source_lines.specs.Lines.{origin_of, origins_of};
ghost use Rattle.shown_text.specs.Shown.{shown_name, shown_name_byte};
ghost use Rattle.address_labels.specs.Labels.{marks_of};
ghost use Rattle.address_labels.specs.Texts.{
  as_word,
  behind_text,
  label_width,
  line_field,
  name_field,
  origin_field,
  place_field,
};
ghost use Rattle.address_labels.specs.declared.writing.Form.TheVariants.{Word};

use crate::labels::Labels;
use arrayvec::ArrayString;
use source_lines::{SourceLine, SourceLines};
use symbols::{Place, Symbols, name_at};
use text_fields::push_decimal;

/// How many bytes `write_labels` writes beside an address in a line of text; as many as a `u32` has, where they are more.
#[tactic(auto, unfolding(crate::specs::Texts::label_width, crate::specs::Texts::labels_text))]
pub fn label_width(labels: &Labels<'_>, address: u32) -> u32
    ensures { result ≡ label_width (marks_of labels.now) address }
{
    name_field_width(labels.names, address).saturating_add(line_field_width(labels.lines, address))
}

fn name_field_width(names: Option<&Symbols<'_>>, address: u32) -> u32
    ensures { result ≡ as_word (length (name_field Word (option_map (λ names. table_of names.now) names.entry)
        address)) }
{
    match names {
        Some(names) => place_width(name_at(names, address)),
        None => 0,
    }
}

fn place_width(place: Option<Place<'_>>) -> u32
    ensures { result ≡ as_word (length (place_field Word
        (option_map (λ place. record { name = place.name.now; behind = place.behind }) place.entry))) }
{
    let Some(place) = place else {
        return 2;
    };
    word_width(place.name).saturating_add(behind_width(place.behind) + 1)
}

fn line_field_width(lines: Option<&SourceLines<'_>>, address: u32) -> u32
    ensures { result ≡ as_word (length (line_field Word
        (option_map (λ lines. origins_of lines.now.lines.items) lines.entry) address)) }
{
    match lines {
        Some(lines) => origin_width(lines.line_at(address)),
        None => 0,
    }
}

fn origin_width(line: Option<SourceLine<'_>>) -> u32
    ensures { result ≡ as_word (length (origin_field Word (option_map origin_of line.entry))) }
{
    let Some(line) = line else {
        return 2;
    };
    word_width(line.file).saturating_add(digits_of(line.number) + 2)
}

/// How wide a name of the input is as one word.
fn word_width(name: &[u8]) -> u32
    ensures { result ≡ as_word (length (shown_name name.now)) }
{
    let mut width = 0_u32;
    for byte in name {
        width = width.saturating_add(byte_width(*byte));
    }
    width
}

fn byte_width(byte: u8) -> u32
    ensures { result ≡ length (shown_name_byte byte) }
{
    if byte <= b' ' || byte == 0x7f { 4 } else { 1 }
}

fn behind_width(behind: u32) -> u32
    ensures is { result ≡ length (behind_text behind) }
    ensures small { result ≤ 11 }
{
    if behind == 0 {
        return 0;
    }
    digits_of(behind) + 1
}

fn digits_of(number: u32) -> u32
    ensures is { result ≡ length (decimal number) }
    ensures small { result ≤ 10 }
{
    let mut text = ArrayString::<10>::new();
    push_decimal(&mut text, number);
    text.len() as u32
}
