//! Splitting: a text is cut at a separator, one field after the other.

ghost use Rattle.std.specs.Prelude.{◌≡◌, ◌+◌, ◌≤◌, ◌==◌, length};
ghost use Rattle.std.specs.List.{position_or_len};
ghost use Rattle.text_fields.specs.Splitting.{field_count, field, rest};

/// How many fields the text has: one more than separators.
#[tactic(auto, unfolding(crate::specs::Splitting::field_count))]
pub fn field_count(text: &[u8], separator: u8) -> usize
    ensures { result ≡ field_count separator text.now }
{
    let mut separators = 0;
    for byte in text {
        if *byte == separator {
            separators += 1;
        }
    }
    separators + 1
}

// Where the first field ends.
fn first_end(text: &[u8], separator: u8) -> usize
    ensures place { result ≡ position_or_len (λ byte. byte == separator) text.now }
    ensures inside { result ≤ length text.now }
{
    for (place, byte) in text.iter().enumerate() {
        if *byte == separator {
            return place;
        }
    }
    text.len()
}

/// The first field, and the text of the others, which is empty where there are none.
#[tactic(auto, unfolding(crate::specs::Splitting::field, crate::specs::Splitting::rest))]
pub fn split_field(text: &[u8], separator: u8) -> (&[u8], &[u8])
    ensures first { result.0.now ≡ field separator text.now }
    ensures others { result.1.now ≡ rest separator text.now }
    ensures length { length result.0.now + length result.1.now ≤ length text.now }
{
    // A field of one byte is so frequent that it has a way of its own.
    if text.len() > 1 && text[1] == separator && text[0] != separator {
        return (&text[..1], &text[2..]);
    }
    let end = first_end(text, separator);
    if end == text.len() {
        return (text, &[]);
    }
    (&text[..end], &text[end + 1..])
}
