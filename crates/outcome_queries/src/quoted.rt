//! Texts in which any name may stand in quotation marks.

ghost use Rattle.std.specs.Prelude.{◌≡◌, ◌<◌, ◌∷◌, ◌++◌, ◌==◌, ◌&&◌, not, false, length, if◌then◌else◌};
ghost use Rattle.std.specs.Prelude.{IfSome, IfNone, Some, None};
ghost use Rattle.outcome_queries.specs.Quoted.{field_outside, place_outside};

/// What stands before the first such byte outside of quotation marks (`'`), and what stands behind it; none where there
/// is no such byte.
pub(crate) fn split_outside(text: &[u8], separator: u8) -> Option<(&[u8], &[u8])>
    ensures found { IfSome result (λ p. text.now ≡ p.0.now ++ separator ∷ p.1.now) }
    ensures place { IfSome result (λ p. Some (length p.0.now) ≡ place_outside false separator text.now) }
    ensures first { IfSome result (λ p. p.0.now ≡ field_outside separator text.now) }
    ensures none { IfNone result (place_outside false separator text.now ≡ None) }
    ensures whole { IfNone result (field_outside separator text.now ≡ text.now) }
{
    let place = place_outside(text, separator)?;
    Some((&text[..place], &text[place + 1..]))
}

/// Where the byte first stands outside of quotation marks.
fn place_outside(text: &[u8], separator: u8) -> Option<usize>
    ensures place { result ≡ place_outside false separator text.now }
    ensures inside { IfSome result (λ place. place < length text.now) }
{
    let mut is_quoted = false;
    for (index, byte) in text.iter().enumerate() {
        if stands_here(*byte, separator, is_quoted) {
            return Some(index);
        }
        is_quoted = is_quoted_behind(*byte, is_quoted);
    }
    None
}

/// Whether a byte is the separator, outside of quotation marks. A mark is none.
fn stands_here(byte: u8, separator: u8, is_quoted: bool) -> bool
    ensures { result ≡ (not (byte == 39) && ((byte == separator) && not is_quoted)) }
{
    byte != b'\'' && byte == separator && !is_quoted
}

/// Whether what stands behind a byte stands in quotation marks.
fn is_quoted_behind(byte: u8, is_quoted: bool) -> bool
    ensures { result ≡ (if byte == 39 then not is_quoted else is_quoted) }
{
    if byte == b'\'' { !is_quoted } else { is_quoted }
}
