ghost use Rattle.std.specs.Prelude.{◌≡◌, ◌≢◌, ◌==◌, ◌<◌, ◌≤◌, ◌∷◌, ◌++◌, [], All, IfSome, IfNone, length};
ghost use Rattle.std.specs.Prelude.{position};
ghost use Rattle.scripts.specs.Script.{is_separator, is_inside, pieces};

/// The text before the first byte of this kind, and the text behind it, if there is one.
pub fn split_at_byte(text: &[u8], byte: u8) -> Option<(&[u8], &[u8])>
    ensures found { IfSome result (λ p. text.now ≡ p.0.now ++ byte ∷ p.1.now) }
    ensures first { IfSome result (λ p. All (λ b. b ≢ byte) p.0.now) }
    ensures none { IfNone result (All (λ b. b ≢ byte) text.now) }
{
    let Some(place) = place_of(text, byte) else {
        return None;
    };
    Some((&text[..place], &text[place + 1..]))
}

/// Where the first byte of this kind stands.
fn place_of(text: &[u8], byte: u8) -> Option<usize>
    ensures { result ≡ position (λ b. b == byte) text.now }
{
    text.iter().position(|b| *b == byte)
}

/// The first piece of the text, and the text behind it.
pub fn first_piece(text: &[u8]) -> Option<(&[u8], &[u8])>
    ensures found { IfSome result (λ p. pieces text.now ≡ p.0.now ∷ pieces p.1.now) }
    ensures shorter { IfSome result (λ p. length p.1.now < length text.now) }
    ensures none { IfNone result (pieces text.now ≡ []) }
{
    match short_piece(text) {
        Some(found) => Some(found),
        None => any_piece(text),
    }
}

fn any_piece(text: &[u8]) -> Option<(&[u8], &[u8])>
    ensures found { IfSome result (λ p. pieces text.now ≡ p.0.now ∷ pieces p.1.now) }
    ensures shorter { IfSome result (λ p. length p.1.now < length text.now) }
    ensures none { IfNone result (pieces text.now ≡ []) }
{
    let Some(start) = piece_start(text) else {
        return None;
    };
    let text = &text[start..];
    let end = piece_end(text).unwrap_or(text.len());
    Some((&text[..end], &text[end..]))
}

/// A piece of one byte at the front, and the text behind the separator that ends it: such pieces make
/// up most orders.
#[inline]
fn short_piece(text: &[u8]) -> Option<(&[u8], &[u8])>
    ensures found { IfSome result (λ p. pieces text.now ≡ p.0.now ∷ pieces p.1.now) }
    ensures shorter { IfSome result (λ p. length p.1.now < length text.now) }
{
    if text.len() < 2 {
        return None;
    }
    if is_separator(text[0]) {
        return None;
    }
    if !is_separator(text[1]) {
        return None;
    }
    Some((&text[..1], &text[2..]))
}

/// Where the first byte stands that is no separator.
fn piece_start(text: &[u8]) -> Option<usize>
    ensures { result ≡ position is_inside text.now }
{
    text.iter().position(|byte| !is_separator(*byte))
}

/// Where the first separator stands.
fn piece_end(text: &[u8]) -> Option<usize>
    ensures { result ≡ position is_separator text.now }
{
    text.iter().position(|byte| is_separator(*byte))
}

/// Whether a byte separates words.
pub fn is_separator(byte: u8) -> bool
    ensures { result ≡ is_separator byte }
{
    byte == b' ' || byte == b'\n'
}
