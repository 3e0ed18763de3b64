//! Whether bytes are those that a text says.

ghost use Rattle.std.specs.Prelude.{◌≡◌, ◌++◌, ℕ, List, true, false, flat_map, IfSome, IfNone};
ghost use Rattle.text_fields.specs.Spelling.{hex};
ghost use Rattle.outcome_queries.specs.Printed.{is_printed};

use text_fields::read_hex;

/// Whether digits are those of these bytes, two each, in lower case.
pub(crate) fn is_printed(bytes: &[u8], digits: &[u8]) -> bool
    ensures { result ≡ is_printed bytes.now digits.now }
{
    are_digits_of(bytes, digits)
}

fn are_digits_of(bytes: &[u8], digits: &[u8]) -> bool
    ensures is { result ≡ true → digits.now ≡ flat_map (hex 2) bytes.now }
    ensures other { result ≡ false → digits.now ≡ flat_map (hex 2) bytes.now → ⊥ }
{
    let mut rest = digits;
    for byte in bytes {
        match behind_byte(*byte, rest) {
            Some(others) => rest = others,
            None => return false,
        }
    }
    rest.is_empty()
}

/// What stands behind the digits of a byte; none where these don't stand first.
fn behind_byte(byte: u8, digits: &[u8]) -> Option<&[u8]>
    ensures found { IfSome result (λ others. digits.now ≡ hex 2 byte ++ others.now) }
    ensures none { IfNone result ((others : List ℕ) → digits.now ≡ hex 2 byte ++ others → ⊥) }
{
    if digits.len() < 2 {
        return None;
    }
    let Ok(number) = read_hex(&digits[..2], 2) else {
        return None;
    };
    if number != u32::from(byte) {
        return None;
    }
    Some(&digits[2..])
}
