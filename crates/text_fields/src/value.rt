//! A number in either base.

ghost use Rattle.std.specs.Prelude.{◌≡◌, ℕ, true, false, codes, IfSome, IfNone};
ghost use Rattle.std.specs.Prelude.{◌&&◌, nat_le, length};
ghost use Rattle.text_fields.specs.Values.{SpellsValue, SpellsHexadecimal};

use crate::read::{read_decimal, read_hex};
use crate::split::split_field;

/// A number: decimal, or `0x` and one to eight hexadecimal digits.
pub fn read_value(text: &[u8]) -> Option<u32>
    ensures found { IfSome result (SpellsValue text.now) }
    ensures none { IfNone result ((value : ℕ) → SpellsValue text.now value → ⊥) }
{
    match read_decimal(text, u32::MAX) {
        Ok(value) => Some(value),
        Err(_) => read_hexadecimal(text),
    }
}

fn read_hexadecimal(text: &[u8]) -> Option<u32>
    ensures found { IfSome result (SpellsHexadecimal text.now) }
    ensures none { IfNone result ((value : ℕ) → SpellsHexadecimal text.now value → ⊥) }
{
    let (lead, digits) = split_field(text, b'x');
    if !is_zero(lead) {
        return None;
    }
    if !can_be_digits(digits) {
        return None;
    }
    match read_hex(digits, digits.len()) {
        Ok(value) => Some(value),
        Err(_) => None,
    }
}

/// Whether a text is what stands before the `x` of a hexadecimal number.
fn is_zero(text: &[u8]) -> bool
    ensures is { result ≡ true → text.now ≡ codes "0" }
    ensures other { result ≡ false → text.now ≡ codes "0" → ⊥ }
{
    text == b"0".as_slice()
}

/// Whether there is a digit, and no more than a word has.
fn can_be_digits(digits: &[u8]) -> bool
    ensures { result ≡ (nat_le 1 (length digits.now) && nat_le (length digits.now) 8) }
{
    !digits.is_empty() && digits.len() <= 8
}
