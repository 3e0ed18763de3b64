//! Printing: each function appends one field to a text of fixed room, and takes no memory.

ghost use Rattle.std.specs.Prelude.{◌≡◌, ◌+◌, ◌/◌, ◌%◌, ◌≤◌, ◌++◌, ◌∷◌, [], ◌<◌, false};
ghost use Rattle.std.specs.Prelude.{length, IsAscii};
ghost use Rattle.std.specs.Fmt.{decimal, digit_glyph};
ghost use Rattle.arrayvec.specs.ArrayString.{array_string_len};
ghost use Rattle.text_fields.specs.Spelling.{hex, hex_digit};

use crate::pairs::word_digits;
use arrayvec::ArrayString;
use itoa::{Buffer, Integer};
use std::str::from_utf8_unchecked;

/// Appends a decimal number, without leading zeros, and with a minus sign where it is below 0.
///
/// The room that it asks for is that of the longest number of its type.
pub fn push_decimal<const N: usize, I: Integer>(text: &mut ArrayString<N>, value: I)
    requires { array_string_len text.old + I.MAX_STR_LEN ≤ N }
    ensures spelled { text.new.bytes ≡ text.old.bytes ++ I.text value }
    ensures length { array_string_len text.new ≤ array_string_len text.old + I.MAX_STR_LEN }
{
    text.push_str(Buffer::new().format(value));
}

/// Appends a decimal number of one byte as `push_decimal` does, in fewer steps.
#[inline]
pub fn push_small_number<const N: usize>(text: &mut ArrayString<N>, value: u8)
    requires { array_string_len text.old + 3 ≤ N }
    ensures spelled { text.new.bytes ≡ text.old.bytes ++ decimal value }
    ensures length { array_string_len text.new ≤ array_string_len text.old + 3 }
{
    if value < 10 {
        push_ascii(text, b'0' + value);
    } else {
        push_decimal(text, value);
    }
}

// Appends ASCII characters. One by one, as `char`s, they cost 1,700 of the processor's instructions
// more for an event's line, where a whole event of `step` costs 2,100 (in the checked program).
#[inline(always)]
pub(crate) fn push_bytes<const N: usize>(text: &mut ArrayString<N>, bytes: &[u8])
    requires ascii { IsAscii bytes.now }
    requires room { array_string_len text.old + length bytes.now ≤ N }
    ensures spelled { text.new.bytes ≡ text.old.bytes ++ bytes.now }
    ensures length { array_string_len text.new ≡ array_string_len text.old + length bytes.now }
{
    text.push_str(unsafe { from_utf8_unchecked(bytes) });
}

/// Appends an ASCII character.
#[inline]
pub fn push_ascii<const N: usize>(text: &mut ArrayString<N>, byte: u8)
    requires ascii { byte < 128 }
    requires room { array_string_len text.old + 1 ≤ N }
    ensures spelled { text.new.bytes ≡ text.old.bytes ++ byte ∷ [] }
    ensures length { array_string_len text.new ≡ array_string_len text.old + 1 }
{
    push_bytes(text, &[byte]);
}

fn glyph(digit: u8) -> u8
    requires { digit < 16 }
    ensures spelled { result ≡ digit_glyph false digit }
    ensures ascii { result < 128 }
{
    if digit < 10 {
        b'0' + digit
    } else {
        b'a' + (digit - 10)
    }
}

fn hex_digit(value: u32, place: usize) -> u8
    requires { place < 8 }
    ensures spelled { result ≡ hex_digit place value }
    ensures ascii { result < 128 }
{
    glyph(((value >> (4 * place)) % 16) as u8)
}

/// Appends the lowest `count` hexadecimal digits of a number, 0 to 8 of them, in lower case.
#[inline]
pub fn push_hex<const N: usize>(text: &mut ArrayString<N>, value: u32, count: usize)
    requires places { count ≤ 8 }
    requires room { array_string_len text.old + count ≤ N }
    ensures spelled { text.new.bytes ≡ text.old.bytes ++ hex count value }
    ensures length { array_string_len text.new ≡ array_string_len text.old + count }
{
    if count == 8 {
        push_word(text, value);
    } else {
        push_digits(text, value, count);
    }
}

// Appends the eight digits of a number in one go.
#[inline]
fn push_word<const N: usize>(text: &mut ArrayString<N>, value: u32)
    requires { array_string_len text.old + 8 ≤ N }
    ensures spelled { text.new.bytes ≡ text.old.bytes ++ hex 8 value }
    ensures length { array_string_len text.new ≡ array_string_len text.old + 8 }
{
    push_bytes(text, &word_digits(value));
}

// Appends the digits one by one.
fn push_digits<const N: usize>(text: &mut ArrayString<N>, value: u32, count: usize)
    requires places { count ≤ 8 }
    requires room { array_string_len text.old + count ≤ N }
    ensures spelled { text.new.bytes ≡ text.old.bytes ++ hex count value }
    ensures length { array_string_len text.new ≡ array_string_len text.old + count }
{
    for place in (0..count).rev() {
        push_ascii(text, hex_digit(value, place));
    }
}
