//! One operand at a time: each function takes an operand off the front of a text and hands on the
//! rest. A number goes as far as its digits go.

ghost use Rattle.std.specs.Prelude.{◌≡◌, ◌≤◌, ◌<◌, ◌^◌, IfOk, length, not, position};
ghost use Rattle.std.specs.Char.{is_ascii_digit, is_ascii_hexdigit};
ghost use Rattle.rv_text.specs.Reading.{
  Gives,
  text_after,
  digit_count,
  hex_digit_count,
  number_len,
  register_at,
  signed_at,
  amount_at,
  hex_at,
  upper_at,
  distance_of,
  is_distance,
  target_at,
  end_at,
};

use crate::refused::TextRefused;
use rv_instr::Reg;
use text_fields::{read_decimal, read_hex, read_signed_decimal};

#[tactic(auto, unfolding(crate::specs::Reading::text_after))]
fn text_after<'a>(before: &str, text: &'a [u8]) -> Result<&'a [u8], TextRefused>
    ensures { Gives (λ rest. rest.now) result (text_after before.now text.now) }
{
    text.strip_prefix(before.as_bytes())
        .ok_or(TextRefused::WrongOperand)
}

fn digits_end(text: &[u8]) -> Option<usize>
    ensures { result ≡ position (λ c. not (is_ascii_digit c)) text.now }
{
    text.iter().position(|c| !c.is_ascii_digit())
}

#[tactic(auto, unfolding(crate::specs::Reading::digit_count))]
fn digit_count(text: &[u8]) -> usize
    ensures count { result ≡ digit_count text.now }
    ensures within { result ≤ length text.now }
{
    digits_end(text).unwrap_or(text.len())
}

// Digits of either case: one in upper case belongs to its number, which is misspelled then.
fn hex_digits_end(text: &[u8]) -> Option<usize>
    ensures { result ≡ position (λ c. not (is_ascii_hexdigit c)) text.now }
{
    text.iter().position(|c| !c.is_ascii_hexdigit())
}

#[tactic(auto, unfolding(crate::specs::Reading::hex_digit_count))]
fn hex_digit_count(text: &[u8]) -> usize
    ensures count { result ≡ hex_digit_count text.now }
    ensures within { result ≤ length text.now }
{
    hex_digits_end(text).unwrap_or(text.len())
}

// The length of a number that may begin with a minus sign.
#[tactic(auto, unfolding(crate::specs::Reading::number_len))]
fn number_len(text: &[u8]) -> usize
    ensures count { result ≡ number_len text.now }
    ensures within { result ≤ length text.now }
{
    let sign = usize::from(text.first() == Some(&b'-'));
    sign + digit_count(&text[sign..])
}

/// A register, behind the characters that stand before its number.
#[tactic(auto, unfolding(crate::specs::Reading::register_at))]
pub(crate) fn register<'a>(before: &str, text: &'a [u8]) -> Result<(Reg, &'a [u8]), TextRefused>
    ensures { Gives (λ x. (x.0, x.1.now)) result (register_at before.now text.now) }
{
    let text = text_after(before, text)?;
    let (digits, rest) = text.split_at(digit_count(text));
    Ok((read_decimal(digits, 31)? as Reg, rest))
}

/// A comma and a number from `-bound` to `bound - 1`.
#[tactic(auto, unfolding(crate::specs::Reading::signed_at))]
pub(crate) fn signed(bound: u32, text: &[u8]) -> Result<(i32, &[u8]), TextRefused>
    requires { (1 ≤ bound) × (bound ≤ 2 ^ 31) }
    ensures { Gives (λ x. (x.0, x.1.now)) result (signed_at bound text.now) }
{
    let text = text_after(",", text)?;
    let (number, rest) = text.split_at(number_len(text));
    Ok((read_signed_decimal(number, bound)?, rest))
}

/// A comma and the amount of a shift. Any number is well spelled, and one that isn't from 0 to 31
/// is out of range.
#[tactic(auto, unfolding(crate::specs::Reading::amount_at))]
pub(crate) fn amount(text: &[u8]) -> Result<(u8, &[u8]), TextRefused>
    ensures { Gives (λ x. (x.0, x.1.now)) result (amount_at text.now) }
{
    let (number, rest) = signed(1 << 31, text)?;
    if number < 0 || number >= 32 {
        return Err(TextRefused::OutOfRange);
    }
    Ok((number as u8, rest))
}

#[tactic(auto, unfolding(crate::specs::Reading::hex_at))]
fn hex(count: usize, text: &[u8]) -> Result<(u32, &[u8]), TextRefused>
    requires { count ≤ 8 }
    ensures read { Gives (λ x. (x.0, x.1.now)) result (hex_at count text.now) }
    ensures below { IfOk result (λ x. x.0 < 16 ^ count) }
{
    let text = text_after(",0x", text)?;
    let (digits, rest) = text.split_at(hex_digit_count(text));
    Ok((read_hex(digits, count)?, rest))
}

/// A comma and the upper twenty bits of a word, given as the whole word.
#[tactic(auto, unfolding(crate::specs::Reading::upper_at))]
pub(crate) fn upper(text: &[u8]) -> Result<(u32, &[u8]), TextRefused>
    ensures { Gives (λ x. (x.0, x.1.now)) result (upper_at text.now) }
{
    let (number, rest) = hex(5, text)?;
    Ok((number * 0x1000, rest))
}

#[tactic(auto, unfolding(crate::specs::Reading::distance_of))]
fn distance(pc: u32, target: u32) -> i32
    ensures { result ≡ distance_of pc target }
{
    rv_word::sub(target, pc).cast_signed()
}

#[tactic(auto, unfolding(crate::specs::Reading::is_distance))]
fn is_distance(bound: u32, distance: i32) -> bool
    ensures { result ≡ is_distance bound distance }
{
    let (bound, distance) = (i64::from(bound), i64::from(distance));
    distance % 2 == 0 && -bound <= distance && distance < bound
}

/// A comma and the target of a jump, given as its distance from `pc`, which is even and from
/// `-bound` to `bound - 1`.
#[tactic(auto, unfolding(crate::specs::Reading::target_at))]
pub(crate) fn target(bound: u32, pc: u32, text: &[u8]) -> Result<(i32, &[u8]), TextRefused>
    ensures { Gives (λ x. (x.0, x.1.now)) result (target_at bound pc text.now) }
{
    let (target, rest) = hex(8, text)?;
    let distance = distance(pc, target);
    if !is_distance(bound, distance) {
        return Err(TextRefused::OutOfRange);
    }
    Ok((distance, rest))
}

/// That these characters are all that is left.
#[tactic(auto, unfolding(crate::specs::Reading::end_at))]
pub(crate) fn expect_end(suffix: &str, text: &[u8]) -> Result<(), TextRefused>
    ensures { result ≡ end_at suffix.now text.now }
{
    if !text_after(suffix, text)?.is_empty() {
        return Err(TextRefused::TrailingText);
    }
    Ok(())
}
