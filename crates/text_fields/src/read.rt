//! Reading: each function takes one whole field of a text.

ghost use Rattle.std.specs.Prelude.{◌≡◌, ◌+◌, ◌-◌, ◌*◌, ◌^◌, ◌≤◌, ◌<◌, ◌==◌, ◌&&◌, ◌||◌, not, nat_lt, length};
ghost use Rattle.std.specs.Prelude.{true, false, slice_index, Ok, IfOk, IfSome, IfNone, if◌then◌else◌};
ghost use Rattle.std.specs.List.{list_all};
ghost use Rattle.std.specs.Char.{is_ascii_digit};
ghost use Rattle.text_fields.specs.declared.read.FieldError.TheVariants.{Misspelled, OutOfRange};
ghost use Rattle.text_fields.specs.Counting.{Counts};
ghost use Rattle.text_fields.specs.Reading.{is_dash, is_hex_digit, hex_digit_value};
ghost use Rattle.text_fields.specs.Reading.{hex_after, decimal_field, signed_field};
ghost use Rattle.text_fields.specs.Reading.{hex_field, optional_field};

use std::fmt;
use thiserror::Error;

/// Why a field was refused.
#[derive(Clone, Copy, Debug, PartialEq, Eq, Drop, Error)]
pub enum FieldError {
    Misspelled,
    OutOfRange,
}

impl fmt::Display for FieldError {
    fn fmt<W: fmt::Write>(&self, f: &mut fmt::Formatter<W>) -> fmt::Result {
        f.write_str(match self {
            FieldError::Misspelled => "spelled otherwise",
            FieldError::OutOfRange => "out of range",
        })
    }
}

// Whether the text has a first byte that can begin a number: no zero before others.
#[inline]
fn begins_well(text: &[u8]) -> bool
    ensures { result ≡ (nat_lt 0 (length text.now)
        && (length text.now == 1 || not (slice_index text.now 0 == 48))) }
{
    !text.is_empty() && (text.len() == 1 || text[0] != b'0')
}

/// A decimal number of at most `max`.
///
/// It is misspelled if it isn't digits alone or has leading zeros, and out of range if it is above
/// `max`.
pub fn read_decimal(text: &[u8], max: u32) -> Result<u32, FieldError>
    ensures field { result ≡ decimal_field max text.now }
    ensures within { IfOk result (λ value. value ≤ max) }
{
    let mut value = 0u64;
    for digit in text {
        if !digit.is_ascii_digit() {
            return Err(FieldError::Misspelled);
        }
        value = with_digit(value, *digit, max);
    }
    counted(text, value, max)
}

// The number with one more digit. One that is above the limit stays so.
#[inline(always)]
pub(crate) fn with_digit(value: u64, digit: u8, max: u32) -> u64
    requires digit { is_ascii_digit digit ≡ true }
    requires small { value ≤ max * 10 + 9 }
    ensures below { value ≤ max → result ≡ value * 10 + (digit - 48) }
    ensures above { max < value → result ≡ value }
    ensures small { result ≤ max * 10 + 9 }
{
    if value > u64::from(max) {
        return value;
    }
    value * 10 + u64::from(digit - b'0')
}

// The number that digits write, from what was counted of them.
#[tactic(auto, unfolding(crate::specs::Reading::decimal_field))]
#[inline(always)]
pub(crate) fn counted(digits: &[u8], value: u64, max: u32) -> Result<u32, FieldError>
    requires { Counts max value digits.now }
    ensures field { result ≡ decimal_field max digits.now }
    ensures within { IfOk result (λ number. number ≤ max) }
{
    if !begins_well(digits) {
        return Err(FieldError::Misspelled);
    }
    if value > u64::from(max) {
        return Err(FieldError::OutOfRange);
    }
    Ok(value as u32)
}

/// A decimal number from `-bound` to `bound - 1`, where `bound` is 1 to 2^31.
///
/// It is misspelled if it isn't digits alone after a minus sign or none, has leading zeros or is
/// `-0`, and out of range if it is below or above these limits.
#[tactic(auto, unfolding(crate::specs::Reading::signed_field))]
pub fn read_signed_decimal(text: &[u8], bound: u32) -> Result<i32, FieldError>
    requires { (1 ≤ bound) × (bound ≤ 2 ^ 31) }
    ensures { result ≡ signed_field bound text.now }
{
    if text.is_empty() || text[0] != b'-' {
        return Ok(read_decimal(text, bound - 1)? as i32);
    }
    match read_decimal(&text[1..], bound)? {
        0 => Err(FieldError::Misspelled),
        value => Ok(-i64::from(value) as i32),
    }
}

/// Above every number of eight hexadecimal digits.
const NO: u64 = 1 << 32;

// `weight` of each byte.
static DIGITS: [u64; 256] = [
    NO, NO, NO, NO, NO, NO, NO, NO, NO, NO, NO, NO, NO, NO, NO, NO, NO, NO, NO, NO, NO, NO, NO, NO,
    NO, NO, NO, NO, NO, NO, NO, NO, NO, NO, NO, NO, NO, NO, NO, NO, NO, NO, NO, NO, NO, NO, NO, NO,
    0, 1, 2, 3, 4, 5, 6, 7, 8, 9, NO, NO, NO, NO, NO, NO, NO, NO, NO, NO, NO, NO, NO, NO, NO, NO,
    NO, NO, NO, NO, NO, NO, NO, NO, NO, NO, NO, NO, NO, NO, NO, NO, NO, NO, NO, NO, NO, NO, NO, 10,
    11, 12, 13, 14, 15, NO, NO, NO, NO, NO, NO, NO, NO, NO, NO, NO, NO, NO, NO, NO, NO, NO, NO, NO,
    NO, NO, NO, NO, NO, NO, NO, NO, NO, NO, NO, NO, NO, NO, NO, NO, NO, NO, NO, NO, NO, NO, NO, NO,
    NO, NO, NO, NO, NO, NO, NO, NO, NO, NO, NO, NO, NO, NO, NO, NO, NO, NO, NO, NO, NO, NO, NO, NO,
    NO, NO, NO, NO, NO, NO, NO, NO, NO, NO, NO, NO, NO, NO, NO, NO, NO, NO, NO, NO, NO, NO, NO, NO,
    NO, NO, NO, NO, NO, NO, NO, NO, NO, NO, NO, NO, NO, NO, NO, NO, NO, NO, NO, NO, NO, NO, NO, NO,
    NO, NO, NO, NO, NO, NO, NO, NO, NO, NO, NO, NO, NO, NO, NO, NO, NO, NO, NO, NO, NO, NO, NO, NO,
    NO, NO, NO, NO, NO, NO, NO, NO, NO, NO, NO, NO, NO, NO,
];

// What a byte stands for as a hexadecimal digit, and `NO` where it is none.
#[inline]
fn weight(byte: u8) -> u64
    ensures { result ≡ (if is_hex_digit byte then hex_digit_value byte else 4294967296) }
{
    DIGITS[byte as usize]
}

// The number that up to eight bytes write, where they are hexadecimal digits. A byte that is none
// makes the sum too great, so that one test at the end is enough.
#[inline]
pub(crate) fn hex_number(digits: &[u8]) -> Option<u32>
    requires { length digits.now ≤ 8 }
    ensures all { IfSome result (λ value. list_all is_hex_digit digits.now ≡ true) }
    ensures value { IfSome result (λ value. value ≡ hex_after 0 digits.now) }
    ensures small { IfSome result (λ value. value < 16 ^ length digits.now) }
    ensures other { IfNone result (list_all is_hex_digit digits.now ≡ false) }
{
    let mut sum = 0;
    for digit in digits {
        sum = sum * 16 + weight(*digit);
    }
    if sum >= NO {
        return None;
    }
    Some(sum as u32)
}

/// A number of exactly `count` lower-case hexadecimal digits, 0 to 8. What is anything else is
/// misspelled.
#[tactic(auto, unfolding(crate::specs::Reading::hex_field))]
pub fn read_hex(text: &[u8], count: usize) -> Result<u32, FieldError>
    requires { count ≤ 8 }
    ensures field { result ≡ hex_field count text.now }
    ensures small { IfOk result (λ value. value < 16 ^ count) }
{
    if text.len() != count {
        return Err(FieldError::Misspelled);
    }
    hex_number(text).ok_or(FieldError::Misspelled)
}

fn is_dash(text: &[u8]) -> bool
    ensures { result ≡ is_dash text.now }
{
    text.len() == 1 && text[0] == b'-'
}

/// A field as `read_decimal` reads it, or none where there is a dash.
#[tactic(auto, unfolding(crate::specs::Reading::optional_field))]
pub fn read_optional_decimal(text: &[u8], max: u32) -> Result<Option<u32>, FieldError>
    ensures field { result ≡ optional_field (decimal_field max) text.now }
    ensures within { IfOk result (λ value. IfSome value (λ number. number ≤ max)) }
{
    if is_dash(text) {
        return Ok(None);
    }
    Ok(Some(read_decimal(text, max)?))
}

/// A field as `read_hex` reads it, or none where there is a dash.
#[tactic(auto, unfolding(crate::specs::Reading::optional_field))]
pub fn read_optional_hex(text: &[u8], count: usize) -> Result<Option<u32>, FieldError>
    requires { count ≤ 8 }
    ensures field { result ≡ optional_field (hex_field count) text.now }
    ensures small { IfOk result (λ value. IfSome value (λ number. number < 16 ^ count)) }
{
    if is_dash(text) {
        return Ok(None);
    }
    Ok(Some(read_hex(text, count)?))
}
