//! The first field of a text, read as it comes, and the text of the others, which is empty where
//! there are none. The separator is a byte that stands in no such field.

ghost use Rattle.std.specs.Prelude.{◌≡◌, ◌≤◌, ◌<◌, ◌^◌, ◌==◌, true, false, take, length};
ghost use Rattle.std.specs.Prelude.{Ok, Err, IfOk, IfErr, IfSome, IfNone};
ghost use Rattle.std.specs.Char.{is_ascii_digit};
ghost use Rattle.text_fields.specs.Splitting.{field, rest, Lacks};
ghost use Rattle.text_fields.specs.Reading.{decimal_field, hex_field, optional_field, is_dash};
ghost use Rattle.text_fields.specs.Reading.{is_hex_digit};

use crate::read::{FieldError, counted, hex_number, with_digit};

/// A decimal number of at most `max`, refused where `read_decimal` refuses it.
#[inline(always)]
pub fn first_decimal(text: &[u8], max: u32, separator: u8) -> Result<(u32, &[u8]), FieldError>
    requires { is_ascii_digit separator ≡ false }
    ensures read { IfOk result (λ p. decimal_field max (field separator text.now) ≡ Ok p.0) }
    ensures within { IfOk result (λ p. p.0 ≤ max) }
    ensures others { IfOk result (λ p. p.1.now ≡ rest separator text.now) }
    ensures refused { IfErr result
        (λ error. decimal_field max (field separator text.now) ≡ Err error) }
{
    let mut value = 0u64;
    for place in 0..text.len() {
        let byte = text[place];
        if !byte.is_ascii_digit() {
            if byte != separator {
                return Err(FieldError::Misspelled);
            }
            return match counted(&text[..place], value, max) {
                Ok(number) => Ok((number, &text[place + 1..])),
                Err(error) => Err(error),
            };
        }
        value = with_digit(value, byte, max);
    }
    match counted(text, value, max) {
        Ok(number) => Ok((number, &[])),
        Err(error) => Err(error),
    }
}

/// A number of exactly `count` lower-case hexadecimal digits, refused where `read_hex` refuses it.
#[inline(always)]
pub fn first_hex(text: &[u8], count: usize, separator: u8) -> Result<(u32, &[u8]), FieldError>
    requires places { count ≤ 8 }
    requires apart { is_hex_digit separator ≡ false }
    ensures read { IfOk result (λ p. hex_field count (field separator text.now) ≡ Ok p.0) }
    ensures small { IfOk result (λ p. p.0 < 16 ^ count) }
    ensures others { IfOk result (λ p. p.1.now ≡ rest separator text.now) }
    ensures refused { IfErr result
        (λ error. hex_field count (field separator text.now) ≡ Err error) }
{
    if text.len() < count {
        return Err(FieldError::Misspelled);
    }
    let Some(value) = hex_number(&text[..count]) else {
        return Err(FieldError::Misspelled);
    };
    let Some(others) = behind(text, count, separator) else {
        return Err(FieldError::Misspelled);
    };
    Ok((value, others))
}

/// A number as `first_hex` reads it, or none where there is a dash.
#[inline(always)]
pub fn first_optional_hex(
    text: &[u8],
    count: usize,
    separator: u8,
) -> Result<(Option<u32>, &[u8]), FieldError>
    requires places { count ≤ 8 }
    requires apart { is_hex_digit separator ≡ false }
    requires no_dash { (separator == 45) ≡ false }
    ensures read { IfOk result
        (λ p. optional_field (hex_field count) (field separator text.now) ≡ Ok p.0) }
    ensures small { IfOk result (λ p. IfSome p.0 (λ number. number < 16 ^ count)) }
    ensures others { IfOk result (λ p. p.1.now ≡ rest separator text.now) }
    ensures refused { IfErr result
        (λ error. optional_field (hex_field count) (field separator text.now) ≡ Err error) }
{
    if let Some(others) = first_dash(text, separator) {
        return Ok((None, others));
    }
    match first_hex(text, count, separator) {
        Ok((value, others)) => Ok((Some(value), others)),
        Err(error) => Err(error),
    }
}

// The text behind a dash that is the first field, if it is.
#[inline(always)]
fn first_dash(text: &[u8], separator: u8) -> Option<&[u8]>
    requires { (separator == 45) ≡ false }
    ensures dash { IfSome result (λ others. is_dash (field separator text.now) ≡ true) }
    ensures others { IfSome result (λ others. others.now ≡ rest separator text.now) }
    ensures none { IfNone result (is_dash (field separator text.now) ≡ false) }
{
    if text.is_empty() {
        return None;
    }
    if text[0] != b'-' {
        return None;
    }
    behind(text, 1, separator)
}

// The text of the others, where the first field has just so many bytes; it has no fewer.
#[inline(always)]
fn behind(text: &[u8], count: usize, separator: u8) -> Option<&[u8]>
    requires inside { count ≤ length text.now }
    requires lacks { Lacks separator (take count text.now) }
    ensures first { IfSome result (λ others. field separator text.now ≡ take count text.now) }
    ensures others { IfSome result (λ others. others.now ≡ rest separator text.now) }
    ensures longer { IfNone result (count < length (field separator text.now)) }
{
    if count == text.len() {
        return Some(&[]);
    }
    if text[count] != separator {
        return None;
    }
    Some(&text[count + 1..])
}
