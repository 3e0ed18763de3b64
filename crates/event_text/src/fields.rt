//! The fields of a line: one is read, the last of a text, or the first, with the text of those
//! behind it.

ghost use Rattle.std.specs.Prelude.{◌≡◌, IfOk, IfErr, IfSome, Ok, Err};
ghost use Rattle.text_fields.specs.Reading.{decimal_field, hex_field, optional_field};
ghost use Rattle.text_fields.specs.Splitting.{field, rest};
ghost use Rattle.events.specs.Width.{HasWidth, IsWidth};
ghost use Rattle.event_text.specs.Reading.{next_field, pc_field, ended_of, stopped_of};
ghost use Rattle.event_text.specs.Reading.{sized_field, written_of};

use events::{Next, Phys, Written};
use text_fields::{
    FieldError, first_decimal, first_hex, read_hex, read_optional_decimal, read_optional_hex,
    split_field,
};

/// What comes next, and the fields behind it.
#[inline]
pub(crate) fn first_next(fields: &[u8]) -> Result<(Next, &[u8]), FieldError>
    ensures read { IfOk result (λ p. next_field (field 32 fields.now) ≡ Ok p.0) }
    ensures behind { IfOk result (λ p. p.1.now ≡ rest 32 fields.now) }
    ensures refused { IfErr result (λ error. next_field (field 32 fields.now) ≡ Err error) }
{
    if fields.is_empty() {
        return Err(FieldError::Misspelled);
    }
    if fields[0] == b'p' {
        return first_pc(&fields[1..]);
    }
    if fields[0] == b'e' {
        return first_ended(&fields[1..]);
    }
    if fields[0] == b's' {
        return first_stopped(&fields[1..]);
    }
    Err(FieldError::Misspelled)
}

#[tactic(auto, unfolding(crate::specs::Reading::pc_field))]
#[inline]
fn first_pc(digits: &[u8]) -> Result<(Next, &[u8]), FieldError>
    ensures read { IfOk result (λ p. pc_field (field 32 digits.now) ≡ Ok p.0) }
    ensures behind { IfOk result (λ p. p.1.now ≡ rest 32 digits.now) }
    ensures refused { IfErr result (λ error. pc_field (field 32 digits.now) ≡ Err error) }
{
    let (pc, behind) = first_hex(digits, 8, b' ')?;
    Ok((Next::Pc(pc), behind))
}

#[tactic(auto, unfolding(crate::specs::Reading::ended_of))]
fn first_ended(digits: &[u8]) -> Result<(Next, &[u8]), FieldError>
    ensures read { IfOk result (λ p. ended_of (field 32 digits.now) ≡ Ok p.0) }
    ensures behind { IfOk result (λ p. p.1.now ≡ rest 32 digits.now) }
    ensures refused { IfErr result (λ error. ended_of (field 32 digits.now) ≡ Err error) }
{
    let (status, behind) = first_hex(digits, 8, b' ')?;
    Ok((Next::Ended(status), behind))
}

#[tactic(auto, unfolding(crate::specs::Reading::stopped_of))]
fn first_stopped(digits: &[u8]) -> Result<(Next, &[u8]), FieldError>
    ensures read { IfOk result (λ p. stopped_of (field 32 digits.now) ≡ Ok p.0) }
    ensures behind { IfOk result (λ p. p.1.now ≡ rest 32 digits.now) }
    ensures refused { IfErr result (λ error. stopped_of (field 32 digits.now) ≡ Err error) }
{
    match first_decimal(digits, 8, b' ') {
        Ok((cause, behind)) => Ok((Next::Stopped(cause as u8), behind)),
        Err(_) => Err(FieldError::Misspelled),
    }
}

/// How many bytes a write is of, and their number, or none, and the fields behind it.
#[inline]
pub(crate) fn first_optional_sized(fields: &[u8]) -> Result<(Option<(u8, u32)>, &[u8]), FieldError>
    ensures read { IfOk result (λ p. optional_field sized_field (field 32 fields.now) ≡ Ok p.0) }
    ensures sized { IfOk result (λ p. IfSome p.0 (λ some. IsWidth some.0)) }
    ensures behind { IfOk result (λ p. p.1.now ≡ rest 32 fields.now) }
    ensures refused { IfErr result
        (λ error. optional_field sized_field (field 32 fields.now) ≡ Err error) }
{
    let (first, behind) = split_field(fields, b' ');
    Ok((read_optional_sized(first)?, behind))
}

/// A register or none.
pub(crate) fn read_phys(text: &[u8], max: Phys) -> Result<Option<Phys>, FieldError>
    ensures { result ≡ optional_field (decimal_field max) text.now }
{
    Ok(match read_optional_decimal(text, u32::from(max))? {
        None => None,
        Some(number) => Some(number as Phys),
    })
}

/// A byte or none.
pub(crate) fn read_optional_byte(text: &[u8]) -> Result<Option<u8>, FieldError>
    ensures { result ≡ optional_field (hex_field 2) text.now }
{
    Ok(match read_optional_hex(text, 2)? {
        None => None,
        Some(number) => Some(number as u8),
    })
}

/// The write that an address and a number make: both are there, or neither.
pub(crate) fn written(
    addr: Option<u32>,
    number: Option<(u8, u32)>,
) -> Result<Option<Written>, FieldError>
    requires { IfSome number (λ some. IsWidth some.0) }
    ensures value { result ≡ written_of addr number }
    ensures sized { IfOk result (λ write. IfSome write HasWidth) }
{
    match (addr, number) {
        (None, None) => Ok(None),
        (Some(addr), Some((n, datum))) => Ok(Some(Written { addr, n, datum })),
        _ => Err(FieldError::Misspelled),
    }
}

// The number of a write, and of how many bytes it is.
#[tactic(auto, unfolding(crate::specs::Reading::sized_field))]
fn read_sized(text: &[u8]) -> Result<(u8, u32), FieldError>
    ensures value { result ≡ sized_field text.now }
    ensures sized { IfOk result (λ number. IsWidth number.0) }
{
    if text.len() != 2 && text.len() != 4 && text.len() != 8 {
        return Err(FieldError::Misspelled);
    }
    let datum = read_hex(text, text.len())?;
    Ok(((text.len() / 2) as u8, datum))
}

#[tactic(auto, unfolding(text_fields::specs::Reading::optional_field))]
fn read_optional_sized(text: &[u8]) -> Result<Option<(u8, u32)>, FieldError>
    ensures value { result ≡ optional_field sized_field text.now }
    ensures sized { IfOk result (λ number. IfSome number (λ some. IsWidth some.0)) }
{
    if text.len() == 1 && text[0] == b'-' {
        return Ok(None);
    }
    Ok(Some(read_sized(text)?))
}
