//! A word of an order that isn't followed.

use crate::inside_text::word_at;
use crate::line_fault::LineFault;
use crate::named_files::add_second;
use hints::{Hint, Part};
use sc_machine::Stopped;
use scripts::read_order;
use sim_inputs::read_config;
use std::alloc::{AllocError, Global};

/// Adds the word of the order with this number, from 0, that names no hart.
pub(crate) fn add_order_word(
    number: usize,
    fault: &LineFault<'_, '_>,
    hint: &mut Hint,
    alloc: Global,
) -> Result<(), AllocError> {
    let Some(word) = add_word(number, fault, hint, alloc)? else {
        return Ok(());
    };
    hint.add(Part::Expected, b"the number of a hart, 0 to 255")?;
    match meant(word, alloc) {
        Some(meant) => hint.add(Part::Meant, meant),
        None => Ok(()),
    }
}

/// Adds the word of the order with this number, from 0, whose step isn't made, and why.
pub(crate) fn add_step(
    number: usize,
    why: Stopped,
    fault: &LineFault<'_, '_>,
    hint: &mut Hint,
    alloc: Global,
) -> Result<(), AllocError> {
    add_word(number, fault, hint, alloc)?;
    match why.number() {
        1 => hint.add(Part::Cause, b"the hart has ended or stopped"),
        2 => hint.add(Part::Cause, b"no room for the byte that it puts out"),
        _ => add_harts(fault, hint, alloc),
    }
}

/// Adds which harts there are.
pub(crate) fn add_harts(
    fault: &LineFault<'_, '_>,
    hint: &mut Hint,
    alloc: Global,
) -> Result<(), AllocError> {
    hint.add(Part::Cause, b"there is no such hart")?;
    if let Some(harts) = fault.line.harts {
        let count = harts.count();
        let expected = format!(in alloc; "a number below {count}, as --harts says")?;
        return hint.add(Part::Expected, expected.as_bytes());
    }
    let Ok(text) = fault.inputs.config else {
        return Ok(());
    };
    let Ok(settings) = read_config(text, alloc) else {
        return Ok(());
    };
    let count = settings.config.harts;
    let expected = format!(in alloc; "a number below {count}, the harts of the configuration")?;
    hint.add(Part::Expected, expected.as_bytes())?;
    hint.add(Part::Usually, b"too few harts: --harts N makes more")
}

/// Adds the order and a word of it, and answers the word.
fn add_word<'a>(
    number: usize,
    fault: &LineFault<'_, 'a>,
    hint: &mut Hint,
    alloc: Global,
) -> Result<Option<&'a [u8]>, AllocError> {
    add_second(fault, hint, alloc)?;
    let Ok(text) = fault.inputs.second else {
        return Ok(None);
    };
    let Some(found) = word_at(text, number) else {
        return Ok(None);
    };
    found.add(hint, alloc)?;
    Ok(Some(found.word))
}

/// Which number was meant, probably: the first digits of the word without their leading zeros.
fn meant(word: &[u8], alloc: Global) -> Option<&[u8]> {
    let begin = word.iter().position(|byte| byte.is_ascii_digit())?;
    let digits = word.get(begin..)?;
    let end = digits.iter().position(|byte| !byte.is_ascii_digit());
    let digits = match end {
        Some(end) => &digits[..end],
        None => digits,
    };
    let zeros = digits.iter().position(|byte| *byte != b'0');
    let number = match zeros {
        Some(zeros) => digits.get(zeros..)?,
        None => digits.get(..1)?,
    };
    match read_order(number, alloc) {
        Ok(harts) if harts.len() == 1 => Some(number),
        _ => None,
    }
}
