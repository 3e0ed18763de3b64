//! Names of the program that aren't there, or stand for several addresses.

use crate::line_fault::LineFault;
use hints::{Hint, Part};
use outcome_queries::{Expected, name_asked};
use std::alloc::{AllocError, Global};
use strsim::osa_distance;
use symbols::{Name, Symbol, Symbols, file_of, namesakes, read};

/// The longest name that is compared with another one, in bytes.
const LONGEST: usize = 64;

/// How many addresses of a name are told.
const MOST_TOLD: usize = 3;

/// Adds what the image says of the name at the start of a text, where that was refused for its name: the name that is
/// the nearest, its addresses, or the size of its object.
pub(crate) fn add_named(
    text: &[u8],
    expected: Expected,
    fault: &LineFault<'_, '_>,
    hint: &mut Hint,
    alloc: Global,
) -> Result<(), AllocError> {
    let Ok(file) = fault.inputs.program else {
        return Ok(());
    };
    let Some(name) = name_asked(text) else {
        return Ok(());
    };
    let symbols = match read(file, alloc) {
        Ok(symbols) => symbols,
        Err(_) => return add_nameless(expected, hint),
    };
    match expected {
        Expected::Name => add_meant(&symbols, &name, hint, alloc),
        Expected::OneAddress => add_addresses(&symbols, &name, hint, alloc),
        Expected::Inside => add_size(&symbols, &name, hint, alloc),
        Expected::Watched | Expected::Term | Expected::End => Ok(()),
        Expected::Closing | Expected::Terms | Expected::Levels => Ok(()),
    }
}

/// Adds that the image has no names.
fn add_nameless(expected: Expected, hint: &mut Hint) -> Result<(), AllocError> {
    match expected {
        Expected::Name => hint.add(
            Part::Cause,
            b"the image has no table of symbols that is whole",
        ),
        _ => Ok(()),
    }
}

/// Adds the name that is the nearest to one that isn't there.
fn add_meant(
    symbols: &Symbols<'_>,
    name: &Name<'_>,
    hint: &mut Hint,
    alloc: Global,
) -> Result<(), AllocError> {
    let Some(symbol) = nearest(symbols, name.name, alloc)? else {
        return Ok(());
    };
    let text = spelled(symbols, &symbol, name.file.is_some(), alloc)?;
    hint.add(Part::Meant, text.as_slice())
}

/// The name of a symbol, with its file before it where that is wanted and known.
fn spelled(
    symbols: &Symbols<'_>,
    symbol: &Symbol,
    with_file: bool,
    alloc: Global,
) -> Result<Vec<u8>, AllocError> {
    let mut text = Vec::new(alloc);
    if with_file {
        if let Some(file) = file_of(symbols, symbol) {
            text.extend_from_slice(file)?;
            text.push(b':')?;
        }
    }
    text.extend_from_slice(symbols.name_of(symbol))?;
    Ok(text)
}

/// The symbol whose name is the nearest to another one, if one is near: at most a third of its letters, rounded up, are
/// missing, exchanged or too many.
pub(crate) fn nearest(
    symbols: &Symbols<'_>,
    asked: &[u8],
    alloc: Global,
) -> Result<Option<Symbol>, AllocError> {
    let mut nearest = None;
    let mut least = usize::MAX;
    let Some(asked) = comparable(asked) else {
        return Ok(None);
    };
    for symbol in symbols.as_slice() {
        let name = symbols.name_of(symbol);
        if let Some(text) = comparable(name) {
            let distance = osa_distance(alloc, asked, text)?;
            if distance < least && distance <= name.len().div_ceil(3) {
                least = distance;
                nearest = Some(*symbol);
            }
        }
    }
    Ok(nearest)
}

/// A name as text, where it is such and not too long.
fn comparable(name: &[u8]) -> Option<&str> {
    if name.len() > LONGEST {
        return None;
    }
    str::from_utf8(name).ok()
}

/// Adds the addresses of a name that has several, each with its file.
pub(crate) fn add_addresses(
    symbols: &Symbols<'_>,
    name: &Name<'_>,
    hint: &mut Hint,
    alloc: Global,
) -> Result<(), AllocError> {
    let them = namesakes(symbols, name, alloc)?;
    for symbol in them.iter().take(MOST_TOLD) {
        add_address(symbols, symbol, hint, alloc)?;
    }
    Ok(())
}

fn add_address(
    symbols: &Symbols<'_>,
    symbol: &Symbol,
    hint: &mut Hint,
    alloc: Global,
) -> Result<(), AllocError> {
    let mut text = spelled(symbols, symbol, true, alloc)?;
    let address = symbol.address;
    let place = format!(in alloc; " at {address:08x}")?;
    text.extend_from_slice(place.as_bytes())?;
    hint.add(Part::Cause, text.as_slice())
}

/// Adds how many bytes the object of a name has.
fn add_size(
    symbols: &Symbols<'_>,
    name: &Name<'_>,
    hint: &mut Hint,
    alloc: Global,
) -> Result<(), AllocError> {
    let them = namesakes(symbols, name, alloc)?;
    let Some(symbol) = them.first() else {
        return Ok(());
    };
    let size = symbol.size;
    let cause = format!(in alloc; "its object has {size} bytes")?;
    hint.add(Part::Cause, cause.as_bytes())
}
