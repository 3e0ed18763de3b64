//! What a name stands for.

ghost use Rattle.std.specs.Prelude.{◌≡◌, ◌&&◌, ◌||◌, not, ◌==◌, IfOk, find};
ghost use Rattle.std.specs.List.{list_any};
ghost use Rattle.symbols.specs.Meanings.{IsMeaning, has_file, has_name, is_known, namesakes};
ghost use Rattle.symbols.specs.Parts.{file_of};
ghost use Rattle.symbols.specs.Symbols.{is_global};
ghost use Rattle.symbols.specs.Tables.{table_of};

use crate::parts::file_of;
use crate::reading::Symbols;
use crate::symbol::Symbol;
use std::alloc::{AllocError, Global};

/// A name as somebody has written it, with the file of the part of the program that has it where that is wanted.
#[derive(Clone, Copy, Drop)]
pub struct Name<'a> {
    pub file: Option<&'a [u8]>,
    pub name: &'a [u8],
}

/// What a name stands for.
#[derive(Clone, Copy, Drop)]
pub enum Meaning {
    /// The symbol of that name; where others have it too, they lie at its address.
    One(Symbol),
    /// Symbols at several addresses.
    Several,
    /// No symbol has the name.
    Nothing,
}

/// What a name stands for: for those that all parts of the program know, where there is one of that name; else for those
/// that single parts have.
pub fn meaning_of(symbols: &Symbols<'_>, name: &Name<'_>) -> Meaning
    ensures { IsMeaning (table_of symbols.now) name.now result }
{
    let global_alone = is_known(symbols, name);
    let Some(first) = first_namesake(symbols, name, global_alone) else {
        return Meaning::Nothing;
    };
    if is_elsewhere(symbols, name, global_alone, first.address) {
        return Meaning::Several;
    }
    Meaning::One(first)
}

/// All symbols that a name may stand for, in the table's order. Errors: want of memory.
pub fn namesakes(
    symbols: &Symbols<'_>,
    name: &Name<'_>,
    alloc: Global,
) -> Result<Vec<Symbol>, AllocError>
    ensures { IfOk result (λ them. them.items ≡ namesakes (table_of symbols.now) name.now) }
{
    let global_alone = is_known(symbols, name);
    let mut them = Vec::new(alloc);
    for symbol in symbols.symbols.as_slice() {
        if is_namesake(symbols, name, global_alone, symbol) {
            them.push(*symbol)?;
        }
    }
    Ok(them)
}

/// Whether all parts of the program know a symbol of this name.
fn is_known(symbols: &Symbols<'_>, name: &Name<'_>) -> bool
    ensures { result ≡ is_known (table_of symbols.now) name.now }
{
    symbols.symbols.iter().any(|symbol| symbol.is_global() && has_name(symbols, name, symbol))
}

/// The first of those for which a name may stand.
fn first_namesake(symbols: &Symbols<'_>, name: &Name<'_>, global_alone: bool) -> Option<Symbol>
    ensures { result ≡ find (λ symbol. has_name (table_of symbols.now) name.now symbol
        && (is_global symbol || not global_alone)) symbols.now.symbols.items }
{
    symbols
        .symbols
        .iter()
        .copied()
        .find(|symbol| is_namesake(symbols, name, global_alone, symbol))
}

/// Whether one of those for which a name may stand lies at another address.
fn is_elsewhere(symbols: &Symbols<'_>, name: &Name<'_>, global_alone: bool, address: u32) -> bool
    ensures { result ≡ list_any (λ symbol. (has_name (table_of symbols.now) name.now symbol
        && (is_global symbol || not global_alone)) && not (symbol.address == address)) symbols.now.symbols.items }
{
    symbols.symbols.iter().any(|symbol| {
        is_namesake(symbols, name, global_alone, symbol) && symbol.address != address
    })
}

fn is_namesake(symbols: &Symbols<'_>, name: &Name<'_>, global_alone: bool, symbol: &Symbol) -> bool
    ensures { result ≡ (has_name (table_of symbols.now) name.now symbol.now
        && (is_global symbol.now || not global_alone)) }
{
    has_name(symbols, name, symbol) && (symbol.is_global() || !global_alone)
}

fn has_name(symbols: &Symbols<'_>, name: &Name<'_>, symbol: &Symbol) -> bool
    ensures { result ≡ has_name (table_of symbols.now) name.now symbol.now }
{
    symbols.name_of(symbol) == name.name && has_file(name.file, symbols, symbol)
}

/// Whether a symbol is of this file, where one is named.
fn has_file(wanted: Option<&[u8]>, symbols: &Symbols<'_>, symbol: &Symbol) -> bool
    ensures { result ≡ has_file wanted.entry (file_of (table_of symbols.now) symbol.now) }
{
    let Some(wanted) = wanted else {
        return true;
    };
    match file_of(symbols, symbol) {
        Some(file) => file == wanted,
        None => false,
    }
}
