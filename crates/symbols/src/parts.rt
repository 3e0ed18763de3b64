//! The file of which a local symbol is.

ghost use Rattle.std.specs.Prelude.{◌≡◌, ◌+◌, ◌*◌, ◌<◌, ◌≤◌, option_map, length};
ghost use Rattle.symbols.specs.Parts.{entries_before, file_of, last_file};
ghost use Rattle.symbols.specs.Tables.{table_of};

use crate::reading::Symbols;
use crate::symbol::{ENTRY_SIZE, Symbol, symbol_at};

/// The name of the file of which a symbol of this table is; none of one that all parts of the program know, and where
/// the table names no file before it.
pub fn file_of<'a>(symbols: &Symbols<'a>, symbol: &Symbol) -> Option<&'a [u8]>
    ensures { option_map (λ file. file.now) result ≡ file_of (table_of symbols.now) symbol.now }
{
    if symbol.is_global() {
        return None;
    }
    let count = entries_before(symbols, symbol);
    match last_file(symbols.file, symbols.start, count) {
        Some(file) => Some(file.name_in(symbols.names)),
        None => None,
    }
}

/// How many entries of the table stand before that of a symbol.
fn entries_before(symbols: &Symbols<'_>, symbol: &Symbol) -> usize
    ensures count { result ≡ entries_before (table_of symbols.now) symbol.now }
    ensures inside { 0 < result → symbols.now.start + 16 * result ≤ length symbols.now.file.now }
{
    if symbol.place > symbols.file.len() {
        return 0;
    }
    symbol.place.saturating_sub(symbols.start) / ENTRY_SIZE
}

/// The last that names a file, of the first entries of a table that begins at a place.
fn last_file(file: &[u8], start: usize, count: usize) -> Option<Symbol>
    requires { 0 < count → start + 16 * count ≤ length file.now }
    ensures { result ≡ last_file file.now start count }
{
    let mut left = count;
    while left > 0 {
        left -= 1;
        let entry = symbol_at(file, start + ENTRY_SIZE * left);
        if entry.is_file() {
            return Some(entry);
        }
    }
    None
}
