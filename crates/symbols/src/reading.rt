//! All symbols of a table.

ghost use Rattle.std.specs.Prelude.{◌≡◌, ◌+◌, ◌*◌, ◌<◌, ◌≤◌, ℕ, IfOk, IfSome, IfNone, Err, length, ◌==◌, count_by};
ghost use Rattle.symbols.specs.Sections.{
  HasNoSymbolSection,
  HasSections,
  IsSection,
  IsSymbolSection,
  IsWhole,
  section_bytes,
  section_count,
  section_link,
};
ghost use Rattle.symbols.specs.Tables.{IsTableOf, no_names, table_of};
ghost use Rattle.symbols.specs.Symbols.{kind_of, name_of, names_among};

use crate::sections::{NAMES, Section, count_sections, section_at, symbol_section};
use crate::symbol::{ENTRY_SIZE, Symbol, symbol_at};
use std::alloc::{AllocError, Global};

/// Why an image has no names.
#[derive(Clone, Copy, PartialEq, Eq, Drop)]
pub enum Unread {
    /// The file has no table of symbols.
    Absent,
    /// Its table, or what says where it lies, is not whole.
    Damaged,
    /// There isn't enough memory.
    Memory,
}

/// The names of a program.
#[derive(Drop)]
pub struct Symbols<'a> {
    pub(crate) names: &'a [u8],
    pub(crate) symbols: Vec<Symbol>,
    /// The file, and where in it the table begins, in bytes.
    pub(crate) file: &'a [u8],
    pub(crate) start: usize,
}

impl<'a> Symbols<'a> {
    /// No names.
    pub fn none(alloc: Global) -> Symbols<'a>
        ensures { table_of result ≡ no_names }
    {
        Symbols {
            names: &[],
            symbols: Vec::new(alloc),
            file: &[],
            start: 0,
        }
    }

    /// All of them, in the table's order.
    pub fn as_slice(&self) -> &[Symbol]
        ensures { result.now ≡ self.now.symbols.items }
    {
        self.symbols.as_slice()
    }

    /// The name of a symbol of this table.
    pub fn name_of(&self, symbol: &Symbol) -> &'a [u8]
        ensures { result.now ≡ name_of self.now.names.now symbol.now }
    {
        symbol.name_in(self.names)
    }

    /// How many functions have a name.
    pub fn functions(&self) -> usize
        ensures { result ≡ count_by (λ s. kind_of s == 2) self.now.symbols.items }
    {
        self.symbols
            .iter()
            .filter(|symbol| symbol.info % 16 == 2)
            .count()
    }

    /// How many objects have a name.
    pub fn objects(&self) -> usize
        ensures { result ≡ count_by (λ s. kind_of s == 1) self.now.symbols.items }
    {
        self.symbols
            .iter()
            .filter(|symbol| symbol.info % 16 == 1)
            .count()
    }

    /// How many labels there are beside them.
    pub fn labels(&self) -> usize
        ensures { result ≡ count_by (λ s. kind_of s == 0) self.now.symbols.items }
    {
        self.symbols
            .iter()
            .filter(|symbol| symbol.info % 16 == 0)
            .count()
    }
}

/// Reads the symbols of an image's file, in the table's order.
pub fn read(file: &[u8], alloc: Global) -> Result<Symbols<'_>, Unread>
    ensures read { IfOk result (λ read. IsTableOf file.now (table_of read)) }
    ensures absent { result ≡ Err Unread.Absent → HasSections file.now × HasNoSymbolSection file.now }
    ensures damaged { result ≡ Err Unread.Damaged → HasSections file.now → (n : ℕ) × IsSymbolSection file.now n
        × (IsWhole file.now n → ⊥) }
{
    let count = count_sections(file).ok_or(Unread::Damaged)?;
    let number = symbol_section(file, count).ok_or(Unread::Absent)?;
    let table = section_at(file, number);
    let Some(names) = names_of(file, number, table, count) else {
        return Err(Unread::Damaged);
    };
    match read_entries(file, table.offset, table.size / ENTRY_SIZE, names, alloc) {
        Ok(symbols) => Ok(Symbols {
            names,
            symbols,
            file,
            start: table.offset,
        }),
        Err(AllocError) => Err(Unread::Memory),
    }
}

/// The names that a table goes by, where it and they are whole.
fn names_of(file: &[u8], number: usize, table: Section, count: usize) -> Option<&[u8]>
    requires whole { HasSections file.now }
    requires count { count ≡ section_count file.now }
    requires inside { number < count }
    requires table { IsSection file.now number table }
    ensures some { IfSome result (λ names. IsWhole file.now number
        × (names.now ≡ section_bytes file.now (section_link file.now number))) }
    ensures none { IfNone result (IsWhole file.now number → ⊥) }
{
    if !table.is_in_file(file.len()) || table.size % ENTRY_SIZE != 0 || table.link >= count {
        return None;
    }
    let names = section_at(file, table.link);
    if names.kind != NAMES || !names.is_in_file(file.len()) || names.size == 0 {
        return None;
    }
    let bytes = &file[names.offset..names.offset + names.size];
    if bytes[names.size - 1] != 0 {
        return None;
    }
    Some(bytes)
}

/// Those of so many entries from a place on that are names of the program.
fn read_entries(
    file: &[u8],
    place: usize,
    count: usize,
    names: &[u8],
    alloc: Global,
) -> Result<Vec<Symbol>, AllocError>
    requires { place + 16 * count ≤ length file.now }
    ensures { IfOk result (λ symbols. symbols.items ≡ names_among file.now names.now place count) }
{
    let mut symbols = Vec::new(alloc);
    for index in 0..count {
        let symbol = symbol_at(file, place + ENTRY_SIZE * index);
        if !symbol.is_name(names) {
            continue;
        }
        symbols.push(symbol)?;
    }
    Ok(symbols)
}
