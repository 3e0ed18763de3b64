//! The names of a file, and the table of symbols that go by them (ELF32, "String Table" and "Symbol Table").

ghost use Rattle.std.specs.Prelude.{◌≡◌, ◌≤◌, ◌*◌, ◌^◌, ◌++◌, length, flat_map, IfOk, OnOk};
ghost use Rattle.elf_image.specs.Written.{word_bytes};
ghost use Rattle.litmus_files.specs.Names.{count_of, entries, entry, entry_of, has_symbol, name_of, names_begin};
ghost use Rattle.litmus_files.specs.Names.{section_names, strings, symbol_table};
ghost use Rattle.watched_outcomes.specs.Watching.{bytes_of};

use byteorder::{ByteOrder, LittleEndian};
use elf_image::RAM_START;
use litmus_tests::{Element, Location, Width};
use std::alloc::{AllocError, Global};

/// Where the names of the locations begin: behind those of the sections.
const NAMES_BEGIN: usize = 28;

/// Where a name may begin at the most, and a location, in bytes, and how many elements an array may have. No test comes
/// to so many.
const MOST: usize = 16_777_216;

/// What an entry says in its last word, st_info, st_other and st_shndx: an object that all parts of the program know, in
/// section 1.
const GLOBAL_OBJECT: u32 = 0x0001_0011;

/// The names of the sections, and behind them those of the locations and the arrays, each with a 0 behind it.
#[tactic(auto, unfolding(crate::specs::Names::section_names))]
pub(crate) fn strings_of(locations: &[Location], alloc: Global) -> Result<Vec<u8>, AllocError>
    ensures { IfOk result (λ bytes. bytes.items ≡ strings locations.now) }
{
    let mut bytes = Vec::new(alloc);
    bytes.extend_from_slice(b"\0.locations\0.symtab\0.strtab\0")?;
    push_names(&mut bytes, locations)?;
    Ok(bytes)
}

/// Appends the names of what has a symbol, each with a 0 behind it.
fn push_names(bytes: &mut Vec<u8>, locations: &[Location]) -> Result<(), AllocError>
    ensures { OnOk result (bytes.new.items ≡ bytes.old.items ++ flat_map name_of locations.now) }
{
    for location in locations {
        push_name(bytes, location)?;
    }
    Ok(())
}

fn push_name(bytes: &mut Vec<u8>, location: &Location) -> Result<(), AllocError>
    ensures { OnOk result (bytes.new.items ≡ bytes.old.items ++ name_of location.now) }
{
    if !has_symbol(&location.element) {
        return Ok(());
    }
    bytes.extend_from_slice(location.name.as_slice())?;
    bytes.push(0)?;
    Ok(())
}

/// How many bytes a name has, with the 0 behind it; none where there is no symbol.
fn name_length(location: &Location) -> usize
    ensures value { result ≡ length (name_of location.now) }
    ensures small { result ≤ 2 ^ 63 }
{
    if !has_symbol(&location.element) {
        return 0;
    }
    location.name.len() + 1
}

/// Whether there is a symbol: of a location, or of an array, by its first element.
fn has_symbol(element: &Option<Element>) -> bool
    ensures { result ≡ has_symbol element.now }
{
    match element {
        Some(element) => element.index == 0,
        None => true,
    }
}

/// How many numbers go by it.
fn count_of(element: &Option<Element>) -> usize
    ensures { result ≡ count_of element.now }
{
    match element {
        Some(element) => element.count,
        None => 1,
    }
}

/// The table of symbols: its first entry, which is empty, and one for each location and each array.
pub(crate) fn symbols_of(locations: &[Location], alloc: Global) -> Result<Vec<u8>, AllocError>
    ensures { IfOk result (λ table. table.items ≡ symbol_table locations.now) }
{
    let mut table = Vec::new(alloc);
    table.extend_from_slice(&[0; 16])?;
    push_entries(&mut table, locations)?;
    Ok(table)
}

/// Appends the entries of all symbols. Fails for want of memory, and where the names are too long.
fn push_entries(table: &mut Vec<u8>, locations: &[Location]) -> Result<(), AllocError>
    ensures { OnOk result (table.new.items ≡ table.old.items ++ entries locations.now names_begin) }
{
    let mut begin = NAMES_BEGIN;
    for location in locations {
        if begin > MOST {
            return Err(AllocError);
        }
        push_symbol(table, location, begin as u32)?;
        begin += name_length(location);
    }
    Ok(())
}

/// Appends the entry of a location or an array whose name begins at a place; nothing where there is no symbol. Fails for
/// want of memory, and where it is too large.
fn push_symbol(table: &mut Vec<u8>, location: &Location, begin: u32) -> Result<(), AllocError>
    ensures { OnOk result (table.new.items ≡ table.old.items ++ entry_of location.now begin) }
{
    if !has_symbol(&location.element) {
        return Ok(());
    }
    let count = count_of(&location.element);
    if location.byte > MOST {
        return Err(AllocError);
    }
    if count > MOST {
        return Err(AllocError);
    }
    let size = size_of(location.number_type.width, count as u32);
    push_entry(table, begin, RAM_START + location.byte as u32, size)
}

/// How many bytes so many numbers of a width have.
fn size_of(width: Width, count: u32) -> u32
    requires { count ≤ 16777216 }
    ensures { result ≡ bytes_of width * count }
{
    match width {
        Width::Byte => count,
        Width::Half => 2 * count,
        Width::Word => 4 * count,
    }
}

/// Appends the entry of an object of so many bytes at an address, whose name begins at a place.
#[tactic(auto, unfolding(crate::specs::Names::entry))]
fn push_entry(table: &mut Vec<u8>, begin: u32, address: u32, size: u32) -> Result<(), AllocError>
    ensures { OnOk result (table.new.items ≡ table.old.items ++ entry begin address size) }
{
    push_words(table, &[begin, address, size, GLOBAL_OBJECT])
}

/// Appends words, the lowest byte of each first.
#[tactic(auto, unfolding(elf_image::specs::Written::word_bytes))]
pub(crate) fn push_words(file: &mut Vec<u8>, words: &[u32]) -> Result<(), AllocError>
    ensures { OnOk result (file.new.items ≡ file.old.items ++ flat_map word_bytes words.now) }
{
    for word in words {
        let mut bytes = [0; 4];
        LittleEndian::write_u32(&mut bytes, *word);
        file.extend_from_slice(&bytes)?;
    }
    Ok(())
}
