//! The names of a program, in a table of symbols laid out by hand as ELF32 has it.

use std::alloc::Global;
use symbols::{Meaning, Name, Symbols, Unread, file_of, meaning_of, name_at, namesakes, read};

/// A file header that names three sections' headers behind it: none, a table of symbols at byte 172, and its names at
/// byte 220.
static FILE: [u8; 232] = [
    0x7f, b'E', b'L', b'F', 1, 1, 1, 0, 0, 0, 0, 0, 0, 0, 0, 0, // the identification
    2, 0, 243, 0, 1, 0, 0, 0, 0, 0, 0, 0x80, 0, 0, 0, 0, // an executable of RISC-V, its entry
    52, 0, 0, 0, 0, 0, 0, 0, 52, 0, 32, 0, 0, 0, 40, 0, // the sections at byte 52, 40 bytes each
    3, 0, 0, 0, // three of them
    0, 0, 0, 0, 0, 0, 0, 0, 0, 0, 0, 0, 0, 0, 0, 0, 0, 0, 0, 0, 0, 0, 0, 0, 0, 0, 0, 0, 0, 0, 0, 0,
    0, 0, 0, 0, 0, 0, 0, 0, // the first is none
    0, 0, 0, 0, 2, 0, 0, 0, 0, 0, 0, 0, 0, 0, 0, 0, 172, 0, 0, 0, 48, 0, 0, 0, 2, 0, 0, 0, 1, 0, 0,
    0, 4, 0, 0, 0, 16, 0, 0, 0, // SHT_SYMTAB, 48 bytes, by section 2
    0, 0, 0, 0, 3, 0, 0, 0, 0, 0, 0, 0, 0, 0, 0, 0, 220, 0, 0, 0, 12, 0, 0, 0, 0, 0, 0, 0, 0, 0, 0,
    0, 1, 0, 0, 0, 0, 0, 0, 0, // SHT_STRTAB, 12 bytes
    0, 0, 0, 0, 0, 0, 0, 0, 0, 0, 0, 0, 0, 0, 0, 0, // the first symbol is none
    1, 0, 0, 0, 0, 0, 0, 0x80, 8, 0, 0, 0, 0x12, 0, 1, 0, // a global function of 8 bytes at 80000000
    6, 0, 0, 0, 4, 0, 0, 0x80, 0, 0, 0, 0, 0, 0, 1, 0, // a local label at 80000004
    0, b'm', b'a', b'i', b'n', 0, b'l', b'o', b'o', b'p', b'1', 0,
];

/// Whether an address has this name, and is so many bytes behind its start.
fn is_named(address: u32, name: &[u8], behind: u32, alloc: Global) -> Option<bool> {
    let Ok(symbols) = read(&FILE, alloc) else {
        return None;
    };
    let place = name_at(&symbols, address)?;
    Some(place.name == name && place.behind == behind)
}

/// How many functions, objects and labels have a name.
fn counts(alloc: Global) -> Option<(usize, usize, usize)> {
    match read(&FILE, alloc) {
        Ok(symbols) => Some((symbols.functions(), symbols.objects(), symbols.labels())),
        Err(_) => None,
    }
}

#[test]
fn names_are_read_and_given(rt: HostRuntime) {
    assert!(rt; counts(rt.alloc()) == Some((1, 0, 1)));
    assert!(rt; is_named(0x8000_0000, b"main", 0, rt.alloc()) == Some(true));
    // The function goes before the label.
    assert!(rt; is_named(0x8000_0004, b"main", 4, rt.alloc()) == Some(true));
    assert!(rt; is_named(0x8000_0007, b"main", 7, rt.alloc()) == Some(true));
    assert!(rt; is_named(0x8000_0008, b"main", 8, rt.alloc()) == None);
}

#[test]
fn a_table_that_is_not_whole_has_no_names(rt: HostRuntime) {
    assert!(rt; matches!(read(&FILE[..171], rt.alloc()), Err(Unread::Damaged)));
    assert!(rt; matches!(read(&FILE[..231], rt.alloc()), Err(Unread::Damaged)));
}

/// The address for which a name stands, where it is one.
fn address_of(name: &[u8], file: Option<&[u8]>, alloc: Global) -> Option<u32> {
    let Ok(symbols) = read(&FILE, alloc) else {
        return None;
    };
    match meaning_of(&symbols, &Name { file, name }) {
        Meaning::One(symbol) => Some(symbol.address),
        Meaning::Several | Meaning::Nothing => None,
    }
}

/// How many symbols have a name, and whether one is of a file.
fn symbols_of(name: &[u8], alloc: Global) -> Option<(usize, bool)> {
    let Ok(symbols) = read(&FILE, alloc) else {
        return None;
    };
    let Ok(them) = namesakes(&symbols, &Name { file: None, name }, alloc) else {
        return None;
    };
    let is_of_file = them
        .iter()
        .any(|symbol| file_of(&symbols, symbol).is_some());
    Some((them.len(), is_of_file))
}

#[test]
fn a_name_has_its_address(rt: HostRuntime) {
    assert!(rt; address_of(b"main", None, rt.alloc()) == Some(0x8000_0000));
    assert!(rt; address_of(b"loop1", None, rt.alloc()) == Some(0x8000_0004));
    assert!(rt; address_of(b"loop", None, rt.alloc()) == None);
    // No entry of the table names a file.
    assert!(rt; address_of(b"loop1", Some(b"loop.c"), rt.alloc()) == None);
    assert!(rt; symbols_of(b"loop1", rt.alloc()) == Some((1, false)));
    assert!(rt; Symbols::none(rt.alloc()).as_slice().is_empty());
}
