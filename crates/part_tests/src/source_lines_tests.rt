//! Source lines of an image of two words, written by hand, and what stands beside its addresses.

use address_labels::{Form, Labels, label_width, write_labels};
use source_lines::{LineFault, LinesRefused, SourceLines, read_lines};
use std::alloc::Global;
use test_support::{file_of, image_of};

/// `addi x0,x0,0`, twice, at 80000000.
static WORDS: [u32; 2] = [0x0000_0013, 0x0000_0013];

/// Why a text has no lines of that image: the line, from 1, and its fault.
fn fault_of(text: &[u8], alloc: Global) -> Option<(usize, LineFault)> {
    let file = file_of(&WORDS, 0, alloc).ok()?;
    let image = image_of(&file, 8192, alloc)?;
    match read_lines(text, &image, alloc) {
        Err(LinesRefused::Line { number, fault }) => Some((number, fault)),
        _ => None,
    }
}

/// What stands beside an address of that image, and how wide it is.
fn beside(address: u32, alloc: Global) -> Option<(Vec<u8>, u32)> {
    let file = file_of(&WORDS, 0, alloc).ok()?;
    let image = image_of(&file, 8192, alloc)?;
    let lines: SourceLines<'_> = read_lines(
        b"80000000 a b.c 7\n80000004 c 10\n",
        &image,
        alloc,
    ).ok()?;
    said_beside(address, &lines, alloc)
}

/// What is written beside an address, and how wide it is.
fn said_beside(address: u32, lines: &SourceLines<'_>, alloc: Global) -> Option<(Vec<u8>, u32)> {
    let labels = Labels {
        names: None,
        lines: Some(lines),
    };
    let mut text = Vec::new(alloc);
    write_labels(&labels, Form::Word, address, &mut text).ok()?;
    Some((text, label_width(&labels, address)))
}

/// Whether this stands beside an address.
fn stands(address: u32, text: &[u8], alloc: Global) -> bool {
    match beside(address, alloc) {
        Some((found, width)) => found.as_slice() == text && width as usize == text.len(),
        None => false,
    }
}

#[test]
fn a_line_stands_beside_its_address(rt: HostRuntime) {
    assert!(rt; stands(0x8000_0000, b" a\\x20b.c:7", rt.alloc()));
    assert!(rt; stands(0x8000_0004, b" c:10", rt.alloc()));
    assert!(rt; stands(0x8000_0008, b" -", rt.alloc()));
    assert!(rt; Labels::none().are_none());
}

#[test]
fn each_fault_of_a_line_is_named(rt: HostRuntime) {
    let alloc = rt.alloc();
    assert!(rt; fault_of(b"80000000 a 1\n80000004 a 2", alloc) == Some((2, LineFault::End)));
    assert!(rt; fault_of(b"8000000 a 1\n", alloc) == Some((1, LineFault::Address)));
    assert!(rt; fault_of(b"80000000 1\n", alloc) == Some((1, LineFault::File)));
    assert!(rt; fault_of(b"80000000 a 0\n", alloc) == Some((1, LineFault::Number)));
    assert!(rt; fault_of(b"80000008 a 1\n", alloc) == Some((1, LineFault::Outside)));
    assert!(rt; fault_of(b"80000004 a 1\n80000000 a 1\n", alloc) == Some((2, LineFault::Order)));
    assert!(rt; fault_of(b"", alloc) == None);
}
