//! The file of a litmus test's image: its table of symbols has the test's locations, and it is loaded as the image.

ghost use Rattle.litmus_tests.specs.WellFormed.{IsWellFormed};

use crate::rows::holds;
use elf_image::{RamSize, load};
use litmus_files::file_of;
use litmus_images::image_of;
use litmus_reading::read_litmus;
use litmus_tests::LitmusTest;
use std::alloc::Global;
use symbols::read;

/// A byte and an array of halves, which begin a word each.
const SIZES: &str = "RISCV sizes
{ int8_t b; int16_t h[3]; 0:x6=h; }
 P0          ;
 lb x5,0(x6) ;
exists (b=0)
";

const TEST: &str = "RISCV names
{ 0:x6=flag; int x; }
 P0          ;
 sw x5,0(x6) ;
exists (0:x5=0)
";

/// Whether the file of a test has two names, `flag` at the start of memory and `x` behind it, each of four bytes.
fn has_both(file: &[u8], alloc: Global) -> bool {
    let Ok(names) = read(file, alloc) else {
        return false;
    };
    let symbols = names.as_slice();
    if symbols.len() != 2 {
        return false;
    }
    let (first, second) = (symbols[0], symbols[1]);
    names.name_of(&first) == b"flag".as_slice()
        && names.name_of(&second) == b"x".as_slice()
        && first.address == 0x8000_0000
        && second.address == 0x8000_0004
        && first.size == 4
        && second.size == 4
        && first.is_global()
}

/// Whether the file of a test has two names, `b` of one byte at the start of memory, and `h` of six a word behind it.
fn has_sizes(file: &[u8], alloc: Global) -> bool {
    let Ok(names) = read(file, alloc) else {
        return false;
    };
    let symbols = names.as_slice();
    if symbols.len() != 2 {
        return false;
    }
    let (first, second) = (symbols[0], symbols[1]);
    names.name_of(&first) == b"b".as_slice()
        && names.name_of(&second) == b"h".as_slice()
        && first.address == 0x8000_0000
        && second.address == 0x8000_0004
        && first.size == 1
        && second.size == 6
}

fn is_sized(test: &LitmusTest, alloc: Global) -> bool
    requires { IsWellFormed test.now }
{
    let Ok(image) = image_of(test, alloc) else {
        return false;
    };
    match file_of(test, &image, alloc) {
        Ok(file) => has_sizes(file.as_slice(), alloc),
        Err(_) => false,
    }
}

fn is_named(test: &LitmusTest, alloc: Global) -> bool
    requires { IsWellFormed test.now }
{
    let Ok(image) = image_of(test, alloc) else {
        return false;
    };
    match file_of(test, &image, alloc) {
        Ok(file) => has_both(file.as_slice(), alloc),
        Err(_) => false,
    }
}

fn is_loaded(test: &LitmusTest, alloc: Global) -> bool
    requires { IsWellFormed test.now }
{
    let Ok(image) = image_of(test, alloc) else {
        return false;
    };
    let Ok(file) = file_of(test, &image, alloc) else {
        return false;
    };
    let Some(ram) = RamSize::new(65536) else {
        return false;
    };
    match load(alloc, file.as_slice(), ram) {
        Ok(loaded) => {
            loaded.entry() == image.entry()
                && loaded.code_word(image.entry()) == image.code_word(image.entry())
        }
        Err(_) => false,
    }
}

#[test]
fn locations_are_names(rt: HostRuntime) {
    match read_litmus(TEST.as_bytes(), rt.alloc()) {
        Ok(test) => {
            holds(&rt, "names", is_named(&test, rt.alloc()));
            holds(&rt, "loaded", is_loaded(&test, rt.alloc()));
        }
        Err(_) => holds(&rt, "read", false),
    }
}

#[test]
fn an_array_is_one_name(rt: HostRuntime) {
    match read_litmus(SIZES.as_bytes(), rt.alloc()) {
        Ok(test) => holds(&rt, "sizes", is_sized(&test, rt.alloc())),
        Err(_) => holds(&rt, "read", false),
    }
}
