//! What harts of a stuck state do, by a program worked by hand from docs/FORMATS.md.

use rv_instr::LoadOp;
use sc_machine::Plain;
use std::alloc::Global;
use std::test::Fail;
use stories::Deed;
use stuck_harts::{spins_of, tell_spin};
use symbols::Symbols;
use test_support::{file_of, image_of};

/// `lui x6,0x80001`, `lw x5,(x6)`, `beq x5,x0,-4`, `ebreak`: it waits for a word that nobody writes.
const WAITING: [u32; 8] = [
    0x8000_1337,
    0x0003_2283,
    0xfe02_8ee3,
    0x0010_0073,
    0,
    0,
    0,
    0,
];

fn machine(alloc: Global) -> Option<Plain> {
    let file = file_of(&WAITING, 0, alloc).ok()?;
    let image = image_of(&file, 8192, alloc)?;
    Plain::new(&image, 2, 0, alloc).ok()
}

#[test]
fn a_hart_shows_what_it_waits_for(rt: HostRuntime) -> Result<(), Fail> {
    let mut machine = machine(rt.alloc()).ok_or("refused")?;
    let shown = spins_of(&mut machine, 1).ok().ok_or("no memory")?;
    let first = shown.as_slice().first().ok_or("nothing is shown")?;
    let wanted = Deed::Loaded {
        op: LoadOp::Lw,
        addr: 0x8000_1000,
        number: 0,
    };
    assert!(rt; first.deed == wanted);
    assert!(rt; shown.as_slice().len() == 1);
    Ok(())
}

#[test]
fn its_line_is_told(rt: HostRuntime) -> Result<(), Fail> {
    let mut machine = machine(rt.alloc()).ok_or("refused")?;
    let names = Symbols::none(rt.alloc());
    let mut out = Vec::new(rt.alloc());
    assert!(rt; tell_spin(&mut machine, 1, &names, &mut out).is_ok());
    assert!(rt; out.as_slice() == "h1 spins: lw 80001000 \u{2192} 0\n".as_bytes());
    Ok(())
}
