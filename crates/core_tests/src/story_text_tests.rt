//! The text of a story, by a program worked by hand from docs/FORMATS.md.

use address_labels::Labels;
use sc_machine::{Plain, Stopped, StoppedAt};
use std::alloc::Global;
use std::test::Fail;
use story_text::{StoryForm, Telling, Untold, tell_order, write_head};
use symbols::Symbols;
use test_support::{file_of, image_of};

/// `lui x6,0x80001`, `lr.w x5,(x6)`, `sc.w x7,x10,(x6)`, `ebreak`.
const RESERVING: [u32; 8] = [
    0x8000_1337,
    0x1003_22af,
    0x18a3_23af,
    0x0010_0073,
    0,
    0,
    0,
    0,
];

const TOLD: &str =
    "     h0                      h1\n     (1 step)\n1    lr.w 80001000 \u{2192} 0\n     (1 step)\n2                            lr.w 80001000 \u{2192} 0\n3                            sc.w 80001000 \u{2190} 1\n4    sc.w 80001000 fails: hart 1's sc.w at row 3 took the reservation\n5    stopped 3\n";

/// `lui x6,0x80001`, `lw x5,(x6)`, `sw x10,(x6)`, `ebreak`.
const STORING: [u32; 8] = [
    0x8000_1337,
    0x0003_2283,
    0x00a3_2023,
    0x0010_0073,
    0,
    0,
    0,
    0,
];

const LOST: &str =
    "     h0                      h1\n     (1 step)\n1    lw 80001000 \u{2192} 0\n     (1 step)\n2                            lw 80001000 \u{2192} 0\n3                            sw 80001000 \u{2190} 1\n4    sw 80001000 \u{2190} 0, lost update: hart 1's sw at row 3 came after the read at row 1\n";

fn machine(alloc: Global) -> Option<Plain> {
    machine_of(&RESERVING, alloc)
}

fn machine_of(words: &[u32; 8], alloc: Global) -> Option<Plain> {
    let file = file_of(words, 0, alloc).ok()?;
    let image = image_of(&file, 8192, alloc)?;
    Plain::new(&image, 2, 8, alloc).ok()
}

/// What is told of an order, and why it isn't told to its end.
fn told(machine: &mut Plain, order: &[u8], alloc: Global) -> (Vec<u8>, Option<Untold>) {
    let names = Symbols::none(alloc);
    let form = StoryForm {
        harts: machine.harts(),
        all: false,
        names: &names,
        labels: Labels::none(),
    };
    let mut out = Vec::new(alloc);
    let untold = tell_order(machine, order, &form, &mut out).err();
    (out, untold)
}

#[test]
fn an_order_is_told(rt: HostRuntime) -> Result<(), Fail> {
    let mut machine = machine(rt.alloc()).ok_or("refused")?;
    let (text, untold) = told(&mut machine, &[0, 0, 1, 1, 1, 0, 0], rt.alloc());
    assert!(rt; untold.is_none());
    assert!(rt; text.as_slice() == TOLD.as_bytes());
    Ok(())
}

#[test]
fn a_lost_update_is_told(rt: HostRuntime) -> Result<(), Fail> {
    let mut machine = machine_of(&STORING, rt.alloc()).ok_or("refused")?;
    let (text, untold) = told(&mut machine, &[0, 0, 1, 1, 1, 0], rt.alloc());
    assert!(rt; untold.is_none());
    assert!(rt; text.as_slice() == LOST.as_bytes());
    Ok(())
}

#[test]
fn a_refused_step_is_told_by_its_place(rt: HostRuntime) -> Result<(), Fail> {
    let mut machine = machine(rt.alloc()).ok_or("refused")?;
    let (_, untold) = told(&mut machine, &[0, 0, 2], rt.alloc());
    let wanted = StoppedAt {
        index: 2,
        why: Stopped::NoHart,
    };
    assert!(rt; untold == Some(Untold::Step(wanted)));
    Ok(())
}

#[test]
fn steps_are_told_one_by_one(rt: HostRuntime) -> Result<(), Fail> {
    let machine = machine(rt.alloc()).ok_or("refused")?;
    let names = Symbols::none(rt.alloc());
    let form = StoryForm {
        harts: 2,
        all: true,
        names: &names,
        labels: Labels::none(),
    };
    let mut out = Vec::new(rt.alloc());
    let mut telling = Telling::new();
    assert!(rt; write_head(&form, &mut out).is_ok());
    assert!(rt; machine.harts() == 2);
    assert!(rt; telling.tell(&machine, 1, &form, &mut out).is_ok());
    assert!(rt; telling.finish(&mut out).is_ok());
    let wanted = "     h0                      h1\n1                            lui x6,0x80001\n";
    assert!(rt; out.as_slice() == wanted.as_bytes());
    Ok(())
}
