//! Stories of orders, by programs worked by hand from docs/FORMATS.md.

use elf_image::Image;
use rv_instr::{LoadOp, StoreOp};
use rv_word::AmoKind;
use sc_machine::Plain;
use std::alloc::Global;
use std::test::Fail;
use stories::{
    Deed, Note, Recent, Row, Span, Teller, deed_of, read_span, row_of, step_of, written_span,
};
use test_support::{file_of, image_of};

/// `lui x6,0x80001`, `lr.w x5,(x6)`, `sc.w x7,x10,(x6)`, `amoadd.w x8,x11,(x6)`, `ebreak`.
const RESERVING: [u32; 8] = [
    0x8000_1337,
    0x1003_22af,
    0x18a3_23af,
    0x00b3_242f,
    0x0010_0073,
    0,
    0,
    0,
];

fn image_of_words(alloc: Global, words: &[u32; 8]) -> Option<Image> {
    let file = file_of(words, 0, alloc).ok()?;
    image_of(&file, 8192, alloc)
}

fn machine_of(alloc: Global, words: &[u32; 8], harts: u8) -> Option<Plain> {
    let image = image_of_words(alloc, words)?;
    Plain::new(&image, harts, 8, alloc).ok()
}

/// What a hart's next step shows, which is made then.
fn made(machine: &mut Plain, hart: u8) -> Option<Deed> {
    if hart >= machine.harts() {
        return None;
    }
    let shown = deed_of(machine, hart);
    let _ = machine.step(hart);
    shown
}

#[test]
fn a_step_shows_what_memory_has_before_it(rt: HostRuntime) -> Result<(), Fail> {
    let mut machine = machine_of(rt.alloc(), &RESERVING, 2).ok_or("refused")?;
    let addr = 0x8000_1000;
    let rows = [
        (0, None),
        (0, Some(Deed::Reserved { addr, number: 0 })),
        (1, None),
        (1, Some(Deed::Reserved { addr, number: 0 })),
        (1, Some(Deed::Conditional { addr, number: 1 })),
        (0, Some(Deed::Failed { addr })),
        (
            0,
            Some(Deed::Atomic {
                kind: AmoKind::Add,
                addr,
                old: 1,
                new: 3,
            }),
        ),
        (
            1,
            Some(Deed::Atomic {
                kind: AmoKind::Add,
                addr,
                old: 3,
                new: 5,
            }),
        ),
        (0, Some(Deed::Stopped(3))),
    ];
    for (hart, wanted) in &rows {
        assert!(rt; made(&mut machine, *hart) == *wanted);
    }
    Ok(())
}

#[test]
fn the_first_write_takes_a_reservation(rt: HostRuntime) -> Result<(), Fail> {
    let machine = machine_of(rt.alloc(), &RESERVING, 2).ok_or("refused")?;
    let step = step_of(&machine, 0);
    assert!(rt; row_of(1, &step).is_none());
    let addr = 0x8000_1000;
    let deeds = [
        (0, Deed::Reserved { addr, number: 0 }),
        (
            1,
            Deed::Conditional {
                addr: addr + 4,
                number: 0,
            },
        ),
        (1, Deed::Conditional { addr, number: 1 }),
        (1, Deed::Conditional { addr, number: 2 }),
    ];
    let mut teller = Teller::new();
    assert!(rt; teller.taker(0, addr).is_none());
    let mut number = 0u64;
    for (hart, deed) in &deeds {
        number = number.wrapping_add(1);
        teller.hear(&Row {
            number,
            hart: *hart,
            pc: 0,
            deed: *deed,
        });
    }
    let taken = teller.taker(0, addr).ok_or("not taken")?;
    assert!(rt; taken.number == 3 && taken.hart == 1);
    assert!(rt; teller.taker(0, addr + 4).is_none());
    assert!(rt; teller.taker(1, addr).is_none());
    Ok(())
}

/// The numbers of the rows that a note names as the read and the write.
fn rows_named(note: Option<Note>) -> Option<(u64, u64)> {
    match note {
        Some(Note::Overwrites { read, write }) => Some((read.number, write.number)),
        Some(Note::Again { read, write }) => Some((read.number, write.number)),
        _ => None,
    }
}

/// How many bytes these are; 0 where there are none.
fn size_of(span: Option<Span>) -> u8 {
    match span {
        Some(span) => span.size,
        None => 0,
    }
}

#[test]
fn a_step_reads_or_writes_what_its_instruction_names(rt: HostRuntime) {
    let addr = 0x8000_1000;
    let rows = [
        (
            Deed::Loaded {
                op: LoadOp::Lhu,
                addr,
                number: 5,
            },
            2,
            0,
        ),
        (Deed::Reserved { addr, number: 5 }, 4, 0),
        (
            Deed::Stored {
                op: StoreOp::Sb,
                addr,
                number: 5,
            },
            0,
            1,
        ),
        (Deed::Conditional { addr, number: 5 }, 0, 4),
        (Deed::Failed { addr }, 0, 0),
    ];
    for (deed, read, written) in rows {
        assert!(rt; size_of(read_span(&deed)) == read);
        assert!(rt; size_of(written_span(&deed)) == written);
    }
}

#[test]
fn rows_name_lost_updates_and_an_aba(rt: HostRuntime) -> Result<(), Fail> {
    let addr = 0x8000_1000;
    let read = Deed::Reserved { addr, number: 5 };
    let written = Deed::Conditional { addr, number: 6 };
    let byte = Deed::Stored {
        op: StoreOp::Sb,
        addr: addr + 1,
        number: 0,
    };
    let word = Deed::Loaded {
        op: LoadOp::Lw,
        addr: addr + 4,
        number: 0,
    };
    let deeds = [(0, read), (0, word), (1, written), (1, byte)];
    let mut recent = Recent::new();
    assert!(rt; rows_named(recent.note_of(0, &byte)).is_none());
    let mut number = 0u64;
    for (hart, deed) in &deeds {
        number = number.wrapping_add(1);
        recent.hear(&Row {
            number,
            hart: *hart,
            pc: 0,
            deed: *deed,
        });
    }
    let other = Deed::Reserved { addr, number: 6 };
    let beside = Deed::Stored {
        op: StoreOp::Sb,
        addr,
        number: 0,
    };
    let behind = Deed::Stored {
        op: StoreOp::Sw,
        addr: addr + 4,
        number: 0,
    };
    let rows = [
        (0, read, Some((1, 4))),
        (0, other, None),
        (0, byte, Some((1, 4))),
        (0, beside, Some((1, 3))),
        (0, behind, None),
        (1, byte, None),
        (0, written, None),
    ];
    for (hart, deed, wanted) in &rows {
        assert!(rt; rows_named(recent.note_of(*hart, deed)) == *wanted);
    }
    Ok(())
}
