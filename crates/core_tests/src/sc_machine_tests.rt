//! The plain machine, by programs worked by hand from the ISA's chapters "RV32I" and "A".

use events::{Effect, Next, Record};
use sc_machine::{Plain, PlainRefused, Stopped, StoppedAt};
use shared_memory::{AccessKind, Memory};
use smt_core::Status;
use std::alloc::Global;
use std::test::Fail;
use test_support::{EXIT_WITH_5, PATCHED, file_of, image_of, writable_file_of};

/// The machine of a program's file, with 8192 bytes of RAM.
fn machine_of(alloc: Global, file: &[u8], harts: u8, room: usize) -> Option<Plain> {
    let image = image_of(file, 8192, alloc)?;
    Plain::new(&image, harts, room, alloc).ok()
}

/// The machine of a program of eight words.
fn machine(alloc: Global, words: &[u32; 8], harts: u8, room: usize) -> Option<Plain> {
    let file = file_of(words, 0, alloc).ok()?;
    machine_of(alloc, &file, harts, room)
}

/// The word at an address, where it can be read.
fn word_at(memory: &Memory, addr: u32) -> Option<u32> {
    match memory.fault(addr, 4, AccessKind::Load) {
        Some(_) => None,
        None => Some(memory.read(addr, 4)),
    }
}

/// How a hart stands, its pc, and its x5 to x11; none where there is no such hart.
fn seen(machine: &Plain, hart: u8) -> Option<(Status, u32, [u32; 7])> {
    if hart >= machine.harts() {
        return None;
    }
    let registers = machine.registers(hart);
    let some = [
        registers[5],
        registers[6],
        registers[7],
        registers[8],
        registers[9],
        registers[10],
        registers[11],
    ];
    Some((machine.status(hart), machine.pc(hart), some))
}

/// The record of a step: its hart, pc and word, and the fields of its effect; or the number of why
/// there is none.
fn fields_of(step: Result<Record, Stopped>) -> Result<(u8, u32, Option<u32>, Effect), u8> {
    match step {
        Ok(record) => Ok((record.hart, record.pc, record.word, record.effect)),
        Err(why) => Err(why.number()),
    }
}

/// The effect of an instruction that gives a number, where there is one, and goes on or ends.
fn effect(value: Option<u32>, next: Next) -> Effect {
    Effect {
        value,
        next,
        write: None,
        out: None,
    }
}

#[test]
fn a_step_is_one_whole_instruction(rt: HostRuntime) -> Result<(), Fail> {
    let mut machine = machine_of(rt.alloc(), &EXIT_WITH_5, 2, 0).ok_or("refused")?;
    let start = seen(&machine, 1);
    let first = fields_of(machine.step(1));
    let second = fields_of(machine.step(1));
    let last = fields_of(machine.step(1));
    let after = [fields_of(machine.step(1)), fields_of(machine.step(2))];
    let end = seen(&machine, 1);
    let behind = effect(Some(5), Next::Pc(0x8000_0004));
    assert!(rt; start == Some((Status::Going, 0x8000_0000, [0, 0, 0, 0, 0, 1, 2])));
    assert!(rt; first == Ok((1, 0x8000_0000, Some(0x0050_0513), behind)));
    let behind = effect(Some(93), Next::Pc(0x8000_0008));
    assert!(rt; second == Ok((1, 0x8000_0004, Some(0x05d0_0893), behind)));
    let ended = effect(None, Next::Ended(5));
    assert!(rt; last == Ok((1, 0x8000_0008, Some(0x0000_0073), ended)));
    assert!(rt; after == [Err(1), Err(3)]);
    assert!(rt; end == Some((Status::Ended(5), 0x8000_0008, [0, 0, 0, 0, 0, 5, 2])));
    Ok(())
}

/// `lui x5,0x80001`, `lr.w x6,(x5)`, `addi x6,x6,1`, `sc.w x7,x6,(x5)`, `addi x10,x7,0`,
/// `addi x17,x0,93`, `ecall`.
static COUNT: [u32; 8] = [
    0x8000_12b7,
    0x1002_a32f,
    0x0013_0313,
    0x1862_a3af,
    0x0003_8513,
    0x05d0_0893,
    0x0000_0073,
    0,
];

#[test]
fn one_of_two_conditional_stores_writes(rt: HostRuntime) -> Result<(), Fail> {
    let mut machine = machine(rt.alloc(), &COUNT, 2, 0).ok_or("refused")?;
    let ran = machine.run(&[0, 1, 0, 1, 0, 0, 1, 1, 0, 0, 0, 1, 1, 1]);
    let more = machine.run(&[1]);
    let first = seen(&machine, 0);
    let second = seen(&machine, 1);
    let word = word_at(machine.memory(), 0x8000_1000);
    assert!(rt; ran == Ok(()) && word == Some(1));
    assert!(rt;
        more == Err(StoppedAt {
            index: 0,
            why: Stopped::NotGoing
        })
    );
    let registers = [0x8000_1000, 1, 0, 0, 0, 0, 2];
    assert!(rt; first == Some((Status::Ended(0), 0x8000_0018, registers)));
    let registers = [0x8000_1000, 1, 1, 0, 0, 1, 2];
    assert!(rt; second == Some((Status::Ended(1), 0x8000_0018, registers)));
    Ok(())
}

/// `lui x5,0x80001`, `addi x6,x0,-128`, `sb x6,1(x5)`, `lb x7,1(x5)`, `amoadd.w x8,x6,(x5)`,
/// `lw x9,0(x5)`, `lw x5,2(x5)`.
static BYTES: [u32; 8] = [
    0x8000_12b7,
    0xf800_0313,
    0x0062_80a3,
    0x0012_8383,
    0x0062_a42f,
    0x0002_a483,
    0x0022_a283,
    0,
];

#[test]
fn memory_is_read_and_written_in_order(rt: HostRuntime) -> Result<(), Fail> {
    let mut machine = machine(rt.alloc(), &BYTES, 1, 0).ok_or("refused")?;
    let ran = machine.run(&[0, 0, 0, 0, 0, 0, 0, 0]);
    let seen = seen(&machine, 0);
    let word = word_at(machine.memory(), 0x8000_1000);
    assert!(rt;
        ran == Err(StoppedAt {
            index: 7,
            why: Stopped::NotGoing
        })
    );
    let registers = [0x8000_1000, 0xffff_ff80, 0xffff_ff80, 0x8000, 0x7f80, 0, 1];
    assert!(rt; seen == Some((Status::Stopped(4), 0x8000_0018, registers)));
    assert!(rt; word == Some(0x7f80));
    Ok(())
}

#[test]
fn a_word_is_executed_as_it_stands_in_memory(rt: HostRuntime) -> Result<(), Fail> {
    let file = writable_file_of(&PATCHED, rt.alloc())?;
    let mut machine = machine_of(rt.alloc(), &file, 1, 0).ok_or("refused")?;
    let before = machine.run(&[0, 0, 0, 0]);
    let patched = fields_of(machine.step(0));
    let after = machine.run(&[0, 0]);
    let seen = seen(&machine, 0);
    let behind = effect(Some(9), Next::Pc(0x8000_0014));
    assert!(rt; before == Ok(()) && after == Ok(()));
    assert!(rt; patched == Ok((0, 0x8000_0010, Some(0x0090_0513), behind)));
    let registers = [0x0090_0513, 0x8000_0000, 0, 0, 0, 9, 1];
    assert!(rt; seen == Some((Status::Ended(9), 0x8000_0018, registers)));
    Ok(())
}

#[test]
fn code_that_may_not_be_written_stops_the_store(rt: HostRuntime) -> Result<(), Fail> {
    let mut machine = machine(rt.alloc(), &PATCHED, 1, 0).ok_or("refused")?;
    let ran = machine.run(&[0, 0, 0]);
    let seen = seen(&machine, 0);
    let registers = [0x0090_0513, 0x8000_0000, 0, 0, 0, 0, 1];
    assert!(rt; ran == Ok(()));
    assert!(rt; seen == Some((Status::Stopped(7), 0x8000_0008, registers)));
    Ok(())
}

/// `addi x10,x0,0x41`, `addi x17,x0,1`, `ecall`, `ecall`.
static PUT: [u32; 8] = [
    0x0410_0513,
    0x0010_0893,
    0x0000_0073,
    0x0000_0073,
    0,
    0,
    0,
    0,
];

#[test]
fn a_byte_without_room_is_refused(rt: HostRuntime) -> Result<(), Fail> {
    let mut machine = machine(rt.alloc(), &PUT, 1, 1).ok_or("refused")?;
    let ran = machine.run(&[0, 0, 0, 0]);
    let stands = seen(&machine, 0);
    assert!(rt;
        ran == Err(StoppedAt {
            index: 3,
            why: Stopped::OutputFull
        })
    );
    assert!(rt; machine.output() == [0x41].as_slice() && machine.room() == 1);
    let registers = [0, 0, 0, 0, 0, 0x41, 1];
    assert!(rt; stands == Some((Status::Going, 0x8000_000c, registers)));
    Ok(())
}

/// Why there is no machine of so many harts.
fn refusal(alloc: Global, harts: u8) -> Option<PlainRefused> {
    let image = image_of(&EXIT_WITH_5, 8192, alloc)?;
    Plain::new(&image, harts, 0, alloc).err()
}

#[test]
fn the_last_of_sixteen_harts_knows_its_number(rt: HostRuntime) -> Result<(), Fail> {
    let machine = machine_of(rt.alloc(), &EXIT_WITH_5, 16, 0).ok_or("refused")?;
    let registers = [0, 0, 0, 0, 0, 15, 16];
    assert!(rt; seen(&machine, 15) == Some((Status::Going, 0x8000_0000, registers)));
    assert!(rt; seen(&machine, 16).is_none());
    Ok(())
}

#[test]
fn there_are_one_to_sixteen_harts(rt: HostRuntime) {
    let refused = [
        refusal(rt.alloc(), 0),
        refusal(rt.alloc(), 1),
        refusal(rt.alloc(), 16),
        refusal(rt.alloc(), 17),
    ];
    assert!(rt;
        refused
            == [
                Some(PlainRefused::Harts),
                None,
                None,
                Some(PlainRefused::Harts)
            ]
    );
}
