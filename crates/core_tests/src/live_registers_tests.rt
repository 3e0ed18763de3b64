//! Live registers of small programs, by hand from the ISA.

use crate::rows::holds;
use decoded_code::Code;
use live_registers::{Jump, LiveTable, Targets};
use std::alloc::Global;
use test_support::{file_of, image_of};

/// `addi x10,x0,5`, `addi x17,x0,93`, `ecall`.
static EXIT: [u32; 3] = [0x0050_0513, 0x05d0_0893, 0x0000_0073];

/// `beq x5,x6,8`, `addi x10,x0,1`, `ecall`: the branch goes to the ECALL.
static BRANCH: [u32; 3] = [0x0062_8463, 0x0010_0513, 0x0000_0073];

/// `jalr x0,0(x1)`.
static RETURN: [u32; 1] = [0x0000_8067];

/// `jalr x0,0(x1)`, `addi x10,x0,5`, `ecall`.
static RETURNING: [u32; 3] = [0x0000_8067, 0x0050_0513, 0x0000_0073];

/// From its JALR to the instruction behind it, and to its ECALL.
static TO_NEXT: [Jump; 1] = [Jump {
    from: 0x8000_0000,
    to: 0x8000_0004,
}];

static TO_ECALL: [Jump; 1] = [Jump {
    from: 0x8000_0000,
    to: 0x8000_0008,
}];

/// `lr.w x5,(x6)`, `addi x10,x0,1`, `sc.w x7,x5,(x6)`, `ecall`.
static RESERVE: [u32; 4] = [0x1003_22af, 0x0010_0513, 0x1853_23af, 0x0000_0073];

/// A program, a pc, a register, and whether it is live there.
type LiveRow = (&'static [u32], u32, u8, bool);

fn rows() -> [LiveRow; 12] {
    [
        (&EXIT, 0x8000_0008, 10, true),
        (&EXIT, 0x8000_0008, 17, true),
        (&EXIT, 0x8000_0008, 5, false),
        (&EXIT, 0x8000_0004, 10, true),
        (&EXIT, 0x8000_0004, 17, false),
        (&EXIT, 0x8000_0000, 10, false),
        (&EXIT, 0x8000_000c, 10, false),
        (&BRANCH, 0x8000_0000, 5, true),
        (&BRANCH, 0x8000_0000, 10, true),
        (&BRANCH, 0x8000_0004, 10, false),
        (&BRANCH, 0x8000_0004, 6, false),
        (&RETURN, 0x8000_0000, 31, true),
    ]
}

/// The table with these jumps, where there is memory for it.
fn targets_of(jumps: &[Jump], alloc: Global) -> Option<Targets> {
    let mut targets = Targets::none(alloc);
    for jump in jumps {
        targets.add(*jump).ok()?;
    }
    Some(targets)
}

/// The table of a program, whose segment has these flags, where there is memory for it.
fn table_of(words: &[u32], flags: u8, targets: &Targets, alloc: Global) -> Option<LiveTable> {
    let mut file = file_of(words, 0, alloc).ok()?;
    if let Some(byte) = file.get_mut(76) {
        *byte = flags;
    }
    let image = image_of(file.as_slice(), 65536, alloc)?;
    let code = Code::new(&image, alloc).ok()?;
    LiveTable::of(&image, &code, targets, alloc).ok()
}

/// Whether a register of a program, whose segment has these flags, is live at a pc, where there is memory for the
/// answer. Its jumps by registers may go anywhere.
fn is_live(words: &[u32], flags: u8, pc: u32, register: u8, alloc: Global) -> Option<bool> {
    let table = table_of(words, flags, &Targets::anywhere(alloc), alloc)?;
    if register < 32 {
        Some(table.is_live(pc, register))
    } else {
        None
    }
}

#[test]
fn a_register_is_live_where_it_may_be_read_before_it_is_written(rt: HostRuntime) {
    for (words, pc, register, live) in &rows() {
        let found = is_live(words, 5, *pc, *register, rt.alloc());
        holds(&rt, "live", found == Some(*live));
    }
}

/// Jumps, a register, and whether it is live at the JALR if there are these jumps alone.
type TargetRow = (&'static [Jump], u8, bool);

fn target_rows() -> [TargetRow; 8] {
    [
        (&TO_NEXT, 1, true),
        (&TO_NEXT, 10, false),
        (&TO_NEXT, 17, true),
        (&TO_NEXT, 31, false),
        (&TO_ECALL, 10, true),
        (&TO_ECALL, 31, false),
        (&[], 1, true),
        (&[], 17, false),
    ]
}

/// Whether a register is live at the JALR with these jumps alone, where there is memory for the answer.
fn is_live_by(jumps: &[Jump], register: u8, alloc: Global) -> Option<bool> {
    let targets = targets_of(jumps, alloc)?;
    let table = table_of(&RETURNING, 5, &targets, alloc)?;
    if register < 32 {
        Some(table.is_live(0x8000_0000, register))
    } else {
        None
    }
}

// ECALL reads x10 and x17; the instruction before it writes x10.
#[test]
fn a_register_is_live_behind_a_jump_where_a_listed_target_reads_it(rt: HostRuntime) {
    for (jumps, register, live) in &target_rows() {
        let found = is_live_by(jumps, *register, rt.alloc());
        holds(&rt, "live", found == Some(*live));
    }
}

/// Whether a table with one jump allows that, the way back, and another from there; where there is memory for it.
fn allowed(alloc: Global) -> Option<[bool; 3]> {
    let targets = targets_of(&TO_NEXT, alloc)?;
    Some([
        targets.allows(0x8000_0000, 0x8000_0004),
        targets.allows(0x8000_0004, 0x8000_0000),
        targets.allows(0x8000_0000, 0x8000_0008),
    ])
}

#[test]
fn a_table_of_targets_allows_its_jumps(rt: HostRuntime) {
    holds(
        &rt,
        "listed",
        allowed(rt.alloc()) == Some([true, false, false]),
    );
    holds(&rt, "none", !Targets::none(rt.alloc()).allows(1, 2));
    holds(&rt, "anywhere", Targets::anywhere(rt.alloc()).allows(1, 2));
}

// Another hart may write any instruction, and a jump may lead anywhere.
#[test]
fn all_are_live_where_the_code_may_be_written(rt: HostRuntime) {
    let unread = is_live(&EXIT, 7, 0x8000_0008, 5, rt.alloc());
    holds(&rt, "unread", unread == Some(true));
    let behind = is_live(&EXIT, 7, 0x8000_000c, 10, rt.alloc());
    holds(&rt, "behind", behind == Some(true));
}

/// A program, a pc, and whether a reservation is kept there.
type KeptRow = (&'static [u32], u32, bool);

fn kept_rows() -> [KeptRow; 7] {
    [
        (&RESERVE, 0x8000_0000, false),
        (&RESERVE, 0x8000_0004, true),
        (&RESERVE, 0x8000_0008, true),
        (&RESERVE, 0x8000_000c, false),
        (&RESERVE, 0x8000_0010, false),
        (&BRANCH, 0x8000_0000, false),
        (&RETURN, 0x8000_0000, true),
    ]
}

/// Whether a reservation of a program is kept at a pc, where there is memory for the answer.
fn is_kept(words: &[u32], pc: u32, alloc: Global) -> Option<bool> {
    let table = table_of(words, 5, &Targets::anywhere(alloc), alloc)?;
    Some(table.is_kept(pc))
}

// LR makes a new one, SC uses it, and leaves none; a jump may lead to an SC anywhere.
#[test]
fn a_reservation_is_kept_where_a_store_conditional_may_use_it(rt: HostRuntime) {
    for (words, pc, kept) in &kept_rows() {
        let found = is_kept(words, *pc, rt.alloc());
        holds(&rt, "kept", found == Some(*kept));
    }
}
