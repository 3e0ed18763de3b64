//! At which instruction a hart has stopped, and why.

ghost use Rattle.std.specs.Prelude.{◌≡◌, find, if◌then◌else◌, reverse};
ghost use Rattle.reports.specs.Ends.{is_last_of};

use elf_image::RAM_START;
use events::{Cause, Record};
use rv_decode::decode_op;
use rv_instr::{Instr, Op};
use smt_core::Core;
use std::io;
use std::io::Write;

/// Writes the line of a hart that has stopped: its last retired instruction, and what that did. It
/// has written no register, so that what it read still stands.
pub(crate) fn write_stop<W: Write>(
    core: &Core,
    hart: u8,
    cause: Cause,
    out: &mut W,
) -> io::Result<()> {
    let Some(last) = last_of(core.account().records, hart) else {
        return Ok(());
    };
    write!(out, "hart {hart} stopped {cause}: ")?;
    match decode_op(last.word) {
        Op::Known(instr) => {
            write!(out, "{} at {:08x}", rv_text::print(instr, last.pc), last.pc)?;
            write_deed(core, hart, cause, instr, out)
        }
        Op::Illegal => write_illegal(last.word, last.pc, out),
        Op::NoWord => write!(out, "no word at {:08x}\n", last.pc),
    }
}

/// The last of these that is of a hart.
fn last_of(records: &[Record], hart: u8) -> Option<Record>
    ensures { result ≡ find (is_last_of hart) (reverse records.now) }
{
    let mut last = None;
    for retired in records {
        last = later(last, retired, hart);
    }
    last
}

/// This one, where it is of the hart; else the last so far.
fn later(last: Option<Record>, retired: &Record, hart: u8) -> Option<Record>
    ensures { result ≡ (if is_last_of hart retired.now then Some retired.now else last) }
{
    if retired.hart == hart {
        return Some(*retired);
    }
    last
}

fn write_illegal<W: Write>(word: Option<u32>, pc: u32, out: &mut W) -> io::Result<()> {
    let word = word.unwrap_or(0);
    write!(out, "word {word:08x} at {pc:08x} is no instruction\n")
}

/// What the instruction did.
fn write_deed<W: Write>(
    core: &Core,
    hart: u8,
    cause: Cause,
    instr: Instr,
    out: &mut W,
) -> io::Result<()> {
    match cause {
        0 => out.write_all(b" jumps to an address that isn't a multiple of 4\n"),
        4..=7 => write_access(core, hart, cause, instr, out),
        8 => write_call(core.register(hart, 17), out),
        _ => out.write_all(b"\n"),
    }
}

/// The number of an ECALL that is none.
fn write_call<W: Write>(number: Option<u32>, out: &mut W) -> io::Result<()> {
    let number = number.unwrap_or(0);
    write!(out, " has the unknown number {number}\n")
}

/// What an access did, and where.
fn write_access<W: Write>(
    core: &Core,
    hart: u8,
    cause: Cause,
    instr: Instr,
    out: &mut W,
) -> io::Result<()> {
    let address = address_of(core, hart, instr);
    let does = if cause < 6 { "reads" } else { "writes" };
    let fault = fault_text(core, cause, address);
    write!(out, " {does} at {address:08x}, {fault}\n")
}

/// The address of an access, by the registers that it read.
fn address_of(core: &Core, hart: u8, instr: Instr) -> u32 {
    let base = instr.rs1().unwrap_or(0);
    core.register(hart, base)
        .unwrap_or(0)
        .wrapping_add(offset_of(instr))
}

fn offset_of(instr: Instr) -> u32 {
    match instr {
        Instr::Load { offset, .. } => offset.cast_unsigned(),
        Instr::Store { offset, .. } => offset.cast_unsigned(),
        _ => 0,
    }
}

fn fault_text(core: &Core, cause: Cause, address: u32) -> &'static str {
    if cause % 2 == 0 {
        return "misaligned";
    }
    if is_in_ram(core, address) {
        "in the code"
    } else {
        "outside RAM"
    }
}

/// Whether the byte at an address is in RAM.
fn is_in_ram(core: &Core, address: u32) -> bool {
    let image = core.memory().image();
    address.wrapping_sub(RAM_START) < image.ram().bytes()
}
