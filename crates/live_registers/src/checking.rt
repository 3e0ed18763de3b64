//! When a table is good: a register is live wherever it may be read before it is written, and a reservation is kept
//! wherever an SC may use it.

ghost use Rattle.std.specs.Prelude.{◌≡◌, ◌<◌, ◌+◌, ◌*◌, ℕ, true, false, ◌==◌, ◌&&◌, length, IfSome};
ghost use Rattle.rv_instr.specs.Kinds.{destination, kind_of};
ghost use Rattle.std.specs.List.{list_any};
ghost use Rattle.outcome_laws.specs.Tables.{reads_register, is_conditional, replaces_reservation};
ghost use Rattle.live_registers.specs.Onward.{goes, goes_on_at};
ghost use Rattle.live_registers.specs.Targets.{allows};
ghost use Rattle.live_registers.specs.Table.{live_of, kept_of, IsGoodRow, IsKeptRow};
ghost use Rattle.live_registers.specs.Table.{IsGoodAt, AreGoodBelow};

use crate::onward::{Onward, onward_of};
use crate::table::{LiveTable, REGISTERS, Row};
use crate::targets::Targets;
use decoded_code::Code;
use rv_instr::{Kind, Op, Reg};

/// Whether an instruction reads a register, 0 standing for one that it doesn't name.
#[tactic(auto, unfolding(rv_instr::specs::Kinds::first_source, rv_instr::specs::Kinds::second_source))]
fn reads(op: Op, register: Reg) -> bool
    ensures { result ≡ reads_register op register }
{
    op.rs1().unwrap_or(0) == register || op.rs2().unwrap_or(0) == register
}

/// Whether a register is live at some place where an instruction at a pc may go on.
fn is_live_behind(
    table: &LiveTable,
    targets: &Targets,
    onward: Onward,
    pc: u32,
    register: Reg,
) -> bool
    requires { register < 32 }
    ensures { (to : ℕ) → goes_on_at (allows targets.now) pc onward to ≡ true
        → live_of table.now to register ≡ true → result ≡ true }
{
    match onward {
        Onward::Nowhere => false,
        Onward::At(to) => table.is_live(to, register),
        Onward::AtEither(one, other) => {
            table.is_live(one, register) || table.is_live(other, register)
        }
        Onward::AsListed => targets.anywhere || is_live_at_target(table, targets, pc, register),
    }
}

/// Whether a register is live at some place where a jump by a register goes on from a pc.
fn is_live_at_target(table: &LiveTable, targets: &Targets, pc: u32, register: Reg) -> bool
    requires { register < 32 }
    ensures { result
        ≡ list_any (λ jump. jump.from == pc && live_of table.now jump.to register) targets.now.jumps.items }
{
    targets
        .jumps
        .iter()
        .any(|jump| jump.from == pc && table.is_live(jump.to, register))
}

/// Whether a register has to be live at a pc, by what is live behind it.
pub(crate) fn is_needed(
    table: &LiveTable,
    targets: &Targets,
    op: Op,
    pc: u32,
    register: Reg,
) -> bool
    requires { register < 32 }
    ensures reads { reads_register op register ≡ true → result ≡ true }
    ensures stays { (to : ℕ) → goes (allows targets.now) op pc to ≡ true
        → live_of table.now to register ≡ true → (register == destination op) ≡ false → result ≡ true }
{
    reads(op, register)
        || (register != op.destination()
            && is_live_behind(table, targets, onward_of(op, pc), pc, register))
}

/// Whether a reservation is kept at some place where an instruction at a pc may go on.
fn is_kept_behind(table: &LiveTable, targets: &Targets, onward: Onward, pc: u32) -> bool
    ensures { (to : ℕ) → goes_on_at (allows targets.now) pc onward to ≡ true → kept_of table.now to ≡ true
        → result ≡ true }
{
    match onward {
        Onward::Nowhere => false,
        Onward::At(to) => table.is_kept(to),
        Onward::AtEither(one, other) => table.is_kept(one) || table.is_kept(other),
        Onward::AsListed => targets.anywhere || is_kept_at_target(table, targets, pc),
    }
}

/// Whether a reservation is kept at some place where a jump by a register goes on from a pc.
fn is_kept_at_target(table: &LiveTable, targets: &Targets, pc: u32) -> bool
    ensures { result ≡ list_any (λ jump. jump.from == pc && kept_of table.now jump.to) targets.now.jumps.items }
{
    targets
        .jumps
        .iter()
        .any(|jump| jump.from == pc && table.is_kept(jump.to))
}

/// Whether a reservation has to be kept at a pc, by whether it is kept behind it.
pub(crate) fn is_reservation_needed(table: &LiveTable, targets: &Targets, op: Op, pc: u32) -> bool
    ensures used { is_conditional (kind_of op) ≡ true → result ≡ true }
    ensures stays { (to : ℕ) → goes (allows targets.now) op pc to ≡ true → kept_of table.now to ≡ true
        → replaces_reservation (kind_of op) ≡ false → result ≡ true }
{
    match op.kind() {
        Kind::Conditional => true,
        Kind::Reserving => false,
        Kind::Computing | Kind::Loading | Kind::Storing | Kind::Atomic => {
            is_kept_behind(table, targets, onward_of(op, pc), pc)
        }
    }
}

/// Whether the reservation is kept in this row if it has to be kept at a pc.
fn is_row_kept(table: &LiveTable, targets: &Targets, op: Op, pc: u32, row: &Row) -> bool
    ensures { result ≡ true → IsKeptRow targets.now table.now op pc row.now }
{
    row.kept || !is_reservation_needed(table, targets, op, pc)
}

/// Whether each register that has to be live at a pc is live in this row.
pub(crate) fn is_row_good(table: &LiveTable, targets: &Targets, op: Op, pc: u32, row: &Row) -> bool
    ensures { result ≡ true → IsGoodRow targets.now table.now op pc row.now }
{
    for register in 1..REGISTERS as u8 {
        if is_needed(table, targets, op, pc, register) && !row.live[usize::from(register)] {
            return false;
        }
    }
    true
}

/// Whether the table is good for a code: each of its rows is.
pub(crate) fn is_good(table: &LiveTable, targets: &Targets, code: &Code) -> bool
    ensures { result ≡ true → AreGoodBelow (length code.now.words.items) targets.now table.now code.now }
{
    let Ok(count) = u32::try_from(code.words.len()) else {
        return false;
    };
    for index in 0..count {
        if !is_good_at(table, targets, code, index) {
            return false;
        }
    }
    true
}

/// Whether the row of a word is good.
fn is_good_at(table: &LiveTable, targets: &Targets, code: &Code, index: u32) -> bool
    ensures { result ≡ true → IsGoodAt targets.now table.now code.now index }
{
    let Some(pc) = pc_at(code.start, index) else {
        return false;
    };
    let Some(fetched) = code.words.get(index as usize) else {
        return false;
    };
    let Some(row) = table.rows.get(index as usize) else {
        return false;
    };
    is_row_good(table, targets, fetched.op, pc, row)
        && is_row_kept(table, targets, fetched.op, pc, row)
}

/// The pc of a word of the code, where it is one.
fn pc_at(start: u32, index: u32) -> Option<u32>
    ensures { IfSome result (λ pc. pc ≡ start + 4 * index) }
{
    start.checked_add(index.checked_mul(4)?)
}
