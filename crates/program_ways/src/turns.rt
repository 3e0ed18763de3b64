//! Needless turns: a hart is back at an access as it was there before, and has changed nothing since. Without what it did
//! in between it ends alike, and each execution in which it did that is one without it, too.

use crate::hart::{Hart, Sharing};
use crate::own::{OwnWord, copy_of};
use litmus_runs::Access;
use numbers::Reg;
use rv_instr::{Kind, Op};
use std::alloc::{AllocError, Global};

/// How a hart stood at an access: all that its way from there depends on, and how many numbers it had changed.
#[derive(Drop)]
pub(crate) struct Standing {
    registers: [u32; 32],
    pc: u32,
    own: Vec<OwnWord>,
    reserved: Option<u32>,
    reserving: usize,
    changes: usize,
}

impl Standing {
    /// How a hart stands, in a program in which an SC may fail for a write that changes nothing, or in another one.
    pub fn of(hart: &Hart, has_conditionals: bool, alloc: Global) -> Result<Standing, AllocError> {
        Ok(Standing {
            registers: hart.state.registers,
            pc: hart.state.pc,
            own: copy_of(hart.own.as_slice(), alloc)?,
            reserved: hart.reserved,
            reserving: hart.reserving,
            changes: count_changes(hart.accesses.as_slice(), has_conditionals),
        })
    }

    pub fn copy(&self, alloc: Global) -> Result<Standing, AllocError> {
        Ok(Standing {
            registers: self.registers,
            pc: self.pc,
            own: copy_of(self.own.as_slice(), alloc)?,
            reserved: self.reserved,
            reserving: self.reserving,
            changes: self.changes,
        })
    }

    /// Whether a hart that has made no access since stands so.
    pub fn is_of(&self, hart: &Hart) -> bool {
        self.pc == hart.state.pc
            && self.registers == hart.state.registers
            && self.reserved == hart.reserved
            && self.own.as_slice() == hart.own.as_slice()
    }

    /// Whether it goes on from this access as it did from there, and has changed nothing in between.
    fn is_alike(&self, before: &Standing, sharing: &Sharing) -> bool {
        before.pc == self.pc
            && before.changes == self.changes
            && before.own.as_slice() == self.own.as_slice()
            && self.has_same_registers(before, sharing.op)
            && (sharing.op.kind() == Kind::Reserving || self.has_same_reservation(before))
    }

    /// Whether each register is the same that this instruction doesn't write anew.
    fn has_same_registers(&self, before: &Standing, op: Op) -> bool {
        for register in 0..32 {
            let is_equal = before.registers[register] == self.registers[register];
            if !is_equal && !is_written_anew(op, register) {
                return false;
            }
        }
        true
    }

    /// Whether neither has a reservation, or both have that of one load-reserved.
    fn has_same_reservation(&self, before: &Standing) -> bool {
        match (before.reserved, self.reserved) {
            (None, None) => true,
            (Some(one), Some(other)) => one == other && before.reserving == self.reserving,
            _ => false,
        }
    }
}

/// Whether a hart that comes to this access has made a needless turn.
pub(crate) fn is_needless(before: &[Standing], now: &Standing, sharing: &Sharing) -> bool {
    before.iter().any(|other| now.is_alike(other, sharing))
}

/// Whether an instruction writes a register and doesn't read it.
fn is_written_anew(op: Op, index: usize) -> bool {
    let is_read = is_same(op.rs1(), index) || is_same(op.rs2(), index);
    usize::from(op.destination()) == index && !is_read
}

fn is_same(register: Option<Reg>, index: usize) -> bool {
    match register {
        Some(register) => usize::from(register) == index,
        None => false,
    }
}

fn count_changes(accesses: &[Access], has_conditionals: bool) -> usize {
    accesses
        .iter()
        .filter(|access| is_change(access, has_conditionals))
        .count()
}

/// Whether an access writes another number than it reads. Where an SC may fail for it, each write counts.
fn is_change(access: &Access, has_conditionals: bool) -> bool {
    access.writes.is_some() && (has_conditionals || access.writes != access.reads)
}
