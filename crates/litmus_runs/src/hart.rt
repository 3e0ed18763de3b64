//! One hart on its way through its steps, which is given the numbers that it reads. What an instruction computes and
//! what it does is `rv_execute`'s to say.

ghost use Rattle.std.specs.Prelude.{◌≡◌, ◌<◌, ℕ, true, All, Contains, length, IfOk, IfSome, slice_index};
ghost use Rattle.litmus_tests.specs.WellFormed.{is_straight};
ghost use Rattle.litmus_runs.specs.Steps.{behind_branch, op_of, HasExecuted, HasGoneOn, HasTaken};
ghost use Rattle.litmus_runs.specs.Ways.{started, IsAtStart, MayFind};
ghost use Rattle.litmus_runs.specs.AllWays.{IsPlainAt};

use crate::access::Access;
use crate::finding::{Found, all_found};
use crate::known::Known;
use crate::made::{access_of, reserving, with_made};
use crate::number::word_of;
use crate::registers::{computed_by, read_register, write_register};
use crate::reservation::reservation_after;
use litmus_tests::{LitmusStep, RegisterStart, Thread};
use rv_execute::{effect_of, is_taken};
use rv_instr::{BranchOp, Instr, Op};
use std::alloc::{AllocError, Global};

/// A hart at a step.
#[derive(Drop)]
pub(crate) struct Hart {
    pub registers: [u32; 32],
    pub accesses: Vec<Access>,
    /// The next step, by its index.
    pub next: usize,
    /// The address of the word that it has reserved.
    pub reserved: Option<u32>,
    /// Which of its accesses was the last load-reserved.
    pub reserving: usize,
}

impl Hart {
    pub fn new(thread: &Thread, alloc: Global) -> Hart
        ensures start { IsAtStart thread.now result }
        ensures size { length result.registers ≡ 32 }
    {
        let mut registers = [0_u32; 32];
        write_starts(&mut registers, thread.starts.as_slice());
        Hart {
            registers,
            accesses: Vec::new(alloc),
            next: 0,
            reserved: None,
            reserving: 0,
        }
    }

    /// All that it may find at a step; none where it accesses something else than the word of a location.
    pub fn all_found(
        &self,
        step: LitmusStep,
        known: &Known,
        alloc: Global,
    ) -> Result<Option<Vec<Found>>, AllocError>
        ensures each { IfOk result (λ found. IfSome found (λ all.
            All (MayFind known.now.held.items step self.now) all.items)) }
        ensures all { IfOk result (λ found. IfSome found (λ all. (one : Found)
            → MayFind known.now.held.items step self.now one → IsPlainAt step self.now one
            → Contains all.items one)) }
    {
        let op = op_of(step);
        let address = computed_by(op, &self.registers).addr;
        all_found(op, address, self.reserved, known, alloc)
    }

    /// The hart behind a step, in which it finds that. None where it can't be followed: it is no step of a litmus test,
    /// or the hart has made all accesses that it may.
    pub fn behind(
        &self,
        step: LitmusStep,
        found: Found,
        alloc: Global,
    ) -> Result<Option<Hart>, AllocError>
        ensures taken { IfOk result (λ next. IfSome next (HasTaken step found self.now)) }
        ensures size { IfOk result (λ next. IfSome next (λ hart. length hart.registers ≡ 32)) }
    {
        match step {
            LitmusStep::Straight(instr) => self.executed(instr, found, alloc),
            LitmusStep::Fence(_) => self.executed(Instr::Fence, found, alloc),
            LitmusStep::Constant { register, value } => {
                let mut registers = self.registers;
                write_register(&mut registers, register, Some(value));
                let next = self.next.saturating_add(1);
                Ok(Some(self.going_on(registers, next, alloc)?))
            }
            LitmusStep::Branch {
                op,
                left,
                right,
                target,
            } => {
                let (a, b) = (
                    read_register(&self.registers, left),
                    read_register(&self.registers, right),
                );
                let next = behind_branch(op, a, b, target, self.next);
                Ok(Some(self.going_on(self.registers, next, alloc)?))
            }
        }
    }

    /// The hart behind an instruction that finds that.
    fn executed(
        &self,
        instr: Instr,
        found: Found,
        alloc: Global,
    ) -> Result<Option<Hart>, AllocError>
        ensures executed { IfOk result (λ next. IfSome next (HasExecuted instr found self.now)) }
        ensures size { IfOk result (λ next. IfSome next (λ hart. length hart.registers ≡ 32)) }
    {
        if !is_straight(instr) {
            return Ok(None);
        }
        let op = Op::Known(instr);
        let computed = computed_by(op, &self.registers);
        let address = computed.addr;
        let effect = effect_of(op, computed, found.number, found.held);
        let access = access_of(op, found, effect.write, self.next, self.reserving);
        let Some(accesses) = with_made(self.accesses.as_slice(), access, alloc)? else {
            return Ok(None);
        };
        let mut registers = self.registers;
        write_register(&mut registers, op.destination(), effect.value);
        Ok(Some(Hart {
            registers,
            accesses,
            next: self.next.saturating_add(1),
            reserved: reservation_after(op, address, effect, self.reserved),
            reserving: reserving(op, self.reserving, self.accesses.len()),
        }))
    }

    /// The hart behind a step that accesses no memory.
    fn going_on(&self, registers: [u32; 32], next: usize, alloc: Global) -> Result<Hart, AllocError>
        ensures registers { IfOk result (λ hart. hart.registers ≡ registers) }
        ensures going { IfOk result (HasGoneOn next self.now) }
    {
        Ok(Hart {
            registers,
            accesses: self.accesses.as_slice().to_vec(alloc)?,
            next,
            reserved: self.reserved,
            reserving: self.reserving,
        })
    }
}

/// Writes the numbers that registers hold at the start, the last one of each.
fn write_starts(registers: &mut [u32; 32], starts: &[RegisterStart])
    ensures { (r : ℕ) → r < 32 → slice_index registers.new r
        ≡ started starts.now r (slice_index registers.old r) }
{
    let [start, rest @ ..] = starts else {
        return;
    };
    write_register(registers, start.register, Some(word_of(start.value)));
    write_starts(registers, rest);
}

/// The instruction by which a step accesses memory; of a step that can't, one that doesn't.
fn op_of(step: LitmusStep) -> Op
    ensures { result ≡ op_of step }
{
    match step {
        LitmusStep::Straight(instr) => Op::Known(instr),
        LitmusStep::Constant { .. } | LitmusStep::Branch { .. } | LitmusStep::Fence(_) => {
            Op::Known(Instr::Fence)
        }
    }
}

/// The step behind a branch.
fn behind_branch(op: BranchOp, left: u32, right: u32, target: usize, next: usize) -> usize
    ensures { result ≡ behind_branch op left right target next }
{
    if is_taken(op, left, right) {
        return target;
    }
    next.saturating_add(1)
}

/// Whether the hart goes on behind it, and nothing that it computes depends on where it stands.
fn is_straight(instr: Instr) -> bool
    ensures { result ≡ is_straight instr }
{
    !matches!(
        instr,
        Instr::Auipc { .. }
            | Instr::Jal { .. }
            | Instr::Jalr { .. }
            | Instr::Branch { .. }
            | Instr::Ecall
            | Instr::Ebreak
    )
}
