//! Needless turns: a hart is back at a step as it was there before, and has changed nothing since. Without what it did
//! in between it ends alike, and each execution in which it did that is one without it, too.

ghost use Rattle.std.specs.Prelude.{◌≡◌, ◌⊎◌, ◌<◌, ℕ, [], ◌∷◌, ◌++◌, true, IfOk, count_by, slice_index};
ghost use Rattle.smt_model.specs.Basics.{same_number};
ghost use Rattle.litmus_runs.specs.Turns.{AreOfOne, IsAlike, IsOneAlike, IsStandingOf, has_conditional};
ghost use Rattle.litmus_runs.specs.Turns.{has_conditionals, is_change, is_conditional, is_operand, is_reserving, is_written_anew};

use crate::access::Access;
use crate::hart::Hart;
use litmus_tests::{LitmusStep, LitmusTest, Thread};
use numbers::Reg;
use rv_instr::{Kind, Op};
use std::alloc::{AllocError, Global};

/// How a hart stood at a step: all that its way from there depends on, and how many numbers it had changed.
#[derive(Clone, Copy, Drop)]
pub(crate) struct Standing {
    pub registers: [u32; 32],
    pub next: usize,
    pub reserved: Option<u32>,
    pub reserving: usize,
    pub changes: usize,
}

impl Standing {
    /// How a hart stands, in a test in which an SC may fail for a write that changes nothing, or in another one.
    pub fn of(hart: &Hart, has_conditionals: bool) -> Standing
        ensures { IsStandingOf has_conditionals hart.now result }
    {
        Standing {
            registers: hart.registers,
            next: hart.next,
            reserved: hart.reserved,
            reserving: hart.reserving,
            changes: count_changes(hart.accesses.as_slice(), has_conditionals),
        }
    }
}

/// These and one more.
pub(crate) fn with_standing(
    before: &[Standing],
    standing: Standing,
    alloc: Global,
) -> Result<Vec<Standing>, AllocError>
    ensures { IfOk result (λ all. all.items ≡ before.now ++ standing ∷ []) }
{
    let mut all = before.to_vec(alloc)?;
    all.push(standing)?;
    Ok(all)
}

/// Whether a hart that comes to this step has made a needless turn.
pub(crate) fn is_needless(before: &[Standing], now: &Standing, step: LitmusStep) -> bool
    ensures { result ≡ true → IsOneAlike step before.now now.now }
{
    for other in before {
        if is_alike(other, now, step) {
            return true;
        }
    }
    false
}

/// Whether it goes on from this step as it did from there, and has changed nothing in between.
fn is_alike(before: &Standing, now: &Standing, step: LitmusStep) -> bool
    ensures { result ≡ true → IsAlike step before.now now.now }
{
    before.next == now.next
        && before.changes == now.changes
        && has_same_registers(before, now, step)
        && (is_reserving(step) || has_same_reservation(before, now))
}

/// Whether each register is the same that this step doesn't write anew.
fn has_same_registers(before: &Standing, now: &Standing, step: LitmusStep) -> bool
    ensures { result ≡ true → (r : ℕ) → r < 32 → (is_written_anew step r ≡ true)
        ⊎ (slice_index before.now.registers r ≡ slice_index now.now.registers r) }
{
    for register in 0..32 {
        let is_equal = before.registers[register] == now.registers[register];
        if !is_equal && !is_written_anew(step, register) {
            return false;
        }
    }
    true
}

/// Whether a step writes a register and doesn't read it.
fn is_written_anew(step: LitmusStep, index: usize) -> bool
    ensures { result ≡ is_written_anew step index }
{
    match step {
        LitmusStep::Straight(instr) => {
            let op = Op::Known(instr);
            let is_read = is_operand(op.rs1(), index) || is_operand(op.rs2(), index);
            usize::from(op.destination()) == index && !is_read
        }
        LitmusStep::Constant { register, .. } => usize::from(register) == index,
        LitmusStep::Branch { .. } | LitmusStep::Fence(_) => false,
    }
}

fn is_operand(register: Option<Reg>, index: usize) -> bool
    ensures { result ≡ is_operand register index }
{
    match register {
        Some(register) => usize::from(register) == index,
        None => false,
    }
}

/// Whether neither has a reservation, or both have that of one load-reserved.
fn has_same_reservation(before: &Standing, now: &Standing) -> bool
    ensures { result ≡ true → AreOfOne before.now.reserved now.now.reserved before.now.reserving now.now.reserving }
{
    match (before.reserved, now.reserved) {
        (None, None) => true,
        (Some(_), Some(_)) => before.reserving == now.reserving,
        _ => false,
    }
}

/// Whether a step reserves a word, whatever was reserved before.
fn is_reserving(step: LitmusStep) -> bool
    ensures { result ≡ is_reserving step }
{
    match step {
        LitmusStep::Straight(instr) => matches!(instr.kind(), Kind::Reserving),
        _ => false,
    }
}

fn count_changes(accesses: &[Access], has_conditionals: bool) -> usize
    ensures { result ≡ count_by (is_change has_conditionals) accesses.now }
{
    let mut count = 0_usize;
    for access in accesses {
        if is_change(access, has_conditionals) {
            count = count.saturating_add(1);
        }
    }
    count
}

/// Whether an access writes another number than it reads. Where an SC may fail for it, each write counts.
fn is_change(access: &Access, has_conditionals: bool) -> bool
    ensures { result ≡ is_change has_conditionals access.now }
{
    access.writes.is_some() && (has_conditionals || !same_number(access.writes, access.reads))
}

fn same_number(left: Option<u32>, right: Option<u32>) -> bool
    ensures { result ≡ same_number left right }
{
    match (left, right) {
        (None, None) => true,
        (Some(left), Some(right)) => left == right,
        _ => false,
    }
}

/// Whether a test has a store-conditional.
pub(crate) fn has_conditionals(test: &LitmusTest) -> bool
    ensures { result ≡ has_conditionals test.now }
{
    test.threads.iter().any(|thread| has_conditional(thread))
}

fn has_conditional(thread: &Thread) -> bool
    ensures { result ≡ has_conditional thread.now }
{
    thread.steps.iter().any(|step| is_conditional(*step))
}

fn is_conditional(step: LitmusStep) -> bool
    ensures { result ≡ is_conditional step }
{
    match step {
        LitmusStep::Straight(instr) => matches!(instr.kind(), Kind::Conditional),
        _ => false,
    }
}
