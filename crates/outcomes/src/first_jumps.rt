//! The jumps by registers that a few orders of the harts meet. A search that knows them before its first pass mostly
//! needs no other one; and nothing hangs on them, as the search itself sees of each of its steps whether it jumps
//! elsewhere.

ghost use Rattle.std.specs.Prelude.{◌<◌, length, IfSome};

use decoded_code::Code;
use elf_image::Image;
use events::{Next, Record};
use live_registers::{Jump, Targets};
use rv_instr::{Instr, Op};
use sc_machine::Plain;
use std::alloc::{AllocError, Global};

/// How many orders are followed.
const ORDERS: u8 = 8;

/// How many steps of each.
const STEPS_OF_ORDER: u32 = 4_096;

/// How many jumps are noted at the most.
const MOST_JUMPS: usize = 1_024;

/// The jumps by registers that a few orders of the harts meet; none where the code may be written, as it is then not
/// known what jumps. Errors: want of memory.
pub(crate) fn first_jumps(image: &Image, harts: u8, alloc: Global) -> Result<Targets, AllocError> {
    let mut targets = Targets::none(alloc);
    if image.code_writable() || !has_jumps(image, alloc)? {
        return Ok(targets);
    }
    for number in 0..ORDERS {
        follow_order(image, harts, number, &mut targets, alloc)?;
    }
    Ok(targets)
}

/// Whether some instruction of the code jumps by a register. Errors: want of memory.
fn has_jumps(image: &Image, alloc: Global) -> Result<bool, AllocError> {
    let code = Code::new(image, alloc)?;
    for fetched in code.words.as_slice() {
        if is_jump(fetched.op) {
            return Ok(true);
        }
    }
    Ok(false)
}

/// Whether an instruction jumps by a register.
fn is_jump(op: Op) -> bool {
    matches!(op, Op::Known(Instr::Jalr { .. }))
}

/// Notes the jumps of an order by its number: the harts take turns of as many steps each as 2 to that power. Where
/// there is no such machine it notes nothing. Errors: want of memory.
fn follow_order(
    image: &Image,
    harts: u8,
    number: u8,
    targets: &mut Targets,
    alloc: Global,
) -> Result<(), AllocError>
    requires { number < 32 }
{
    let Ok(mut machine) = Plain::new(image, harts, 0, alloc) else {
        return Ok(());
    };
    let turn = 1_u32 << number;
    let mut first = number;
    for step in 0..STEPS_OF_ORDER {
        let Some(hart) = next_going(&machine, first) else {
            return Ok(());
        };
        note_step(&mut machine, hart, targets)?;
        first = if step % turn == turn - 1 {
            hart.wrapping_add(1)
        } else {
            hart
        };
    }
    Ok(())
}

/// The first hart that goes: from this one on, where behind the last comes hart 0 again. None where none goes.
fn next_going(machine: &Plain, first: u8) -> Option<u8>
    ensures { IfSome result (λ hart. hart < length machine.now.harts) }
{
    let harts = machine.harts();
    let mut hart = first % harts;
    for _tried in 0..harts {
        if machine.status(hart).is_going() {
            return Some(hart);
        }
        hart = behind(hart, harts);
    }
    None
}

/// The hart behind another one: hart 0 behind the last.
fn behind(hart: u8, harts: u8) -> u8
    requires { hart < harts }
    ensures { result < harts }
{
    if hart + 1 < harts { hart + 1 } else { 0 }
}

/// Makes the next step of a hart, and notes where it jumps, if it does. Errors: want of memory.
fn note_step(machine: &mut Plain, hart: u8, targets: &mut Targets) -> Result<(), AllocError>
    requires { hart < length machine.old.harts }
{
    let next = machine.next_step(hart);
    if let Some(jump) = jump_of(next.op, next.record) {
        note_jump(targets, jump)?;
    }
    machine.make_room()?;
    let _made = machine.step(hart);
    Ok(())
}

/// Where a step jumps by a register, if it does.
fn jump_of(op: Op, record: Record) -> Option<Jump> {
    match record.effect.next {
        Next::Pc(to) if is_jump(op) => Some(Jump {
            from: record.pc,
            to,
        }),
        Next::Pc(_) | Next::Ended(_) | Next::Stopped(_) => None,
    }
}

/// Notes a jump, unless it is noted or too many are. Errors: want of memory.
fn note_jump(targets: &mut Targets, jump: Jump) -> Result<(), AllocError> {
    if targets.jumps.len() >= MOST_JUMPS || targets.allows(jump.from, jump.to) {
        return Ok(());
    }
    targets.add(jump)
}
