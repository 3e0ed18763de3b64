//! What an instruction finds in a core, as it is renamed.

ghost use Rattle.std.specs.Prelude.{◌≡◌, ◌≢◌, ◌<◌, None, Some, IfSome, IfNone, slice_get, slice_index_or};
ghost use Rattle.events.specs.declared.event.Event.TheVariants.{Rename};
ghost use Rattle.rv_instr.specs.Kinds.{first_source, second_source};
ghost use Rattle.smt_model.specs.{Basics.first, Flights.in_rename};
ghost use Rattle.smt_model.specs.Rules.{is_legal, refused};
ghost use Rattle.chart_registers.specs.Registers.{destination_by, found_by};
ghost use Rattle.chart_registers.specs.Finding.{AreHolders, IsDecoded, NoneIsDecoded, held_source, other_source};

use crate::registers::{Destination, Registers, Source};
use core_parts::{HartState, Slot};
use numbers::{Phys, Reg, Seq};
use rv_instr::Op;
use smt_core::Core;

/// What instruction `seq` finds in a core that renames it next, as `actor`, and gives it the register `phys`, or none. By
/// each physical register's number the holders have the instruction that was given it last.
pub(crate) fn registers_by(
    core: &Core,
    holders: &[Option<Seq>],
    actor: u8,
    seq: Seq,
    phys: Option<Phys>,
) -> Registers
    requires legal { is_legal core.now.setup core.now.past }
    requires allowed { refused core.now.setup core.now.past (Rename actor seq phys) ≡ None }
    requires holders { AreHolders core.now.past holders.now }
    ensures { result ≡ found_by core.now.past actor seq phys }
{
    let Some((hart, op)) = decoded(core, seq) else {
        unreachable!();
    };
    let (first, second) = (first_source(op), second_source(op));
    Registers {
        destination: destination_of(op, phys),
        sources: [
            source_of(core, holders, hart, first),
            other_source_of(core, holders, hart, first, second),
        ],
    }
}

/// The first register that an operation reads; 0 where it reads none.
#[tactic(auto, unfolding(rv_instr::specs::Kinds::first_source))]
fn first_source(op: Op) -> Reg
    ensures { result ≡ first_source op }
{
    op.rs1().unwrap_or(0)
}

/// The second register that an operation reads; 0 where it reads none.
#[tactic(auto, unfolding(rv_instr::specs::Kinds::second_source))]
fn second_source(op: Op) -> Reg
    ensures { result ≡ second_source op }
{
    op.rs2().unwrap_or(0)
}

fn destination_of(op: Op, phys: Option<Phys>) -> Option<Destination>
    ensures { result ≡ destination_by op phys }
{
    Some(Destination {
        register: op.destination(),
        physical: phys?,
    })
}

/// The second source, where it is another than the first.
fn other_source_of(
    core: &Core,
    holders: &[Option<Seq>],
    hart: u8,
    first: Reg,
    second: Reg,
) -> Option<Source>
    requires hart { hart < core.now.setup.harts }
    requires register { second < 32 }
    requires holders { AreHolders core.now.past holders.now }
    ensures { result ≡ other_source core.now.past hart first second }
{
    if first == second {
        return None;
    }
    source_of(core, holders, hart, second)
}

/// What hart `hart`'s map has for a register, and who holds that; none for x0.
fn source_of(core: &Core, holders: &[Option<Seq>], hart: u8, register: Reg) -> Option<Source>
    requires hart { hart < core.now.setup.harts }
    requires register { register < 32 }
    requires holders { AreHolders core.now.past holders.now }
    ensures { result ≡ held_source core.now.past hart register }
{
    if register == 0 {
        return None;
    }
    let (parts, _registers) = core.parts();
    let physical = parts.harts[usize::from(hart)].maps.lookup(register);
    Some(Source {
        register,
        physical,
        by: holder_of(holders, physical),
    })
}

/// The instruction that was given a physical register last.
fn holder_of(holders: &[Option<Seq>], physical: Phys) -> Option<Seq>
    ensures { result ≡ slice_index_or holders.now physical None }
{
    match holders.get(usize::from(physical)) {
        Some(holder) => *holder,
        None => None,
    }
}

/// The hart and the operation of the instruction with a number, where it is the oldest decoded one of its hart.
fn decoded(core: &Core, seq: Seq) -> Option<(u8, Op)>
    ensures some { IfSome result (λ d. IsDecoded core.now seq d.0 d.1) }
    ensures none { IfNone result (NoneIsDecoded core.now seq) }
{
    for hart in 0..core.harts() {
        if let Some(op) = decoded_in(core, hart, seq) {
            return Some((hart, op));
        }
    }
    None
}

/// Its operation, where it is the oldest decoded one of hart `hart`.
fn decoded_in(core: &Core, hart: u8, seq: Seq) -> Option<Op>
    requires { hart < core.now.setup.harts }
    ensures some { IfSome result (IsDecoded core.now seq hart) }
    ensures none { IfNone result (first (in_rename core.now.past hart) ≢ Some seq) }
{
    let slot = oldest_decoded(core, hart)?;
    if slot.seq == seq {
        return Some(slot.op);
    }
    None
}

fn oldest_decoded(core: &Core, hart: u8) -> Option<Slot>
    requires { hart < core.now.setup.harts }
    ensures some { IfSome result (λ slot. IsDecoded core.now slot.seq hart slot.op) }
    ensures none { IfNone result (first (in_rename core.now.past hart) ≡ None) }
{
    let (parts, _registers) = core.parts();
    oldest_in(&parts.harts[usize::from(hart)])
}

fn oldest_in(state: &HartState) -> Option<Slot>
    ensures { result ≡ slice_get state.now.rename_latch.items 0 }
{
    match state.rename_latch.as_slice().get(0) {
        Some(slot) => Some(*slot),
        None => None,
    }
}
