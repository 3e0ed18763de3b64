ghost use Rattle.std.specs.Prelude.{◌≡◌, ◌<◌, IfSome, IfNone, length};
ghost use Rattle.rename_map.specs.Maps.{IsWritable};
ghost use Rattle.smt_model.specs.Picture.{Picture};
ghost use Rattle.shared_memory.specs.Contents.{CanWrite};
ghost use Rattle.core_steps.specs.Accesses.{address_at};
ghost use Rattle.core_parts.specs.Agree.{PartsAgree, KeepsSizes, From};
ghost use Rattle.core_steps.specs.Retirement.{CanRetire, NoneCanRetire, Retires};
ghost use Rattle.core_steps.specs.Retirement.{Commits, Replays, Ends, Refetches, Abandons, Leaves};
ghost use Rattle.core_steps.specs.Retirement.{HasCommitted, HasLeft};
ghost use Rattle.core_steps.specs.Retirement.{first_value, is_replay};

use crate::accesses::{remove_access, touch_accesses};
use crate::fill::fill_register;
use core_parts::{HartState, Parts, give_back};
use events::{Effect, Next, Outcome};
use numbers::{Phys, Reg, Seq};
use retire_squash::{Active, Stage};
use shared_memory::commit_access;
use smt_model::Status;

/// Whether it is a load that reads another number as it retires than it did as it completed.
fn is_replay(active: &Active, effect: Effect) -> bool
    ensures { result ≡ is_replay active.now effect }
{
    active.op.kind().is_loading() && first_value(active.stage) != effect.value
}

/// The number that a completion gave its register.
fn first_value(stage: Stage) -> Option<u32>
    ensures { result ≡ first_value stage }
{
    match stage {
        Stage::Completed(outcome) => outcome.value,
        Stage::Renamed | Stage::Issued => None,
    }
}

/// The address that a completed instruction names, 0 where it names none.
fn address_at(stage: Stage) -> u32
    ensures { result ≡ address_at stage }
{
    match stage {
        Stage::Completed(outcome) => outcome.addr.unwrap_or(0),
        Stage::Renamed | Stage::Issued => 0,
    }
}

/// Hart `hart`'s oldest instruction in flight and its outcome, where it is completed. None
/// where it isn't, where there is none, and where there is no such hart.
pub fn next_to_retire(parts: &Parts, hart: u8) -> Option<(Active, Outcome)>
    ensures inside { IfSome result (λ r. hart < length parts.now.harts.items) }
    ensures some { IfSome result
        (λ r. (p : Picture) → PartsAgree p parts.now → CanRetire p hart r.0 r.1) }
    ensures none { IfNone result (hart < length parts.now.harts.items → (p : Picture)
        → PartsAgree p parts.now → NoneCanRetire p hart) }
{
    let active = parts.harts.get(usize::from(hart))?.active.head()?;
    match active.stage {
        Stage::Completed(outcome) => Some((*active, outcome)),
        Stage::Renamed | Stage::Issued => None,
    }
}

/// Retires hart `hart`'s oldest instruction in flight, `active`, with this effect: it commits,
/// or ends or stops its hart.
#[inline(always)]
pub fn retire_oldest(parts: &mut Parts, hart: u8, active: &Active, effect: Effect)
    requires step { From parts.old hart (λ p q. Retires p q hart active.now effect) }
    requires write { IfSome effect.write (CanWrite parts.old.memory.image) }
    ensures agrees { (p q : Picture) → PartsAgree p parts.old → Retires p q hart active.now effect
        → PartsAgree q parts.new }
    ensures sizes { KeepsSizes parts.old parts.new }
{
    match effect.next {
        Next::Pc(pc) => {
            if is_replay(active, effect) {
                replay(parts, hart, active, effect, pc);
            } else {
                let on = parts.harts[usize::from(hart)].fetch_pc;
                commit(parts, hart, active, effect, on);
            }
        }
        Next::Ended(status) => halt(parts, hart, active, Status::Ended(status)),
        Next::Stopped(cause) => halt(parts, hart, active, Status::Stopped(cause)),
    }
}

/// A load that reads another number now than it did as it completed: all younger ones are
/// squashed, then it commits with the number of now, and its hart is fetched from `pc`.
#[inline(never)]
fn replay(parts: &mut Parts, hart: u8, active: &Active, effect: Effect, pc: u32)
    requires step { From parts.old hart (λ p q. Replays p q hart active.now effect pc) }
    requires write { IfSome effect.write (CanWrite parts.old.memory.image) }
    ensures agrees { (p q : Picture) → PartsAgree p parts.old
        → Replays p q hart active.now effect pc → PartsAgree q parts.new }
    ensures sizes { KeepsSizes parts.old parts.new }
{
    parts.squash(hart, active.seq, false);
    commit(parts, hart, active, effect, pc);
}

/// Its register becomes the committed one, and the one before becomes free. Memory is written
/// and its hart's reservation changes as its effect says, and the write touches the loads of all
/// harts that have looked there; the hart is fetched from `pc`.
#[inline(always)]
fn commit(parts: &mut Parts, hart: u8, active: &Active, effect: Effect, pc: u32)
    requires step { From parts.old hart (λ p q. Commits p q hart active.now effect pc) }
    requires write { IfSome effect.write (CanWrite parts.old.memory.image) }
    ensures agrees { (p q : Picture) → PartsAgree p parts.old
        → Commits p q hart active.now effect pc → PartsAgree q parts.new }
    ensures sizes { KeepsSizes parts.old parts.new }
{
    let replaced = commit_oldest(
        &mut parts.harts[usize::from(hart)],
        active.rd,
        active.phys,
        pc,
    );
    remove_access(&mut parts.accesses, hart, active.op);
    let addr = address_at(active.stage);
    commit_access(&mut parts.memory, hart, active.op, addr, effect.write);
    touch_accesses(&mut parts.accesses, effect.write);
    give_back(&mut parts.free, replaced);
    fill_register(parts, active.phys, effect.value);
}

/// Hart `hart`'s oldest instruction in flight, `active`, doesn't retire, since memory has another
/// word there now: it and all younger ones leave, and the hart is fetched from its pc again.
#[inline(never)]
pub fn refetch_oldest(parts: &mut Parts, hart: u8, active: &Active)
    requires step { From parts.old hart (λ p q. Refetches p q hart active.now) }
    ensures agrees { (p q : Picture) → PartsAgree p parts.old → Refetches p q hart active.now
        → PartsAgree q parts.new }
    ensures sizes { KeepsSizes parts.old parts.new }
{
    let status = parts.harts[usize::from(hart)].status;
    abandon(parts, hart, active, status, active.pc);
}

/// It ends or stops its hart, which is fetched no more.
#[inline(never)]
fn halt(parts: &mut Parts, hart: u8, active: &Active, status: Status)
    requires step { From parts.old hart (λ p q. Ends p q hart active.now status) }
    ensures agrees { (p q : Picture) → PartsAgree p parts.old → Ends p q hart active.now status
        → PartsAgree q parts.new }
    ensures sizes { KeepsSizes parts.old parts.new }
{
    let on = parts.harts[usize::from(hart)].fetch_pc;
    abandon(parts, hart, active, status, on);
}

/// Nothing is committed and memory stays: its own register becomes free, and all younger ones
/// are squashed. From now on the hart stands like this and is fetched from `pc`.
fn abandon(parts: &mut Parts, hart: u8, active: &Active, status: Status, pc: u32)
    requires step { From parts.old hart (λ p q. Abandons p q hart active.now status pc) }
    ensures agrees { (p q : Picture) → PartsAgree p parts.old
        → Abandons p q hart active.now status pc → PartsAgree q parts.new }
    ensures sizes { KeepsSizes parts.old parts.new }
{
    leave(parts, hart, active, status, pc);
    parts.squash(hart, active.seq, false);
}

/// Hart `hart` loses its oldest instruction, whose register becomes free. From now on it stands
/// like this and is fetched from `pc`.
fn leave(parts: &mut Parts, hart: u8, active: &Active, status: Status, pc: u32)
    requires step { From parts.old hart (λ p q. Leaves p q hart active.now status pc) }
    ensures agrees { (p q : Picture) → PartsAgree p parts.old
        → Leaves p q hart active.now status pc → PartsAgree q parts.new }
    ensures sizes { KeepsSizes parts.old parts.new }
{
    leave_flight(&mut parts.harts[usize::from(hart)], active.seq, status, pc);
    give_back(&mut parts.free, active.phys);
    remove_access(&mut parts.accesses, hart, active.op);
}

/// A hart's oldest instruction, which writes `rd`, leaves with its register `phys` as the committed
/// one, and it is fetched from `pc`. Answers the register that was committed before.
fn commit_oldest(state: &mut HartState, rd: Reg, phys: Option<Phys>, pc: u32) -> Option<Phys>
    requires flies { 0 < length state.old.active }
    requires writes { IfSome phys (λ register. IsWritable rd) }
    ensures { HasCommitted state.old state.new rd phys pc result }
{
    state.active.pop();
    state.fetch_pc = pc;
    let phys = phys?;
    Some(state.maps.commit(rd, phys))
}

/// A hart's oldest instruction, of number `seq`, leaves; from now on the hart stands like this and
/// is fetched from `pc`. No map of a younger one is kept, since all of them are squashed next.
fn leave_flight(state: &mut HartState, seq: Seq, status: Status, pc: u32)
    requires { 0 < length state.old.active }
    ensures { HasLeft state.old state.new seq status pc }
{
    state.active.pop();
    state.maps.release_after(seq);
    state.fetch_pc = pc;
    state.status = status;
}
