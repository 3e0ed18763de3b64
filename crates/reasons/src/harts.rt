//! Why a step of one hart can't be made.

ghost use Rattle.std.specs.Prelude.{◌≡◌, ◌<◌, [], ◌∷◌, ◌&&◌, Some, IfNone};
ghost use Rattle.core_parts.specs.Agree.{IsActive, IsStage};
ghost use Rattle.smt_model.specs.Fates.{fate};
ghost use Rattle.smt_model.specs.Kinds.{writes_register};
ghost use Rattle.smt_model.specs.Picture.{picture};
ghost use Rattle.reasons.specs.Reasons.{decode_reasons, rename_reasons, retire_reasons, of_hart};
ghost use Rattle.reasons.specs.Reasons.{first_named, is_crowded, is_load, is_store, named, no_register};
ghost use Rattle.reasons.specs.Reasons.{not_completed, standing, progress_of};
ghost use Rattle.reasons.specs.declared.reason.Reason.TheVariants as reason;

use crate::looks::{hart_of, no_actor};
use crate::reason::{Progress, Reason};
use numbers::Seq;
use retire_squash::{Active, Stage};
use rv_instr::Op;
use smt_core::Core;
use smt_model::Status;

/// Why hart `hart`'s oldest fetched instruction can't be decoded by actor `actor`.
pub(crate) fn no_decode(core: &Core, actor: u8, hart: u8) -> Option<Reason>
    ensures { result ≡ first_named (decode_reasons core.now.setup core.now.past actor hart) }
{
    if let Some(reason) = no_step(core, actor, hart) {
        return Some(reason);
    }
    let state = hart_of(core, hart);
    if state.decode_latch.is_empty() {
        return Some(Reason::NothingFetched { hart });
    }
    if state.rename_latch.is_full() {
        return Some(Reason::RenameLatchFull { hart });
    }
    None
}

/// Why its oldest decoded instruction can't be renamed.
pub(crate) fn no_rename(core: &Core, actor: u8, hart: u8) -> Option<Reason>
    ensures { result ≡ first_named (rename_reasons core.now.setup core.now.past actor hart) }
{
    if let Some(reason) = no_step(core, actor, hart) {
        return Some(reason);
    }
    let state = hart_of(core, hart);
    let Some(slot) = state.rename_latch.first() else {
        return Some(Reason::NothingDecoded { hart });
    };
    if core.parts().0.queue.is_full() {
        return Some(Reason::QueueFull);
    }
    if state.active.is_full() {
        return Some(Reason::FlightFull { hart });
    }
    no_room_for(core, hart, slot.op)
}

/// Why an instruction of this hart can't be in flight: as many loads are as may be, and it is one,
/// or stores; or it writes a register, and none is free.
fn no_room_for(core: &Core, hart: u8, op: Op) -> Option<Reason>
    requires { hart < core.now.setup.harts }
    ensures { result
        ≡ first_named (named (is_load op && is_crowded is_load core.now.past hart) (reason.LoadsFull hart)
        ∷ named (is_store op && is_crowded is_store core.now.past hart) (reason.StoresFull hart)
        ∷ named (writes_register op && no_register core.now.setup core.now.past) reason.NoFreeRegister
        ∷ []) }
{
    if has_full_loads(core, hart, op) {
        return Some(Reason::LoadsFull { hart });
    }
    if has_full_stores(core, hart, op) {
        return Some(Reason::StoresFull { hart });
    }
    if lacks_register(core, op) {
        return Some(Reason::NoFreeRegister);
    }
    None
}

/// Whether it is a load, and as many loads of its hart are in flight as may be.
fn has_full_loads(core: &Core, hart: u8, op: Op) -> bool
    requires { hart < core.now.setup.harts }
    ensures { result ≡ (is_load op && is_crowded is_load core.now.past hart) }
{
    op.kind().is_loading() && are_loads_full(core, hart)
}

fn are_loads_full(core: &Core, hart: u8) -> bool
    requires { hart < core.now.setup.harts }
    ensures { result ≡ is_crowded is_load core.now.past hart }
{
    core.parts().0.accesses.loads_full(hart)
}

/// Whether it is a store, and as many stores of its hart are in flight as may be.
fn has_full_stores(core: &Core, hart: u8, op: Op) -> bool
    requires { hart < core.now.setup.harts }
    ensures { result ≡ (is_store op && is_crowded is_store core.now.past hart) }
{
    op.kind().is_storing() && are_stores_full(core, hart)
}

fn are_stores_full(core: &Core, hart: u8) -> bool
    requires { hart < core.now.setup.harts }
    ensures { result ≡ is_crowded is_store core.now.past hart }
{
    core.parts().0.accesses.stores_full(hart)
}

/// Whether it writes a register, and none is free.
fn lacks_register(core: &Core, op: Op) -> bool
    ensures { result ≡ (writes_register op && no_register core.now.setup core.now.past) }
{
    op.writes_register() && no_register(core)
}

fn no_register(core: &Core) -> bool
    ensures { result ≡ no_register core.now.setup core.now.past }
{
    core.free_registers().is_empty()
}

/// Why its oldest instruction in flight can't retire.
pub(crate) fn no_retirement(core: &Core, actor: u8, hart: u8) -> Option<Reason>
    ensures { result ≡ first_named (retire_reasons core.now.setup core.now.past actor hart) }
{
    if let Some(reason) = no_step(core, actor, hart) {
        return Some(reason);
    }
    let Some(oldest) = hart_of(core, hart).active.head() else {
        return Some(Reason::NothingInFlight { hart });
    };
    not_completed(core, hart, oldest)
}

fn not_completed(core: &Core, hart: u8, active: &Active) -> Option<Reason>
    requires { IsActive (picture core.now.setup core.now.past) hart active.now }
    ensures { result ≡ not_completed core.now.past (Some active.now.seq) }
{
    match progress_of(core, active.seq, active.stage) {
        Progress::Completed => None,
        progress => Some(Reason::NotCompleted {
            seq: active.seq,
            progress,
        }),
    }
}

/// How far an instruction in flight has come.
pub(crate) fn progress_of(core: &Core, seq: Seq, stage: Stage) -> Progress
    requires { IsStage (picture core.now.setup core.now.past) seq stage }
    ensures { result ≡ progress_of (fate core.now.past seq) }
{
    match stage {
        Stage::Renamed => Progress::Renamed,
        Stage::Issued => Progress::Issued,
        Stage::Completed(_) => Progress::Completed,
    }
}

/// What comes before all other reasons of a step of hart `hart` by actor `actor`.
fn no_step(core: &Core, actor: u8, hart: u8) -> Option<Reason>
    ensures first { result ≡ first_named (of_hart core.now.setup core.now.past actor hart []) }
    ensures there { IfNone result (hart < core.now.setup.harts) }
{
    if let Some(reason) = no_actor(core, actor) {
        return Some(reason);
    }
    let Some(status) = core.status(hart) else {
        return Some(Reason::NoHart { hart });
    };
    standing(hart, status)
}

fn standing(hart: u8, status: Status) -> Option<Reason>
    ensures { result ≡ standing hart status }
{
    match status {
        Status::Going => None,
        Status::Ended(_) => Some(Reason::HartEnded { hart }),
        Status::Stopped(_) => Some(Reason::HartStopped { hart }),
    }
}
