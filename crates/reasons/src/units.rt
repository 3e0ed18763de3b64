//! Why a unit can't issue, or complete.

ghost use Rattle.std.specs.Prelude.{◌≡◌, [], ◌∷◌, false, Some, find};
ghost use Rattle.issue_queue.specs.Entry.{has_values};
ghost use Rattle.core_parts.specs.Agree.{IsEntry, IsStage};
ghost use Rattle.rv_instr.specs.Registers.{op_unit};
ghost use Rattle.smt_model.specs.Basics.{same_number};
ghost use Rattle.smt_model.specs.Fates.{fetching};
ghost use Rattle.smt_model.specs.Kinds.{first_source, same_unit, second_source};
ghost use Rattle.smt_model.specs.Picture.{picture};
ghost use Rattle.reasons.specs.Reasons.{complete_reasons, first_named, issue_reasons, oldest_waits};
ghost use Rattle.reasons.specs.Reasons.{unready, writer_for};
ghost use Rattle.reasons.specs.Waiting.{first_waiting, register_waited};

use crate::harts::progress_of;
use crate::looks::{hart_of, job_of, no_actor, no_unit, unit_of};
use crate::reason::Reason;
use issue_queue::{Entry, Source};
use numbers::{Phys, Reg};
use retire_squash::{Active, ActiveList};
use rv_instr::{Op, UnitKind};
use smt_core::Core;

/// Why actor `actor` can't issue.
pub(crate) fn no_issue(core: &Core, actor: u8) -> Option<Reason>
    ensures { result ≡ first_named (issue_reasons core.now.setup core.now.past actor) }
{
    if let Some(reason) = no_actor(core, actor) {
        return Some(reason);
    }
    let Some(kind) = unit_of(core, actor) else {
        return Some(Reason::NoUnit { actor });
    };
    if let Some(seq) = job_of(core, actor) {
        return Some(Reason::HasJob { actor, seq });
    }
    unready(core, kind)
}

/// Why no instruction can be issued to a unit of this kind.
fn unready(core: &Core, kind: UnitKind) -> Option<Reason>
    ensures { result ≡ unready core.now.setup core.now.past (Some kind) }
{
    let queue = &core.parts().0.queue;
    if queue.oldest_entry(kind).is_some() {
        return None;
    }
    match first_of_kind(queue.rising().as_slice(), kind) {
        Some(entry) => Some(not_ready(core, kind, &entry)),
        None => Some(Reason::NothingQueued { kind }),
    }
}

/// The first of these that is for a unit of this kind.
fn first_of_kind(entries: &[Entry], kind: UnitKind) -> Option<Entry>
    ensures { result ≡ find (λ e. same_unit kind (op_unit e.op)) entries.now }
{
    for entry in entries {
        if is_of_kind(entry, kind) {
            return Some(*entry);
        }
    }
    None
}

fn is_of_kind(entry: &Entry, kind: UnitKind) -> bool
    ensures { result ≡ same_unit kind (op_unit entry.now.op) }
{
    entry.op.unit() == kind
}

/// What the instruction of an entry that isn't ready waits for.
fn not_ready(core: &Core, kind: UnitKind, entry: &Entry) -> Reason
    requires entry { IsEntry (picture core.now.setup core.now.past) entry.now }
    requires waits { has_values entry.now ≡ false }
    ensures { result ≡ oldest_waits core.now.setup core.now.past kind (Some entry.now.seq) }
{
    let writer = writer_for(core, entry);
    Reason::NotReady {
        kind,
        seq: entry.seq,
        register: register_waited(entry),
        writer: writer.seq,
        progress: progress_of(core, writer.seq, writer.stage),
    }
}

/// The instruction in flight whose number it waits for.
fn writer_for(core: &Core, entry: &Entry) -> Active
    requires entry { IsEntry (picture core.now.setup core.now.past) entry.now }
    requires waits { has_values entry.now ≡ false }
    ensures stage { IsStage (picture core.now.setup core.now.past) result.seq result.stage }
    ensures writer { result.seq
        ≡ writer_for core.now.past (fetching core.now.past entry.now.seq)
        (register_waited entry.now) entry.now.seq }
{
    // The history is legal: that is a clause of this call.
    let _events = core.history().len();
    let active = &hart_of(core, entry.hart).active;
    match holder_of(active, first_waiting(entry)) {
        Some(writer) => writer,
        None => unreachable!(),
    }
}

/// The register of the first source of an entry that has no number.
fn register_waited(entry: &Entry) -> Reg
    ensures { result ≡ register_waited entry.now }
{
    let [first, _] = entry.sources;
    match first {
        Source::Value(_) => second_source(entry.op),
        Source::Waits(_) => first_source(entry.op),
    }
}

#[tactic(auto, unfolding(rv_instr::specs::Kinds::first_source))]
fn first_source(op: Op) -> Reg
    ensures { result ≡ first_source op }
{
    op.rs1().unwrap_or(0)
}

#[tactic(auto, unfolding(rv_instr::specs::Kinds::second_source))]
fn second_source(op: Op) -> Reg
    ensures { result ≡ second_source op }
{
    op.rs2().unwrap_or(0)
}

/// The physical register that the first source without a number waits for; 0 where both have one.
fn first_waiting(entry: &Entry) -> Phys
    ensures { result ≡ first_waiting entry.now.sources }
{
    let [first, second] = entry.sources;
    match first {
        Source::Waits(phys) => phys,
        Source::Value(_) => phys_waited(second),
    }
}

fn phys_waited(source: Source) -> Phys
    ensures { result ≡ first_waiting (source ∷ []) }
{
    match source {
        Source::Waits(phys) => phys,
        Source::Value(_) => 0,
    }
}

/// The oldest of these that was given a physical register.
fn holder_of(active: &ActiveList, phys: Phys) -> Option<Active>
    ensures { result ≡ find (λ a. same_number a.phys (Some phys)) active.now }
{
    let (older, newer) = active.as_slices();
    match holder_among(older, phys) {
        Some(holder) => Some(holder),
        None => holder_among(newer, phys),
    }
}

/// The first of these that was given a physical register.
fn holder_among(active: &[Active], phys: Phys) -> Option<Active>
    ensures { result ≡ find (λ a. same_number a.phys (Some phys)) active.now }
{
    for one in active {
        if has_register(one, phys) {
            return Some(*one);
        }
    }
    None
}

fn has_register(active: &Active, phys: Phys) -> bool
    ensures { result ≡ same_number active.now.phys (Some phys) }
{
    active.phys == Some(phys)
}

/// Why actor `actor` can't complete: it has no job.
pub(crate) fn no_completion(core: &Core, actor: u8) -> Option<Reason>
    ensures { result ≡ first_named (complete_reasons core.now.setup core.now.past actor) }
{
    if let Some(reason) = no_actor(core, actor) {
        return Some(reason);
    }
    if let Some(reason) = no_unit(core, actor) {
        return Some(reason);
    }
    match job_of(core, actor) {
        Some(_) => None,
        None => Some(Reason::HasNoJob { actor }),
    }
}
