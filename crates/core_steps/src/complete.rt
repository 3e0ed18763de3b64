ghost use Rattle.std.specs.Prelude.{◌≡◌, ℕ, ◌<◌, ◌==◌, ◌↔◌, IsTrue, IfSome, IfNone, Some, None};
ghost use Rattle.std.specs.Prelude.{Option, false, length, slice_index_or, slice_set};
ghost use Rattle.std.specs.List.{list_any};
ghost use Rattle.load_store.specs.Looks.{seen};
ghost use Rattle.load_store.specs.Queues.{queues_of};
ghost use Rattle.retire_squash.specs.Active.{with_stage};
ghost use Rattle.smt_model.specs.Bytes.{read};
ghost use Rattle.smt_model.specs.Exec.{Computed};
ghost use Rattle.smt_model.specs.Faults.{checked};
ghost use Rattle.smt_model.specs.Outcomes.{outcome_of};
ghost use Rattle.smt_model.specs.Picture.{Picture};
ghost use Rattle.smt_model.specs.Steps.{HasCompleted, IsDrop, op_in};
ghost use Rattle.core_parts.specs.Agree.{IsActive, PartsAgree, KeepsSizes, From};
ghost use Rattle.core_steps.specs.Checkpoints.{released_by};
ghost use Rattle.core_steps.specs.Complete.{IsSameJob, IsFinish};
ghost use Rattle.core_parts.specs.declared.slot.OpenJob.{OpenJob as Open};

use crate::accesses::resolve_access;
use crate::checkpoints::{release_map, restore_map};
use crate::fill::fill_register;
use core_parts::{HartState, OpenJob, Parts};
use events::Outcome;
use exec_units::{Done, Job};
use load_store::completion;
use numbers::Seq;
use numbers::sizes::MOST_ACTORS;
use retire_squash::{Active, Stage};
use rv_instr::Op;

/// Whether the lent job is the one that was worked.
fn is_job_of(lent: &OpenJob, done: &Done) -> bool
    ensures { IsTrue result ↔ IsSameJob lent.now done.now.job }
{
    has_instruction(lent, done.job()) && has_operands(lent, done.job())
}

/// Whether the job that was worked has the lent one's number, instruction and pc.
fn has_instruction(lent: &OpenJob, job: &Job) -> bool
    ensures { IsTrue result ↔ (lent.now.seq ≡ job.now.seq) × (lent.now.op ≡ job.now.op)
        × (lent.now.pc ≡ job.now.pc) }
{
    lent.op == job.op() && is_at(lent, job)
}

fn is_at(lent: &OpenJob, job: &Job) -> bool
    ensures { IsTrue result ↔ (lent.now.seq ≡ job.now.seq) × (lent.now.pc ≡ job.now.pc) }
{
    lent.seq == job.seq() && lent.pc == job.pc()
}

/// Whether the job that was worked has the lent one's number for each source.
fn has_operands(lent: &OpenJob, job: &Job) -> bool
    ensures { IsTrue result ↔ (lent.now.first ≡ job.now.first)
        × (lent.now.second ≡ job.now.second) }
{
    lent.first == job.first() && lent.second == job.second()
}

/// A hart's instruction of this number, which stands at this place, has its outcome, its map is no
/// longer kept, and the hart is fetched from `goes_on`.
fn enter_outcome(state: &mut HartState, op: Op, place: u8, seq: Seq, outcome: Outcome, goes_on: u32)
    ensures { state.new
        ≡ record state.old {
          active = with_stage seq (Stage.Completed outcome) state.old.active;
          maps = record state.old.maps { kept = released_by op seq state.old.maps.kept };
          fetch_pc = goes_on;
        } }
{
    state.active.complete(place, seq, outcome);
    release_map(&mut state.maps, op, seq);
    state.fetch_pc = goes_on;
}

/// The open job of actor `actor`, where it is the one that was worked.
pub fn handed_back(parts: &Parts, actor: u8, done: &Done) -> Option<OpenJob>
    ensures some { IfSome result (λ job. slice_index_or parts.now.jobs actor None ≡ Some job) }
    ensures same { IfSome result (λ job. IsSameJob job done.now.job) }
    ensures none { IfNone result
        ((job : Open) → slice_index_or parts.now.jobs actor None ≡ Some job
        → IsSameJob job done.now.job → ⊥) }
{
    let job = (*parts.jobs.get(usize::from(actor))?)?;
    if !is_job_of(&job, done) {
        return None;
    }
    Some(job)
}

/// The instruction of this job, where its hart has it in flight.
pub fn in_flight(parts: &Parts, job: &OpenJob) -> Option<Active>
    requires { job.now.hart < length parts.now.harts.items }
    ensures some { IfSome result (λ a. (p : Picture) → PartsAgree p parts.now
        → IsActive p job.now.hart a × (a.seq ≡ job.now.seq)) }
    ensures none { IfNone result ((p : Picture) → PartsAgree p parts.now
        → list_any (λ s. s == job.now.seq) (p.flight job.now.hart) ≡ false) }
{
    parts.harts[usize::from(job.hart)]
        .active
        .find_at(job.place, job.seq)
}

/// What the completion of a job says, from the outcome that its unit handed back: with the fault
/// of its access, or with the first look of a load.
#[inline(always)]
pub fn completion_of(parts: &Parts, job: &OpenJob, outcome: Outcome) -> Outcome
    requires { job.now.hart < length parts.now.accesses }
    ensures { (c : Computed) → outcome ≡ outcome_of job.now.op c None
        → result ≡ outcome_of job.now.op (checked parts.now.memory.image job.now.op c)
        (Some (read job.now.op (seen job.now.seq
        (queues_of parts.now.accesses job.now.hart).stores parts.now.memory) c.addr)) }
{
    completion(
        &parts.memory,
        &parts.accesses,
        job.hart,
        job.seq,
        job.op,
        outcome,
    )
}

/// The instruction `active` of actor `actor`'s job has its outcome. Where it goes elsewhere than
/// was predicted, all younger ones of its hart are squashed, and the hart is fetched from there;
/// its map is restored from the instruction's checkpoint, where one is kept.
#[inline(always)]
pub fn finish(parts: &mut Parts, actor: u8, job: &OpenJob, active: &Active, outcome: &Outcome)
    requires step { From parts.old job.now.hart
        (λ p q. IsFinish p q job.now.hart actor active.now outcome.now) }
    ensures agrees { (p q : Picture) → PartsAgree p parts.old
        → IsFinish p q job.now.hart actor active.now outcome.now → PartsAgree q parts.new }
    ensures sizes { KeepsSizes parts.old parts.new }
{
    let hart = job.hart;
    let Some(pc) = outcome.next.redirect_pc(active.predicted) else {
        let pc = parts.harts[usize::from(hart)].fetch_pc;
        write_outcome(parts, actor, job, active, outcome, pc);
        return;
    };
    let restored = restore_map(parts, hart, active.seq);
    write_outcome(parts, actor, job, active, outcome, pc);
    parts.squash(hart, active.seq, restored);
}

/// The outcome is written, its number handed on, a store told what it will write, the actor rid
/// of the job, and the hart is fetched from `goes_on`.
#[inline(always)]
fn write_outcome(
    parts: &mut Parts,
    actor: u8,
    job: &OpenJob,
    active: &Active,
    outcome: &Outcome,
    goes_on: u32,
)
    requires inside { job.now.hart < length parts.old.harts.items }
    requires place { job.now.hart < length parts.old.accesses }
    ensures agrees { (p q : Picture) → PartsAgree p parts.old
        → HasCompleted p q job.now.hart active.now.seq actor outcome.now goes_on
        → active.now.phys ≡ p.phys active.now.seq → active.now.op ≡ op_in p active.now.seq
        → PartsAgree q parts.new }
    ensures sizes { KeepsSizes parts.old parts.new }
{
    let hart = job.hart;
    fill_register(parts, active.phys, outcome.value);
    set_job(&mut parts.jobs, usize::from(actor), None);
    resolve_access(&mut parts.accesses, hart, active.op, active.seq, *outcome);
    enter_outcome(
        &mut parts.harts[usize::from(hart)],
        active.op,
        job.place,
        active.seq,
        *outcome,
        goes_on,
    );
}

/// Actor `actor` is rid of its job, whose instruction was squashed.
pub fn drop_job(parts: &mut Parts, actor: u8)
    ensures agrees { (p q : Picture) (n : ℕ) → PartsAgree p parts.old → IsDrop p q n actor
        → PartsAgree q parts.new }
    ensures sizes { KeepsSizes parts.old parts.new }
{
    let actor = usize::from(actor);
    set_job(&mut parts.jobs, actor, None);
}

/// Gives an actor a job, or takes it away. There is no actor from `MOST_ACTORS` on, and then
/// nothing changes.
fn set_job(jobs: &mut [Option<OpenJob>; MOST_ACTORS], actor: usize, job: Option<OpenJob>)
    ensures { jobs.new ≡ slice_set jobs.old actor job }
{
    if actor < MOST_ACTORS {
        jobs[actor] = job;
    }
}
