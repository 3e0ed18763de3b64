ghost use Rattle.std.specs.Prelude.{◌≡◌, ℕ, ◌+◌, ◌<◌, true, is_some, Some, None, IfSome};
ghost use Rattle.std.specs.Prelude.{IfNone};
ghost use Rattle.numbers.specs.Sizes.{most_actors};
ghost use Rattle.issue_queue.specs.Entry.{has_values, is_value};
ghost use Rattle.retire_squash.specs.Active.{with_stage};
ghost use Rattle.retire_squash.specs.declared.active.Stage.TheVariants as stage;
ghost use Rattle.smt_model.specs.Picture.{Picture};
ghost use Rattle.core_parts.specs.Agree.{PartsAgree, IsEntry, KeepsSizes, From};
ghost use Rattle.core_steps.specs.Issuing.{CanIssue, IsIssuing, source_number, job_of};

use core_parts::{HartState, OpenJob, Parts};
use exec_units::Job;
use issue_queue::{Entry, Source};
use numbers::Seq;
use rv_instr::UnitKind;
use smt_model::Role;

/// The entry of the instruction that actor `actor`, a unit of this kind, takes up: the oldest
/// ready one. None where the actor has a job or no such instruction is ready.
pub fn next_to_issue(parts: &Parts, actor: u8, kind: UnitKind) -> Option<Entry>
    requires { actor < most_actors }
    ensures ready { IfSome result (λ e. has_values e ≡ true) }
    ensures some { IfSome result (λ e. (p : Picture) → PartsAgree p parts.now
        → IsEntry p e × CanIssue p actor kind e.seq) }
    ensures none { IfNone result
        ((p : Picture) → PartsAgree p parts.now → (n : ℕ) → CanIssue p actor kind n → ⊥) }
{
    if parts.jobs[usize::from(actor)].is_some() {
        return None;
    }
    parts.queue.oldest_entry(kind)
}

/// Takes the instruction of a ready entry out of the queue, as a job of actor `actor`.
#[inline(always)]
pub fn issue_entry(parts: &mut Parts, actor: u8, entry: Entry) -> Job
    requires actor { actor < most_actors }
    requires ready { has_values entry ≡ true }
    requires step { From parts.old entry.hart (λ p q. IsIssuing p q actor entry) }
    ensures agrees { (p q : Picture) → PartsAgree p parts.old → IsIssuing p q actor entry
        → PartsAgree q parts.new }
    ensures sizes { KeepsSizes parts.old parts.new }
    ensures job { result ≡ job_of entry }
{
    let [first, second] = entry.sources;
    let job = OpenJob {
        hart: entry.hart,
        place: entry.place,
        seq: entry.seq,
        op: entry.op,
        pc: entry.pc,
        first: number(first),
        second: number(second),
    };
    parts.queue.remove(entry.seq);
    leave_queue(
        &mut parts.harts[usize::from(entry.hart)],
        entry.place,
        entry.seq,
    );
    parts.jobs[usize::from(actor)] = Some(job);
    Job::new(job.seq, job.op, job.pc, job.first, job.second)
}

/// A hart's instruction of this number, which stands at this place, has left the queue for a unit.
fn leave_queue(state: &mut HartState, place: u8, seq: Seq)
    requires { 0 < state.old.icount }
    ensures active { state.new.active ≡ with_stage seq stage.Issued state.old.active }
    ensures icount { state.new.icount + 1 ≡ state.old.icount }
    ensures rest { state.new
        ≡ record state.old { active = state.new.active; icount = state.new.icount } }
{
    state.active.issue(place, seq);
    state.icount -= 1;
}

/// The number of a source that has one.
fn number(source: Source) -> u32
    requires { is_value source ≡ true }
    ensures { result ≡ source_number source }
{
    match source {
        Source::Value(value) => value,
        Source::Waits(_) => unreachable!(),
    }
}
