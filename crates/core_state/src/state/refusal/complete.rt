ghost use Rattle.std.specs.Prelude.{◌≡◌, IfSome, IfNone, IfOk, Some, false, true};
ghost use Rattle.std.specs.Result.{result_err};
ghost use Rattle.events.specs.declared.event.Event.TheVariants.{Complete};
ghost use Rattle.smt_model.specs.Basics.{same_number};
ghost use Rattle.smt_model.specs.Comparisons.{same_outcome};
ghost use Rattle.smt_model.specs.Jobs.{is_actor, job};
ghost use Rattle.smt_model.specs.Picture.{picture};
ghost use Rattle.smt_model.specs.Rules.{refused};
ghost use Rattle.core_parts.specs.Agree.{HasOpenJob};
ghost use Rattle.core_parts.specs.Place.{InActiveList};
ghost use Rattle.core_state.specs.Refusals.{IsJobWith, open_view};
ghost use Rattle.exec_units.specs.Job.{outcome_of_job};

use super::rules::{CompleteRule, DropRule};
use super::same::is_same_outcome;
use crate::state::State;
use core_parts::OpenJob;
use core_steps::{completion_of, in_flight};
use events::{Event, Outcome};
use exec_units::{Job, work};
use numbers::Seq;
use retire_squash::Active;

impl State {
    /// The job of actor `actor` whose instruction `seq` it may complete with this outcome, and how
    /// that stands, or the first rule that the completion breaks.
    pub(in crate::state) fn judge_completion(
        &self,
        actor: u8,
        seq: Seq,
        outcome: Outcome,
    ) -> Result<(OpenJob, Active), u8>
        ensures rule { result_err result
            ≡ refused self.now.setup self.now.past (Complete actor seq outcome) }
        ensures there { IfOk result
            (λ r. InActiveList self.now.setup self.now.past r.0.hart seq r.1) }
    {
        if !self.has_actor(actor) {
            return Err(CompleteRule::Actor as u8);
        }
        let Some(job) = self.job_with(actor, seq) else {
            return Err(CompleteRule::Job as u8);
        };
        let Some(active) = in_flight(&self.parts, &job) else {
            return Err(CompleteRule::InFlight as u8);
        };
        let now = completion_of(&self.parts, &job, worked(&job));
        if !is_same_outcome(outcome, now) {
            return Err(CompleteRule::Outcome as u8);
        }
        Ok((job, active))
    }

    /// The first rule that a drop of instruction `seq` by actor `actor` breaks.
    pub(in crate::state) fn drop_refusal(&self, actor: u8, seq: Seq) -> Option<u8>
        ensures { result ≡ refused self.now.setup self.now.past (Event.Drop actor seq) }
    {
        if !self.has_actor(actor) {
            return Some(DropRule::Actor as u8);
        }
        let Some(job) = self.job_with(actor, seq) else {
            return Some(DropRule::Job as u8);
        };
        if in_flight(&self.parts, &job).is_some() {
            return Some(DropRule::Squashed as u8);
        }
        None
    }

    /// The open job of an actor of the core.
    pub(super) fn open_job(&self, actor: u8) -> Option<OpenJob>
        requires { is_actor self.now.setup actor ≡ true }
        ensures { HasOpenJob (picture self.now.setup self.now.past) actor result }
    {
        self.parts.jobs[usize::from(actor)]
    }

    /// The open job of an actor of the core, where it is of instruction `seq`.
    pub(in crate::state) fn job_with(&self, actor: u8, seq: Seq) -> Option<OpenJob>
        requires { is_actor self.now.setup actor ≡ true }
        ensures some { IfSome result
            (IsJobWith (picture self.now.setup self.now.past) actor seq) }
        ensures none { IfNone result
            (same_number (job self.now.past actor) (Some seq) ≡ false) }
    {
        let job = self.open_job(actor)?;
        if job.seq == seq { Some(job) } else { None }
    }
}

/// What a unit makes of a job.
fn worked(job: &OpenJob) -> Outcome
    ensures { result ≡ outcome_of_job (open_view job.now) }
{
    work(Job::new(job.seq, job.op, job.pc, job.first, job.second)).into_outcome()
}
