ghost use Rattle.std.specs.Prelude.{◌≡◌};
ghost use Rattle.exec_units.specs.Job.{outcome_of_job};

use crate::job::{Done, Job};
use crate::outcome::outcome;
use rv_execute::execute;

/// A unit's work: it executes the instruction of the job, and hands the job back with what that
/// came to.
#[tactic(auto, unfolding(crate::specs::Job::outcome_of_job))]
#[inline(always)]
pub fn work(job: Job) -> Done
    ensures { result ≡ record { job = job; outcome = outcome_of_job job } }
{
    let op = job.op();
    let computed = execute(op, job.pc(), job.first(), job.second());
    Done::new(job, outcome(op, computed))
}
