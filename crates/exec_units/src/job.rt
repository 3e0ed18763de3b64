ghost use Rattle.std.specs.Prelude.{◌≡◌};

use events::{Outcome, Seq};
use rv_instr::Op;
use std::marker::Model;

/// An instruction that is lent to a unit, with its operands. It can't be let go: the unit works on
/// it, or it is abandoned.
pub struct Job {
    seq: Seq,
    op: Op,
    pc: u32,
    first: u32,
    second: u32,
}

impl Model for Job {
    ghost use Rattle.exec_units.specs.Job.{JobView};

    ghost Value = { JobView };

    ghost view = { λ a. record {
      seq = a.seq;
      op = a.op;
      pc = a.pc;
      first = a.first;
      second = a.second;
    } };
}

impl Job {
    /// The job of the instruction with the number `seq`, which stands at `pc`. `first` and `second`
    /// are the numbers of its sources, 0 where it has none.
    pub fn new(seq: Seq, op: Op, pc: u32, first: u32, second: u32) -> Self
        ensures { result ≡ record { seq = seq; op = op; pc = pc; first = first; second = second } }
    {
        Job {
            seq,
            op,
            pc,
            first,
            second,
        }
    }

    /// The number of the instruction.
    pub fn seq(&self) -> Seq
        ensures { result ≡ self.now.seq }
    {
        self.seq
    }

    /// What was found at the pc.
    pub fn op(&self) -> Op
        ensures { result ≡ self.now.op }
    {
        self.op
    }

    /// Where the instruction stands.
    pub fn pc(&self) -> u32
        ensures { result ≡ self.now.pc }
    {
        self.pc
    }

    /// The number of its first source.
    pub fn first(&self) -> u32
        ensures { result ≡ self.now.first }
    {
        self.first
    }

    /// The number of its second source.
    pub fn second(&self) -> u32
        ensures { result ≡ self.now.second }
    {
        self.second
    }

    /// Gives the job up.
    pub fn abandon(self) {
        let Job {
            seq: _,
            op: _,
            pc: _,
            first: _,
            second: _,
        } = self;
    }
}

/// A job that a unit has done, with what it came to. It can't be let go: the core takes its
/// outcome, or it is abandoned.
pub struct Done {
    job: Job,
    outcome: Outcome,
}

impl Model for Done {
    ghost use Rattle.std.specs.Prelude.{◌≡◌};
    ghost use Rattle.exec_units.specs.Job.{DoneView, outcome_of_job};

    ghost Value = { DoneView };

    ghost view = { λ a. record { job = a.job; outcome = a.outcome } };

    // A unit hands back what the instruction computes.
    ghost invariant = { λ a. a.outcome ≡ outcome_of_job a.job };
}

impl Done {
    ghost use Rattle.exec_units.specs.Job.{outcome_of_job};

    /// A job and what it comes to.
    pub(crate) fn new(job: Job, outcome: Outcome) -> Self
        requires { outcome ≡ outcome_of_job job }
        ensures { result ≡ record { job = job; outcome = outcome } }
    {
        Done { job, outcome }
    }

    /// The job as it was lent.
    pub fn job(&self) -> &Job
        ensures { result.now ≡ self.now.job }
    {
        &self.job
    }

    /// What the instruction computes, with no look at memory and without the faults of its access.
    pub fn outcome(&self) -> Outcome
        ensures value { result ≡ self.now.outcome }
        ensures computed { self.now.outcome ≡ outcome_of_job self.now.job }
    {
        self.outcome
    }

    /// Takes the outcome, and the job is over.
    pub fn into_outcome(self) -> Outcome
        ensures value { result ≡ self.outcome }
        ensures computed { self.outcome ≡ outcome_of_job self.job }
    {
        let Done { job, outcome } = self;
        job.abandon();
        outcome
    }

    /// Gives up what was done.
    pub fn abandon(self) {
        self.into_outcome();
    }
}
