//! A core that makes the asks of a script, for what they come to.

use events::Seq;
use exec_units::{Job, work};
use numbers::sizes::MOST_ACTORS;
use reasons::{
    Reason, complete_reason, decode_reason, fetch_reason, issue_reason, rename_reason,
    retire_reason,
};
use rv_instr::Op;
use scripts::{Action, ScriptWord};
use smt_core::{Answer, CompleteAnswer, Core, IssueAnswer, Predict};

/// A core, and what each of its actors holds.
#[derive(Drop)]
pub(crate) struct Trial {
    core: Core,
    held: [Option<Held>; MOST_ACTORS],
}

/// A job that an actor holds.
#[derive(Clone, Copy, Drop)]
struct Held {
    seq: Seq,
    op: Op,
    pc: u32,
    first: u32,
    second: u32,
}

impl Trial {
    /// A core whose actors hold nothing.
    pub(crate) fn new(core: Core) -> Trial {
        Trial {
            core,
            held: [None; MOST_ACTORS],
        }
    }

    /// Makes the asks of a word, and answers how many of them have made a step. One that makes none changes nothing,
    /// but that its actor may hold nothing any more; so no further one of the same word makes any.
    pub(crate) fn make<P: Predict>(&mut self, word: ScriptWord, predict: &mut P) -> u32 {
        for made in 0..word.repeat {
            if !self.ask(word.action, predict) {
                return made;
            }
        }
        word.repeat
    }

    /// Why what an action asks can't be made now.
    pub(crate) fn reason_of(&self, action: Action) -> Option<Reason> {
        match action {
            Action::Fetch { actor } => fetch_reason(&self.core, actor),
            Action::Decode { actor, hart } => decode_reason(&self.core, actor, hart),
            Action::Rename { actor, hart } => rename_reason(&self.core, actor, hart),
            Action::Retire { actor, hart } => retire_reason(&self.core, actor, hart),
            Action::Issue { actor } | Action::Unit { actor } => issue_reason(&self.core, actor),
            Action::Complete { actor } => complete_reason(&self.core, actor),
        }
    }

    /// Makes what an action asks, once, and answers whether a step was made.
    fn ask<P: Predict>(&mut self, action: Action, predict: &mut P) -> bool {
        match action {
            Action::Fetch { actor } => is_done(self.core.fetch(actor, predict)),
            Action::Decode { actor, hart } => is_done(self.core.decode(actor, hart)),
            Action::Rename { actor, hart } => is_done(self.core.rename(actor, hart)),
            Action::Retire { actor, hart } => is_done(self.core.retire(actor, hart)),
            Action::Issue { actor } => self.issue(actor),
            Action::Complete { actor } => self.hand_back(actor),
            Action::Unit { actor } => {
                let issued = self.issue(actor);
                if issued {
                    self.hand_back(actor);
                }
                issued
            }
        }
    }

    /// Issues, and holds the job that comes.
    fn issue(&mut self, actor: u8) -> bool {
        let job = match self.core.issue(actor) {
            IssueAnswer::Job(job, _) => job,
            IssueAnswer::Idle | IssueAnswer::Full => return false,
        };
        let held = Held {
            seq: job.seq(),
            op: job.op(),
            pc: job.pc(),
            first: job.first(),
            second: job.second(),
        };
        job.abandon();
        if let Some(place) = self.held.get_mut(usize::from(actor)) {
            *place = Some(held);
        }
        true
    }

    /// Hands back what an actor holds, worked.
    fn hand_back(&mut self, actor: u8) -> bool {
        let Some(place) = self.held.get_mut(usize::from(actor)) else {
            return false;
        };
        let Some(held) = *place else {
            return false;
        };
        *place = None;
        let job = Job::new(held.seq, held.op, held.pc, held.first, held.second);
        matches!(
            self.core.complete(actor, work(job)),
            CompleteAnswer::Done(_)
        )
    }
}

fn is_done(answer: Answer) -> bool {
    matches!(answer, Answer::Done(_))
}
