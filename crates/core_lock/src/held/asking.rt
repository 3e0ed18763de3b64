ghost use Rattle.std.specs.Prelude.{◌≡◌};
ghost use Rattle.core_lock.specs.Asks.{Replied, IssueReplied, CompleteReplied, IsPredictedBy};
ghost use Rattle.core_lock.specs.Asks.{plain_said, asked_of};

use crate::ask::{Ask, Said};
use exec_units::Done;
use smt_core::{Answer, CompleteAnswer, Core, IssueAnswer, Predict};

/// Makes an ask of a core.
#[inline(always)]
pub(super) fn ask_core<P: Predict>(core: &mut Core, actor: u8, ask: Ask, predict: &mut P) -> Said
    ensures answer { Replied actor ask core.old result core.new }
    ensures predicted { IsPredictedBy P.predicts predict.old (asked_of ask) result predict.new }
{
    match ask {
        Ask::Fetch => plain_answer(core.fetch(actor, predict)),
        Ask::Decode(hart) => plain_answer(core.decode(actor, hart)),
        Ask::Rename(hart) => plain_answer(core.rename(actor, hart)),
        Ask::Issue => issue(core, actor),
        Ask::Complete(done) => complete(core, actor, done),
        Ask::Retire(hart) => plain_answer(core.retire(actor, hart)),
    }
}

/// What is said for the answer to an ask that lends and takes no job.
fn plain_answer(answer: Answer) -> Said
    ensures { result ≡ plain_said answer }
{
    match answer {
        Answer::Done(event) => Said::Event(event),
        Answer::Idle => Said::Idle,
        Answer::Full => Said::Full,
    }
}

/// Asks a core for a job. It stands in its caller, or the job would be copied on its way out.
#[inline(always)]
fn issue(core: &mut Core, actor: u8) -> Said
    ensures { IssueReplied actor core.old result core.new }
{
    match core.issue(actor) {
        IssueAnswer::Job(job, event) => Said::Job(job, event),
        IssueAnswer::Idle => Said::Idle,
        IssueAnswer::Full => Said::Full,
    }
}

/// Hands a job back to a core. It stands in its caller, or the job would be copied on its way in.
#[inline(always)]
fn complete(core: &mut Core, actor: u8, done: Done) -> Said
    ensures { CompleteReplied actor done.job core.old result core.new }
{
    match core.complete(actor, done) {
        CompleteAnswer::Done(event) => Said::Event(event),
        CompleteAnswer::Stranger => Said::Stranger,
        CompleteAnswer::Full => Said::Full,
    }
}
