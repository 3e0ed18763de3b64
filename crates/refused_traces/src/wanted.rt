//! The event that would be accepted in place of the one that is refused.

ghost use Rattle.std.specs.Prelude.{◌≡◌, IfSome};
ghost use Rattle.smt_model.specs.Rules.{is_allowed};

use events::Event;
use exec_units::{Job, work};
use numbers::Seq;
use reasons::{
    Reason, complete_reason, decode_reason, fetch_reason, issue_reason, rename_reason,
    retire_reason,
};
use smt_core::{Answer, CompleteAnswer, Core, IssueAnswer, Predict};

/// A step that may be asked of an actor, and of a hart where it is of one.
#[derive(Clone, Copy, Drop)]
enum Step {
    /// A fetch, of which this pc is predicted.
    Fetch(u32),
    Decode,
    Rename,
    Issue,
    Complete,
    Retire,
}

/// A step, of an actor, and of a hart where it is of one.
#[derive(Clone, Copy, Drop)]
struct Ask {
    step: Step,
    actor: u8,
    hart: u8,
}

/// A predictor that guesses what a trace says.
#[derive(Clone, Copy, Drop)]
struct Said {
    predicted: u32,
}

impl Predict for Said {
    ghost predicts = { λ before hart pc word guess after. guess ≡ before.predicted };

    fn predict(&mut self, _hart: u8, _pc: u32, _word: u32) -> u32 {
        self.predicted
    }
}

/// Makes the step that a trace could have made in place of an event that its core refuses: of the event's kind, by its
/// actor where the core has it, and of the hart of its instruction, where that is fetched (`hart`). Else it is by the
/// least actor that can, and of the least hart. Answers the event of the step; and why it can't be made.
pub(crate) fn make_wanted(
    core: &mut Core,
    event: &Event,
    hart: Option<u8>,
) -> (Option<Event>, Option<Reason>)
    ensures { IfSome result.0 (is_allowed core.old.setup core.old.past) }
{
    let ask = ask_in_place_of(core, event, hart);
    let reason = reason_of(core, ask);
    (make(core, ask), reason)
}

/// The step that an event is of.
fn step_of(event: &Event) -> Step {
    match *event {
        Event::Fetch { predicted, .. } => Step::Fetch(predicted),
        Event::Decode { .. } => Step::Decode,
        Event::Rename { .. } => Step::Rename,
        Event::Issue { .. } => Step::Issue,
        Event::Complete { .. } | Event::Drop { .. } => Step::Complete,
        Event::Retire { .. } | Event::Refetch { .. } => Step::Retire,
    }
}

fn ask_in_place_of(core: &Core, event: &Event, hart: Option<u8>) -> Ask {
    let step = step_of(event);
    let actor = asker(core, event, hart.unwrap_or(0));
    let ask = Ask {
        step,
        actor,
        hart: hart.unwrap_or(0),
    };
    match hart {
        Some(_) => ask,
        None => of_least_hart(core, ask),
    }
}

/// The actor that is asked in place of an event's.
fn asker(core: &Core, event: &Event, hart: u8) -> u8 {
    let actors = u8::try_from(core.config().roles.len()).unwrap_or(0);
    if event.actor() < actors {
        return event.actor();
    }
    if let Step::Complete = step_of(event) {
        if let Some(actor) = holder_of(core, event.seq(), actors) {
            return actor;
        }
    }
    least_that_can(core, step_of(event), hart, actors)
}

/// The actor that has the job of an instruction.
fn holder_of(core: &Core, seq: Seq, actors: u8) -> Option<u8> {
    for actor in 0..actors {
        if let Some(job) = core
            .parts()
            .0
            .jobs
            .get(usize::from(actor))
            .copied()
            .flatten()
        {
            if job.seq == seq {
                return Some(actor);
            }
        }
    }
    None
}

/// The least actor that can make a step; 0 where none can.
fn least_that_can(core: &Core, step: Step, hart: u8, actors: u8) -> u8 {
    for actor in 0..actors {
        if reason_of(core, Ask { step, actor, hart }).is_none() {
            return actor;
        }
    }
    0
}

/// The same step of the least hart of which it can be made; of hart 0 where there is none.
fn of_least_hart(core: &Core, ask: Ask) -> Ask {
    for hart in 0..core.harts() {
        let other = Ask { hart, ..ask };
        if reason_of(core, other).is_none() {
            return other;
        }
    }
    ask
}

/// Why a step can't be made.
fn reason_of(core: &Core, ask: Ask) -> Option<Reason> {
    let Ask { step, actor, hart } = ask;
    match step {
        Step::Fetch(_) => fetch_reason(core, actor),
        Step::Decode => decode_reason(core, actor, hart),
        Step::Rename => rename_reason(core, actor, hart),
        Step::Issue => issue_reason(core, actor),
        Step::Complete => complete_reason(core, actor),
        Step::Retire => retire_reason(core, actor, hart),
    }
}

/// Makes a step, where it can be made. Answers its event.
fn make(core: &mut Core, ask: Ask) -> Option<Event>
    ensures { IfSome result (is_allowed core.old.setup core.old.past) }
{
    let Ask { step, actor, hart } = ask;
    match step {
        Step::Fetch(predicted) => fetch(core, actor, predicted),
        Step::Decode => decode(core, actor, hart),
        Step::Rename => rename(core, actor, hart),
        Step::Issue => issue(core, actor),
        Step::Complete => complete(core, actor),
        Step::Retire => retire(core, actor, hart),
    }
}

fn fetch(core: &mut Core, actor: u8, predicted: u32) -> Option<Event>
    ensures { IfSome result (is_allowed core.old.setup core.old.past) }
{
    match core.fetch(actor, &mut Said { predicted }) {
        Answer::Done(event) => Some(event),
        Answer::Idle | Answer::Full => None,
    }
}

fn decode(core: &mut Core, actor: u8, hart: u8) -> Option<Event>
    ensures { IfSome result (is_allowed core.old.setup core.old.past) }
{
    match core.decode(actor, hart) {
        Answer::Done(event) => Some(event),
        Answer::Idle | Answer::Full => None,
    }
}

fn rename(core: &mut Core, actor: u8, hart: u8) -> Option<Event>
    ensures { IfSome result (is_allowed core.old.setup core.old.past) }
{
    match core.rename(actor, hart) {
        Answer::Done(event) => Some(event),
        Answer::Idle | Answer::Full => None,
    }
}

/// Retires the oldest instruction of a hart, or fetches it again.
fn retire(core: &mut Core, actor: u8, hart: u8) -> Option<Event>
    ensures { IfSome result (is_allowed core.old.setup core.old.past) }
{
    match core.retire(actor, hart) {
        Answer::Done(event) => Some(event),
        Answer::Idle | Answer::Full => None,
    }
}

fn issue(core: &mut Core, actor: u8) -> Option<Event>
    ensures { IfSome result (is_allowed core.old.setup core.old.past) }
{
    match core.issue(actor) {
        IssueAnswer::Job(job, event) => {
            job.abandon();
            Some(event)
        }
        IssueAnswer::Idle | IssueAnswer::Full => None,
    }
}

/// Works the job that an actor has, and hands it back.
fn complete(core: &mut Core, actor: u8) -> Option<Event>
    ensures { IfSome result (is_allowed core.old.setup core.old.past) }
{
    let open = core
        .parts()
        .0
        .jobs
        .get(usize::from(actor))
        .copied()
        .flatten()?;
    let job = Job::new(open.seq, open.op, open.pc, open.first, open.second);
    match core.complete(actor, work(job)) {
        CompleteAnswer::Done(event) => Some(event),
        CompleteAnswer::Stranger | CompleteAnswer::Full => None,
    }
}
