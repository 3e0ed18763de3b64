//! Sizes of cores, and the asks of a run with the events that they should make.

use arrayvec::ArrayVec;
use event_text::{THIRD_RANGES, read_event_within};
use events::Event;
use smt_core::{Answer, CompleteAnswer, Config, Core, Done, IssueAnswer, Predict, Role, work};
use std::alloc::Global;
use test_support::{file_of, image_of};

/// Sizes with so many actors, each a unit for arithmetic.
pub fn config(harts: u8, extra: u16, queue: u8, actors: usize) -> Config {
    let mut roles = ArrayVec::new();
    for _ in 0..actors {
        let _ = roles.try_push(Role::Alu);
    }
    Config {
        harts,
        extra,
        queue,
        roles,
    }
}

/// Sizes with actors 0, 1 and 2 for fetching, the front and retiring, and the units 3, 4 and 5 for
/// arithmetic, products and memory.
pub fn one_of_each(harts: u8) -> Config {
    let mut roles = ArrayVec::new();
    for role in [
        Role::Fetch,
        Role::Front,
        Role::Retire,
        Role::Alu,
        Role::Mul,
        Role::Mem,
    ] {
        let _ = roles.try_push(role);
    }
    Config {
        harts,
        extra: 64,
        queue: 16,
        roles,
    }
}

/// A core for these words, with one actor of each role and room for a thousand events.
pub fn core_of(words: &[u32], harts: u8, alloc: Global) -> Option<Core> {
    let Ok(file) = file_of(words, 0, alloc) else {
        return None;
    };
    let image = image_of(&file, 65536, alloc)?;
    Core::new(&image, one_of_each(harts), 1000, alloc).ok()
}

/// An ask, by its actor. `Execute` issues and completes.
#[derive(Clone, Copy, Drop)]
pub enum Step {
    Fetch(u8),
    Decode(u8, u8),
    Rename(u8, u8),
    Execute(u8),
    Retire(u8, u8),
}

/// Makes an ask, for the event that it wrote last.
pub fn make<P: Predict>(core: &mut Core, predictor: &mut P, step: Step) -> Option<Event> {
    match step {
        Step::Fetch(actor) => event(core.fetch(actor, predictor)),
        Step::Decode(actor, hart) => event(core.decode(actor, hart)),
        Step::Rename(actor, hart) => event(core.rename(actor, hart)),
        Step::Execute(actor) => execute(core, actor),
        Step::Retire(actor, hart) => event(core.retire(actor, hart)),
    }
}

/// Whether an event came, and is printed as this line: each line is read as one event alone.
fn is_line(event: Option<Event>, line: &str) -> bool {
    match event {
        Some(event) => read_event_within(line.as_bytes(), THIRD_RANGES) == Ok(event),
        None => false,
    }
}

/// Makes asks in order. Answers the place of the first that doesn't write the event of the line
/// beside it, as its last.
pub fn first_other<P: Predict>(
    core: &mut Core,
    predictor: &mut P,
    run: &[(Step, &str)],
) -> Option<usize> {
    for (place, (step, line)) in run.iter().enumerate() {
        let event = make(core, predictor, *step);
        if !is_line(event, line) {
            return Some(place);
        }
    }
    None
}

/// What an answer is, beside its event.
#[derive(Clone, Copy, PartialEq, Eq, Drop)]
pub enum AnswerKind {
    Done,
    Idle,
    Full,
}

pub fn kind_of(answer: Answer) -> AnswerKind {
    match answer {
        Answer::Done(_) => AnswerKind::Done,
        Answer::Idle => AnswerKind::Idle,
        Answer::Full => AnswerKind::Full,
    }
}

/// The event of an answer.
fn event(answer: Answer) -> Option<Event> {
    match answer {
        Answer::Done(event) => Some(event),
        Answer::Idle | Answer::Full => None,
    }
}

/// What is done of the job that the actor is given, if it is given one.
pub fn issue(core: &mut Core, actor: u8) -> Option<Done> {
    match core.issue(actor) {
        IssueAnswer::Job(job, _) => Some(work(job)),
        IssueAnswer::Idle | IssueAnswer::Full => None,
    }
}

fn execute(core: &mut Core, actor: u8) -> Option<Event> {
    let done = issue(core, actor)?;
    match core.complete(actor, done) {
        CompleteAnswer::Done(event) => Some(event),
        CompleteAnswer::Stranger | CompleteAnswer::Full => None,
    }
}
