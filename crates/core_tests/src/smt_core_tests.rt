//! The asks of a core: how a program runs to its end, what is answered where nothing can be done,
//! what is predicted (`predicting`), events that are followed (`following`), and code that is written
//! (`refetching`).

mod following;
mod predicting;
mod refetching;

use crate::asking::{AnswerKind, config, issue, kind_of};
use crate::first_program::{End, FIRST_END, end_of, ended_core, first_core, first_image};
use crate::rows::{holds, holds_at};
use elf_image::Image;
use events::{Event, Next, Outcome};
use smt_core::{Answer, CompleteAnswer, Core, CoreRefused, Done, IssueAnswer};
use std::alloc::Global;
use std::process::Abort;
use test_support::{Always, Behind};

fn is_idle(answer: IssueAnswer) -> bool {
    match answer {
        IssueAnswer::Idle => true,
        IssueAnswer::Full => false,
        IssueAnswer::Job(job, _) => {
            job.abandon();
            false
        }
    }
}

/// A core at the end of the first program: the answer to a fetch, the events of its account and of
/// its history, the jobs that are out, the output's length, and the end.
#[derive(Clone, Copy, Drop)]
struct EndedCore {
    answer: AnswerKind,
    events: u32,
    in_history: usize,
    lent: u32,
    output: usize,
    end: End,
}

fn seen_of(core: &Core, answer: Answer) -> EndedCore {
    let account = core.account();
    EndedCore {
        answer: kind_of(answer),
        events: account.events,
        in_history: core.history().len(),
        lent: account.lent,
        output: account.output.len(),
        end: end_of(core),
    }
}

fn seen_at_the_end(alloc: Global) -> Option<EndedCore> {
    let mut core = ended_core(alloc)?;
    let answer = core.fetch(0, &mut Behind);
    Some(seen_of(&core, answer))
}

#[test]
fn the_first_program_runs_to_its_end(rt: HostRuntime) {
    let seen = seen_at_the_end(rt.alloc()).expect(&rt, "an ended core");
    assert!(rt; seen.answer == AnswerKind::Full);
    assert!(rt; seen.events == 18);
    assert!(rt; seen.in_history == 18);
    assert!(rt; seen.lent == 0);
    assert!(rt; seen.output == 0);
    assert!(rt; seen.end == FIRST_END);
}

/// A hart's register, and what it holds, if there is one.
static REGISTERS: [(u8, u8, Option<u32>); 7] = [
    (0, 0, Some(0)),
    (0, 10, Some(5)),
    (0, 11, Some(1)),
    (0, 17, Some(93)),
    (0, 31, Some(0)),
    (0, 32, None),
    (1, 10, None),
];

/// Two of the 64 registers beyond the hart's own hold x10 and x17 at the end; their first ones are
/// free instead.
static FREE: [u16; 4] = [9, 16, 33, 34];

#[test]
fn the_registers_are_those_of_the_first_program(rt: HostRuntime) {
    let core = ended_core(rt.alloc()).expect(&rt, "an ended core");
    for (hart, register, number) in &REGISTERS {
        let found = core.register(*hart, *register);
        holds_at(&rt, *hart, *register, found == *number);
    }
    for (hart, count) in [(0, Some(0)), (1, None)] {
        holds_at(&rt, hart, 0, core.icount(hart) == count);
    }
    let free = core.free_registers();
    assert!(rt; free.len() == 64);
    assert!(rt; free.as_slice().get(..4) == Some(FREE.as_slice()));
}

/// Whether a core is of an image and sizes.
#[derive(Clone, Copy, Drop)]
struct Origin {
    of_its_own: bool,
    of_others: bool,
}

fn origin_of(core: &Core, image: &Image) -> Origin {
    let (own, other) = (config(1, 64, 16, 1), config(1, 65, 16, 1));
    Origin {
        of_its_own: core.is_of(image, &own.copied()),
        of_others: core.is_of(image, &other),
    }
}

fn origin_of_one(alloc: Global) -> Option<Origin> {
    let image = first_image(alloc)?;
    let core = Core::new(&image, config(1, 64, 16, 1), 18, alloc).ok()?;
    Some(origin_of(&core, &image))
}

#[test]
fn a_core_is_of_its_image_and_sizes(rt: HostRuntime) {
    let origin = origin_of_one(rt.alloc()).expect(&rt, "a core");
    assert!(rt; origin.of_its_own);
    assert!(rt; !origin.of_others);
}

/// Sizes of a core, and whether they are refused.
#[derive(Clone, Copy, Drop)]
struct Sizes {
    harts: u8,
    extra: u16,
    queue: u8,
    actors: usize,
    limit: u32,
    refused: bool,
}

macro_rules! sizes {
    ($harts:expr, $extra:expr, $queue:expr, $actors:expr, $limit:expr, $refused:expr) => {
        Sizes {
            harts: $harts,
            extra: $extra,
            queue: $queue,
            actors: $actors,
            limit: $limit,
            refused: $refused,
        }
    };
}

static SIZES: [(&str, Sizes); 9] = [
    ("no harts", sizes!(0, 64, 16, 1, 1, true)),
    ("17 harts", sizes!(17, 64, 16, 1, 1, true)),
    ("no extra registers", sizes!(1, 0, 16, 1, 1, true)),
    ("529 extra registers", sizes!(1, 529, 16, 1, 1, true)),
    ("a queue of 3", sizes!(1, 64, 3, 1, 1, true)),
    ("a queue of 65", sizes!(1, 64, 65, 1, 1, true)),
    ("no actors", sizes!(1, 64, 16, 0, 1, true)),
    ("a limit too large", sizes!(1, 1, 4, 16, 16_777_217, true)),
    ("the largest", sizes!(16, 528, 64, 32, 1000, false)),
];

/// Whether a core of such sizes is refused for them; None where it is refused for want of memory.
fn is_refused(sizes: &Sizes, alloc: Global) -> Option<bool> {
    let image = first_image(alloc)?;
    let config = config(sizes.harts, sizes.extra, sizes.queue, sizes.actors);
    match Core::new(&image, config, sizes.limit, alloc) {
        Ok(_) => Some(false),
        Err(CoreRefused::Config) => Some(true),
        Err(CoreRefused::Memory) => None,
    }
}

#[test]
fn sizes_that_are_not_a_cores_are_refused(rt: HostRuntime) {
    for (name, sizes) in &SIZES {
        holds(
            &rt,
            name,
            is_refused(sizes, rt.alloc()) == Some(sizes.refused),
        );
    }
}

/// Two actors have a job each, the oldest instructions. Whether actor 0 is given another; the answer
/// to actor 1 for actor 0's job, and for its own, with how many jobs are out after each.
#[derive(Clone, Copy, Drop)]
struct Exchanged {
    idle: bool,
    stranger: CompleteAnswer,
    lent_after_stranger: u32,
    own: CompleteAnswer,
    lent_after_own: u32,
}

fn jobs_exchanged(core: &mut Core) -> Option<Exchanged> {
    let first = issue(core, 0)?;
    let Some(second) = issue(core, 1) else {
        first.abandon();
        return None;
    };
    let idle = is_idle(core.issue(0));
    let stranger = core.complete(1, first);
    let lent_after_stranger = core.account().lent;
    let own = core.complete(1, second);
    Some(Exchanged {
        idle,
        stranger,
        lent_after_stranger,
        own,
        lent_after_own: core.account().lent,
    })
}

fn of_two_actors(alloc: Global) -> Option<Exchanged> {
    let mut core = first_core(config(1, 64, 16, 2), 100, alloc)?;
    for _ in 0..2 {
        core.fetch(0, &mut Behind);
        core.decode(0, 0);
        core.rename(0, 0);
    }
    jobs_exchanged(&mut core)
}

#[test]
fn another_actors_job_is_a_strangers(rt: HostRuntime) {
    let outcome = Outcome {
        value: Some(93),
        next: Next::Pc(0x8000_0008),
        addr: None,
        datum: None,
        out: None,
    };
    let done = CompleteAnswer::Done(Event::Complete {
        actor: 1,
        seq: 1,
        outcome,
    });
    let exchanged = of_two_actors(rt.alloc()).expect(&rt, "two jobs");
    assert!(rt; exchanged.idle);
    assert!(rt; exchanged.stranger == CompleteAnswer::Stranger);
    assert!(rt; exchanged.lent_after_stranger == 2);
    assert!(rt; exchanged.own == done);
    assert!(rt; exchanged.lent_after_own == 1);
}

/// A core of the first program whose first two instructions wait in the queue.
fn with_two(alloc: Global) -> Option<Core> {
    let mut core = first_core(config(1, 64, 16, 1), 100, alloc)?;
    for _ in 0..2 {
        core.fetch(0, &mut Behind);
        core.decode(0, 0);
        core.rename(0, 0);
    }
    Some(core)
}

/// What is done of the second job of such a core.
fn second_done(core: &mut Core) -> Option<Done> {
    let first = issue(core, 0)?;
    core.complete(0, first);
    issue(core, 0)
}

/// What a core answers to what was done of some job.
fn answer_to(core: &mut Core, done: Option<Done>) -> Option<CompleteAnswer> {
    match done {
        Some(done) => Some(core.complete(0, done)),
        None => None,
    }
}

/// What a core whose first job is out answers to what was done of a second job of another core, and
/// of the first one of a third, which is the same in all; then to what was done of its own; and how
/// many jobs are out at the end.
#[derive(Clone, Copy, Drop)]
struct Strangers {
    second: CompleteAnswer,
    same: CompleteAnswer,
    own: CompleteAnswer,
    lent: u32,
}

fn of_other_cores(alloc: Global) -> Option<Strangers> {
    let mut core = with_two(alloc)?;
    let mut other = with_two(alloc)?;
    let mut third = with_two(alloc)?;
    let own = issue(&mut core, 0);
    let second = answer_to(&mut core, second_done(&mut other));
    let same = answer_to(&mut core, issue(&mut third, 0));
    let own = answer_to(&mut core, own);
    Some(Strangers {
        second: second?,
        same: same?,
        own: own?,
        lent: core.account().lent,
    })
}

#[test]
fn another_cores_job_is_a_strangers_unless_it_is_the_same(rt: HostRuntime) {
    let outcome = Outcome {
        value: Some(5),
        next: Next::Pc(0x8000_0004),
        addr: None,
        datum: None,
        out: None,
    };
    let done = CompleteAnswer::Done(Event::Complete {
        actor: 0,
        seq: 0,
        outcome,
    });
    let answers = of_other_cores(rt.alloc()).expect(&rt, "jobs");
    assert!(rt; answers.second == CompleteAnswer::Stranger);
    assert!(rt; answers.same == done);
    assert!(rt; answers.own == CompleteAnswer::Stranger);
    assert!(rt; answers.lent == 0);
}

/// What a core answers to fetches by the actors 1 and 9, a decode, a rename for hart 1 and
/// retirements of the harts 0 and 7, where none of them can be done; whether an issue is idle; and
/// how many events there are then.
#[derive(Clone, Copy, Drop)]
struct Answers {
    stranger: AnswerKind,
    tenth: AnswerKind,
    decode: AnswerKind,
    rename: AnswerKind,
    retire: AnswerKind,
    eighth: AnswerKind,
    idle: bool,
    events: u32,
}

fn answers_of(core: &mut Core) -> Answers {
    Answers {
        stranger: kind_of(core.fetch(1, &mut Always(0))),
        tenth: kind_of(core.fetch(9, &mut Always(0))),
        decode: kind_of(core.decode(0, 0)),
        rename: kind_of(core.rename(0, 1)),
        retire: kind_of(core.retire(0, 0)),
        eighth: kind_of(core.retire(0, 7)),
        idle: is_idle(core.issue(0)),
        events: core.account().events,
    }
}

fn answers_with_room(limit: u32, alloc: Global) -> Option<Answers> {
    let mut core = first_core(config(1, 64, 16, 1), limit, alloc)?;
    Some(answers_of(&mut core))
}

/// Asserts that all answers are alike, and that there is no event.
fn are_all(rt: &impl Abort, answers: &Answers, answer: AnswerKind) {
    holds(rt, "a fetch of actor 1", answers.stranger == answer);
    holds(rt, "a fetch of actor 9", answers.tenth == answer);
    holds(rt, "a decode", answers.decode == answer);
    holds(rt, "a rename for hart 1", answers.rename == answer);
    holds(rt, "a retirement of hart 0", answers.retire == answer);
    holds(rt, "a retirement of hart 7", answers.eighth == answer);
    holds(rt, "the events", answers.events == 0);
}

#[test]
fn full_comes_before_idle_and_idle_where_nothing_can_be_done(rt: HostRuntime) {
    let without = answers_with_room(0, rt.alloc()).expect(&rt, "a core without room");
    are_all(&rt, &without, AnswerKind::Full);
    assert!(rt; !without.idle);
    let with = answers_with_room(1, rt.alloc()).expect(&rt, "a core with room");
    are_all(&rt, &with, AnswerKind::Idle);
    assert!(rt; with.idle);
}

#[test]
fn the_largest_core_has_1024_registers_of_which_528_are_free(rt: HostRuntime) {
    let core = first_core(config(16, 528, 64, 32), 1, rt.alloc()).expect(&rt, "a core");
    let (_parts, registers) = core.parts();
    assert!(rt; registers == 1024);
    let free = core.free_registers();
    assert!(rt; free.len() == 528);
    assert!(rt; free.as_slice().first() == Some(&496));
    assert!(rt; free.as_slice().last() == Some(&1023));
}

/// The hart that a fetch was of.
fn hart_of(answer: Answer) -> Option<u8> {
    match answer {
        Answer::Done(Event::Fetch { hart, .. }) => Some(hart),
        _ => None,
    }
}

// No hart has more instructions that wait than the others have, but those that were fetched already.
#[test]
fn fetches_go_round_sixteen_harts(rt: HostRuntime) {
    let mut core = first_core(config(16, 64, 16, 1), 100, rt.alloc()).expect(&rt, "a core");
    for turn in 0..32u8 {
        assert!(rt; hart_of(core.fetch(0, &mut Behind)) == Some(turn % 16));
    }
}

#[test]
fn a_core_has_the_harts_of_its_sizes(rt: HostRuntime) {
    let core = first_core(config(16, 64, 16, 1), 1, rt.alloc());
    assert!(rt; core.map(|core| core.harts()) == Some(16));
}
