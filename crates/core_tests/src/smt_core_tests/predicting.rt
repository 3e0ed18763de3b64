//! Predictions: each is written into the fetch and followed, a wrong one squashes, and none changes
//! what retires.

ghost use Rattle.std.specs.Prelude.{◌≡◌, ◌+◌, ◌%◌, ◌^◌};

use crate::asking::{AnswerKind, Step, config, core_of, first_other, issue, kind_of, make};
use crate::first_program::first_core;
use crate::rows::is_none;
use events::Event;
use smt_core::{CompleteAnswer, Core, Done, Predict, Status};
use std::alloc::Global;
use test_support::{Always, Behind};

/// A predictor that guesses the pc behind and address 0 by turns, and counts how often it is asked.
#[derive(Drop)]
struct ByTurns {
    asked: u32,
}

impl Predict for ByTurns {
    ghost predicts = { λ before hart pc word guess after. after.asked
        ≡ (before.asked + 1) % 2 ^ 32 };

    fn predict(&mut self, _hart: u8, pc: u32, _word: u32) -> u32 {
        self.asked = self.asked.wrapping_add(1);
        if self.asked % 2 == 1 {
            pc.wrapping_add(4)
        } else {
            0
        }
    }
}

/// jal x5,2
static ASTRAY: [(Step, &str); 5] = [
    (Step::Fetch(0), "F 0 0 0 80000000 002002ef 80000002"),
    (Step::Decode(1, 0), "D 1 0"),
    (Step::Rename(1, 0), "R 1 0 31"),
    (Step::Execute(3), "C 3 0 - s0 - - -"),
    (Step::Retire(2, 0), "T 2 0 - s0 - - -"),
];

/// What is first otherwise in that run, and after it the number of events, how the hart stands, x5,
/// and the first free register.
#[derive(Clone, Copy, Drop)]
struct Astray {
    other: Option<usize>,
    events: usize,
    status: Option<Status>,
    link: Option<u32>,
    free: Option<u16>,
}

fn jump_mispredicted(core: &mut Core) -> Astray {
    let other = first_other(core, &mut Always(0x8000_0002), &ASTRAY);
    Astray {
        other,
        events: core.history().len(),
        status: core.status(0),
        link: core.register(0, 5),
        free: core.free_registers().first().copied(),
    }
}

fn of_a_mispredicted_jump(alloc: Global) -> Option<Astray> {
    let mut core = core_of(&[0x002002ef], 1, alloc)?;
    Some(jump_mispredicted(&mut core))
}

#[test]
fn a_jump_to_a_half_word_stops_at_the_jump(rt: HostRuntime) {
    let astray = of_a_mispredicted_jump(rt.alloc()).expect(&rt, "a core");
    is_none(&rt, "the jump", astray.other);
    assert!(rt; astray.events == 6);
    assert!(rt; astray.status == Some(Status::Stopped(0)));
    // The link is not written, and the register for it is free again.
    assert!(rt; astray.link == Some(0));
    assert!(rt; astray.free == Some(31));
}

/// Number 1 is fetched where no word is, and squashed as number 0 completes.
static WRONG_PATH: [(Step, &str); 7] = [
    (Step::Fetch(0), "F 0 0 0 80000000 00500513 00000000"),
    (Step::Fetch(0), "F 0 0 1 00000000 - 00000004"),
    (Step::Decode(0, 0), "D 0 0"),
    (Step::Decode(0, 0), "D 0 1"),
    (Step::Rename(0, 0), "R 0 0 31"),
    (Step::Rename(0, 0), "R 0 1 -"),
    (Step::Execute(0), "C 0 0 00000005 p80000004 - - -"),
];

static RIGHT_PATH: [(Step, &str); 11] = [
    (Step::Fetch(0), "F 0 0 2 80000004 05d00893 00000000"),
    (Step::Decode(0, 0), "D 0 2"),
    (Step::Rename(0, 0), "R 0 2 32"),
    (Step::Execute(0), "C 0 2 0000005d p80000008 - - -"),
    (Step::Fetch(0), "F 0 0 3 80000008 00000073 00000000"),
    (Step::Decode(0, 0), "D 0 3"),
    (Step::Rename(0, 0), "R 0 3 -"),
    (Step::Execute(0), "C 0 3 - e00000005 - - -"),
    (Step::Retire(0, 0), "T 0 0 00000005 p80000004 - - -"),
    (Step::Retire(0, 0), "T 0 2 0000005d p80000008 - - -"),
    (Step::Retire(0, 0), "T 0 3 - e00000005 - - -"),
];

/// What is first otherwise on the wrong path, and the count of instructions before the issue after
/// it; what is first otherwise behind it, and after that the number of events and how the hart
/// stands.
#[derive(Clone, Copy, Drop)]
struct Wrong {
    other: Option<usize>,
    icount: Option<u32>,
    other_behind: Option<usize>,
    events: usize,
    status: Option<Status>,
}

fn always_wrong(core: &mut Core) -> Wrong {
    let other = first_other(core, &mut Always(0), &WRONG_PATH);
    let icount = core.icount(0);
    let other_behind = first_other(core, &mut Always(0), &RIGHT_PATH);
    Wrong {
        other,
        icount,
        other_behind,
        events: core.history().len(),
        status: core.status(0),
    }
}

fn of_wrong_guesses(alloc: Global) -> Option<Wrong> {
    let mut core = first_core(config(1, 64, 16, 1), 1000, alloc)?;
    Some(always_wrong(&mut core))
}

#[test]
fn a_predictor_that_is_always_wrong_changes_nothing_that_retires(rt: HostRuntime) {
    let wrong = of_wrong_guesses(rt.alloc()).expect(&rt, "a core");
    is_none(&rt, "the wrong path", wrong.other);
    assert!(rt; wrong.icount == Some(0));
    is_none(&rt, "the right path", wrong.other_behind);
    assert!(rt; wrong.events == 21);
    assert!(rt; wrong.status == Some(Status::Ended(5)));
}

/// Two harts run `addi x5,x0,3`, `beq x0,x0,0x8000000c`, `mul x7,x5,x5`, `addi x8,x0,9`, `ebreak`.
/// The branch of hart 0 is predicted to go on behind, and the product, number 4, is handed out.
fn late_product(core: &mut Core) -> Option<Done> {
    for step in [Step::Fetch(0), Step::Decode(1, 0), Step::Rename(1, 0)] {
        let times = if matches!(step, Step::Fetch(_)) { 6 } else { 3 };
        for _ in 0..times {
            make(core, &mut Behind, step);
        }
    }
    make(core, &mut Behind, Step::Execute(3));
    issue(core, 4)
}

/// The branch is taken, and the product behind it squashed: its register is free, and given to hart
/// 1.
static SQUASHED: [(Step, &str); 4] = [
    (Step::Execute(3), "C 3 2 - p8000000c - - -"),
    (Step::Decode(1, 1), "D 1 1"),
    (Step::Rename(1, 1), "R 1 1 63"),
    (Step::Execute(3), "C 3 1 00000003 p80000004 - - -"),
];

/// The number in the register is hart 1's 3, and not the product 9. Hart 0 goes on where the branch
/// leads.
static AFTER: [(Step, &str); 2] = [
    (Step::Retire(2, 1), "T 2 1 00000003 p80000004 - - -"),
    (Step::Fetch(0), "F 0 0 6 8000000c 00900413 80000010"),
];

/// The twelfth event, what is first otherwise before the product comes and after it, what is
/// answered to it, the number of events then, and x5 of hart 1 at the end.
#[derive(Clone, Copy, Drop)]
struct Late {
    twelfth: Option<Event>,
    other_before: Option<usize>,
    answer: CompleteAnswer,
    events: usize,
    other_after: Option<usize>,
    register: Option<u32>,
}

fn late_and_dropped(core: &mut Core) -> Option<Late> {
    let late = late_product(core)?;
    let twelfth = core.history().get(11);
    let other_before = first_other(core, &mut Behind, &SQUASHED);
    let answer = core.complete(4, late);
    let events = core.history().len();
    let other_after = first_other(core, &mut Behind, &AFTER);
    Some(Late {
        twelfth,
        other_before,
        answer,
        events,
        other_after,
        register: core.register(1, 5),
    })
}

fn of_a_late_job(alloc: Global) -> Option<Late> {
    let words = [0x00300293, 0x00000463, 0x025283b3, 0x00900413, 0x00100073];
    let mut core = core_of(&words, 2, alloc)?;
    late_and_dropped(&mut core)
}

#[test]
fn a_late_job_of_a_squashed_instruction_is_dropped(rt: HostRuntime) {
    let renamed = Event::Rename {
        actor: 1,
        seq: 4,
        phys: Some(63),
    };
    let dropped = CompleteAnswer::Done(Event::Drop { actor: 4, seq: 4 });
    let late = of_a_late_job(rt.alloc()).expect(&rt, "a product");
    assert!(rt; late.twelfth == Some(renamed));
    is_none(&rt, "the squash", late.other_before);
    assert!(rt; late.answer == dropped);
    assert!(rt; late.events == 22);
    is_none(&rt, "after the squash", late.other_after);
    assert!(rt; late.register == Some(3));
}

static ASKED: [(Step, &str); 5] = [
    (Step::Fetch(0), "F 0 0 0 80000000 00500513 80000004"),
    (Step::Fetch(0), "F 0 0 1 80000004 05d00893 00000000"),
    (Step::Fetch(0), "F 0 0 2 00000000 - 00000004"),
    (Step::Fetch(0), "F 0 0 3 00000004 - 00000008"),
    (Step::Decode(0, 0), "D 0 0"),
];

/// The answers to a stranger's fetch and to one without room, how often the predictor was asked
/// after each, and what is first otherwise in between.
#[derive(Clone, Copy, Drop)]
struct Asked {
    stranger: AnswerKind,
    asked_by_stranger: u32,
    other: Option<usize>,
    last: AnswerKind,
    asked: u32,
}

fn asks_counted(core: &mut Core) -> Asked {
    let mut predictor = ByTurns { asked: 0 };
    let stranger = kind_of(core.fetch(1, &mut predictor));
    let asked_by_stranger = predictor.asked;
    let other = first_other(core, &mut predictor, &ASKED);
    let last = kind_of(core.fetch(0, &mut predictor));
    Asked {
        stranger,
        asked_by_stranger,
        other,
        last,
        asked: predictor.asked,
    }
}

fn asked_of_five(alloc: Global) -> Option<Asked> {
    let mut core = first_core(config(1, 64, 16, 1), 5, alloc)?;
    Some(asks_counted(&mut core))
}

#[test]
fn a_predictor_is_asked_at_each_word_and_only_there(rt: HostRuntime) {
    let asked = asked_of_five(rt.alloc()).expect(&rt, "a core");
    assert!(rt; asked.stranger == AnswerKind::Idle);
    assert!(rt; asked.asked_by_stranger == 0);
    is_none(&rt, "five asks", asked.other);
    assert!(rt; asked.last == AnswerKind::Full);
    assert!(rt; asked.asked == 2);
}

/// The first program under the predictor that guesses by turns, up to the end of its call.
static BY_TURNS: [Step; 9] = [
    Step::Fetch(0),
    Step::Fetch(0),
    Step::Fetch(0),
    Step::Decode(0, 0),
    Step::Decode(0, 0),
    Step::Rename(0, 0),
    Step::Rename(0, 0),
    Step::Execute(0),
    Step::Execute(0),
];

/// The second guess was wrong: number 2, fetched at 0, is squashed, and the hart goes on behind
/// number 1.
static CHANGED: [(Step, &str); 7] = [
    (Step::Fetch(0), "F 0 0 3 80000008 00000073 8000000c"),
    (Step::Decode(0, 0), "D 0 3"),
    (Step::Rename(0, 0), "R 0 3 -"),
    (Step::Execute(0), "C 0 3 - e00000005 - - -"),
    (Step::Retire(0, 0), "T 0 0 00000005 p80000004 - - -"),
    (Step::Retire(0, 0), "T 0 1 0000005d p80000008 - - -"),
    (Step::Retire(0, 0), "T 0 3 - e00000005 - - -"),
];

/// What is first otherwise after that, how often the predictor was asked, and how the hart stands.
#[derive(Clone, Copy, Drop)]
struct Guessed {
    other: Option<usize>,
    asked: u32,
    status: Option<Status>,
}

fn guesses_changed(core: &mut Core) -> Guessed {
    let mut predictor = ByTurns { asked: 0 };
    for step in &BY_TURNS {
        make(core, &mut predictor, *step);
    }
    let other = first_other(core, &mut predictor, &CHANGED);
    Guessed {
        other,
        asked: predictor.asked,
        status: core.status(0),
    }
}

fn of_changed_guesses(alloc: Global) -> Option<Guessed> {
    let mut core = first_core(config(1, 64, 16, 1), 1000, alloc)?;
    Some(guesses_changed(&mut core))
}

#[test]
fn a_predictor_may_change_its_guesses(rt: HostRuntime) {
    let guessed = of_changed_guesses(rt.alloc()).expect(&rt, "a core");
    is_none(&rt, "after the guesses", guessed.other);
    assert!(rt; guessed.asked == 3);
    assert!(rt; guessed.status == Some(Status::Ended(5)));
}
