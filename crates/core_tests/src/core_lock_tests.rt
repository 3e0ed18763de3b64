//! One core behind a lock, asked by two threads, and one that is asked without a lock; in `posting` the
//! board, and in `resting` how threads rest there.

mod posting;
mod resting;

ghost use Rattle.std.specs.Prelude.{◌≡◌};
ghost use Rattle.numbers.specs.Sizes.{most_actors};

use crate::first_program::{End, FIRST_END, end_of, first_image};
use crate::rows::counts;
use arrayvec::ArrayVec;
use core_lock::{Ask, CoreReader, Held, LockedCore, Origin, Pass, Said, Unlocked};
use elf_image::Image;
use events::Event;
use numbers::sizes::MOST_ACTORS;
use smt_core::{Config, Core, Done, Finished, Role, work};
use std::alloc::Global;
use std::marker::Brand;
use std::sync::Wait;
use std::sync::ledger::Blank;
use std::thread;
use std::thread::Threads;
use test_support::{Behind, Miscount, first_miscount};

/// A reader that stores whether the pass has its actor's count and last event in the history.
#[derive(Drop)]
struct PassReader(bool);

impl CoreReader for PassReader {
    ghost reads = { λ before core told after. after.0 ≡ told };

    fn read(&mut self, _core: &Core, told: bool) {
        self.0 = told;
    }
}

/// One hart, an actor that fetches and one that is an arithmetic unit.
fn config() -> Config {
    let mut roles = ArrayVec::new();
    let _ = roles.try_push(Role::Fetch);
    let _ = roles.try_push(Role::Alu);
    Config {
        harts: 1,
        extra: 64,
        queue: 16,
        roles,
    }
}

fn abandon(done: Option<Done>) {
    if let Some(done) = done {
        done.abandon();
    }
}

/// What is done of the job that came, if one came.
fn worked(answer: Said) -> Option<Done> {
    match answer {
        Said::Job(job, _) => Some(work(job)),
        Said::Event(_) | Said::Idle | Said::Stranger | Said::Full => None,
    }
}

/// Makes an ask: how many harts are going then, and what is done of the job that came.
fn make_ask<L: Origin, R: Wait>(
    rt: &R,
    core: &LockedCore<L>,
    pass: &mut Pass<L>,
    asked: Ask,
) -> (u8, Option<Done>) {
    let reply = core.step(rt, pass, asked, &mut Behind);
    let going = reply.going();
    (going, worked(reply.said()))
}

/// Whether the pass agrees with the history at a look: it has its actor's count and last event.
fn agrees<L: Origin, R: Wait>(rt: &R, core: &LockedCore<L>, pass: &Pass<L>) -> bool {
    let mut reader = PassReader(false);
    core.look(rt, pass, &mut reader);
    reader.0
}

/// Four Fetch asks; whether the pass agrees at a look afterwards.
fn four_fetches<L: Origin, R: Wait>(rt: &R, core: &LockedCore<L>, pass: &mut Pass<L>) -> bool {
    for _ in 0..4 {
        let (_going, done) = make_ask(rt, core, pass, Ask::Fetch);
        abandon(done);
    }
    agrees(rt, core, pass)
}

/// Every other ask, in turn; how many harts are going then.
fn turn<L: Origin, R: Wait>(rt: &R, core: &LockedCore<L>, pass: &mut Pass<L>) -> u8 {
    let (_going, done) = make_ask(rt, core, pass, Ask::Decode(0));
    abandon(done);
    let (_going, done) = make_ask(rt, core, pass, Ask::Rename(0));
    abandon(done);
    let (_going, done) = make_ask(rt, core, pass, Ask::Issue);
    if let Some(done) = done {
        let (_going, done) = make_ask(rt, core, pass, Ask::Complete(done));
        abandon(done);
    }
    let (going, done) = make_ask(rt, core, pass, Ask::Retire(0));
    abandon(done);
    going
}

/// The other asks until no hart is going; whether the pass agrees at a look afterwards.
fn the_rest<L: Origin, R: Wait>(rt: &R, core: &LockedCore<L>, pass: &mut Pass<L>) -> bool {
    for _ in rt.forever() {
        if turn(rt, core, pass) == 0 {
            break;
        }
        thread::yield_now();
    }
    agrees(rt, core, pass)
}

/// What comes of two threads, and whether each one's pass agreed at its last look.
#[derive(Drop)]
struct Joined {
    finished: Finished,
    first_agreed: bool,
    second_agreed: bool,
}

fn two_with<L: Origin + Send + Sync, R: Threads + Wait + Sync>(
    rt: &R,
    core: Core,
    blank: Blank,
    image: &Image,
) -> Joined
    requires name { blank.name ≡ L.name }
    requires parts { (blank.parts ≡ L.parts) × (L.parts ≡ most_actors) }
    requires origin { (core.setup ≡ L.setup) × (core.limit ≡ L.limit) }
{
    let (core, passes) = LockedCore::<L>::new(core, blank);
    // No part of an array is lent while another is: each pass has a name.
    let [
        mut first,
        mut second,
        p2,
        p3,
        p4,
        p5,
        p6,
        p7,
        p8,
        p9,
        p10,
        p11,
        p12,
        p13,
        p14,
        p15,
        p16,
        p17,
        p18,
        p19,
        p20,
        p21,
        p22,
        p23,
        p24,
        p25,
        p26,
        p27,
        p28,
        p29,
        p30,
        p31,
    ] = passes;
    let (a, b) = (&mut first, &mut second);
    let shared = &core;
    let (first_agreed, second_agreed) = thread::join(
        rt,
        move || four_fetches(rt, shared, a),
        move || the_rest(rt, shared, b),
    );
    let passes = [
        first, second, p2, p3, p4, p5, p6, p7, p8, p9, p10, p11, p12, p13, p14, p15, p16, p17, p18,
        p19, p20, p21, p22, p23, p24, p25, p26, p27, p28, p29, p30, p31,
    ];
    Joined {
        finished: core.finish(passes, image, &config()),
        first_agreed,
        second_agreed,
    }
}

fn two<R: Threads + Wait + Sync>(rt: &R, core: Core, image: &Image) -> Joined {
    two_with::<Brand, R>(rt, core, Blank::new(MOST_ACTORS as u64), image)
}

/// Whether each of two threads' passes agreed at its last look, whether all did at the end, whether
/// the core was of its image and sizes, where a pass miscounted, and how the core ended.
#[derive(Clone, Copy, Drop)]
struct TwoThreads {
    first_agreed: bool,
    second_agreed: bool,
    all_agreed: bool,
    own: bool,
    miscount: Option<Miscount>,
    end: End,
}

fn of_two_threads<R: Threads + Wait + Sync>(rt: &R, alloc: Global) -> Option<TwoThreads> {
    let image = first_image(alloc)?;
    let core = Core::new(&image, config(), 100, alloc).ok()?;
    let joined = two(rt, core, &image);
    Some(TwoThreads {
        first_agreed: joined.first_agreed,
        second_agreed: joined.second_agreed,
        all_agreed: joined.finished.told,
        own: joined.finished.own,
        miscount: first_miscount(&joined.finished),
        end: end_of(&joined.finished.core),
    })
}

#[test]
fn two_threads_run_the_first_program_to_its_end(rt: HostRuntime) {
    let two = of_two_threads(&rt, rt.alloc()).expect(&rt, "a core");
    assert!(rt; two.first_agreed);
    assert!(rt; two.second_agreed);
    assert!(rt; two.all_agreed);
    assert!(rt; two.own);
    counts(&rt, "two threads", two.miscount);
    assert!(rt; two.end == FIRST_END);
}

/// A core that is asked without a lock: at the start the second pass's count and last event; the
/// answers to a Fetch, an Issue, a Decode and, with no room for an event, a Decode; how many harts
/// were going; and the end.
#[derive(Drop)]
struct Alone {
    count: u64,
    last: Option<Event>,
    fetched: Option<Event>,
    idle: bool,
    decoded: Option<Event>,
    full: bool,
    going: u8,
    unlocked: Unlocked,
}

fn ask_alone_with<L: Origin>(core: Core, blank: Blank, image: &Image) -> Alone
    requires name { blank.name ≡ L.name }
    requires parts { (blank.parts ≡ L.parts) × (L.parts ≡ most_actors) }
    requires origin { (core.setup ≡ L.setup) × (core.limit ≡ L.limit) }
{
    let (mut held, mut passes) = Held::<L>::new(core, blank);
    let count = passes[1].count();
    let last = passes[1].last();
    let answer = held.step(&mut passes[0], Ask::Fetch, &mut Behind).said();
    let fetched = answer.event();
    abandon(worked(answer));
    let answer = held.step(&mut passes[1], Ask::Issue, &mut Behind).said();
    let idle = matches!(&answer, Said::Idle);
    abandon(worked(answer));
    let reply = held.step(&mut passes[1], Ask::Decode(0), &mut Behind);
    let going = reply.going();
    let answer = reply.said();
    let decoded = answer.event();
    abandon(worked(answer));
    let answer = held
        .step(&mut passes[0], Ask::Decode(0), &mut Behind)
        .said();
    let full = matches!(&answer, Said::Full);
    abandon(worked(answer));
    Alone {
        count,
        last,
        fetched,
        idle,
        decoded,
        full,
        going,
        unlocked: held.finish(passes, image, &config()),
    }
}

fn ask_alone(core: Core, image: &Image) -> Alone {
    ask_alone_with::<Brand>(core, Blank::new(MOST_ACTORS as u64), image)
}

/// What is asserted of such a core: besides the answers, what the first two passes counted and how many
/// of their asks were idle, of the second's also by what the lock has counted, whether
/// all passes agreed at the end, whether the core was of its image and sizes, and where a pass
/// miscounted.
#[derive(Clone, Copy, Drop)]
struct AskedAlone {
    count: u64,
    last: Option<Event>,
    fetched: Option<Event>,
    idle: bool,
    decoded: Option<Event>,
    full: bool,
    going: u8,
    first_count: u64,
    second_count: u64,
    first_idle: u64,
    second_idle: u64,
    second_asks: u64,
    all_agreed: bool,
    own: bool,
    miscount: Option<Miscount>,
}

fn seen_of(alone: &Alone) -> AskedAlone {
    let finished = &alone.unlocked.finished;
    let asks = alone.unlocked.asks.each();
    AskedAlone {
        count: alone.count,
        last: alone.last,
        fetched: alone.fetched,
        idle: alone.idle,
        decoded: alone.decoded,
        full: alone.full,
        going: alone.going,
        first_count: finished.counts[0],
        second_count: finished.counts[1],
        first_idle: finished.idle[0],
        second_idle: finished.idle[1],
        second_asks: asks[1],
        all_agreed: finished.told,
        own: finished.own,
        miscount: first_miscount(finished),
    }
}

/// A core with room for four events, of which two are actor 1's.
fn two_by_actor_1(alloc: Global) -> Option<AskedAlone> {
    let image = first_image(alloc)?;
    let mut core = Core::new(&image, config(), 4, alloc).ok()?;
    core.fetch(1, &mut Behind);
    core.decode(1, 0);
    Some(seen_of(&ask_alone(core, &image)))
}

#[test]
fn passes_begin_with_the_counts_of_their_actors(rt: HostRuntime) {
    let fetched = Event::Fetch {
        actor: 0,
        hart: 0,
        seq: 1,
        pc: 0x8000_0004,
        word: Some(0x05D0_0893),
        predicted: 0x8000_0008,
    };
    let asked = two_by_actor_1(rt.alloc()).expect(&rt, "a core");
    assert!(rt; asked.count == 2);
    assert!(rt; asked.last == Some(Event::Decode { actor: 1, seq: 0 }));
    assert!(rt; asked.fetched == Some(fetched));
    assert!(rt; asked.idle);
    assert!(rt; asked.decoded == Some(Event::Decode { actor: 1, seq: 1 }));
    assert!(rt; asked.full);
    assert!(rt; asked.going == 1);
    assert!(rt; asked.first_count == 1);
    assert!(rt; asked.second_count == 3);
    assert!(rt; asked.first_idle == 0);
    assert!(rt; asked.second_idle == 1);
    assert!(rt; asked.second_asks == 1);
    assert!(rt; asked.all_agreed);
    assert!(rt; asked.own);
    counts(&rt, "alone", asked.miscount);
}

/// Who asks by the second pass and by the reply to it, and what was asked, by the ask itself and by
/// the reply.
#[derive(Clone, Copy, Drop)]
struct Replied {
    passes_actor: u8,
    replys_actor: u8,
    asked: core_lock::Asked,
    replys_asked: core_lock::Asked,
}

fn answered_with<L: Origin>(core: Core, blank: Blank) -> Replied
    requires name { blank.name ≡ L.name }
    requires parts { (blank.parts ≡ L.parts) × (L.parts ≡ most_actors) }
    requires origin { (core.setup ≡ L.setup) × (core.limit ≡ L.limit) }
{
    let (mut held, mut passes) = Held::<L>::new(core, blank);
    let ask = Ask::Decode(0);
    let asked = ask.asked();
    let reply = held.step(&mut passes[1], ask, &mut Behind);
    let answered = Replied {
        passes_actor: passes[1].actor(),
        replys_actor: reply.actor(),
        asked,
        replys_asked: reply.asked(),
    };
    abandon(worked(reply.said()));
    answered
}

fn answered_alone(core: Core) -> Replied {
    answered_with::<Brand>(core, Blank::new(MOST_ACTORS as u64))
}

fn answered(alloc: Global) -> Option<Replied> {
    let image = first_image(alloc)?;
    let core = Core::new(&image, config(), 4, alloc).ok()?;
    Some(answered_alone(core))
}

#[test]
fn a_reply_names_who_asked_and_what(rt: HostRuntime) {
    let answered = answered(rt.alloc()).expect(&rt, "a core");
    let decode = core_lock::Asked::Decode(0);
    assert!(rt; answered.passes_actor == 1);
    assert!(rt; answered.replys_actor == 1);
    assert!(rt; answered.asked == decode);
    assert!(rt; answered.replys_asked == decode);
}
