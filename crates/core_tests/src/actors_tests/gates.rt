//! Gates that let all on, and gates that ask for a stop.

use super::{MANY_TURNS, RunEnd, first_run, seen_of};
use crate::asking::one_of_each;
use crate::rows::holds;
use actors::{Gate, Open, Point, StaticPredictor, run};
use core_lock::BoardView;
use events::Event;
use history_check::check;
use numbers::sizes::MOST_ACTORS;
use smt_core::{Core, Status};
use std::alloc::{AllocError, Global};
use std::sync::Wait;
use std::sync::atomic::{AtomicU64, Ordering};
use std::thread::Threads;
use test_support::{file_of, image_of};

/// Whether a gate lets an actor go on at both points.
fn lets_on<G: Gate>(gate: &G) -> bool {
    let seen = BoardView {
        counts: [0; MOST_ACTORS],
        stop: 0,
    };
    gate.at(3, Point::Turn, &seen) && gate.at(3, Point::Job, &seen)
}

#[test]
fn the_open_gate_lets_all_on(rt: HostRuntime) {
    assert!(rt; lets_on(&Open));
}

/// A gate that lets nobody on at one of the points.
#[derive(Drop)]
struct ShutAt(Point);

impl Gate for ShutAt {
    fn at(&self, _actor: u8, point: Point, _seen: &BoardView) -> bool {
        point != self.0
    }
}

/// How the first program ends, run behind such a gate.
fn end_behind<R: Threads + Wait + Sync>(rt: &R, shut: Point, alloc: Global) -> Option<RunEnd> {
    let gate = ShutAt(shut);
    let ran = first_run(rt, one_of_each(1), 1000, MANY_TURNS, &gate, alloc)?;
    Some(seen_of(&ran.ok()?))
}

#[test]
fn behind_a_gate_that_is_shut_at_the_first_turn_there_is_no_event(rt: HostRuntime) {
    let end = end_behind(&rt, Point::Turn, rt.alloc()).expect(&rt, "a run");
    assert!(rt; end.events == 0);
    assert!(rt; end.status == Some(Status::Going));
}

#[test]
fn a_job_in_hand_is_handed_over_before_a_stop(rt: HostRuntime) {
    let end = end_behind(&rt, Point::Job, rt.alloc()).expect(&rt, "a run");
    assert!(rt; end.units_count == 2);
    assert!(rt; end.lent == 0);
    assert!(rt; end.status == Some(Status::Going));
    assert!(rt; end.all_agreed);
}

/// A gate that lets on whoever asks, but not at one of the calls, which count from 1.
#[derive(Drop)]
struct ShutOnce {
    calls: AtomicU64,
    shut: u64,
}

impl Gate for ShutOnce {
    fn at(&self, _actor: u8, _point: Point, _seen: &BoardView) -> bool {
        self.calls.fetch_add(1, Ordering::SeqCst) != self.shut.wrapping_sub(1)
    }
}

/// The history of a core, the oldest event first.
fn history_of(core: &Core, alloc: Global) -> Result<Vec<Event>, AllocError> {
    let mut events = Vec::new(alloc);
    for event in core.history().iter() {
        events.push(event)?;
    }
    Ok(events)
}

/// Whether a program without an end, run behind a gate that is shut at one of its calls, leaves no
/// job with a unit, a hart that is going, and a legal history.
fn ends_well<R: Threads + Wait + Sync>(rt: &R, shut: u64, alloc: Global) -> Option<bool> {
    // jal x0,0
    let file = file_of(&[0x0000_006F], 0, alloc).ok()?;
    let image = image_of(&file, 4096, alloc)?;
    let gate = ShutOnce {
        calls: AtomicU64::new(0),
        shut,
    };
    let config = one_of_each(1);
    let ran = run(
        rt,
        &image,
        config,
        10_000,
        MANY_TURNS,
        &gate,
        StaticPredictor,
        alloc,
    );
    let finished = ran.ok()?;
    let events = history_of(&finished.core, alloc).ok()?;
    let is_legal = check(&image, one_of_each(1), events.as_slice(), alloc).is_ok();
    let end = seen_of(&finished);
    Some(is_legal && end.lent == 0 && end.status == Some(Status::Going) && end.all_agreed)
}

#[test]
fn a_gate_may_be_shut_at_any_call(rt: HostRuntime) {
    for shut in 1..101u64 {
        let ends = ends_well(&rt, shut, rt.alloc());
        holds(&rt, "a gate that is shut at a call", ends == Some(true));
    }
}
