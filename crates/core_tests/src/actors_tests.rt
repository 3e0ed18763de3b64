//! Runs of a program with a thread for each actor: how they end, when there is none, where a gate is
//! shut (`gates`), and what every actor's gate sees (`looking`).

mod gates;
mod looking;

use crate::asking::one_of_each;
use crate::first_program::{End, FIRST_END, end_of, first_image};
use crate::rows::counts;
use actors::{Gate, Open, RunRefused, StaticPredictor, run};
use smt_core::{Config, Finished, Status};
use std::alloc::Global;
use std::sync::Wait;
use std::thread::Threads;
use test_support::{Miscount, first_miscount};

/// More turns than any run here takes.
const MANY_TURNS: u64 = 1_000_000_000;

/// A run of the first program.
fn first_run<G: Gate + Sync, R: Threads + Wait + Sync>(
    rt: &R,
    config: Config,
    limit: u32,
    turns: u64,
    gate: &G,
    alloc: Global,
) -> Option<Result<Finished, RunRefused>> {
    let image = first_image(alloc)?;
    Some(run(
        rt,
        &image,
        config,
        limit,
        turns,
        gate,
        StaticPredictor,
        alloc,
    ))
}

/// A finished run of one hart: its events, and how many of them are the arithmetic unit's; the jobs
/// that are out, how the hart stands, the end, whether all passes agreed with the history, whether
/// the core was of its image and sizes, and where a pass miscounted.
#[derive(Clone, Copy, Drop)]
struct RunEnd {
    events: u32,
    units_count: u64,
    lent: u32,
    status: Option<Status>,
    end: End,
    all_agreed: bool,
    own: bool,
    miscount: Option<Miscount>,
}

fn seen_of(finished: &Finished) -> RunEnd {
    let account = finished.core.account();
    RunEnd {
        events: account.events,
        units_count: finished.counts[3],
        lent: account.lent,
        status: finished.core.status(0),
        end: end_of(&finished.core),
        all_agreed: finished.told,
        own: finished.own,
        miscount: first_miscount(finished),
    }
}

/// How a run of the first program ends on one hart with an actor of each role, with room for so many
/// events and so many turns.
fn first_run_end<R: Threads + Wait + Sync>(
    rt: &R,
    limit: u32,
    turns: u64,
    alloc: Global,
) -> Option<RunEnd> {
    let ran = first_run(rt, one_of_each(1), limit, turns, &Open, alloc)?;
    Some(seen_of(&ran.ok()?))
}

#[test]
fn six_actors_run_the_first_program_to_its_end(rt: HostRuntime) {
    let end = first_run_end(&rt, 1000, MANY_TURNS, rt.alloc()).expect(&rt, "a run");
    assert!(rt; end.end == FIRST_END);
    assert!(rt; end.status == Some(Status::Ended(5)));
    assert!(rt; end.lent == 0);
    assert!(rt; end.all_agreed);
    assert!(rt; end.own);
    counts(&rt, "six actors", end.miscount);
}

#[test]
fn actors_without_turns_make_no_event(rt: HostRuntime) {
    let end = first_run_end(&rt, 1000, 0, rt.alloc()).expect(&rt, "a run");
    assert!(rt; end.events == 0);
    assert!(rt; end.status == Some(Status::Going));
}

#[test]
fn actors_without_room_make_no_event(rt: HostRuntime) {
    let end = first_run_end(&rt, 0, MANY_TURNS, rt.alloc()).expect(&rt, "a run");
    assert!(rt; end.events == 0);
    assert!(rt; end.status == Some(Status::Going));
}

/// Why there was no run of the first program, if there was none.
fn refused<R: Threads + Wait + Sync>(
    rt: &R,
    config: Config,
    limit: u32,
    alloc: Global,
) -> Option<RunRefused> {
    first_run(rt, config, limit, MANY_TURNS, &Open, alloc)?.err()
}

#[test]
fn a_run_needs_an_actor_of_each_role(rt: HostRuntime) {
    let mut config = one_of_each(1);
    config.roles.pop();
    assert!(rt; refused(&rt, config, 1000, rt.alloc()) == Some(RunRefused::Roles));
}

#[test]
fn a_run_needs_a_core(rt: HostRuntime) {
    let mut config = one_of_each(17);
    config.roles.pop();
    assert!(rt; refused(&rt, config, 1000, rt.alloc()) == Some(RunRefused::Config));
    let past_most = 16_777_217;
    assert!(rt; refused(&rt, one_of_each(1), past_most, rt.alloc()) == Some(RunRefused::Config));
}
