ghost use Rattle.std.specs.Prelude.{◌≡◌, ◌≤◌, ◌+◌, nat_lt, if◌then◌else◌, true};
ghost use Rattle.actors.specs.Naming.{Fits};
ghost use Rattle.actors.specs.Turns.{IsTurn};

use crate::desk::{Desk, Naming, Placed};
use crate::gate::{Gate, Point};
use crate::patience::{Patience, turns_of_round};
use crate::turn_outcome::TurnOutcome;
use crate::turns::{decode_and_rename, execute, make};
use core_lock::{Ask, BoardView, LockedCore, Origin, Pass, Reason};
use smt_core::{Predict, Role};
use std::sync::Wait;

/// What all actors of a run share.
#[derive(Drop)]
pub(crate) struct Shared<'a, N: Naming, G: Gate> {
    pub core: LockedCore<N>,
    pub desk: Desk<N>,
    /// What each asks whether it may go on.
    pub gate: &'a G,
    /// The role of each actor.
    pub roles: &'a [Role],
    /// How many harts there are.
    pub harts: u8,
    /// How many turns each actor has at most.
    pub turns: u64,
}

/// Takes the turns of an actor until the run is over.
pub(crate) fn act<N: Naming, G: Gate, P: Predict + Copy, R: Wait>(
    rt: &R,
    shared: &Shared<'_, N, G>,
    role: Role,
    predict: P,
    pass: &mut Pass<N>,
    placed: &mut Placed<N>,
) {
    // Nothing is known of what lies in rows side by side, so it is asked here.
    if !placed.is_of(pass) {
        shared.desk.stop(placed, Reason::Asked);
        return;
    }
    let mut predict = predict;
    let mut hart = 0;
    let mut patience = Patience::new(turns_of_round(role, shared.harts));
    for _turn in 0..shared.turns {
        if !goes_on(
            rt,
            shared,
            role,
            hart,
            &mut predict,
            &mut patience,
            pass,
            placed,
        ) {
            return;
        }
        hart = next_hart(hart, shared.harts);
    }
    shared.desk.stop(placed, Reason::Turns);
}

/// Reads the board, asks the gate, takes a turn, posts how many events the actor has made, and waits
/// where it has made none. Answers whether the actor has a next turn; then it has posted all that it
/// has made.
fn goes_on<N: Naming, G: Gate, P: Predict, R: Wait>(
    rt: &R,
    shared: &Shared<'_, N, G>,
    role: Role,
    hart: u8,
    predict: &mut P,
    patience: &mut Patience,
    pass: &mut Pass<N>,
    placed: &mut Placed<N>,
) -> bool
    requires { Fits pass.old.actor pass.old.count placed.old.seat.place placed.old.seat.posted }
    ensures fits { Fits pass.new.actor pass.new.count placed.new.seat.place placed.new.seat.posted }
    ensures posted { result ≡ true → placed.new.seat.posted ≡ pass.new.count }
{
    let seen = shared.desk.read(placed);
    if seen.stop != 0 {
        return false;
    }
    let mut outcome = TurnOutcome::Over(Reason::Asked);
    if shared.gate.at(pass.actor(), Point::Turn, &seen) {
        let gate = shared.gate;
        outcome = take_turn(rt, &shared.core, gate, role, hart, &seen, pass, predict);
        shared.desk.post(placed, pass);
    }
    match outcome {
        TurnOutcome::Advanced => {
            patience.note_advance();
            true
        }
        TurnOutcome::Idle => {
            let pause = patience.note_idle();
            shared.desk.pause(rt, placed, &seen, pause);
            true
        }
        TurnOutcome::Over(reason) => {
            shared.desk.stop(placed, reason);
            false
        }
    }
}

/// One turn of an actor of this role: a fetch, a decode and a rename, a retirement, or a job.
fn take_turn<L: Origin, G: Gate, P: Predict, R: Wait>(
    rt: &R,
    core: &LockedCore<L>,
    gate: &G,
    role: Role,
    hart: u8,
    seen: &BoardView,
    pass: &mut Pass<L>,
    predict: &mut P,
) -> TurnOutcome
    ensures actor { pass.new.actor ≡ pass.old.actor }
    ensures rises { pass.old.count ≤ pass.new.count }
    ensures asked { IsTurn role L.setup L.limit pass.old.actor hart
        (record { count = pass.old.count; last = pass.old.last }) result
        (record { count = pass.new.count; last = pass.new.last }) }
{
    match role {
        Role::Fetch => make(rt, core, pass, Ask::Fetch, predict),
        Role::Front => decode_and_rename(rt, core, pass, hart, predict),
        Role::Retire => make(rt, core, pass, Ask::Retire(hart), predict),
        Role::Alu | Role::Mul | Role::Mem => execute(rt, core, pass, gate, seen, predict),
    }
}

/// The hart behind this one, going round.
fn next_hart(hart: u8, harts: u8) -> u8
    ensures { result ≡ (if nat_lt (hart + 1) harts then hart + 1 else 0) }
{
    match hart.checked_add(1) {
        Some(next) if next < harts => next,
        _ => 0,
    }
}
