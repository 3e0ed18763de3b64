ghost use Rattle.std.specs.Prelude.{◌≡◌, ◌⊎◌, All, IfErr};
ghost use Rattle.core_lock.specs.Seats.{board_of};
ghost use Rattle.actors.specs.declared.refused.RunRefused.TheVariants as refused;

use crate::actor::{Shared, act};
use crate::desk::{Naming, Placed, place_all};
use crate::gate::Gate;
use crate::refused::RunRefused;
use core_lock::{BOARD_WORDS, Pass, Reason, Seat};
use smt_core::Predict;
use std::alloc::Global;
use std::sync::Wait;
use std::thread;
use std::thread::{Scope, Threads};

/// Starts a thread for each actor, with its pass and its seat, and joins them all. `Memory` is
/// refused where there isn't enough memory for the row of seats, and `Thread` where a thread
/// couldn't be started: those that had been are asked to stop.
pub(crate) fn start<
    'x,
    N: Naming + Send + Sync,
    G: Gate + Sync,
    P: Predict + Copy + Send,
    R: Threads + Wait + Sync,
>(
    rt: &'x R,
    shared: &'x Shared<'x, N, G>,
    predict: P,
    passes: &mut [Pass<N>],
    seats: [Seat; BOARD_WORDS],
    alloc: Global,
) -> Result<(), RunRefused>
    requires { All (λ seat. board_of seat ≡ N.board) seats }
    ensures { IfErr result (λ why. (why ≡ refused.Memory) ⊎ (why ≡ refused.Thread)) }
{
    let mut placed = match place_all::<N>(seats, alloc) {
        Ok(placed) => placed,
        Err(_) => return Err(RunRefused::Memory),
    };
    let rows = placed.as_mut_slice();
    let all_started = thread::scope(thread::scope_env(), rt, |scope| {
        start_all(scope, rt, shared, predict, passes, rows)
    });
    if all_started {
        Ok(())
    } else {
        Err(RunRefused::Thread)
    }
}

/// Starts the threads of a scope. Tells whether each could be started.
fn start_all<
    's,
    'x: 's,
    N: Naming + Send + Sync + 's,
    G: Gate + Sync + 's,
    P: Predict + Copy + Send + 's,
    R: Threads + Wait + Sync + 's,
>(
    scope: &'s Scope<'s, &'x ()>,
    rt: &'s R,
    shared: &'s Shared<'s, N, G>,
    predict: P,
    passes: &'s mut [Pass<N>],
    seats: &'s mut [Placed<N>],
) -> bool {
    let Some((reader, others)) = seats.split_last_mut() else {
        return false;
    };
    for (pass, seat) in passes.iter_mut().zip(others.iter_mut()) {
        if !start_one(scope, rt, shared, predict, pass, seat) {
            shared.desk.stop(reader, Reason::Asked);
            return false;
        }
    }
    true
}

/// Starts the thread of the pass's actor, where this run has such an actor. Tells whether it could
/// be started.
fn start_one<
    's,
    'x: 's,
    N: Naming + Send + Sync + 's,
    G: Gate + Sync + 's,
    P: Predict + Copy + Send + 's,
    R: Threads + Wait + Sync + 's,
>(
    scope: &'s Scope<'s, &'x ()>,
    rt: &'s R,
    shared: &'s Shared<'s, N, G>,
    predict: P,
    pass: &'s mut Pass<N>,
    seat: &'s mut Placed<N>,
) -> bool {
    let Some(role) = shared.roles.get(usize::from(pass.actor())) else {
        return true;
    };
    let role = *role;
    scope
        .spawn(move || act(rt, shared, role, predict, pass, seat))
        .is_ok()
}
