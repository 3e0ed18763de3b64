ghost use Rattle.std.specs.Prelude.{◌≡◌, ◌↔◌, ◌⊎◌, true, false, All, IsTrue, IfOk, IfErr, Err};
ghost use Rattle.std.specs.Prelude.{length, sum};
ghost use Rattle.numbers.specs.Sizes.{most_actors};
ghost use Rattle.smt_model.specs.Setup.{is_accepted};
ghost use Rattle.core_state.specs.Setup.{setup_of};
ghost use Rattle.core_lock.specs.Seats.{board_of, name_of};
ghost use Rattle.smt_core.specs.Shown.{Shown};
ghost use Rattle.smt_core.specs.Counts.{AreCounts};
ghost use Rattle.actors.specs.Counts.{HasRun};
ghost use Rattle.actors.specs.Roles.{HaveEveryRole};
ghost use Rattle.core_state.specs.declared.refused.CoreRefused.TheVariants as core_refused;
ghost use Rattle.actors.specs.declared.refused.RunRefused.TheVariants as refused;

use crate::actor::Shared;
use crate::desk::{Desk, Naming};
use crate::gate::Gate;
use crate::refused::RunRefused;
use crate::roles::has_every_role;
use crate::start::start;
use core_lock::{BOARD_WORDS, Board, LockedCore, Seat, Unlocked};
use elf_image::Image;
use numbers::sizes::MOST_ACTORS;
use smt_core::{Config, Core, CoreRefused, Finished, Predict};
use std::alloc::Global;
use std::marker::Brand;
use std::sync::Wait;
use std::sync::ledger::Blank;
use std::thread::Threads;

/// What a run was asked for.
#[derive(Drop)]
struct Plan<'a, G: Gate> {
    image: &'a Image,
    config: &'a Config,
    turns: u64,
    gate: &'a G,
}

/// Runs an image to its end, with a thread for each actor of the configuration. Each actor has a
/// copy of the predictor, and takes the turns of its role, at most `turns` of them (up to 10^18),
/// until no hart is going, the history has `limit` events, an actor has taken its last turn, or the
/// gate asks for a stop. All threads are joined.
///
/// The gate's `begin` is called once, before the threads start, and its `end` once, after all are
/// joined, also where the run is refused in between. Where it is refused for its configuration or
/// its roles, or wants memory for its core, neither is called.
///
/// `Config` is refused where the configuration or the limit isn't one of a core, and then `Roles`
/// where no actor has some role, both before anything is asked of the core. `Memory` and `Thread`
/// are refused where there isn't enough memory, and where a thread can't be started.
pub fn run<G: Gate + Sync, P: Predict + Copy + Send, R: Threads + Wait + Sync>(
    rt: &R,
    image: &Image,
    config: Config,
    limit: u32,
    turns: u64,
    gate: &G,
    predict: P,
    alloc: Global,
) -> Result<Finished, RunRefused>
    ensures config { (result ≡ Err refused.Config)
        ↔ (is_accepted (setup_of image.now config) limit ≡ false) }
    ensures roles { (result ≡ Err refused.Roles)
        ↔ (is_accepted (setup_of image.now config) limit ≡ true)
        × (HaveEveryRole config.roles.items → ⊥) }
    ensures setup { IfOk result (λ finished. finished.core.setup ≡ setup_of image.now config) }
    ensures limit { IfOk result (λ finished. finished.core.limit ≡ limit) }
    ensures own { IfOk result (λ finished. IsTrue finished.own) }
    ensures counted { IfOk result (λ finished. sum finished.counts ≡ length finished.core.past) }
    ensures told { IfOk result
        (λ finished. IsTrue finished.told → AreCounts finished.core.past finished.counts) }
    ensures shown { IfOk result (λ finished. Shown finished.core) }
{
    match run_counted(rt, image, config, limit, turns, gate, predict, alloc) {
        Ok(unlocked) => Ok(unlocked.finished),
        Err(why) => Err(why),
    }
}

/// The same, with the idle asks of each actor as the lock of the core has counted them.
pub fn run_counted<G: Gate + Sync, P: Predict + Copy + Send, R: Threads + Wait + Sync>(
    rt: &R,
    image: &Image,
    config: Config,
    limit: u32,
    turns: u64,
    gate: &G,
    predict: P,
    alloc: Global,
) -> Result<Unlocked, RunRefused>
    ensures config { (result ≡ Err refused.Config)
        ↔ (is_accepted (setup_of image.now config) limit ≡ false) }
    ensures roles { (result ≡ Err refused.Roles)
        ↔ (is_accepted (setup_of image.now config) limit ≡ true)
        × (HaveEveryRole config.roles.items → ⊥) }
    ensures setup { IfOk result
        (λ unlocked. unlocked.finished.core.setup ≡ setup_of image.now config) }
    ensures limit { IfOk result (λ unlocked. unlocked.finished.core.limit ≡ limit) }
    ensures own { IfOk result (λ unlocked. IsTrue unlocked.finished.own) }
    ensures counted { IfOk result
        (λ unlocked. sum unlocked.finished.counts ≡ length unlocked.finished.core.past) }
    ensures told { IfOk result (λ unlocked. IsTrue unlocked.finished.told
        → AreCounts unlocked.finished.core.past unlocked.finished.counts) }
    ensures idle { IfOk result (λ unlocked. unlocked.finished.idle ≡ unlocked.asks.each) }
    ensures shown { IfOk result (λ unlocked. Shown unlocked.finished.core) }
{
    // Each refusal is handed on as it is: a `?` would leave the prover to find what it becomes.
    match make_core(image, &config, limit, alloc) {
        Ok(core) => {
            let plan = Plan {
                image,
                config: &config,
                turns,
                gate,
            };
            gate.begin(limit);
            let unlocked = run_actors(rt, core, &plan, predict, alloc);
            gate.end();
            unlocked
        }
        Err(refused) => Err(refused),
    }
}

/// Makes the board of a run, and has the actors run. Refused for want of memory or of a thread.
fn run_actors<G: Gate + Sync, P: Predict + Copy + Send, R: Threads + Wait + Sync>(
    rt: &R,
    core: Core,
    plan: &Plan<'_, G>,
    predict: P,
    alloc: Global,
) -> Result<Unlocked, RunRefused>
    requires { core.setup ≡ setup_of plan.now.image.now plan.now.config.now }
    ensures refused { IfErr result (λ why. (why ≡ refused.Memory) ⊎ (why ≡ refused.Thread)) }
    ensures ran { IfOk result (λ unlocked. HasRun core unlocked.finished) }
{
    let (board, seats) = match Board::new(alloc) {
        Ok(board_and_seats) => board_and_seats,
        Err(_) => {
            let_go(core);
            return Err(RunRefused::Memory);
        }
    };
    let blank = Blank::new(MOST_ACTORS as u64);
    run_core::<Brand, G, P, R>(rt, core, blank, board, seats, plan, predict, alloc)
}

/// The core of a run, where all of its roles are there.
fn make_core(image: &Image, config: &Config, limit: u32, alloc: Global) -> Result<Core, RunRefused>
    ensures config { (result ≡ Err refused.Config)
        ↔ (is_accepted (setup_of image.now config.now) limit ≡ false) }
    ensures roles { (result ≡ Err refused.Roles)
        ↔ (is_accepted (setup_of image.now config.now) limit ≡ true)
        × (HaveEveryRole config.now.roles.items → ⊥) }
    ensures thread { result ≡ Err refused.Thread → ⊥ }
    ensures setup { IfOk result (λ core. core.setup ≡ setup_of image.now config.now) }
    ensures limit { IfOk result (λ core. core.limit ≡ limit) }
{
    let complete = has_every_role(config);
    match new_core(image, config, limit, alloc) {
        Ok(core) if complete => Ok(core),
        Ok(core) => {
            let_go(core);
            Err(RunRefused::Roles)
        }
        Err(CoreRefused::Config) => Err(RunRefused::Config),
        Err(CoreRefused::Memory) if complete => Err(RunRefused::Memory),
        Err(CoreRefused::Memory) => Err(RunRefused::Roles),
    }
}

/// A core of a copy of the configuration.
fn new_core(image: &Image, config: &Config, limit: u32, alloc: Global) -> Result<Core, CoreRefused>
    ensures setup { IfOk result (λ core. core.setup ≡ setup_of image.now config.now) }
    ensures limit { IfOk result (λ core. core.limit ≡ limit) }
    ensures refused { (result ≡ Err core_refused.Config)
        ↔ (is_accepted (setup_of image.now config.now) limit ≡ false) }
{
    Core::new(image, config.copied(), limit, alloc)
}

/// Puts the core behind a lock, has the actors run, and gives up the lock.
fn run_core<
    N: Naming + Send + Sync,
    G: Gate + Sync,
    P: Predict + Copy + Send,
    R: Threads + Wait + Sync,
>(
    rt: &R,
    core: Core,
    blank: Blank,
    board: Board,
    seats: [Seat; BOARD_WORDS],
    plan: &Plan<'_, G>,
    predict: P,
    alloc: Global,
) -> Result<Unlocked, RunRefused>
    requires name { blank.name ≡ N.name }
    requires parts { (blank.parts ≡ N.parts) × (N.parts ≡ most_actors) }
    requires origin { (core.setup ≡ N.setup) × (core.limit ≡ N.limit) }
    requires board { name_of board ≡ N.board }
    requires seats { All (λ seat. board_of seat ≡ N.board) seats }
    requires image { core.setup ≡ setup_of plan.now.image.now plan.now.config.now }
    ensures refused { IfErr result (λ why. (why ≡ refused.Memory) ⊎ (why ≡ refused.Thread)) }
    ensures ran { IfOk result (λ unlocked. HasRun core unlocked.finished) }
{
    let (core, mut passes) = LockedCore::<N>::new(core, blank);
    let shared = Shared {
        core,
        desk: Desk::new(board),
        gate: plan.gate,
        roles: plan.config.roles.as_slice(),
        harts: plan.config.harts,
        turns: plan.turns,
    };
    let started = start(rt, &shared, predict, &mut passes, seats, alloc);
    let Shared { core, .. } = shared;
    only_if(started, core.unlock(passes, plan.image, plan.config))
}

/// What a run comes to: what is left of its core, where all of its threads were started.
fn only_if(started: Result<(), RunRefused>, unlocked: Unlocked) -> Result<Unlocked, RunRefused>
    ensures refused { IfErr result (λ why. started ≡ Err why) }
    ensures unlocked { IfOk result (λ same. same ≡ unlocked) }
{
    match started {
        Ok(()) => Ok(unlocked),
        Err(refused) => {
            let_go(unlocked.finished.core);
            Err(refused)
        }
    }
}

/// Drops the core of a run that is refused. Each function that drops one is proved over all parts of a
/// core, so there is only this one.
fn let_go(_core: Core) {}
