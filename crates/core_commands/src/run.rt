//! The command `run`: a core asked by a thread for each actor of its configuration.

ghost use Rattle.std.specs.Prelude.{◌≡◌, IsTrue, OnOk, IfOk, IfErr, length, sum, true, false};
ghost use Rattle.elf_image.specs.Loaded.{IsImageOf};
ghost use Rattle.core_state.specs.Setup.{setup_of};
ghost use Rattle.smt_core.specs.Shown.{Shown};
ghost use Rattle.smt_core.specs.Counts.{AreCounts};
ghost use Rattle.command_parts.specs.Refused.{PassesAll, AreAccepted, BehindImage};
ghost use Rattle.address_labels.specs.Labels.{marks_of};
ghost use Rattle.core_commands.specs.Run.{IsRunRefusal, IsRunOf, RunTells, LackARole, run_refusal};
ghost use Rattle.core_commands.specs.Account.{IsTraceWritten};
ghost use Rattle.core_commands.specs.Wanted.{wants_of};

use crate::account::{idle_of, write_account};
use crate::wanted::Wanted;
use actors::{Gate, IdleAsks, RunRefused, Unlocked};
use address_labels::Labels;
use command_parts::{Context, Refused, image_of};
use elf_image::Image;
use sim_inputs::Settings;
use smt_core::{Finished, Predict};
use std::alloc::Global;
use std::io::Write;
use std::sync::Wait;
use std::thread::Threads;
use stress_runs::EndFiles;

/// How a run was reported.
#[derive(Drop)]
pub struct RunReport {
    /// How the harts stand.
    pub status: u8,
    /// The idle asks of which the report tells, where it tells of any: those that the lock has counted.
    pub asks: IdleAsks,
}

/// Runs the core of an image's file, with a thread for each actor of the configuration, until no hart
/// is going or the history, the turns or the gate end it.
///
/// Refused are, in this order, the image, the sizes of the core, and a configuration without an
/// actor of some role; want of memory and a thread that can't be started whenever they come.
pub fn run_bytes<G: Gate + Sync, P: Predict + Copy + Send, R: Threads + Wait + Sync>(
    rt: &R,
    image: &[u8],
    settings: &Settings,
    gate: &G,
    predict: P,
    alloc: Global,
) -> Result<Finished, Refused>
    ensures refused { IfErr result
        (BehindImage image.now settings.now.ram (IsRunRefusal settings.now)) }
    ensures passed { OnOk result (PassesAll image.now settings.now.ram) }
    ensures accepted { OnOk result (AreAccepted settings.now) }
    ensures manned { OnOk result (LackARole settings.now → ⊥) }
    ensures image { IfOk result
        (λ finished. IsImageOf image.now settings.now.ram finished.core.setup.image) }
    ensures setup { IfOk result
        (λ finished. finished.core.setup ≡ setup_of finished.core.setup.image settings.now.config) }
    ensures limit { IfOk result (λ finished. finished.core.limit ≡ settings.now.limit) }
    ensures own { IfOk result (λ finished. IsTrue finished.own) }
    ensures counted { IfOk result (λ finished. sum finished.counts ≡ length finished.core.past) }
    ensures told { IfOk result
        (λ finished. IsTrue finished.told → AreCounts finished.core.past finished.counts) }
    ensures shown { IfOk result (λ finished. Shown finished.core) }
{
    let image = image_of(image, settings.ram, alloc)?;
    run_image(rt, &image, settings, gate, predict, alloc)
}

/// Runs the core of an image, with a thread for each actor of the configuration.
pub(crate) fn run_image<G: Gate + Sync, P: Predict + Copy + Send, R: Threads + Wait + Sync>(
    rt: &R,
    image: &Image,
    settings: &Settings,
    gate: &G,
    predict: P,
    alloc: Global,
) -> Result<Finished, Refused>
    ensures refused { IfErr result (IsRunRefusal settings.now) }
    ensures accepted { OnOk result (AreAccepted settings.now) }
    ensures manned { OnOk result (LackARole settings.now → ⊥) }
    ensures setup { IfOk result
        (λ finished. finished.core.setup ≡ setup_of image.now settings.now.config) }
    ensures limit { IfOk result (λ finished. finished.core.limit ≡ settings.now.limit) }
    ensures own { IfOk result (λ finished. IsTrue finished.own) }
    ensures counted { IfOk result (λ finished. sum finished.counts ≡ length finished.core.past) }
    ensures told { IfOk result
        (λ finished. IsTrue finished.told → AreCounts finished.core.past finished.counts) }
    ensures shown { IfOk result (λ finished. Shown finished.core) }
{
    // A refusal is handed on as it is: a `?` would leave the prover to find what it becomes.
    match run_locked(rt, image, settings, gate, predict, alloc) {
        Ok(unlocked) => Ok(unlocked.finished),
        Err(refused) => Err(refused),
    }
}

/// Runs the core of an image behind its lock, and hands on what the lock has counted.
fn run_locked<G: Gate + Sync, P: Predict + Copy + Send, R: Threads + Wait + Sync>(
    rt: &R,
    image: &Image,
    settings: &Settings,
    gate: &G,
    predict: P,
    alloc: Global,
) -> Result<Unlocked, Refused>
    ensures refused { IfErr result (IsRunRefusal settings.now) }
    ensures accepted { OnOk result (AreAccepted settings.now) }
    ensures manned { OnOk result (LackARole settings.now → ⊥) }
    ensures ran { IfOk result (λ unlocked. IsRunOf settings.now image.now unlocked.finished) }
{
    let config = settings.config.copied();
    let (limit, turns) = (settings.limit, settings.turns);
    match actors::run_counted(rt, image, config, limit, turns, gate, predict, alloc) {
        Ok(unlocked) => Ok(unlocked),
        Err(why) => Err(refused_run(why)),
    }
}

/// What is refused where the actors' run is.
fn refused_run(why: RunRefused) -> Refused
    ensures { result ≡ run_refusal why }
{
    match why {
        RunRefused::Config | RunRefused::Roles => Refused::Config,
        RunRefused::Memory => Refused::Memory,
        RunRefused::Thread => Refused::Thread,
    }
}

/// Runs the core with a thread for each actor, writes its trace where it is wanted, and then its
/// report. Answers the exit status, and the idle asks that the lock has counted.
#[inline(never)]
pub fn perform_run<
    G: Gate + Sync,
    P: Predict + Copy + Send,
    S: EndFiles,
    W: Write,
    R: Threads + Wait + Sync,
>(
    context: &mut Context<'_, R, G, P, S, W>,
    image: &Image,
    settings: &Settings,
    wanted: Wanted<'_>,
    labels: &Labels<'_>,
) -> Result<RunReport, Refused>
    requires works { S.has_failed context.old.files ≡ false }
    requires finished { S.is_finished context.old.files ≡ true }
    ensures refused { IfErr result (IsRunRefusal settings.now) }
    ensures ended { IfOk result (λ report. RunTells settings.now image.now (wants_of wanted.entry) (marks_of labels.now)
        (IsTraceWritten S.written S.has_failed context.old.files context.new.files wanted.entry.trace)
        (W.contents context.old.out) (W.contents context.new.out) report.asks.each report.status) }
    ensures unwanted { wanted.entry.trace ≡ false → context.new.files ≡ context.old.files }
    ensures unbroken { OnOk result (S.has_failed context.new.files ≡ false) }
    ensures finished { OnOk result (S.is_finished context.new.files ≡ true) }
    ensures unreported { S.has_failed context.new.files ≡ true
        → W.contents context.new.out ≡ W.contents context.old.out }
{
    let unlocked = run_locked(
        context.rt,
        image,
        settings,
        context.gate,
        context.predict,
        context.alloc,
    )?;
    let idle = idle_of(&unlocked.finished.core, &unlocked.finished.idle);
    let reported = write_account(
        &unlocked.finished.core,
        idle,
        wanted,
        labels,
        &mut context.files,
        &mut context.out,
        context.alloc,
    );
    match reported {
        Ok(status) => Ok(RunReport {
            status,
            asks: unlocked.asks,
        }),
        Err(refused) => Err(refused),
    }
}
