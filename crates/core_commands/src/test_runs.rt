//! The command `litmus --run`: so many runs of a litmus test's image on the core, counted by the final states to which
//! they come.

ghost use Rattle.std.specs.Prelude.{◌≡◌, ◌<◌, ◌^◌, IfErr, IfOk, OnOk, is_some, length, true, false};
ghost use Rattle.std.specs.Io.KnownBytes.{Appends};
ghost use Rattle.event_text.specs.Sinking.{HasPut};
ghost use Rattle.litmus_histograms.specs.{Counting.in_rows, Text.histogram_text};
ghost use Rattle.litmus_tests.specs.WellFormed.{IsWellFormed};
ghost use Rattle.sim_inputs.specs.Files.{written_for_test};
ghost use Rattle.command_parts.specs.declared.refused.Refused.TheVariants.{Output};
ghost use Rattle.core_commands.specs.{Stress.runs_of, Watching.IsAllThere};
ghost use Rattle.core_commands.specs.TestRuns.{HasCounted, IsTestRunsRefusal, IsRunsRefusal, RunsComeTo, TestRunsComeTo};
ghost use Rattle.core_commands.specs.TestRuns.{histogram_status};
ghost use Rattle.core_commands.specs.Making.{AreMade, LeavesCore, MakesRuns};

use crate::stress::{runs_of, tally_runs};
use actors::Gate;
use command_parts::{Context, Refused};
use elf_image::Image;
use litmus_histograms::{RunKind, runs_of_kind, write_histogram};
use litmus_images::{harts_of, image_of, watch_of};
use litmus_tests::LitmusTest;
use outcome_text::write_incomplete;
use outcomes::{Extent, Outcomes};
use plain_commands::{find_shown, put_image, settings_for, test_of};
use reductions::Without;
use sim_inputs::{LitmusCommand, Settings};
use smt_core::Core;
use std::io::Write;
use stress_runs::{EndFiles, Tally};
use symbols::Symbols;
use watched_outcomes::Watch;

/// Reads a litmus test, and does what `run_test` does with it, of these settings with the test's harts. A text that is
/// none is refused first.
#[inline(never)]
pub fn perform_test_runs<
    R,
    G: Gate,
    P,
    S: EndFiles,
    W: Write,
    M: FnMut(&Image, &Settings) -> Result<Core, Refused>,
>(
    context: &mut Context<'_, R, G, P, S, W>,
    make_run: &mut M,
    text: &[u8],
    command: &LitmusCommand<'_>,
    settings: Settings,
    times: u32,
) -> Result<u8, Refused>
    requires callable { M.IsAlwaysCallable make_run.old }
    requires makes { MakesRuns M.step }
    requires works { S.has_failed context.old.files ≡ false }
    requires finished { S.is_finished context.old.files ≡ true }
    ensures refused { IfErr result (IsTestRunsRefusal text.now settings) }
    ensures ended { IfOk result (TestRunsComeTo text.now settings command.now times
        (AreMade (LeavesCore M.step) make_run.old make_run.new)
        (HasPut S.written S.has_failed context.old.files context.new.files)
        (W.contents context.old.out) (W.contents context.new.out)) }
    ensures unwanted { is_some (written_for_test command.now) ≡ false → context.new.files ≡ context.old.files }
    ensures unbroken { OnOk result (S.has_failed context.new.files ≡ false) }
    ensures finished { OnOk result (S.is_finished context.new.files ≡ true) }
    ensures unreported { S.has_failed context.new.files ≡ true
        → W.contents context.new.out ≡ W.contents context.old.out }
{
    let test = match test_of(text, context.alloc) {
        Ok(test) => test,
        Err(refused) => return Err(refused),
    };
    let settings = settings_for(settings, &test);
    match run_test(context, make_run, &test, &settings, command, times) {
        Ok(status) => Ok(status),
        Err(refused) => Err(refused),
    }
}

/// Finds every final state of a litmus test, and where these are all has so many runs made of its image on the core of
/// some settings, each by a call of `make_run` of its own, and prints to which states they come and how often. The
/// image goes into the context's files before all that, where it is wanted.
///
/// Answers the exit status: 0, or 3 where a run hasn't ended, or where there are more states than were to be looked at;
/// then only that is said, and no run is made. A run is refused as that of `perform_run` is, and `Output` is answered
/// where the files or the output took no more; then nothing is printed.
#[inline(never)]
fn run_test<
    R,
    G: Gate,
    P,
    S: EndFiles,
    W: Write,
    M: FnMut(&Image, &Settings) -> Result<Core, Refused>,
>(
    context: &mut Context<'_, R, G, P, S, W>,
    make_run: &mut M,
    test: &LitmusTest,
    settings: &Settings,
    command: &LitmusCommand<'_>,
    times: u32,
) -> Result<u8, Refused>
    requires callable { M.IsAlwaysCallable make_run.old }
    requires makes { MakesRuns M.step }
    requires sound { IsWellFormed test.now }
    requires harts { settings.now.config.harts ≡ length test.now.threads.items }
    requires works { S.has_failed context.old.files ≡ false }
    requires finished { S.is_finished context.old.files ≡ true }
    ensures refused { IfErr result (IsRunsRefusal settings.now) }
    ensures ended { IfOk result (RunsComeTo test.now settings.now command.now times
        (AreMade (LeavesCore M.step) make_run.old make_run.new)
        (HasPut S.written S.has_failed context.old.files context.new.files)
        (W.contents context.old.out) (W.contents context.new.out)) }
    ensures unwanted { is_some command.now.image ≡ false → context.new.files ≡ context.old.files }
    ensures unbroken { OnOk result (S.has_failed context.new.files ≡ false) }
    ensures finished { OnOk result (S.is_finished context.new.files ≡ true) }
    ensures unreported { S.has_failed context.new.files ≡ true
        → W.contents context.new.out ≡ W.contents context.old.out }
{
    let alloc = context.alloc;
    let Ok(image) = image_of(test, alloc) else {
        return Err(Refused::Memory);
    };
    match put_image(test, &image, command, &mut context.files, alloc) {
        Ok(()) => {}
        Err(refused) => return Err(refused),
    }
    let watch = watch_of(test);
    let harts = harts_of(test);
    match find_shown(
        &image,
        harts,
        &watch,
        command.states,
        Without::none(),
        context.gate,
        &(),
        alloc,
    ) {
        Ok(outcomes) => match outcomes.extent() {
            Extent::Whole => {
                count_runs(
                    context, make_run, test, &image, settings, &watch, &outcomes, times,
                )
            }
            Extent::Beyond | Extent::First => match write_incomplete(
                command.states,
                &mut context.out,
            ) {
                Ok(()) => Ok(3),
                Err(_) => Err(Refused::Output),
            },
        },
        // The harts, registers and words of a test that makes sense are there.
        Err(_) => Err(Refused::Memory),
    }
}

/// Has so many runs made of a test's image, and prints to which of these outcomes they come.
#[inline(never)]
fn count_runs<
    R,
    G: Gate,
    P,
    S: EndFiles,
    W: Write,
    M: FnMut(&Image, &Settings) -> Result<Core, Refused>,
>(
    context: &mut Context<'_, R, G, P, S, W>,
    make_run: &mut M,
    test: &LitmusTest,
    image: &Image,
    settings: &Settings,
    watch: &Watch,
    outcomes: &Outcomes,
    times: u32,
) -> Result<u8, Refused>
    requires callable { M.IsAlwaysCallable make_run.old }
    requires makes { MakesRuns M.step }
    requires sound { IsWellFormed test.now }
    requires there { IsAllThere image.now settings.now.config.harts watch.now }
    requires works { S.has_failed context.old.files ≡ false }
    requires finished { S.is_finished context.old.files ≡ true }
    ensures refused { IfErr result (IsRunsRefusal settings.now) }
    ensures counted { IfOk result (HasCounted test.now settings.now image.now watch.now outcomes.now.listed
        (runs_of times) (AreMade (LeavesCore M.step) make_run.old make_run.new) (W.contents context.old.out)
        (W.contents context.new.out)) }
    ensures unwanted { context.new.files ≡ context.old.files }
{
    let names = Symbols::none(context.alloc);
    let count = runs_of(times);
    let tally = match tally_runs(
        context, make_run, image, settings, &names, watch, count, false,
    ) {
        Ok(tally) => tally,
        Err(refused) => return Err(refused),
    };
    print_histogram(test, outcomes, &tally, &mut context.out)
}

/// Prints to which outcomes the runs of a tally have come. Answers the exit status.
#[inline(never)]
fn print_histogram<W: Write>(
    test: &LitmusTest,
    outcomes: &Outcomes,
    tally: &Tally,
    out: &mut W,
) -> Result<u8, Refused>
    requires sound { IsWellFormed test.now }
    requires few { length tally.now.rows < 2 ^ 32 }
    ensures printed { OnOk result (Appends (W.contents out.old) (W.contents out.new)
        (histogram_text test.now (in_rows tally.now.rows) outcomes.now.listed)) }
    ensures status { IfOk result (λ status. status ≡ histogram_status test.now (in_rows tally.now.rows)) }
    ensures refused { IfErr result (λ why. why ≡ Output) }
{
    match write_histogram(test, outcomes, tally.rows(), out) {
        Ok(()) => Ok(status_of(test, tally)),
        Err(_) => Err(Refused::Output),
    }
}

/// The exit status: 3 where a run hasn't ended, else 0.
fn status_of(test: &LitmusTest, tally: &Tally) -> u8
    requires sound { IsWellFormed test.now }
    requires few { length tally.now.rows < 2 ^ 32 }
    ensures { result ≡ histogram_status test.now (in_rows tally.now.rows) }
{
    if runs_of_kind(test, RunKind::NotEnded, tally.rows()) > 0 {
        3
    } else {
        0
    }
}
