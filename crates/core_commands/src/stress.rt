//! The command `run --times`: so many runs of one image, how often each end came, with what is watched of it, and what
//! these ends answer to a question.

ghost use Rattle.std.specs.Prelude.{◌≡◌, ◌≤◌, ◌⊎◌, IfErr, IfOk, OnOk, List, length, true, false, is_some};
ghost use Rattle.std.specs.Io.KnownBytes.{Appends};
ghost use Rattle.stress_runs.specs.declared.tally.Row.{Row};
ghost use Rattle.stress_runs.specs.Ends.{end_of, next_number};
ghost use Rattle.command_parts.specs.declared.refused.Refused.TheVariants.{Memory, Output};
ghost use Rattle.core_commands.specs.Run.{IsRunRefusal};
ghost use Rattle.symbols.specs.Tables.{table_of};
ghost use Rattle.watched_outcomes.specs.declared.watch.Watch.{Watch as AnyWatch};
ghost use Rattle.core_commands.specs.Watching.{IsAllThere};
ghost use Rattle.core_commands.specs.Stress.{StressComesTo, HasTallied, HasRunOnce, IsStressRefusal, runs_of};
ghost use Rattle.core_commands.specs.Stress.{AreEndsWritten, IsEndWritten, answer_told, stress_status, stress_text};
ghost use Rattle.core_commands.specs.Making.{AreMade, LeavesCore, MakesRuns};

use crate::core_story::kept_story;
use crate::watching::{asking_of, see_watched};
use actors::Gate;
use command_parts::{Context, Refused};
use elf_image::Image;
use outcome_queries::{Question, WatchList, columns_of, watch_of};
use plain_commands::status_of_answer;
use sim_inputs::{RunCommand, Settings};
use smt_core::Core;
use std::alloc::{AllocError, Global};
use std::io::Write;
use stress_runs::{EndFiles, Tally, keep_end, report_answer, report_tally, sampled_answer};
use symbols::Symbols;
use watched_outcomes::Watch;

/// Has so many runs made of an image (one, where that is 0), each by a call of `make_run` of its own, counts
/// how often each end came, and writes the table of the ends, and behind it what they answer to the command's
/// question. What the list and the question of the command ask for tells ends apart too, as it stands when a run
/// has ended. Where ends are kept, the trace, the order and the story of the run with which an end came first are
/// put into `files`, before the next run. Answers the exit status: of a question 0 where it is so, 1 where it isn't,
/// and 3 where these ends don't tell; without a question that of the worst run.
///
/// Refused are, in this order, a condition and a list that are misspelled, more than can be watched, a hart that
/// isn't there (of the condition first), and a place in memory that isn't; then no run is made. A run is refused as
/// that of `perform_run` is, and `Output` is answered where `files` or `out` took no more; then there is no table,
/// and no other run is made.
#[inline(never)]
pub fn perform_stress<
    R,
    G: Gate,
    P,
    F: EndFiles,
    W: Write,
    M: FnMut(&Image, &Settings) -> Result<Core, Refused>,
>(
    context: &mut Context<'_, R, G, P, F, W>,
    make_run: &mut M,
    image: &Image,
    settings: &Settings,
    names: &Symbols<'_>,
    command: &RunCommand<'_>,
    times: u32,
) -> Result<u8, Refused>
    requires callable { M.IsAlwaysCallable make_run.old }
    requires makes { MakesRuns M.step }
    requires works { F.has_failed context.old.files ≡ false }
    requires finished { F.is_finished context.old.files ≡ true }
    ensures refused { IfErr result
        (IsStressRefusal settings.now image.now (table_of names.now) command.now) }
    ensures ended { IfOk result (StressComesTo settings.now image.now (table_of names.now) command.now times
        (AreMade (LeavesCore M.step) make_run.old make_run.new)
        (AreEndsWritten F.begins F.written F.has_failed context.old.files context.new.files (is_some command.now.keep)
        (table_of names.now)) (W.contents context.old.out) (W.contents context.new.out)) }
    ensures unwanted { is_some command.now.keep ≡ false → context.new.files ≡ context.old.files }
    ensures unbroken { OnOk result (F.has_failed context.new.files ≡ false) }
    ensures finished { OnOk result (F.is_finished context.new.files ≡ true) }
    ensures unreported { F.has_failed context.new.files ≡ true
        → W.contents context.new.out ≡ W.contents context.old.out }
{
    // Handed on as it is: a `?` would leave the prover to find what the refusal becomes.
    let asking = match asking_of(command, names, settings.config.harts, context.alloc) {
        Ok(asking) => asking,
        Err(refused) => return Err(refused),
    };
    let watch = watch_of(asking.all.as_slice());
    match see_watched(&watch, image, settings.config.harts, context.alloc) {
        Ok(()) => {}
        Err(refused) => return Err(refused),
    }
    let count = runs_of(times);
    let tally = match tally_runs(
        context,
        make_run,
        image,
        settings,
        names,
        &watch,
        count,
        command.keep.is_some(),
    ) {
        Ok(tally) => tally,
        Err(refused) => return Err(refused),
    };
    report_runs(
        count,
        &tally,
        &asking.all,
        &watch,
        &asking.question,
        &mut context.out,
    )
}

/// Writes the table of so many runs, with all that is watched of their ends, and what these answer to the question.
/// Answers the exit status.
#[inline(never)]
fn report_runs<W: Write>(
    count: u32,
    tally: &Tally,
    all: &WatchList<'_>,
    watch: &Watch,
    question: &Option<Question<'_>>,
    out: &mut W,
) -> Result<u8, Refused>
    requires { length all.now.items ≤ 64 }
    ensures printed { OnOk result (Appends (W.contents out.old) (W.contents out.new)
        (stress_text all.now.items watch.now question.now count tally.now)) }
    ensures status { IfOk result (λ status. status ≡ stress_status watch.now question.now tally.now) }
    ensures refused { IfErr result (λ why. why ≡ Output) }
{
    let columns = columns_of(all.as_slice());
    match report_tally(count, tally, &columns, out) {
        Ok(()) => report_asked(tally, watch, question, out),
        Err(_) => Err(Refused::Output),
    }
}

/// Writes what the ends answer to the question, where one is asked. Answers the exit status.
fn report_asked<W: Write>(
    tally: &Tally,
    watch: &Watch,
    question: &Option<Question<'_>>,
    out: &mut W,
) -> Result<u8, Refused>
    ensures printed { OnOk result (Appends (W.contents out.old) (W.contents out.new)
        (answer_told watch.now question.now tally.now.rows)) }
    ensures status { IfOk result (λ status. status ≡ stress_status watch.now question.now tally.now) }
    ensures refused { IfErr result (λ why. why ≡ Output) }
{
    let Some(question) = question else {
        return Ok(tally.status());
    };
    let answer = sampled_answer(question, watch, tally.rows());
    match report_answer(question, answer, watch, tally.rows(), out) {
        Ok(()) => Ok(status_of_answer(answer)),
        Err(_) => Err(Refused::Output),
    }
}

/// Has so many runs made, which the gate is shown, and counts their ends.
pub(crate) fn tally_runs<
    R,
    G: Gate,
    P,
    F: EndFiles,
    W: Write,
    M: FnMut(&Image, &Settings) -> Result<Core, Refused>,
>(
    context: &mut Context<'_, R, G, P, F, W>,
    make_run: &mut M,
    image: &Image,
    settings: &Settings,
    names: &Symbols<'_>,
    watch: &Watch,
    count: u32,
    keep: bool,
) -> Result<Tally, Refused>
    requires callable { M.IsAlwaysCallable make_run.old }
    requires makes { MakesRuns M.step }
    requires some { 1 ≤ count }
    requires there { IsAllThere image.now settings.now.config.harts watch.now }
    requires works { F.has_failed context.old.files ≡ false }
    requires finished { F.is_finished context.old.files ≡ true }
    ensures refused { IfErr result (IsRunRefusal settings.now) }
    ensures tallied { IfOk result (HasTallied settings.now image.now watch.now
        (AreMade (LeavesCore M.step) make_run.old make_run.new)
        (AreEndsWritten F.begins F.written F.has_failed context.old.files context.new.files keep (table_of names.now)
        watch.now) count) }
    ensures unwanted { keep ≡ false → context.new.files ≡ context.old.files }
    ensures unbroken { OnOk result (F.has_failed context.new.files ≡ false) }
    ensures finished { OnOk result (F.is_finished context.new.files ≡ true) }
    ensures unprinted { context.new.out ≡ context.old.out }
{
    let runs = Runs {
        image,
        settings,
        names,
        watch,
        alloc: context.alloc,
    };
    context.gate.begin_all(count);
    let tallied = runs.tally(count, keep, make_run, &mut context.files);
    context.gate.end_all();
    tallied
}

/// How many runs are made where so many are asked for.
pub(crate) fn runs_of(times: u32) -> u32
    ensures asked { result ≡ runs_of times }
    ensures some { 1 ≤ result }
{
    if times == 0 { 1 } else { times }
}

/// What the runs are of, and what is looked at where one has ended.
#[derive(Drop)]
struct Runs<'a> {
    image: &'a Image,
    settings: &'a Settings,
    names: &'a Symbols<'a>,
    watch: &'a Watch,
    alloc: Global,
}

impl Runs<'_> {
    /// Has so many runs made, and counts their ends.
    fn tally<F: EndFiles, M: FnMut(&Image, &Settings) -> Result<Core, Refused>>(
        &self,
        count: u32,
        keep: bool,
        make_run: &mut M,
        files: &mut F,
    ) -> Result<Tally, Refused>
        requires callable { M.IsAlwaysCallable make_run.old }
        requires makes { MakesRuns M.step }
        requires some { 1 ≤ count }
        requires there { IsAllThere self.now.image.now self.now.settings.now.config.harts self.now.watch.now }
        requires works { F.has_failed files.old ≡ false }
        requires finished { F.is_finished files.old ≡ true }
        ensures refused { IfErr result (IsRunRefusal self.now.settings.now) }
        ensures tallied { IfOk result (HasTallied self.now.settings.now self.now.image.now self.now.watch.now
            (AreMade (LeavesCore M.step) make_run.old make_run.new)
            (AreEndsWritten F.begins F.written F.has_failed files.old files.new keep (table_of self.now.names.now)
            self.now.watch.now) count) }
        ensures unwanted { keep ≡ false → files.new ≡ files.old }
        ensures unbroken { OnOk result (F.has_failed files.new ≡ false) }
        ensures finished { OnOk result (F.is_finished files.new ≡ true) }
    {
        let mut tally = Tally::new(self.alloc);
        self.run_once(keep, make_run, &mut tally, files)?;
        for _run in 1..count {
            self.run_once(keep, make_run, &mut tally, files)?;
        }
        Ok(tally)
    }

    /// Has one run made, counts its end, and has it kept where that is the first run to end so.
    fn run_once<F: EndFiles, M: FnMut(&Image, &Settings) -> Result<Core, Refused>>(
        &self,
        keep: bool,
        make_run: &mut M,
        tally: &mut Tally,
        files: &mut F,
    ) -> Result<(), Refused>
        requires callable { M.IsAlwaysCallable make_run.old }
        requires makes { MakesRuns M.step }
        requires there { IsAllThere self.now.image.now self.now.settings.now.config.harts self.now.watch.now }
        requires works { F.has_failed files.old ≡ false }
        requires finished { F.is_finished files.old ≡ true }
        ensures refused { IfErr result (IsRunRefusal self.now.settings.now) }
        ensures callable { M.IsAlwaysCallable make_run.new }
        ensures ran { OnOk result (HasRunOnce self.now.settings.now self.now.image.now self.now.watch.now
            (λ core. LeavesCore M.step make_run.old core make_run.new)
            (IsEndWritten F.begins F.written F.has_failed files.old files.new keep (table_of self.now.names.now)
            self.now.watch.now) tally.old tally.new) }
        ensures unwanted { keep ≡ false → files.new ≡ files.old }
        ensures unbroken { OnOk result (F.has_failed files.new ≡ false) }
        ensures finished { OnOk result (F.is_finished files.new ≡ true) }
    {
        let core = make_run(self.image, self.settings)?;
        let number = match tally.count(&core, self.watch, self.alloc) {
            Ok(number) => number,
            Err(AllocError) => return Err(Refused::Memory),
        };
        keep_first(keep, number, &core, self.names, files, self.alloc)
    }
}

/// Has a run kept where that is wanted and its end is new, and so has this number. The story has these names.
#[inline(never)]
fn keep_first<F: EndFiles>(
    keep: bool,
    number: Option<u64>,
    core: &Core,
    names: &Symbols<'_>,
    files: &mut F,
    alloc: Global,
) -> Result<(), Refused>
    requires works { F.has_failed files.old ≡ false }
    requires finished { F.is_finished files.old ≡ true }
    ensures refused { IfErr result (λ reason. (reason ≡ Memory) ⊎ (reason ≡ Output)) }
    ensures kept { OnOk result ((watch : AnyWatch) (rows : List Row)
        → number ≡ next_number (end_of watch core.now) rows
        → IsEndWritten F.begins F.written F.has_failed files.old files.new keep (table_of names.now) watch rows
        core.now) }
    ensures unwanted { keep ≡ false → files.new ≡ files.old }
    ensures unbroken { OnOk result (F.has_failed files.new ≡ false) }
    ensures finished { OnOk result (F.is_finished files.new ≡ true) }
{
    let Some(number) = number else {
        return Ok(());
    };
    if !keep {
        return Ok(());
    }
    let story = match kept_story(core, names, alloc) {
        Ok(story) => story,
        Err(refused) => return Err(refused),
    };
    match keep_end(core, number, story.as_slice(), files) {
        Ok(()) => Ok(()),
        Err(_) => Err(Refused::Output),
    }
}
