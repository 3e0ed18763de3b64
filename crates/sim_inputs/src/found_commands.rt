//! What was found for the arguments and options of each command.

ghost use Rattle.std.specs.Prelude.{◌≡◌};
ghost use Rattle.clap.specs.Words.{found_of, rows_of};
ghost use Rattle.sim_inputs.specs.CommandLine.{Finds, IsBeside, IsChart, IsCheck, IsExplain, IsList};
ghost use Rattle.sim_inputs.specs.CommandLine.{IsLitmus, IsMigrate, IsOutcomes, IsPlain, IsRun, IsSchedule};
ghost use Rattle.sim_inputs.specs.CommandLine.{IsScript, IsStep, can_be_plain, can_be_run};
ghost use Rattle.sim_inputs.specs.CommandLine.{can_be_told, has_named_folder, is_reported, shows_story};

use crate::chart_ends::chart_end;
use crate::chart_options::{can_be_drawn, columns_in};
use crate::files::is_standard_input;
use crate::found_values::{is_set, number, number_or, value_of};
use crate::left_out::without_in;
use crate::line::{
    Beside, ChartCommand, CheckCommand, ExplainCommand, ListCommand, LitmusCommand, MigrateCommand,
    OutcomesCommand, PlainCommand, RunCommand, ScheduleCommand, ScriptCommand, StepCommand,
};
use crate::outcome_options::can_be_searched;
use crate::questions::{asked_in, question_in};
use crate::several_tests::{are_several, names_input};
use crate::test_orders::can_be_tested;
use crate::themes::{can_be_themed, shade_in, theme_in};
use clap::ArgMatches;
use numbers::sizes::{MOST_EVENTS, MOST_HARTS};

/// The place of the last event that a history may have.
const LAST_PLACE: u32 = MOST_EVENTS - 1;

/// The last hart that a core may have.
const LAST_HART: u32 = MOST_HARTS as u32 - 1;

/// How often a program is run at the most.
const MOST_TIMES: u32 = 1_000_000;

/// How many characters a line of a chart has, or how many events a band of a picture, where nothing
/// else is said, and how many at the most.
const USUAL_COLUMNS: u32 = 120;

const MOST_COLUMNS: u32 = 10_000;

/// How many states are looked at the most where nothing else is said.
const USUAL_STATES: u32 = 1_000_000;

/// The command `step` of what was found; none where a file is missing that it must have. The eleven
/// below answer for their commands; six of them have options that don't go together, as this has.
pub(crate) fn step_in<'a>(found: &ArgMatches<'a>) -> Option<StepCommand<'a>>
    ensures { Finds (IsStep (rows_of (found_of found.now))) result }
{
    let step = StepCommand {
        image: value_of(found, "IMAGE")?,
        script: value_of(found, "SCRIPT")?,
        trace: value_of(found, "trace"),
        counts: is_set(found, "counts"),
        json: is_set(found, "json"),
        looks: is_set(found, "looks"),
        lines: value_of(found, "lines"),
        names: is_set(found, "names"),
        records: is_set(found, "records"),
        show: is_set(found, "show"),
        story: is_set(found, "story"),
        all: is_set(found, "all"),
        why: is_set(found, "why"),
    };
    if !can_be_told(step.story, step.all) {
        return None;
    }
    Some(step)
}

/// Whether what says more of a story has one.
fn can_be_told(story: bool, all: bool) -> bool
    ensures { result ≡ can_be_told story all }
{
    story || !all
}

pub(crate) fn run_in<'a>(found: &ArgMatches<'a>) -> Option<RunCommand<'a>>
    ensures { Finds (IsRun (rows_of (found_of found.now))) result }
{
    let run = RunCommand {
        image: value_of(found, "IMAGE")?,
        trace: value_of(found, "trace"),
        counts: is_set(found, "counts"),
        json: is_set(found, "json"),
        lines: value_of(found, "lines"),
        names: is_set(found, "names"),
        records: is_set(found, "records"),
        why: is_set(found, "why"),
        times: number(found, "times", MOST_TIMES)?,
        watch: value_of(found, "watch"),
        question: question_in(found)?,
        keep: value_of(found, "keep"),
    };
    if !can_be_run(&run) {
        return None;
    }
    Some(run)
}

/// Whether the options of a run go together: there is one run at least, only many are watched, asked and have a
/// folder, which has a name, and only one has a report.
fn can_be_run(run: &RunCommand<'_>) -> bool
    ensures { result ≡ can_be_run run.now }
{
    match run.times {
        Some(times) => times >= 1 && !is_reported(run) && has_named_folder(run),
        None => run.keep.is_none() && run.watch.is_none() && run.question.is_none(),
    }
}

/// Whether the folder for the files of ends has a name, where there is one, and that is no dash.
fn has_named_folder(run: &RunCommand<'_>) -> bool
    ensures { result ≡ has_named_folder run.now }
{
    match run.keep {
        Some(folder) => !folder.is_empty() && !is_standard_input(folder),
        None => true,
    }
}

/// Whether a run has an option of its report.
fn is_reported(run: &RunCommand<'_>) -> bool
    ensures { result ≡ is_reported run.now }
{
    run.trace.is_some()
        || run.counts
        || run.json
        || run.lines.is_some()
        || run.names
        || run.records
        || run.why
}

pub(crate) fn check_in<'a>(found: &ArgMatches<'a>) -> Option<CheckCommand<'a>>
    ensures { Finds (IsCheck (rows_of (found_of found.now))) result }
{
    let check = CheckCommand {
        image: value_of(found, "IMAGE")?,
        trace: value_of(found, "TRACE")?,
        counts: is_set(found, "counts"),
        json: is_set(found, "json"),
        lines: value_of(found, "lines"),
        names: is_set(found, "names"),
        records: is_set(found, "records"),
        story: is_set(found, "story"),
        all: is_set(found, "all"),
        why: is_set(found, "why"),
    };
    if !can_be_told(check.story, check.all) {
        return None;
    }
    Some(check)
}

pub(crate) fn plain_in<'a>(found: &ArgMatches<'a>) -> Option<PlainCommand<'a>>
    ensures { Finds (IsPlain (rows_of (found_of found.now))) result }
{
    let plain = PlainCommand {
        image: value_of(found, "IMAGE")?,
        order: value_of(found, "ORDER"),
        rounds: number(found, "rounds", u32::MAX)?,
        steps: number(found, "steps", u32::MAX)?,
        seed: number(found, "seed", u32::MAX)?,
        lines: value_of(found, "lines"),
        names: is_set(found, "names"),
        records: is_set(found, "records"),
        story: is_set(found, "story"),
        story_svg: value_of(found, "story-svg"),
        theme: theme_in(found)?,
        all: is_set(found, "all"),
    };
    if !can_be_plain(&plain) {
        return None;
    }
    Some(plain)
}

/// Whether there is either an order or rounds, of an instruction at least, whether what says more
/// of rounds has some, and whether a story has an order, what says more of it a story, and colours a picture.
fn can_be_plain(plain: &PlainCommand<'_>) -> bool
    ensures { result ≡ can_be_plain plain.now }
{
    let is_told = can_be_told(plain.story, plain.all)
        && can_be_themed(plain.story_svg.is_some(), plain.theme.is_some());
    match plain.rounds {
        Some(rounds) => rounds >= 1 && plain.order.is_none() && !shows_story(plain) && is_told,
        None => {
            plain.order.is_some() && plain.steps.is_none() && plain.seed.is_none() && is_told
        }
    }
}

/// Whether a story is told or drawn.
fn shows_story(plain: &PlainCommand<'_>) -> bool
    ensures { result ≡ shows_story plain.now }
{
    plain.story || plain.story_svg.is_some()
}

pub(crate) fn schedule_in<'a>(found: &ArgMatches<'a>) -> Option<ScheduleCommand<'a>>
    ensures { Finds (IsSchedule (rows_of (found_of found.now))) result }
{
    Some(ScheduleCommand {
        image: value_of(found, "IMAGE")?,
        order: value_of(found, "ORDER")?,
    })
}

pub(crate) fn script_in<'a>(found: &ArgMatches<'a>) -> Option<ScriptCommand<'a>>
    ensures { Finds (IsScript (rows_of (found_of found.now))) result }
{
    Some(ScriptCommand {
        image: value_of(found, "IMAGE")?,
        trace: value_of(found, "TRACE")?,
    })
}

pub(crate) fn list_in<'a>(found: &ArgMatches<'a>) -> Option<ListCommand<'a>>
    ensures { Finds (IsList (rows_of (found_of found.now))) result }
{
    Some(ListCommand {
        image: value_of(found, "IMAGE")?,
        lines: value_of(found, "lines"),
        names: is_set(found, "names"),
    })
}

pub(crate) fn explain_in<'a>(found: &ArgMatches<'a>) -> Option<ExplainCommand<'a>>
    ensures { Finds (IsExplain (rows_of (found_of found.now))) result }
{
    Some(ExplainCommand {
        image: value_of(found, "IMAGE")?,
        beside: beside_in(found)?,
    })
}

/// What is explained beside an image, if anything is; none where it would be two files.
fn beside_in<'a>(found: &ArgMatches<'a>) -> Option<Option<Beside<'a>>>
    ensures { Finds (IsBeside (rows_of (found_of found.now))) result }
{
    let trace = value_of(found, "trace");
    match (value_of(found, "script"), value_of(found, "order"), trace) {
        (None, None, None) => Some(None),
        (Some(script), None, None) => Some(Some(Beside::Script(script))),
        (None, Some(order), None) => Some(Some(Beside::Order(order))),
        (None, None, Some(trace)) => Some(Some(Beside::Trace(trace))),
        _ => None,
    }
}

pub(crate) fn chart_in<'a>(found: &ArgMatches<'a>) -> Option<ChartCommand<'a>>
    ensures { Finds (IsChart (rows_of (found_of found.now))) result }
{
    let chart = ChartCommand {
        image: value_of(found, "IMAGE")?,
        trace: value_of(found, "TRACE")?,
        from: chart_end(found, "from", 0, LAST_PLACE)?,
        to: chart_end(found, "to", LAST_PLACE, LAST_PLACE)?,
        hart: number(found, "hart", LAST_HART)?,
        names: is_set(found, "names"),
        width: number_or(found, "width", USUAL_COLUMNS, MOST_COLUMNS)?,
        columns: columns_in(found)?,
        registers: is_set(found, "registers"),
        counters: is_set(found, "counters"),
        svg: value_of(found, "svg"),
        kanata: value_of(found, "kanata"),
        title: value_of(found, "title"),
        theme: shade_in(found)?,
    };
    if !can_be_drawn(&chart) {
        return None;
    }
    Some(chart)
}

pub(crate) fn outcomes_in<'a>(found: &ArgMatches<'a>) -> Option<OutcomesCommand<'a>>
    ensures { Finds (IsOutcomes (rows_of (found_of found.now))) result }
{
    let asked = asked_in(found)?;
    let outcomes = OutcomesCommand {
        image: value_of(found, "IMAGE")?,
        states: number_or(found, "states", USUAL_STATES, u32::MAX)?,
        watch: value_of(found, "watch"),
        question: asked.question,
        why: asked.why,
        svg: value_of(found, "svg"),
        first: is_set(found, "first"),
        outcome: number(found, "outcome", u32::MAX)?,
        stuck: is_set(found, "stuck"),
        witness: value_of(found, "witness"),
        script: value_of(found, "script"),
        story: value_of(found, "story"),
        story_svg: value_of(found, "story-svg"),
        theme: theme_in(found)?,
        all: is_set(found, "all"),
        lines: value_of(found, "lines"),
        without: without_in(found)?,
        how: is_set(found, "how"),
    };
    if !can_be_searched(&outcomes) {
        return None;
    }
    Some(outcomes)
}

pub(crate) fn litmus_in<'a>(found: &ArgMatches<'a>) -> Option<LitmusCommand<'a>>
    ensures { Finds (IsLitmus (rows_of (found_of found.now))) result }
{
    let litmus = LitmusCommand {
        test: value_of(found, "TEST")?,
        states: number_or(found, "states", USUAL_STATES, u32::MAX)?,
        why: is_set(found, "why"),
        image: value_of(found, "image"),
        svg: value_of(found, "svg"),
        outcome: number(found, "outcome", u32::MAX)?,
        witness: value_of(found, "witness"),
        script: value_of(found, "script"),
        story: value_of(found, "story"),
        story_svg: value_of(found, "story-svg"),
        theme: theme_in(found)?,
        all: is_set(found, "all"),
        run: number(found, "run", MOST_TIMES)?,
        summary: is_set(found, "summary"),
        expect: value_of(found, "expect"),
        several: are_several(found),
    };
    if !can_be_tested(&litmus) {
        return None;
    }
    if litmus.several && names_input(found) {
        return None;
    }
    Some(litmus)
}

pub(crate) fn migrate_in<'a>(found: &ArgMatches<'a>) -> Option<MigrateCommand<'a>>
    ensures { Finds (IsMigrate (rows_of (found_of found.now))) result }
{
    Some(MigrateCommand {
        trace: value_of(found, "TRACE")?,
        out: value_of(found, "OUT")?,
    })
}
