//! What is wanted of a core, by the words of a command.

ghost use Rattle.std.specs.Prelude.{◌≡◌, option_map};
ghost use Rattle.symbols.specs.Tables.{table_of};
ghost use Rattle.core_commands.specs.Wanted.{check_wants, end_of, run_wants, step_wants, wants_of};
ghost use Rattle.core_commands.specs.Wanted.{rows_of, rows_wanted};

use reports::RunEnd;
use sim_inputs::{CheckCommand, RunCommand, StepCommand};
use symbols::Symbols;

/// How the story of a core is told.
#[derive(Clone, Copy, Drop)]
pub struct CoreStory<'a> {
    /// Whether each retirement has a row, and not just those that other harts can see.
    pub all: bool,
    /// The names of the program, by which places in memory are shown.
    pub names: &'a Symbols<'a>,
}

/// What is wanted of a core beside its report.
#[derive(Clone, Copy, Drop)]
pub struct Wanted<'a> {
    /// The story of what it has retired, before all else that is printed of it.
    pub story: Option<CoreStory<'a>>,
    /// A line for each retired instruction, before the report.
    pub records: bool,
    /// The tables of the core, before the records.
    pub tables: bool,
    /// How many of its loads looked again, behind the tables.
    pub looks: bool,
    /// The trace of the core, put into its sink.
    pub trace: bool,
    /// The numbers of its history, behind the report or in its object.
    pub counts: bool,
    /// The report as one JSON object, behind all else.
    pub json: bool,
    /// Why each hart that hasn't ended stands where it does; this is what has ended the run.
    pub ends: Option<RunEnd>,
}

impl<'a> Wanted<'a> {
    /// What the words of `step` want, of a program with these names.
    pub fn of_step(step: &StepCommand<'_>, names: &'a Symbols<'a>) -> Wanted<'a>
        ensures { wants_of result ≡ step_wants step.now (table_of names.now) }
    {
        Wanted {
            story: story_where(step.story, step.all, names),
            records: step.records,
            tables: step.show,
            looks: step.looks,
            trace: step.trace.is_some(),
            counts: step.counts,
            json: step.json,
            ends: end_of(step.why, RunEnd::Script),
        }
    }

    /// What the words of `run` want.
    pub fn of_run(run: &RunCommand<'_>) -> Wanted<'a>
        ensures { wants_of result ≡ run_wants run.now }
    {
        Wanted {
            story: None,
            records: run.records,
            tables: false,
            looks: false,
            trace: run.trace.is_some(),
            counts: run.counts,
            json: run.json,
            ends: end_of(run.why, RunEnd::Turns),
        }
    }

    /// What the words of `check` want, of a program with these names.
    pub fn of_check(check: &CheckCommand<'_>, names: &'a Symbols<'a>) -> Wanted<'a>
        ensures { wants_of result ≡ check_wants check.now (table_of names.now) }
    {
        Wanted {
            story: story_where(check.story, check.all, names),
            records: check.records,
            tables: false,
            looks: false,
            trace: false,
            counts: check.counts,
            json: check.json,
            ends: end_of(check.why, RunEnd::Trace),
        }
    }
}

fn story_where<'a>(is_wanted: bool, all: bool, names: &'a Symbols<'a>) -> Option<CoreStory<'a>>
    ensures { option_map rows_of result ≡ rows_wanted is_wanted all (table_of names.now) }
{
    if is_wanted {
        Some(CoreStory { all, names })
    } else {
        None
    }
}

fn end_of(why: bool, end: RunEnd) -> Option<RunEnd>
    ensures { result ≡ end_of why end }
{
    if why { Some(end) } else { None }
}
