use crate::hart_count::HartCount;
use crate::hints_wanted::HintsWanted;
use reductions::Without;
use story_pictures::Theme;
use thiserror::Error;

/// What the program is asked to do: a command, beside the options that most commands have.
#[derive(Clone, Copy, Drop)]
pub struct Line<'a> {
    /// `--config FILE`: the file of the configuration.
    pub config: Option<&'a str>,
    /// `--harts N`: how many harts there are, whatever the configuration says. There is none with `list`, `litmus`
    /// and `migrate`.
    pub harts: Option<HartCount>,
    /// `--hints WHEN`: when a hint is told behind a fault.
    pub hints: HintsWanted,
    pub command: Command<'a>,
}

/// A command, by what it is of, with its own files and options.
#[derive(Clone, Copy, Drop)]
pub enum Command<'a> {
    /// Of a program, whose image and configuration are accepted before anything is done.
    OfProgram(ProgramCommand<'a>),
    /// Of an image and a configuration that may be refused.
    Explain(ExplainCommand<'a>),
    /// Of a litmus test, whose program is made of it.
    Litmus(LitmusCommand<'a>),
    /// Of a trace alone.
    Migrate(MigrateCommand<'a>),
}

/// A command of a program.
#[derive(Clone, Copy, Drop)]
pub enum ProgramCommand<'a> {
    Step(StepCommand<'a>),
    Run(RunCommand<'a>),
    Check(CheckCommand<'a>),
    Plain(PlainCommand<'a>),
    Schedule(ScheduleCommand<'a>),
    Script(ScriptCommand<'a>),
    List(ListCommand<'a>),
    Chart(ChartCommand<'a>),
    Outcomes(OutcomesCommand<'a>),
}

/// `step IMAGE SCRIPT`: the script's asks are made in order, without threads.
#[derive(Clone, Copy, Drop)]
pub struct StepCommand<'a> {
    pub image: &'a str,
    pub script: &'a str,
    /// `--trace FILE`: the file that the history is written to.
    pub trace: Option<&'a str>,
    /// `--counts`: how often each kind of event came is printed behind the report.
    pub counts: bool,
    /// `--json`: the report is printed as one JSON object.
    pub json: bool,
    /// `--looks`: how many loads looked again is printed behind the tables.
    pub looks: bool,
    /// `--lines FILE`: the file of source lines, which stand behind the lines of addresses.
    pub lines: Option<&'a str>,
    /// `--names`: the name of the code at each address stands behind its line.
    pub names: bool,
    /// `--records`: a line for each record is printed before the report.
    pub records: bool,
    /// `--show`: the core's tables are printed between the asks and the report.
    pub show: bool,
    /// `--story`: what the core's retirements show to other harts is told behind the asks.
    pub story: bool,
    /// `--all`: the story has a row for each retirement. There is none without a story.
    pub all: bool,
    /// `--why`: each ask's line is explained, and a tally of the reasons comes behind them; behind the
    /// report, why each hart that hasn't ended stands where it does.
    pub why: bool,
}

/// `run IMAGE`: each actor is a thread, until no hart is going.
#[derive(Clone, Copy, Drop)]
pub struct RunCommand<'a> {
    pub image: &'a str,
    /// `--trace FILE`: the file that the history is written to.
    pub trace: Option<&'a str>,
    /// `--counts`: how often each kind of event came is printed behind the report.
    pub counts: bool,
    /// `--json`: the report is printed as one JSON object.
    pub json: bool,
    /// `--lines FILE`: the file of source lines, which stand behind the lines of addresses.
    pub lines: Option<&'a str>,
    /// `--names`: the name of the code at each address stands behind its line.
    pub names: bool,
    /// `--records`: a line for each record is printed before the report.
    pub records: bool,
    /// `--why`: behind the report, why each hart that hasn't ended stands where it does.
    pub why: bool,
    /// `--times N`: that many runs, 1 to `MOST_TIMES`, and a table of their ends in place of a report.
    /// Then there is none of the seven options above.
    pub times: Option<u32>,
    /// `--watch LIST`: what tells ends apart beside how the harts end and what was put out, as it is
    /// spelled. There is none without `times`.
    pub watch: Option<&'a str>,
    /// What is asked of their ends; none without `times`, and none about states that nothing ends.
    pub question: Option<QuestionText<'a>>,
    /// `--keep FOLDER`: the folder for a trace, an order and a story of each end. There is none
    /// without `times`.
    pub keep: Option<&'a str>,
}

/// `check IMAGE TRACE`: whether the trace's events are a history of the core.
#[derive(Clone, Copy, Drop)]
pub struct CheckCommand<'a> {
    pub image: &'a str,
    /// The file of the trace, which is read.
    pub trace: &'a str,
    /// `--counts`: how often each kind of event came is printed behind the report.
    pub counts: bool,
    /// `--json`: the report is printed as one JSON object.
    pub json: bool,
    /// `--lines FILE`: the file of source lines, which stand behind the lines of addresses.
    pub lines: Option<&'a str>,
    /// `--names`: the name of the code at each address stands behind its line.
    pub names: bool,
    /// `--records`: a line for each record is printed before the report.
    pub records: bool,
    /// `--story`: what the trace's retirements show to other harts is told before all else.
    pub story: bool,
    /// `--all`: the story has a row for each retirement. There is none without a story.
    pub all: bool,
    /// `--why`: behind the report, why each hart that hasn't ended stands where it does.
    pub why: bool,
}

/// `plain IMAGE ORDER` or `plain IMAGE --rounds K`: the plain machine makes a step of each hart of an
/// order, or of each hart in turn.
#[derive(Clone, Copy, Drop)]
pub struct PlainCommand<'a> {
    pub image: &'a str,
    /// The file of the order. There is one where there are no rounds, and none beside them.
    pub order: Option<&'a str>,
    /// `--rounds K`: how many instructions a hart makes in its turn, 1 at least.
    pub rounds: Option<u32>,
    /// `--steps N`: the most instructions of all harts. There is none without rounds.
    pub steps: Option<u32>,
    /// `--seed S`: the turns are drawn, from this number on. There is none without rounds.
    pub seed: Option<u32>,
    /// `--lines FILE`: the file of source lines, which stand behind the lines of addresses.
    pub lines: Option<&'a str>,
    /// `--names`: the name of the code at each address stands behind its line.
    pub names: bool,
    /// `--records`: a line for each record is printed before the report.
    pub records: bool,
    /// `--story`: what the order's steps show to other harts is told before all else. There is none with rounds.
    pub story: bool,
    /// `--story-svg FILE`: the file that a picture of it is written to. There is none with rounds.
    pub story_svg: Option<&'a str>,
    /// `--theme THEME`: the colours of the picture. There are none without one.
    pub theme: Option<Theme>,
    /// `--all`: the story has a row for each step. There is none without a story.
    pub all: bool,
}

/// `schedule IMAGE ORDER`: the script that makes the core retire in the order is printed.
#[derive(Clone, Copy, Drop)]
pub struct ScheduleCommand<'a> {
    pub image: &'a str,
    pub order: &'a str,
}

/// `script IMAGE TRACE`: the script that makes the core have the trace's history again is printed.
#[derive(Clone, Copy, Drop)]
pub struct ScriptCommand<'a> {
    pub image: &'a str,
    /// The file of the trace, which is read.
    pub trace: &'a str,
}

/// `list IMAGE`: each word of the image's code is printed.
#[derive(Clone, Copy, Drop)]
pub struct ListCommand<'a> {
    pub image: &'a str,
    /// `--lines FILE`: the file of source lines, which stand behind the lines of addresses.
    pub lines: Option<&'a str>,
    /// `--names`: the name of the code at each address stands behind its line.
    pub names: bool,
}

/// `chart IMAGE TRACE`: the pipeline is drawn, an instruction a row and an event a column.
#[derive(Clone, Copy, Drop)]
pub struct ChartCommand<'a> {
    pub image: &'a str,
    /// The file of the trace, which is read.
    pub trace: &'a str,
    /// `--from N`: the first event that is drawn, 0 where it isn't given; or `--from F`: a function.
    pub from: ChartEnd<'a>,
    /// `--to N`: the last event that is drawn, none below a `from` that is a number; or `--to F`.
    pub to: ChartEnd<'a>,
    /// `--hart H`: the one hart that is drawn.
    pub hart: Option<u32>,
    /// `--names`: the name of the code at each address stands behind its line.
    pub names: bool,
    /// `--width W`: how many characters a line has, or how many events a band of a picture, 1 to
    /// `MOST_COLUMNS`.
    pub width: u32,
    /// `--columns OF`: what a column is.
    pub columns: Columns,
    /// `--registers`: the physical registers of each instruction stand behind it.
    pub registers: bool,
    /// `--counters`: how full the core is stands at each column.
    pub counters: bool,
    /// `--svg FILE`: the file that a picture is written to.
    pub svg: Option<&'a str>,
    /// `--kanata FILE`: the file that Konata's log is written to, another one than the picture's.
    pub kanata: Option<&'a str>,
    /// `--title TEXT`: the title of the picture. There is none without one.
    pub title: Option<&'a str>,
    /// `--light` or `--dark`: the colours of the picture. There are none without one.
    pub theme: Option<Theme>,
}

/// What a column of a chart is.
#[derive(Clone, Copy, PartialEq, Eq, Drop)]
pub enum Columns {
    /// An event.
    Events,
    /// A round: events of which each is an actor's own.
    Rounds,
}

/// Where what is drawn of a history begins or ends.
#[derive(Clone, Copy, Drop)]
pub enum ChartEnd<'a> {
    /// At the event with this number.
    Event(u32),
    /// As this function begins or ends: with the first fetch of an instruction in it, or with the last event of one.
    Function(&'a str),
}

/// `explain IMAGE`: what the image and the configuration hold, or why they are refused.
#[derive(Clone, Copy, Drop)]
pub struct ExplainCommand<'a> {
    pub image: &'a str,
    /// What is explained beside them.
    pub beside: Option<Beside<'a>>,
}

/// A file that is explained beside an image and a configuration.
#[derive(Clone, Copy, Drop)]
pub enum Beside<'a> {
    /// `--script FILE`: a script that is made of the core.
    Script(&'a str),
    /// `--order FILE`: an order that the plain machine runs in.
    Order(&'a str),
    /// `--trace FILE`: a trace that is judged, and of which is told why it is refused.
    Trace(&'a str),
}

/// `outcomes IMAGE`: every end that the program has on the plain machine is listed.
#[derive(Clone, Copy, Drop)]
pub struct OutcomesCommand<'a> {
    pub image: &'a str,
    /// `--states N`: how many states are looked at the most, 1 to `MOST_STATES`.
    pub states: u32,
    /// `--watch LIST`: the registers and words that tell outcomes apart.
    pub watch: Option<&'a str>,
    /// What is asked of them.
    pub question: Option<QuestionText<'a>>,
    /// `--why CONDITION`: it is told why its condition, which `question` asks of none, holds of none.
    pub why: bool,
    /// `--svg FILE`: the file that a picture of that is written to. There is none without it.
    pub svg: Option<&'a str>,
    /// `--first`: the search ends at the first outcome that answers the question, which has a
    /// condition.
    pub first: bool,
    /// `--outcome N`: the outcome whose order is written, from 1.
    pub outcome: Option<u32>,
    /// `--stuck`: in its place the order to a state from which nothing can end. Where neither is
    /// there and a file is written, it is the order of the outcome that answers the question.
    pub stuck: bool,
    /// `--witness FILE`: the file that the order is written to.
    pub witness: Option<&'a str>,
    /// `--script FILE`: the file that the order's script is written to.
    pub script: Option<&'a str>,
    /// `--story FILE`: the file that the order's story is written to.
    pub story: Option<&'a str>,
    /// `--story-svg FILE`: the file that a picture of that story is written to. There is one of the
    /// four at most.
    pub story_svg: Option<&'a str>,
    /// `--theme THEME`: the colours of the picture. There are none without one.
    pub theme: Option<Theme>,
    /// `--all`: each instruction has a row in the story.
    pub all: bool,
    /// `--lines FILE`: the file of source lines, which stand behind the rows of the story, or behind the accesses
    /// of why.
    pub lines: Option<&'a str>,
    /// `--without LIST`: the reductions that the search does without.
    pub without: Without,
    /// `--how`: how the search went is told. There is none with `first`.
    pub how: bool,
}

/// A question about all outcomes, or about the ends of so many runs, with its condition as it is spelled.
#[derive(Clone, Copy, Drop)]
pub enum QuestionText<'a> {
    /// `--exists CONDITION`: does it hold of an outcome?
    Exists(&'a str),
    /// `--forall CONDITION`: does it hold of each?
    ForAll(&'a str),
    /// `--never CONDITION`: does it hold of none?
    Never(&'a str),
    /// `--never-stuck`: can each state go on to an end?
    NeverStuck,
}

/// `litmus TEST`: every final state of a litmus test is listed, and whether they are as it asks.
#[derive(Clone, Copy, Drop)]
pub struct LitmusCommand<'a> {
    /// The file of the test; of several that are named, the first.
    pub test: &'a str,
    /// `--states N`: how many states are looked at the most, 1 to `MOST_STATES`.
    pub states: u32,
    /// `--why`: behind the states, why the condition holds of none.
    pub why: bool,
    /// `--image FILE`: the file that the test's image is written to.
    pub image: Option<&'a str>,
    /// `--svg FILE`: the file that a picture is written to, of why the condition holds of none. There is
    /// one of the two at most.
    pub svg: Option<&'a str>,
    /// `--outcome N`: the state whose order is written, by its line from 1. Then there is one of the four files
    /// below, and neither of the two above; and else none.
    pub outcome: Option<u32>,
    /// `--witness FILE`: the file that the order is written to.
    pub witness: Option<&'a str>,
    /// `--script FILE`: the file that the order's script is written to.
    pub script: Option<&'a str>,
    /// `--story FILE`: the file that the order's story is written to.
    pub story: Option<&'a str>,
    /// `--story-svg FILE`: the file that a picture of that story is written to.
    pub story_svg: Option<&'a str>,
    /// `--theme THEME`: the colours of that picture. There are none without one.
    pub theme: Option<Theme>,
    /// `--all`: each instruction has a row in the story. There is none without a story.
    pub all: bool,
    /// `--run N`: so many runs of the core, 1 to `MOST_TIMES`, are made and counted by their states. Then there is no
    /// `why`, no `svg` and no `outcome`.
    pub run: Option<u32>,
    /// `--summary`: a line a test is printed in place of its states.
    pub summary: bool,
    /// `--expect FILE`: the file of a summary, with which that of the tests is compared.
    pub expect: Option<&'a str>,
    /// Whether more tests are named than `test`, or that is a list (`several_tests`).
    pub several: bool,
}

/// `migrate TRACE OUT`: the trace of version 3 that has the events of an older one is written.
#[derive(Clone, Copy, Drop)]
pub struct MigrateCommand<'a> {
    /// The file of the trace, which is read.
    pub trace: &'a str,
    /// The file that the trace of version 3 is written to.
    pub out: &'a str,
}

/// Why there is nothing to do.
#[derive(Debug, Drop, Error)]
pub enum WordsRefused {
    /// The words ask for help, and this is its text.
    #[error("{0}")]
    Help(String),
    /// The words ask for the version, and this is its line.
    #[error("{0}")]
    Version(String),
    #[error("command line")]
    Refused,
    #[error("memory")]
    Memory,
}
