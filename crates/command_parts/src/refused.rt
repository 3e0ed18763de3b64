//! Why there is no report of a simulation, how that is said, and the exit status that goes with it.

ghost use Rattle.std.specs.Prelude.{◌≡◌, false};
ghost use Rattle.report_lines.specs.Statuses.{says_harts};
ghost use Rattle.command_parts.specs.Refused.{exit_status_of, refusal_of};

use litmus_reading::{Fault, Place};
use outcome_queries::QueryRefused;
use rv_instr::{UnitKind, unit_name};
use sc_machine::Stopped;
use source_lines::LineFault;
use std::fmt;
use std::io::Write;
use thiserror::Error;
use watched_outcomes::WatchedBytes;

/// Why a simulation was not made, or not reported whole.
#[derive(Clone, Copy, Debug, PartialEq, Eq, Drop, Error)]
pub enum Refused {
    /// The image fails this check, 1 to 17.
    #[error("image refused {0}")]
    Image(u8),
    /// The configuration isn't one of a core.
    #[error("config refused")]
    Config,
    /// Harts were asked for of a core that its trace names itself.
    #[error("harts refused")]
    Harts,
    /// This word of the script, from 1, is the first that says nothing.
    #[error("script word {0} refused")]
    Script(usize),
    /// This word of the order, from 0, is the first that is no number 0 to 255.
    #[error("order {0} refused 4")]
    Order(usize),
    /// The step at this place of the order, from 0, is the first that the plain machine doesn't
    /// make.
    #[error("order {index} refused {}", .why.number())]
    Step { index: usize, why: Stopped },
    /// This line of the trace, from 1, is the first that breaks a rule of its text, and the rule,
    /// 1 to 6, the first that it breaks.
    #[error("trace line {line} refused {rule}")]
    Trace { line: usize, rule: u8 },
    /// The trace that was to be migrated has version 3 already.
    #[error("trace version refused")]
    Version,
    /// This event of the trace, from 0, is the first that isn't allowed, and the rule the first
    /// that it breaks.
    #[error("event {index} refused rule {rule}")]
    Event { index: u32, rule: u8 },
    /// The fetch at this place of the trace, from 0, predicts something else than the predictor.
    #[error("event {0} predicted otherwise")]
    Prediction(u32),
    /// The rename at this place of the trace, from 0, takes a register that isn't the least free one.
    #[error("event {0} not the least register")]
    Register(u32),
    /// No actor is a unit of this kind, and a schedule needs one.
    #[error("no {} unit", unit_name(.0))]
    NoUnit(UnitKind),
    /// The limit is below this number of events, which a schedule needs.
    #[error("limit below {0}")]
    Limit(u64),
    /// The core has no hart with this number, which was to be drawn.
    #[error("no hart {0}")]
    NoHart(u32),
    /// This line of the source lines, from 1, is the first that isn't one of the image, and why it isn't.
    #[error("lines {line} refused: {fault}")]
    Lines { line: usize, fault: LineFault },
    /// This option of a chart has a name that nothing in the program has.
    #[error("{0} names nothing")]
    NamesNothing(ChartOption),
    /// It has one that stands for several addresses.
    #[error("{0} names several")]
    NamesSeveral(ChartOption),
    /// No instruction in what it names is fetched, of a hart that is drawn.
    #[error("{0} is never fetched")]
    NeverFetched(ChartOption),
    /// The last event that was to be drawn, by its name, is before the first.
    #[error("--to {to} below --from {from}")]
    Turned { from: u32, to: u32 },
    /// A picture would have too many instructions; one up to this event has few enough.
    #[error("picture of more than 4000 instructions: --to {0} would do")]
    Picture(u32),
    /// The story of an order that was to be drawn has too many rows.
    #[error("picture of more than 1000 rows")]
    LongStory,
    /// The list of what is watched is misspelled.
    #[error("watch refused at column {}: expected {}", .0.column, .0.expected)]
    Watch(QueryRefused),
    /// The condition is misspelled.
    #[error("condition refused at column {}: expected {}", .0.column, .0.expected)]
    Condition(QueryRefused),
    /// More registers and words are named than can be watched.
    #[error("more than 64 watched")]
    ManyWatched,
    /// No such bytes of memory are at this address, which were to be watched.
    #[error("no {0}")]
    NoWord(WatchedBytes),
    /// There is no outcome with this number, whose order was to be written.
    #[error("no outcome {0}")]
    NoOutcome(u32),
    /// Each state can go on to an end, and the order to one that can't was to be written.
    #[error("no stuck state")]
    NotStuck,
    /// No outcome answers the question, and the order of the one that does was to be written.
    #[error("no outcome")]
    NoAnswer,
    /// The text is no litmus test: at this place, for this fault.
    #[error("litmus refused {}:{}: {}", .0.line, .0.column, .1)]
    Litmus(Place, Fault),
    /// The condition of a litmus test holds of a final state, or no execution of it was found, and the cycle
    /// that forbids it was to be drawn.
    #[error("nothing to draw")]
    NothingToDraw,
    /// There isn't enough memory.
    #[error("memory")]
    Memory,
    /// A thread couldn't be started.
    #[error("thread")]
    Thread,
    /// A file can't be read.
    #[error("file")]
    File,
    /// An output took no more: the standard output, or the file of a trace or
    /// of a chart.
    #[error("file")]
    Output,
}

impl Refused {
    /// The exit status of the program: 2 for an input, 4 for a trace, 5 for memory, threads, files
    /// and the output.
    pub fn exit_status(self) -> u8
        ensures status { result ≡ exit_status_of self }
        ensures apart { says_harts result ≡ false }
    {
        match self {
            Refused::Image(_) | Refused::Config | Refused::Harts => 2,
            Refused::Script(_) | Refused::Order(_) | Refused::Step { .. } => 2,
            Refused::NoUnit(_) | Refused::Limit(_) => 2,
            Refused::NoHart(_) | Refused::Picture(_) | Refused::LongStory => 2,
            Refused::Lines { .. } | Refused::NamesNothing(_) | Refused::NamesSeveral(_) => 2,
            Refused::NeverFetched(_) | Refused::Turned { .. } => 2,
            Refused::Watch(_) | Refused::Condition(_) | Refused::ManyWatched => 2,
            Refused::NoWord(_) | Refused::NoOutcome(_) | Refused::NotStuck => 2,
            Refused::NoAnswer | Refused::Litmus(_, _) | Refused::NothingToDraw => 2,
            Refused::Trace { .. } | Refused::Version | Refused::Event { .. } => 4,
            Refused::Prediction(_) | Refused::Register(_) => 4,
            Refused::Memory | Refused::Thread | Refused::File | Refused::Output => 5,
        }
    }
}

/// An option of a chart that may name a function.
#[derive(Clone, Copy, Debug, PartialEq, Eq, Drop)]
pub enum ChartOption {
    From,
    To,
}

impl fmt::Display for ChartOption {
    fn fmt<W: fmt::Write>(&self, f: &mut fmt::Formatter<W>) -> fmt::Result {
        match self {
            ChartOption::From => f.write_str("--from"),
            ChartOption::To => f.write_str("--to"),
        }
    }
}

/// Why there are no bytes of a file.
#[derive(Clone, Copy, PartialEq, Eq, Drop)]
pub enum Unread {
    /// It can't be read, or it is too long.
    File,
    /// There isn't enough memory for them.
    Memory,
}

/// What is refused where the file is needed.
impl From<Unread> for Refused {
    ghost from_gives = { λ why refused. refused ≡ refusal_of why };

    fn from(why: Unread) -> Refused {
        match why {
            Unread::File => Refused::File,
            Unread::Memory => Refused::Memory,
        }
    }
}

/// Says on one line of `err` why there is no report, and answers the exit status.
pub fn refuse<E: Write>(refused: Refused, err: &mut E) -> u8
    ensures { result ≡ exit_status_of refused }
{
    let _ = writeln!(err, "smtsim: {refused}");
    refused.exit_status()
}
