//! The arguments and options of the commands, as help describes them.

/// How an argument is given.
pub(crate) enum Kind {
    /// The name of a file, which must be there.
    File,
    /// The names of files, of which one must be there.
    Files,
    /// The name of a file, which may be there.
    OptionalFile,
    /// `--name FILE`, which may be there.
    Option,
    /// `--name`, which may be there.
    Flag,
    /// `--name FOLDER`, which may be there.
    Folder,
    /// `--name N`, which may be there.
    Number,
    /// `--name PLACE`, which may be there.
    Place,
    /// `--name LIST`, which may be there.
    List,
    /// `--name CONDITION`, which may be there.
    Condition,
    /// `--name WHEN`, which may be there.
    When,
    /// `--name THEME`, which may be there.
    Theme,
    /// `--name OF`, which may be there.
    Columns,
    /// `--name TEXT`, which may be there.
    Text,
}

/// An argument of a subcommand, as help describes it.
pub(crate) struct Argument {
    pub(crate) kind: Kind,
    pub(crate) name: &'static str,
    pub(crate) help: &'static str,
}

pub(crate) const IMAGE: Argument = Argument {
    kind: Kind::File,
    name: "IMAGE",
    help: "The program: an ELF file of RV32IMA",
};

pub(crate) const SCRIPT: Argument = Argument {
    kind: Kind::File,
    name: "SCRIPT",
    help: "The script: what the actors are asked to do",
};

pub(crate) const TRACE: Argument = Argument {
    kind: Kind::File,
    name: "TRACE",
    help: "The trace: the events of a history",
};

pub(crate) const ORDER: Argument = Argument {
    kind: Kind::File,
    name: "ORDER",
    help: "The order: which hart makes each step",
};

pub(crate) const ORDER_OR_ROUNDS: Argument = Argument {
    kind: Kind::OptionalFile,
    name: "ORDER",
    help: "The order: which hart makes each step; none with --rounds",
};

pub(crate) const CONFIG: Argument = Argument {
    kind: Kind::Option,
    name: "config",
    help: "The configuration, a TOML file: see smtsim --help",
};

pub(crate) const HARTS: Argument = Argument {
    kind: Kind::Number,
    name: "harts",
    help: "How many harts, over those of the configuration",
};

/// So it is beside a trace that may be of a core of its own.
pub(crate) const HARTS_BESIDE_TRACE: Argument = Argument {
    kind: Kind::Number,
    name: "harts",
    help: "How many harts; not where the trace names its core",
};

pub(crate) const COUNTS: Argument = Argument {
    kind: Kind::Flag,
    name: "counts",
    help: "Count each kind of event, after the report",
};

pub(crate) const JSON: Argument = Argument {
    kind: Kind::Flag,
    name: "json",
    help: "Print the report as one JSON object",
};

pub(crate) const LOOKS: Argument = Argument {
    kind: Kind::Flag,
    name: "looks",
    help: "Print how many loads looked again, after the tables",
};

pub(crate) const LINES: Argument = Argument {
    kind: Kind::Option,
    name: "lines",
    help: "Put source lines behind addresses, from image.sh -g",
};

pub(crate) const NAMES: Argument = Argument {
    kind: Kind::Flag,
    name: "names",
    help: "Put the name of the code behind its address",
};

pub(crate) const RECORDS: Argument = Argument {
    kind: Kind::Flag,
    name: "records",
    help: "Print a record of each retirement, before the report",
};

pub(crate) const STORY: Argument = Argument {
    kind: Kind::Flag,
    name: "story",
    help: "Tell what steps show to other harts, before the report",
};

pub(crate) const STORY_SVG: Argument = Argument {
    kind: Kind::Option,
    name: "story-svg",
    help: "The file for a picture of that",
};

pub(crate) const THEME: Argument = Argument {
    kind: Kind::Theme,
    name: "theme",
    help: "Its colours: auto, light or dark",
};

pub(crate) const ALL: Argument = Argument {
    kind: Kind::Flag,
    name: "all",
    help: "Tell each step, with --story",
};

pub(crate) const SHOW: Argument = Argument {
    kind: Kind::Flag,
    name: "show",
    help: "Print the core's tables, after the asks",
};

pub(crate) const WHY: Argument = Argument {
    kind: Kind::Flag,
    name: "why",
    help: "Tell why an ask made no step, and what it squashed",
};

pub(crate) const WHY_ENDS: Argument = Argument {
    kind: Kind::Flag,
    name: "why",
    help: "Tell where harts stand that haven't ended, and why",
};

pub(crate) const WHY_REFUSED: Argument = Argument {
    kind: Kind::Flag,
    name: "why",
    help: "Tell why the trace is refused, or where each hart stands",
};

pub(crate) const TIMES: Argument = Argument {
    kind: Kind::Number,
    name: "times",
    help: "Run that often, and print a table of the ends",
};

pub(crate) const KEEP: Argument = Argument {
    kind: Kind::Folder,
    name: "keep",
    help: "The folder for trace, order and story of each end",
};

pub(crate) const ROUNDS: Argument = Argument {
    kind: Kind::Number,
    name: "rounds",
    help: "Without an order: each hart makes N steps in turn",
};

pub(crate) const STEPS: Argument = Argument {
    kind: Kind::Number,
    name: "steps",
    help: "The most steps of all harts, with --rounds",
};

pub(crate) const SEED: Argument = Argument {
    kind: Kind::Number,
    name: "seed",
    help: "Draw the turns, from this number on, with --rounds",
};

pub(crate) const WRITTEN_TRACE: Argument = Argument {
    kind: Kind::Option,
    name: "trace",
    help: "The file that the history is written to",
};

pub(crate) const EXPLAINED_TRACE: Argument = Argument {
    kind: Kind::Option,
    name: "trace",
    help: "A trace to judge beside them",
};

pub(crate) const FROM: Argument = Argument {
    kind: Kind::Place,
    name: "from",
    help: "The first event that is drawn, or where a function begins",
};

pub(crate) const TO: Argument = Argument {
    kind: Kind::Place,
    name: "to",
    help: "The last event that is drawn, or where a function ends",
};

pub(crate) const HART: Argument = Argument {
    kind: Kind::Number,
    name: "hart",
    help: "The one hart whose instructions are drawn",
};

pub(crate) const WIDTH: Argument = Argument {
    kind: Kind::Number,
    name: "width",
    help: "Characters of a line, or events of a picture's band: 120",
};

pub(crate) const SVG: Argument = Argument {
    kind: Kind::Option,
    name: "svg",
    help: "The file for a picture, in place of text",
};

pub(crate) const KANATA: Argument = Argument {
    kind: Kind::Option,
    name: "kanata",
    help: "The file for a log that Konata reads, in place of text",
};

pub(crate) const COLUMNS: Argument = Argument {
    kind: Kind::Columns,
    name: "columns",
    help: "What a column is: events or rounds",
};

pub(crate) const REGISTERS: Argument = Argument {
    kind: Kind::Flag,
    name: "registers",
    help: "Show the registers of each instruction",
};

pub(crate) const COUNTERS: Argument = Argument {
    kind: Kind::Flag,
    name: "counters",
    help: "Show how full the core is, column by column",
};

pub(crate) const TITLE: Argument = Argument {
    kind: Kind::Text,
    name: "title",
    help: "The picture's title, with --svg",
};

pub(crate) const LIGHT: Argument = Argument {
    kind: Kind::Flag,
    name: "light",
    help: "Draw the picture for a light page, with --svg",
};

pub(crate) const DARK: Argument = Argument {
    kind: Kind::Flag,
    name: "dark",
    help: "Draw the picture for a dark page, with --svg",
};

pub(crate) const WITHOUT: Argument = Argument {
    kind: Kind::List,
    name: "without",
    help: "Leave reductions out of the search: RX, J",
};

pub(crate) const HOW: Argument = Argument {
    kind: Kind::Flag,
    name: "how",
    help: "Tell how the search went, and what it saved",
};

pub(crate) const STATES: Argument = Argument {
    kind: Kind::Number,
    name: "states",
    help: "The most states, some 150 bytes each: 1000000",
};

pub(crate) const WATCH: Argument = Argument {
    kind: Kind::List,
    name: "watch",
    help: "Registers and words that tell outcomes apart",
};

pub(crate) const EXISTS: Argument = Argument {
    kind: Kind::Condition,
    name: "exists",
    help: "Tell of which outcomes this holds",
};

pub(crate) const FORALL: Argument = Argument {
    kind: Kind::Condition,
    name: "forall",
    help: "Tell whether this holds of each",
};

pub(crate) const NEVER: Argument = Argument {
    kind: Kind::Condition,
    name: "never",
    help: "Tell whether this holds of none",
};

pub(crate) const NEVER_STUCK: Argument = Argument {
    kind: Kind::Flag,
    name: "never-stuck",
    help: "Tell whether each state can go on to an end",
};

pub(crate) const WHY_NONE: Argument = Argument {
    kind: Kind::Condition,
    name: "why",
    help: "Tell why this holds of none",
};

pub(crate) const FIRST: Argument = Argument {
    kind: Kind::Flag,
    name: "first",
    help: "End the search at the first that answers",
};

pub(crate) const OUTCOME: Argument = Argument {
    kind: Kind::Number,
    name: "outcome",
    help: "The outcome whose order is written, from 1",
};

pub(crate) const STUCK: Argument = Argument {
    kind: Kind::Flag,
    name: "stuck",
    help: "In its place a state from which nothing can end",
};

pub(crate) const WITNESS: Argument = Argument {
    kind: Kind::Option,
    name: "witness",
    help: "The file for an order that leads there",
};

pub(crate) const WRITTEN_SCRIPT: Argument = Argument {
    kind: Kind::Option,
    name: "script",
    help: "The file for the script of that order",
};

pub(crate) const WRITTEN_STORY: Argument = Argument {
    kind: Kind::Option,
    name: "story",
    help: "The file for the story of that order",
};

pub(crate) const TEST: Argument = Argument {
    kind: Kind::Files,
    name: "TEST",
    help: "A litmus test, a folder of them, or a list: @FILE",
};

pub(crate) const SUMMARY: Argument = Argument {
    kind: Kind::Flag,
    name: "summary",
    help: "Print a line a test, in place of its states",
};

pub(crate) const EXPECT: Argument = Argument {
    kind: Kind::Option,
    name: "expect",
    help: "A summary: print what is otherwise now",
};

pub(crate) const WRITTEN_IMAGE: Argument = Argument {
    kind: Kind::Option,
    name: "image",
    help: "The file for the test's program: an ELF file",
};

pub(crate) const WHY_NEVER: Argument = Argument {
    kind: Kind::Flag,
    name: "why",
    help: "Tell why the condition holds of no state, or how",
};

pub(crate) const SVG_OF_WHY: Argument = Argument {
    kind: Kind::Option,
    name: "svg",
    help: "The file for a picture of that",
};

pub(crate) const OUTCOME_OF_TEST: Argument = Argument {
    kind: Kind::Number,
    name: "outcome",
    help: "The state whose order is written, by its line",
};

pub(crate) const RUN_TEST: Argument = Argument {
    kind: Kind::Number,
    name: "run",
    help: "Run it N times by threads, and count each state",
};

pub(crate) const WRITTEN_OUT: Argument = Argument {
    kind: Kind::File,
    name: "OUT",
    help: "The file for the trace of version 3",
};

pub(crate) const EXPLAINED_SCRIPT: Argument = Argument {
    kind: Kind::Option,
    name: "script",
    help: "A script to explain beside them",
};

pub(crate) const EXPLAINED_ORDER: Argument = Argument {
    kind: Kind::Option,
    name: "order",
    help: "An order to explain beside them",
};

/// The option of all subcommands, which help lists last.
pub(crate) const HINTS: Argument = Argument {
    kind: Kind::When,
    name: "hints",
    help: "Hints behind a fault: auto, always, never or json",
};
