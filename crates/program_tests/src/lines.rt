//! Lines of the program, as their words are read. None names a configuration.

use reductions::Without;
use sim_inputs::{
    Beside, ChartCommand, ChartEnd, CheckCommand, Columns, Command, ExplainCommand, HintsWanted,
    Line, ListCommand, LitmusCommand, MigrateCommand, OutcomesCommand, PlainCommand,
    ProgramCommand, QuestionText, RunCommand, ScheduleCommand, ScriptCommand, StepCommand,
};

macro_rules! line {
    ($command:expr) => {
        Line {
            config: None,
            harts: None,
            hints: HintsWanted::Auto,
            command: $command,
        }
    };
}

macro_rules! program_line {
    ($command:expr) => {
        line!(Command::OfProgram($command))
    };
}

/// A script that is run.
pub fn step_line(records: bool, show: bool, trace: Option<&'static str>) -> Line<'static> {
    program_line!(ProgramCommand::Step(StepCommand {
        image: "image",
        script: "script",
        trace,
        counts: false,
        json: false,
        looks: false,
        lines: None,
        names: false,
        records,
        show,
        story: false,
        all: false,
        why: false,
    },))
}

/// A script that is run, to tell how many loads looked again.
pub fn looks_line() -> Line<'static> {
    program_line!(ProgramCommand::Step(StepCommand {
        image: "image",
        script: "script",
        trace: None,
        counts: false,
        json: false,
        looks: true,
        lines: None,
        names: false,
        records: false,
        show: false,
        story: false,
        all: false,
        why: false,
    },))
}

/// A script that is run, to tell its story.
pub fn step_story_line() -> Line<'static> {
    program_line!(ProgramCommand::Step(StepCommand {
        image: "image",
        script: "script",
        trace: None,
        counts: false,
        json: false,
        looks: false,
        lines: None,
        names: false,
        records: false,
        show: false,
        story: true,
        all: false,
        why: false,
    },))
}

/// A trace that is checked, to tell each step of its story.
pub fn check_story_line() -> Line<'static> {
    program_line!(ProgramCommand::Check(CheckCommand {
        image: "image",
        trace: "trace",
        counts: false,
        json: false,
        lines: None,
        names: false,
        records: true,
        story: true,
        all: true,
        why: false,
    },))
}

/// A run with a thread for each actor.
pub fn run_line(records: bool, trace: Option<&'static str>) -> Line<'static> {
    program_line!(ProgramCommand::Run(RunCommand {
        image: "image",
        trace,
        counts: false,
        json: false,
        lines: None,
        names: false,
        records,
        why: false,
        times: None,
        watch: None,
        question: None,
        keep: None,
    },))
}

/// A line that makes so many runs, whose ends are kept, and of which this is watched and asked.
pub fn stress_line(
    times: u32,
    watch: Option<&'static str>,
    question: Option<QuestionText<'static>>,
) -> Line<'static> {
    program_line!(ProgramCommand::Run(RunCommand {
        image: "image",
        trace: None,
        counts: false,
        json: false,
        lines: None,
        names: false,
        records: false,
        why: false,
        times: Some(times),
        watch,
        question,
        keep: Some("kept"),
    },))
}

/// A trace that is checked.
pub fn check_line(records: bool) -> Line<'static> {
    program_line!(ProgramCommand::Check(CheckCommand {
        image: "image",
        trace: "trace",
        counts: false,
        json: false,
        lines: None,
        names: false,
        records,
        story: false,
        all: false,
        why: false,
    },))
}

/// A trace of version 1 that is written as one of version 2.
pub fn migrate_line() -> Line<'static> {
    line!(Command::Migrate(MigrateCommand {
        trace: "trace",
        out: "out",
    },))
}

/// The plain machine, run in an order.
pub fn plain_line(records: bool) -> Line<'static> {
    program_line!(ProgramCommand::Plain(PlainCommand {
        image: "image",
        order: Some("order"),
        rounds: None,
        steps: None,
        seed: None,
        lines: None,
        names: false,
        records,
        story: false,
        story_svg: None,
        theme: None,
        all: false,
    },))
}

/// The script of an order.
pub const SCHEDULE: Line<'static> = program_line!(ProgramCommand::Schedule(ScheduleCommand {
    image: "image",
    order: "order",
},));

/// The script of a trace's history.
pub const SCRIPT: Line<'static> = program_line!(ProgramCommand::Script(ScriptCommand {
    image: "image",
    trace: "trace",
},));

/// The chart of a trace, written to these files or printed.
pub fn chart_line(svg: Option<&'static str>, kanata: Option<&'static str>) -> Line<'static> {
    program_line!(ProgramCommand::Chart(ChartCommand {
        image: "image",
        trace: "trace",
        from: ChartEnd::Event(0),
        to: ChartEnd::Event(16_777_215),
        hart: None,
        names: false,
        width: 120,
        columns: Columns::Events,
        registers: false,
        counters: false,
        svg,
        kanata,
        title: None,
        theme: None,
    },))
}

/// The listing of an image's code.
pub const LIST: Line<'static> = program_line!(ProgramCommand::List(ListCommand {
    image: "image",
    lines: None,
    names: false
}));

/// What is said of a configuration and of an image.
pub const EXPLAIN: Line<'static> = line!(Command::Explain(ExplainCommand {
    image: "image",
    beside: None,
}));

pub const EXPLAIN_SCRIPT: Line<'static> = line!(Command::Explain(ExplainCommand {
    image: "image",
    beside: Some(Beside::Script("script")),
}));

pub const EXPLAIN_ORDER: Line<'static> = line!(Command::Explain(ExplainCommand {
    image: "image",
    beside: Some(Beside::Order("order")),
}));

/// The reductions that a search leaves out where none is named.
pub const NOTHING_LEFT_OUT: Without = Without {
    conditional: false,
    jumps: false,
};

/// The outcomes of an image, of so many states at the most.
pub fn outcomes_line(states: u32) -> Line<'static> {
    program_line!(ProgramCommand::Outcomes(OutcomesCommand {
        image: "image",
        states,
        watch: None,
        question: None,
        why: false,
        svg: None,
        first: false,
        outcome: None,
        stuck: false,
        witness: None,
        script: None,
        story: None,
        story_svg: None,
        theme: None,
        all: false,
        lines: None,
        without: NOTHING_LEFT_OUT,
        how: false,
    },))
}

/// The final states of a litmus test, and why its condition holds of none.
pub fn litmus_line(why: bool) -> Line<'static> {
    line!(Command::Litmus(litmus_command(why)))
}

/// The same as its command.
pub fn litmus_command(why: bool) -> LitmusCommand<'static> {
    LitmusCommand {
        test: "test",
        states: 1_000_000,
        why,
        image: None,
        svg: None,
        outcome: None,
        witness: None,
        script: None,
        story: None,
        story_svg: None,
        theme: None,
        all: false,
        run: None,
        summary: false,
        expect: None,
        several: false,
    }
}
