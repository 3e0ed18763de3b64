//! The words of a line: what they ask for; and in the modules beside it words that are refused, the
//! configuration, harts and the help.

mod configuration;
mod harts;
mod help;
mod options;
mod refused_words;

use crate::lines::NOTHING_LEFT_OUT;
use crate::rows::holds;
use sim_inputs::{
    Beside, ChartCommand, ChartEnd, CheckCommand, Columns, Command, ExplainCommand, HintsWanted,
    Line, ListCommand, LitmusCommand, MigrateCommand, OutcomesCommand, PlainCommand,
    ProgramCommand, QuestionText, RunCommand, ScheduleCommand, ScriptCommand, StepCommand,
    read_words, tests_asked,
};
use std::alloc::{AllocError, Global};
use story_pictures::Theme;

/// The words of a text: a space stands between two.
fn words_of(text: &str, alloc: Global) -> Result<Vec<&str>, AllocError> {
    let mut words = Vec::new(alloc);
    for word in text.split(' ') {
        words.push(word)?;
    }
    Ok(words)
}

/// Words, and what they ask for.
const LINES: [(&str, Line<'_>); 21] = [
    (
        "smtsim chart a t",
        Line {
            config: None,
            harts: None,
            hints: HintsWanted::Auto,
            command: Command::OfProgram(ProgramCommand::Chart(ChartCommand {
                image: "a",
                trace: "t",
                from: ChartEnd::Event(0),
                to: ChartEnd::Event(16_777_215),
                hart: None,
                names: false,
                width: 120,
                columns: Columns::Events,
                registers: false,
                counters: false,
                svg: None,
                kanata: None,
                title: None,
                theme: None,
            })),
        },
    ),
    (
        "smtsim chart --from 7 a --to 7 --hart=7 t --width 1 --svg p --config c",
        Line {
            config: Some("c"),
            harts: None,
            hints: HintsWanted::Auto,
            command: Command::OfProgram(ProgramCommand::Chart(ChartCommand {
                image: "a",
                trace: "t",
                from: ChartEnd::Event(7),
                to: ChartEnd::Event(7),
                hart: Some(7),
                names: false,
                width: 1,
                columns: Columns::Events,
                registers: false,
                counters: false,
                svg: Some("p"),
                kanata: None,
                title: None,
                theme: None,
            })),
        },
    ),
    (
        "smtsim step first.elf first.script",
        Line {
            config: None,
            harts: None,
            hints: HintsWanted::Auto,
            command: Command::OfProgram(ProgramCommand::Step(StepCommand {
                image: "first.elf",
                script: "first.script",
                trace: None,
                counts: false,
                json: false,
                looks: false,
                lines: None,
                names: false,
                records: false,
                show: false,
                story: false,
                all: false,
                why: false,
            })),
        },
    ),
    (
        "smtsim step a b --config c",
        Line {
            config: Some("c"),
            harts: None,
            hints: HintsWanted::Auto,
            command: Command::OfProgram(ProgramCommand::Step(StepCommand {
                image: "a",
                script: "b",
                trace: None,
                counts: false,
                json: false,
                looks: false,
                lines: None,
                names: false,
                records: false,
                show: false,
                story: false,
                all: false,
                why: false,
            })),
        },
    ),
    (
        "smtsim step --config=c a b",
        Line {
            config: Some("c"),
            harts: None,
            hints: HintsWanted::Auto,
            command: Command::OfProgram(ProgramCommand::Step(StepCommand {
                image: "a",
                script: "b",
                trace: None,
                counts: false,
                json: false,
                looks: false,
                lines: None,
                names: false,
                records: false,
                show: false,
                story: false,
                all: false,
                why: false,
            })),
        },
    ),
    (
        "smtsim step a --records b",
        Line {
            config: None,
            harts: None,
            hints: HintsWanted::Auto,
            command: Command::OfProgram(ProgramCommand::Step(StepCommand {
                image: "a",
                script: "b",
                trace: None,
                counts: false,
                json: false,
                looks: false,
                lines: None,
                names: false,
                records: true,
                show: false,
                story: false,
                all: false,
                why: false,
            })),
        },
    ),
    (
        "smtsim step --show a b",
        Line {
            config: None,
            harts: None,
            hints: HintsWanted::Auto,
            command: Command::OfProgram(ProgramCommand::Step(StepCommand {
                image: "a",
                script: "b",
                trace: None,
                counts: false,
                json: false,
                looks: false,
                lines: None,
                names: false,
                records: false,
                show: true,
                story: false,
                all: false,
                why: false,
            })),
        },
    ),
    (
        "smtsim step a b --trace t",
        Line {
            config: None,
            harts: None,
            hints: HintsWanted::Auto,
            command: Command::OfProgram(ProgramCommand::Step(StepCommand {
                image: "a",
                script: "b",
                trace: Some("t"),
                counts: false,
                json: false,
                looks: false,
                lines: None,
                names: false,
                records: false,
                show: false,
                story: false,
                all: false,
                why: false,
            })),
        },
    ),
    (
        "smtsim step --show a --config c --trace=t b --records",
        Line {
            config: Some("c"),
            harts: None,
            hints: HintsWanted::Auto,
            command: Command::OfProgram(ProgramCommand::Step(StepCommand {
                image: "a",
                script: "b",
                trace: Some("t"),
                counts: false,
                json: false,
                looks: false,
                lines: None,
                names: false,
                records: true,
                show: true,
                story: false,
                all: false,
                why: false,
            })),
        },
    ),
    (
        "smtsim step a --looks b",
        Line {
            config: None,
            harts: None,
            hints: HintsWanted::Auto,
            command: Command::OfProgram(ProgramCommand::Step(StepCommand {
                image: "a",
                script: "b",
                trace: None,
                counts: false,
                json: false,
                looks: true,
                lines: None,
                names: false,
                records: false,
                show: false,
                story: false,
                all: false,
                why: false,
            })),
        },
    ),
    (
        "smtsim run a",
        Line {
            config: None,
            harts: None,
            hints: HintsWanted::Auto,
            command: Command::OfProgram(ProgramCommand::Run(RunCommand {
                image: "a",
                trace: None,
                counts: false,
                json: false,
                lines: None,
                names: false,
                records: false,
                why: false,
                times: None,
                watch: None,
                question: None,
                keep: None,
            })),
        },
    ),
    (
        "smtsim run --records --config c a",
        Line {
            config: Some("c"),
            harts: None,
            hints: HintsWanted::Auto,
            command: Command::OfProgram(ProgramCommand::Run(RunCommand {
                image: "a",
                trace: None,
                counts: false,
                json: false,
                lines: None,
                names: false,
                records: true,
                why: false,
                times: None,
                watch: None,
                question: None,
                keep: None,
            })),
        },
    ),
    (
        "smtsim run --trace t a",
        Line {
            config: None,
            harts: None,
            hints: HintsWanted::Auto,
            command: Command::OfProgram(ProgramCommand::Run(RunCommand {
                image: "a",
                trace: Some("t"),
                counts: false,
                json: false,
                lines: None,
                names: false,
                records: false,
                why: false,
                times: None,
                watch: None,
                question: None,
                keep: None,
            })),
        },
    ),
    (
        "smtsim check a t",
        Line {
            config: None,
            harts: None,
            hints: HintsWanted::Auto,
            command: Command::OfProgram(ProgramCommand::Check(CheckCommand {
                image: "a",
                trace: "t",
                counts: false,
                json: false,
                lines: None,
                names: false,
                records: false,
                story: false,
                all: false,
                why: false,
            })),
        },
    ),
    (
        "smtsim check --records a --config c t",
        Line {
            config: Some("c"),
            harts: None,
            hints: HintsWanted::Auto,
            command: Command::OfProgram(ProgramCommand::Check(CheckCommand {
                image: "a",
                trace: "t",
                counts: false,
                json: false,
                lines: None,
                names: false,
                records: true,
                story: false,
                all: false,
                why: false,
            })),
        },
    ),
    (
        "smtsim plain a b",
        Line {
            config: None,
            harts: None,
            hints: HintsWanted::Auto,
            command: Command::OfProgram(ProgramCommand::Plain(PlainCommand {
                image: "a",
                order: Some("b"),
                rounds: None,
                steps: None,
                seed: None,
                lines: None,
                names: false,
                records: false,
                story: false,
                story_svg: None,
                theme: None,
                all: false,
            })),
        },
    ),
    (
        "smtsim plain --config c a --records b --story-svg p --theme dark",
        Line {
            config: Some("c"),
            harts: None,
            hints: HintsWanted::Auto,
            command: Command::OfProgram(ProgramCommand::Plain(PlainCommand {
                image: "a",
                order: Some("b"),
                rounds: None,
                steps: None,
                seed: None,
                lines: None,
                names: false,
                records: true,
                story: false,
                story_svg: Some("p"),
                theme: Some(Theme::Dark),
                all: false,
            })),
        },
    ),
    (
        "smtsim schedule a b",
        Line {
            config: None,
            harts: None,
            hints: HintsWanted::Auto,
            command: Command::OfProgram(ProgramCommand::Schedule(ScheduleCommand {
                image: "a",
                order: "b",
            })),
        },
    ),
    (
        "smtsim schedule a --config c b",
        Line {
            config: Some("c"),
            harts: None,
            hints: HintsWanted::Auto,
            command: Command::OfProgram(ProgramCommand::Schedule(ScheduleCommand {
                image: "a",
                order: "b",
            })),
        },
    ),
    (
        "smtsim script a t",
        Line {
            config: None,
            harts: None,
            hints: HintsWanted::Auto,
            command: Command::OfProgram(ProgramCommand::Script(ScriptCommand {
                image: "a",
                trace: "t",
            })),
        },
    ),
    (
        "smtsim script a --config c t",
        Line {
            config: Some("c"),
            harts: None,
            hints: HintsWanted::Auto,
            command: Command::OfProgram(ProgramCommand::Script(ScriptCommand {
                image: "a",
                trace: "t",
            })),
        },
    ),
];

/// Of other commands and options.
const OTHER_LINES: [(&str, Line<'_>); 31] = [
    (
        "smtsim list list.elf",
        Line {
            config: None,
            harts: None,
            hints: HintsWanted::Auto,
            command: Command::OfProgram(ProgramCommand::List(ListCommand {
                image: "list.elf",
                lines: None,
                names: false,
            })),
        },
    ),
    (
        "smtsim list --config c.toml list.elf",
        Line {
            config: Some("c.toml"),
            harts: None,
            hints: HintsWanted::Auto,
            command: Command::OfProgram(ProgramCommand::List(ListCommand {
                image: "list.elf",
                lines: None,
                names: false,
            })),
        },
    ),
    (
        "smtsim run --times 1000000 --watch a0@1,counter a --exists h0=1 --keep=f",
        Line {
            config: None,
            harts: None,
            hints: HintsWanted::Auto,
            command: Command::OfProgram(ProgramCommand::Run(RunCommand {
                image: "a",
                trace: None,
                counts: false,
                json: false,
                lines: None,
                names: false,
                records: false,
                why: false,
                times: Some(1_000_000),
                watch: Some("a0@1,counter"),
                question: Some(QuestionText::Exists("h0=1")),
                keep: Some("f"),
            })),
        },
    ),
    (
        "smtsim run --why --counts --json a",
        Line {
            config: None,
            harts: None,
            hints: HintsWanted::Auto,
            command: Command::OfProgram(ProgramCommand::Run(RunCommand {
                image: "a",
                trace: None,
                counts: true,
                json: true,
                lines: None,
                names: false,
                records: false,
                why: true,
                times: None,
                watch: None,
                question: None,
                keep: None,
            })),
        },
    ),
    (
        "smtsim check --counts a --why - --json",
        Line {
            config: None,
            harts: None,
            hints: HintsWanted::Auto,
            command: Command::OfProgram(ProgramCommand::Check(CheckCommand {
                image: "a",
                trace: "-",
                counts: true,
                json: true,
                lines: None,
                names: false,
                records: false,
                story: false,
                all: false,
                why: true,
            })),
        },
    ),
    (
        "smtsim check --story a t --all",
        Line {
            config: None,
            harts: None,
            hints: HintsWanted::Auto,
            command: Command::OfProgram(ProgramCommand::Check(CheckCommand {
                image: "a",
                trace: "t",
                counts: false,
                json: false,
                lines: None,
                names: false,
                records: false,
                story: true,
                all: true,
                why: false,
            })),
        },
    ),
    (
        "smtsim step a --story b",
        Line {
            config: None,
            harts: None,
            hints: HintsWanted::Auto,
            command: Command::OfProgram(ProgramCommand::Step(StepCommand {
                image: "a",
                script: "b",
                trace: None,
                counts: false,
                json: false,
                looks: false,
                lines: None,
                names: false,
                records: false,
                show: false,
                story: true,
                all: false,
                why: false,
            })),
        },
    ),
    (
        "smtsim step - b --json --counts",
        Line {
            config: None,
            harts: None,
            hints: HintsWanted::Auto,
            command: Command::OfProgram(ProgramCommand::Step(StepCommand {
                image: "-",
                script: "b",
                trace: None,
                counts: true,
                json: true,
                looks: false,
                lines: None,
                names: false,
                records: false,
                show: false,
                story: false,
                all: false,
                why: false,
            })),
        },
    ),
    (
        "smtsim plain a --rounds 4294967295 --steps 0 --seed 7 --config -",
        Line {
            config: Some("-"),
            harts: None,
            hints: HintsWanted::Auto,
            command: Command::OfProgram(ProgramCommand::Plain(PlainCommand {
                image: "a",
                order: None,
                rounds: Some(4_294_967_295),
                steps: Some(0),
                seed: Some(7),
                lines: None,
                names: false,
                records: false,
                story: false,
                story_svg: None,
                theme: None,
                all: false,
            })),
        },
    ),
    (
        "smtsim plain --rounds=1 a --records",
        Line {
            config: None,
            harts: None,
            hints: HintsWanted::Auto,
            command: Command::OfProgram(ProgramCommand::Plain(PlainCommand {
                image: "a",
                order: None,
                rounds: Some(1),
                steps: None,
                seed: None,
                lines: None,
                names: false,
                records: true,
                story: false,
                story_svg: None,
                theme: None,
                all: false,
            })),
        },
    ),
    (
        "smtsim explain --config c a",
        Line {
            config: Some("c"),
            harts: None,
            hints: HintsWanted::Auto,
            command: Command::Explain(ExplainCommand {
                image: "a",
                beside: None,
            }),
        },
    ),
    (
        "smtsim explain a --script s",
        Line {
            config: None,
            harts: None,
            hints: HintsWanted::Auto,
            command: Command::Explain(ExplainCommand {
                image: "a",
                beside: Some(Beside::Script("s")),
            }),
        },
    ),
    (
        "smtsim explain --order=- a",
        Line {
            config: None,
            harts: None,
            hints: HintsWanted::Auto,
            command: Command::Explain(ExplainCommand {
                image: "a",
                beside: Some(Beside::Order("-")),
            }),
        },
    ),
    (
        "smtsim explain a --trace t",
        Line {
            config: None,
            harts: None,
            hints: HintsWanted::Auto,
            command: Command::Explain(ExplainCommand {
                image: "a",
                beside: Some(Beside::Trace("t")),
            }),
        },
    ),
    (
        "smtsim outcomes a",
        Line {
            config: None,
            harts: None,
            hints: HintsWanted::Auto,
            command: Command::OfProgram(ProgramCommand::Outcomes(OutcomesCommand {
                image: "a",
                states: 1_000_000,
                watch: None,
                question: None,
                why: false,
                svg: None,
                first: false,
                outcome: None,
                stuck: false,
                witness: None,
                script: None,
                story: None,
                story_svg: None,
                theme: None,
                all: false,
                lines: None,
                without: NOTHING_LEFT_OUT,
                how: false,
            })),
        },
    ),
    (
        "smtsim outcomes --states 4294967295 a --config c --watch a0@1 --exists=h0=1 --outcome 2 --witness w",
        Line {
            config: Some("c"),
            harts: None,
            hints: HintsWanted::Auto,
            command: Command::OfProgram(ProgramCommand::Outcomes(OutcomesCommand {
                image: "a",
                states: 4_294_967_295,
                watch: Some("a0@1"),
                question: Some(QuestionText::Exists("h0=1")),
                why: false,
                svg: None,
                first: false,
                outcome: Some(2),
                stuck: false,
                witness: Some("w"),
                script: None,
                story: None,
                story_svg: None,
                theme: None,
                all: false,
                lines: None,
                without: NOTHING_LEFT_OUT,
                how: false,
            })),
        },
    ),
    (
        "smtsim outcomes a --forall x=1 --first --story t --all --lines l",
        Line {
            config: None,
            harts: None,
            hints: HintsWanted::Auto,
            command: Command::OfProgram(ProgramCommand::Outcomes(OutcomesCommand {
                image: "a",
                states: 1_000_000,
                watch: None,
                question: Some(QuestionText::ForAll("x=1")),
                why: false,
                svg: None,
                first: true,
                outcome: None,
                stuck: false,
                witness: None,
                script: None,
                story: Some("t"),
                story_svg: None,
                theme: None,
                all: true,
                lines: Some("l"),
                without: NOTHING_LEFT_OUT,
                how: false,
            })),
        },
    ),
    (
        "smtsim outcomes a --theme=auto --never-stuck --story-svg p --lines l",
        Line {
            config: None,
            harts: None,
            hints: HintsWanted::Auto,
            command: Command::OfProgram(ProgramCommand::Outcomes(OutcomesCommand {
                image: "a",
                states: 1_000_000,
                watch: None,
                question: Some(QuestionText::NeverStuck),
                why: false,
                svg: None,
                first: false,
                outcome: None,
                stuck: false,
                witness: None,
                script: None,
                story: None,
                story_svg: Some("p"),
                theme: Some(Theme::Automatic),
                all: false,
                lines: Some("l"),
                without: NOTHING_LEFT_OUT,
                how: false,
            })),
        },
    ),
    (
        "smtsim outcomes a --never-stuck --witness w",
        Line {
            config: None,
            harts: None,
            hints: HintsWanted::Auto,
            command: Command::OfProgram(ProgramCommand::Outcomes(OutcomesCommand {
                image: "a",
                states: 1_000_000,
                watch: None,
                question: Some(QuestionText::NeverStuck),
                why: false,
                svg: None,
                first: false,
                outcome: None,
                stuck: false,
                witness: Some("w"),
                script: None,
                story: None,
                story_svg: None,
                theme: None,
                all: false,
                lines: None,
                without: NOTHING_LEFT_OUT,
                how: false,
            })),
        },
    ),
    (
        "smtsim outcomes a --why x=1 --svg p --lines l",
        Line {
            config: None,
            harts: None,
            hints: HintsWanted::Auto,
            command: Command::OfProgram(ProgramCommand::Outcomes(OutcomesCommand {
                image: "a",
                states: 1_000_000,
                watch: None,
                question: Some(QuestionText::Never("x=1")),
                why: true,
                svg: Some("p"),
                first: false,
                outcome: None,
                stuck: false,
                witness: None,
                script: None,
                story: None,
                story_svg: None,
                theme: None,
                all: false,
                lines: Some("l"),
                without: NOTHING_LEFT_OUT,
                how: false,
            })),
        },
    ),
    (
        "smtsim outcomes --stuck - --script s --states 1",
        Line {
            config: None,
            harts: None,
            hints: HintsWanted::Auto,
            command: Command::OfProgram(ProgramCommand::Outcomes(OutcomesCommand {
                image: "-",
                states: 1,
                watch: None,
                question: None,
                why: false,
                svg: None,
                first: false,
                outcome: None,
                stuck: true,
                witness: None,
                script: Some("s"),
                story: None,
                story_svg: None,
                theme: None,
                all: false,
                lines: None,
                without: NOTHING_LEFT_OUT,
                how: false,
            })),
        },
    ),
    (
        "smtsim litmus a",
        Line {
            config: None,
            harts: None,
            hints: HintsWanted::Auto,
            command: Command::Litmus(LitmusCommand {
                test: "a",
                states: 1_000_000,
                why: false,
                image: None,
                svg: None,
                outcome: None,
                witness: None,
                script: None,
                story: None,
                story_svg: None,
                theme: None,
                all: false,
                run: None,
                summary: false,
                expect: None,
                several: false,
            }),
        },
    ),
    (
        "smtsim litmus --why a --config c --states 5 --svg s",
        Line {
            config: Some("c"),
            harts: None,
            hints: HintsWanted::Auto,
            command: Command::Litmus(LitmusCommand {
                test: "a",
                states: 5,
                why: true,
                image: None,
                svg: Some("s"),
                outcome: None,
                witness: None,
                script: None,
                story: None,
                story_svg: None,
                theme: None,
                all: false,
                run: None,
                summary: false,
                expect: None,
                several: false,
            }),
        },
    ),
    (
        "smtsim litmus --image i -",
        Line {
            config: None,
            harts: None,
            hints: HintsWanted::Auto,
            command: Command::Litmus(LitmusCommand {
                test: "-",
                states: 1_000_000,
                why: false,
                image: Some("i"),
                svg: None,
                outcome: None,
                witness: None,
                script: None,
                story: None,
                story_svg: None,
                theme: None,
                all: false,
                run: None,
                summary: false,
                expect: None,
                several: false,
            }),
        },
    ),
    (
        "smtsim litmus t --outcome 2 --story-svg p --theme dark",
        Line {
            config: None,
            harts: None,
            hints: HintsWanted::Auto,
            command: Command::Litmus(LitmusCommand {
                test: "t",
                states: 1_000_000,
                why: false,
                image: None,
                svg: None,
                outcome: Some(2),
                witness: None,
                script: None,
                story: None,
                story_svg: Some("p"),
                theme: Some(Theme::Dark),
                all: false,
                run: None,
                summary: false,
                expect: None,
                several: false,
            }),
        },
    ),
    (
        "smtsim litmus t --run 9 --image i",
        Line {
            config: None,
            harts: None,
            hints: HintsWanted::Auto,
            command: Command::Litmus(LitmusCommand {
                test: "t",
                states: 1_000_000,
                why: false,
                image: Some("i"),
                svg: None,
                outcome: None,
                witness: None,
                script: None,
                story: None,
                story_svg: None,
                theme: None,
                all: false,
                run: Some(9),
                summary: false,
                expect: None,
                several: false,
            }),
        },
    ),
    (
        "smtsim litmus a b --why",
        Line {
            config: None,
            harts: None,
            hints: HintsWanted::Auto,
            command: Command::Litmus(LitmusCommand {
                test: "a",
                states: 1_000_000,
                why: true,
                image: None,
                svg: None,
                outcome: None,
                witness: None,
                script: None,
                story: None,
                story_svg: None,
                theme: None,
                all: false,
                run: None,
                summary: false,
                expect: None,
                several: true,
            }),
        },
    ),
    (
        "smtsim litmus --summary @a",
        Line {
            config: None,
            harts: None,
            hints: HintsWanted::Auto,
            command: Command::Litmus(LitmusCommand {
                test: "@a",
                states: 1_000_000,
                why: false,
                image: None,
                svg: None,
                outcome: None,
                witness: None,
                script: None,
                story: None,
                story_svg: None,
                theme: None,
                all: false,
                run: None,
                summary: true,
                expect: None,
                several: true,
            }),
        },
    ),
    (
        "smtsim litmus a --expect e",
        Line {
            config: None,
            harts: None,
            hints: HintsWanted::Auto,
            command: Command::Litmus(LitmusCommand {
                test: "a",
                states: 1_000_000,
                why: false,
                image: None,
                svg: None,
                outcome: None,
                witness: None,
                script: None,
                story: None,
                story_svg: None,
                theme: None,
                all: false,
                run: None,
                summary: false,
                expect: Some("e"),
                several: false,
            }),
        },
    ),
    (
        "smtsim migrate t o",
        Line {
            config: None,
            harts: None,
            hints: HintsWanted::Auto,
            command: Command::Migrate(MigrateCommand {
                trace: "t",
                out: "o",
            }),
        },
    ),
    (
        "smtsim migrate - --config c o",
        Line {
            config: Some("c"),
            harts: None,
            hints: HintsWanted::Auto,
            command: Command::Migrate(MigrateCommand {
                trace: "-",
                out: "o",
            }),
        },
    ),
];

/// The files of a line: its configuration, its image, the other one that is read, and the one that is
/// written.
type Named<'a> = (
    Option<&'a str>,
    Option<&'a str>,
    Option<&'a str>,
    Option<&'a str>,
);

fn files_of<'a>(line: &Line<'a>) -> Named<'a> {
    let files = line.files();
    (files.config, files.program, files.second, files.written)
}

/// The command of a line, and its flags: records, tables and looks, whether a state is asked for that is
/// stuck, or whether an image is written.
fn flags_of(line: &Line<'_>) -> (&'static str, [bool; 3]) {
    match line.command {
        Command::OfProgram(ProgramCommand::Step(step)) => (
            "step",
            [step.records, step.show, step.looks],
        ),
        Command::OfProgram(ProgramCommand::Run(run)) => ("run", [run.records, false, false]),
        Command::OfProgram(ProgramCommand::Check(check)) => (
            "check",
            [check.records, false, false],
        ),
        Command::OfProgram(ProgramCommand::Plain(plain)) => (
            "plain",
            [plain.records, false, false],
        ),
        Command::OfProgram(ProgramCommand::Schedule(_)) => ("schedule", [false; 3]),
        Command::OfProgram(ProgramCommand::Script(_)) => ("script", [false; 3]),
        Command::OfProgram(ProgramCommand::List(_)) => ("list", [false; 3]),
        Command::OfProgram(ProgramCommand::Chart(_)) => ("chart", [false; 3]),
        Command::Explain(_) => ("explain", [false; 3]),
        Command::OfProgram(ProgramCommand::Outcomes(outcomes)) => (
            "outcomes",
            [outcomes.stuck, false, false],
        ),
        Command::Litmus(litmus) => ("litmus", [litmus.image.is_some(), false, false]),
        Command::Migrate(_) => ("migrate", [false; 3]),
    }
}

/// What the report of a line's core is to have: reasons, counts, and the form of JSON.
fn forms_of(line: &Line<'_>) -> [bool; 3] {
    match line.command {
        Command::OfProgram(ProgramCommand::Step(step)) => [step.why, step.counts, step.json],
        Command::OfProgram(ProgramCommand::Run(run)) => [run.why, run.counts, run.json],
        Command::OfProgram(ProgramCommand::Check(check)) => [check.why, check.counts, check.json],
        Command::Litmus(litmus) => [litmus.why, litmus.summary, litmus.several],
        _ => [false; 3],
    }
}

/// The numbers of a line that is run often, in rounds or in all orders, and the folder that it names.
fn numbers_of<'a>(line: &Line<'a>) -> ([Option<u32>; 3], Option<&'a str>) {
    match line.command {
        Command::OfProgram(ProgramCommand::Run(run)) => ([run.times, None, None], run.keep),
        Command::OfProgram(ProgramCommand::Plain(plain)) => (
            [plain.rounds, plain.steps, plain.seed],
            None,
        ),
        Command::OfProgram(ProgramCommand::Outcomes(outcomes)) => (
            [Some(outcomes.states), outcomes.outcome, None],
            None,
        ),
        Command::Litmus(litmus) => (
            [Some(litmus.states), litmus.outcome, litmus.run],
            litmus.expect,
        ),
        _ => ([None, None, None], None),
    }
}

/// What of a chart is drawn: the first and the last event, the hart, and the width; and whether it is
/// a picture.
fn view_of(line: &Line<'_>) -> Option<(u32, u32, Option<u32>, u32, bool)> {
    match line.command {
        Command::OfProgram(ProgramCommand::Chart(chart)) => Some((
            event_of(chart.from),
            event_of(chart.to),
            chart.hart,
            chart.width,
            chart.svg.is_some(),
        )),
        _ => None,
    }
}

/// The event at which a chart begins or ends; one that there can't be where it is a function.
fn event_of(end: ChartEnd<'_>) -> u32 {
    match end {
        ChartEnd::Event(place) => place,
        ChartEnd::Function(_) => u32::MAX,
    }
}

/// Where a chart of these words begins and ends, as functions.
fn functions_of<'a>(words: &'a [&'a str], alloc: Global) -> Option<(&'a str, &'a str)> {
    let Ok(line) = read_words(words, alloc) else {
        return None;
    };
    let Command::OfProgram(ProgramCommand::Chart(chart)) = line.command else {
        return None;
    };
    match (chart.from, chart.to) {
        (ChartEnd::Function(from), ChartEnd::Function(to)) => Some((from, to)),
        _ => None,
    }
}

#[test]
fn a_chart_goes_from_function_to_function(rt: HostRuntime) {
    let words = ["smtsim", "chart", "a", "t", "--from", "lock", "--to", "'7'"];
    assert!(rt; functions_of(&words, rt.alloc()) == Some(("lock", "7")));
    let digit = ["smtsim", "chart", "a", "t", "--from", "7x"];
    assert!(rt; read_words(&digit, rt.alloc()).is_err());
    let quote = ["smtsim", "chart", "a", "t", "--from", "'lock"];
    assert!(rt; read_words(&quote, rt.alloc()).is_err());
}

/// The condition of which a question asks whether some outcome has it.
fn exists_in<'a>(question: Option<QuestionText<'a>>) -> Option<&'a str> {
    match question {
        Some(QuestionText::Exists(condition)) => Some(condition),
        _ => None,
    }
}

/// The texts of a line that asks for runs or outcomes, and whether its file is a script.
fn texts_of<'a>(line: &Line<'a>) -> (Option<&'a str>, Option<&'a str>, bool) {
    match line.command {
        Command::OfProgram(ProgramCommand::Run(run)) => {
            (run.watch, exists_in(run.question), false)
        }
        Command::OfProgram(ProgramCommand::Outcomes(outcomes)) => {
            (
                outcomes.watch,
                exists_in(outcomes.question),
                outcomes.script.is_some(),
            )
        }
        _ => (None, None, false),
    }
}

/// The colours that a line asks for.
fn theme_of(line: &Line<'_>) -> &'static str {
    let theme = match line.command {
        Command::OfProgram(ProgramCommand::Plain(plain)) => plain.theme,
        Command::OfProgram(ProgramCommand::Outcomes(outcomes)) => outcomes.theme,
        Command::Litmus(litmus) => litmus.order_asked().theme,
        _ => None,
    };
    match theme {
        Some(Theme::Automatic) => "auto",
        Some(Theme::Light) => "light",
        Some(Theme::Dark) => "dark",
        None => "",
    }
}

/// Whether two lines have the same command, files and flags.
fn is_same(read: &Line<'_>, line: &Line<'_>) -> bool {
    files_of(read) == files_of(line)
        && flags_of(read) == flags_of(line)
        && forms_of(read) == forms_of(line)
        && numbers_of(read) == numbers_of(line)
        && view_of(read) == view_of(line)
        && texts_of(read) == texts_of(line)
        && theme_of(read) == theme_of(line)
}

/// Whether words ask for this, where there is memory for them.
fn asks(text: &str, line: &Line<'_>, alloc: Global) -> Result<bool, AllocError> {
    let words = words_of(text, alloc)?;
    match read_words(&words, alloc) {
        Ok(read) => Ok(is_same(&read, line)),
        Err(_) => Ok(false),
    }
}

#[test]
fn each_line_is_read_with_its_files_and_options(rt: HostRuntime) {
    for (text, line) in &LINES {
        holds(&rt, text, asks(text, line, rt.alloc()) == Ok(true));
    }
}

#[test]
fn the_tests_of_a_line_are_those_that_its_words_name(rt: HostRuntime) {
    let words = [
        "smtsim",
        "litmus",
        "a",
        "--states",
        "5",
        "@b",
        "c/",
        "--summary",
    ];
    let is = match tests_asked(&words, rt.alloc()) {
        Ok(tests) => tests.as_slice() == ["a", "@b", "c/"].as_slice(),
        Err(_) => false,
    };
    holds(&rt, "several tests", is);
}

#[test]
fn each_other_line_is_read_with_its_files_and_options(rt: HostRuntime) {
    for (text, line) in &OTHER_LINES {
        holds(&rt, text, asks(text, line, rt.alloc()) == Ok(true));
    }
}

/// A line of each command, and its files.
const NAMED: [(Line<'_>, Named<'_>); 15] = [
    (
        Line {
            config: Some("c"),
            harts: None,
            hints: HintsWanted::Auto,
            command: Command::OfProgram(ProgramCommand::Chart(ChartCommand {
                image: "a",
                trace: "t",
                from: ChartEnd::Event(0),
                to: ChartEnd::Event(9),
                hart: None,
                names: false,
                width: 80,
                columns: Columns::Events,
                registers: false,
                counters: false,
                svg: None,
                kanata: Some("k"),
                title: None,
                theme: None,
            })),
        },
        (Some("c"), Some("a"), Some("t"), Some("k")),
    ),
    (
        Line {
            config: Some("c"),
            harts: None,
            hints: HintsWanted::Auto,
            command: Command::OfProgram(ProgramCommand::Step(StepCommand {
                image: "a",
                script: "b",
                trace: Some("t"),
                counts: false,
                json: false,
                looks: false,
                lines: None,
                names: false,
                records: true,
                show: true,
                story: false,
                all: false,
                why: false,
            })),
        },
        (Some("c"), Some("a"), Some("b"), Some("t")),
    ),
    (
        Line {
            config: Some("c"),
            harts: None,
            hints: HintsWanted::Auto,
            command: Command::OfProgram(ProgramCommand::Run(RunCommand {
                image: "a",
                trace: Some("t"),
                counts: false,
                json: false,
                lines: None,
                names: false,
                records: true,
                why: false,
                times: None,
                watch: None,
                question: None,
                keep: None,
            })),
        },
        (Some("c"), Some("a"), None, Some("t")),
    ),
    (
        Line {
            config: Some("c"),
            harts: None,
            hints: HintsWanted::Auto,
            command: Command::OfProgram(ProgramCommand::Check(CheckCommand {
                image: "a",
                trace: "t",
                counts: false,
                json: false,
                lines: None,
                names: false,
                records: true,
                story: false,
                all: false,
                why: false,
            })),
        },
        (Some("c"), Some("a"), Some("t"), None),
    ),
    (
        Line {
            config: Some("c"),
            harts: None,
            hints: HintsWanted::Auto,
            command: Command::OfProgram(ProgramCommand::Plain(PlainCommand {
                image: "a",
                order: Some("b"),
                rounds: None,
                steps: None,
                seed: None,
                lines: None,
                names: false,
                records: false,
                story: false,
                story_svg: None,
                theme: None,
                all: false,
            })),
        },
        (Some("c"), Some("a"), Some("b"), None),
    ),
    (
        Line {
            config: Some("c"),
            harts: None,
            hints: HintsWanted::Auto,
            command: Command::OfProgram(ProgramCommand::Schedule(ScheduleCommand {
                image: "a",
                order: "b",
            })),
        },
        (Some("c"), Some("a"), Some("b"), None),
    ),
    (
        Line {
            config: Some("c"),
            harts: None,
            hints: HintsWanted::Auto,
            command: Command::OfProgram(ProgramCommand::Script(ScriptCommand {
                image: "a",
                trace: "t",
            })),
        },
        (Some("c"), Some("a"), Some("t"), None),
    ),
    (
        Line {
            config: Some("c"),
            harts: None,
            hints: HintsWanted::Auto,
            command: Command::OfProgram(ProgramCommand::List(ListCommand {
                image: "a",
                lines: None,
                names: false,
            })),
        },
        (Some("c"), Some("a"), None, None),
    ),
    (
        Line {
            config: None,
            harts: None,
            hints: HintsWanted::Auto,
            command: Command::Explain(ExplainCommand {
                image: "a",
                beside: None,
            }),
        },
        (None, Some("a"), None, None),
    ),
    (
        Line {
            config: None,
            harts: None,
            hints: HintsWanted::Auto,
            command: Command::OfProgram(ProgramCommand::Outcomes(OutcomesCommand {
                image: "a",
                states: 1,
                watch: None,
                question: None,
                why: false,
                svg: None,
                first: false,
                outcome: Some(1),
                stuck: false,
                witness: Some("w"),
                script: None,
                story: None,
                story_svg: None,
                theme: None,
                all: false,
                lines: None,
                without: NOTHING_LEFT_OUT,
                how: false,
            })),
        },
        (None, Some("a"), None, Some("w")),
    ),
    (
        Line {
            config: None,
            harts: None,
            hints: HintsWanted::Auto,
            command: Command::OfProgram(ProgramCommand::Outcomes(OutcomesCommand {
                image: "a",
                states: 1,
                watch: None,
                question: Some(QuestionText::Never("x=1")),
                why: true,
                svg: Some("p"),
                first: false,
                outcome: None,
                stuck: false,
                witness: None,
                script: None,
                story: None,
                story_svg: None,
                theme: None,
                all: false,
                lines: None,
                without: NOTHING_LEFT_OUT,
                how: false,
            })),
        },
        (None, Some("a"), None, Some("p")),
    ),
    (
        Line {
            config: Some("c"),
            harts: None,
            hints: HintsWanted::Auto,
            command: Command::OfProgram(ProgramCommand::Outcomes(OutcomesCommand {
                image: "a",
                states: 1,
                watch: None,
                question: None,
                why: false,
                svg: None,
                first: false,
                outcome: None,
                stuck: true,
                witness: None,
                script: Some("s"),
                story: None,
                story_svg: None,
                theme: None,
                all: false,
                lines: None,
                without: NOTHING_LEFT_OUT,
                how: false,
            })),
        },
        (Some("c"), Some("a"), None, Some("s")),
    ),
    (
        Line {
            config: None,
            harts: None,
            hints: HintsWanted::Auto,
            command: Command::Litmus(LitmusCommand {
                test: "a",
                states: 1,
                why: false,
                image: Some("i"),
                svg: None,
                outcome: None,
                witness: None,
                script: None,
                story: None,
                story_svg: None,
                theme: None,
                all: false,
                run: None,
                summary: false,
                expect: None,
                several: false,
            }),
        },
        (None, Some("a"), None, Some("i")),
    ),
    (
        Line {
            config: Some("c"),
            harts: None,
            hints: HintsWanted::Auto,
            command: Command::Litmus(LitmusCommand {
                test: "a",
                states: 1,
                why: true,
                image: None,
                svg: Some("s"),
                outcome: None,
                witness: None,
                script: None,
                story: None,
                story_svg: None,
                theme: None,
                all: false,
                run: None,
                summary: false,
                expect: None,
                several: false,
            }),
        },
        (Some("c"), Some("a"), None, Some("s")),
    ),
    (
        Line {
            config: Some("c"),
            harts: None,
            hints: HintsWanted::Auto,
            command: Command::Migrate(MigrateCommand {
                trace: "t",
                out: "o",
            }),
        },
        (Some("c"), None, Some("t"), Some("o")),
    ),
];

#[test]
fn a_line_names_its_files(rt: HostRuntime) {
    for (line, files) in &NAMED {
        assert!(rt; files_of(line) == *files);
    }
}
