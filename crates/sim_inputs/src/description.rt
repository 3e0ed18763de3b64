ghost use Rattle.std.specs.Prelude.{◌≡◌, IfOk};
ghost use Rattle.std.specs.List.{fold};
ghost use Rattle.clap.specs.Words.{App, app_of};
ghost use Rattle.sim_inputs.specs.CommandLine.{IsArgument, IsCommand};
ghost use Rattle.sim_inputs.specs.Rules.{image_commands, report_commands, smtsim, top, with_command};
ghost use Rattle.sim_inputs.specs.Table.{own_arguments_in, rule_in, subcommand_in, with_row};

use crate::arguments::{
    ALL, Argument, COLUMNS, CONFIG, COUNTERS, COUNTS, DARK, EXISTS, EXPECT, EXPLAINED_ORDER,
    EXPLAINED_SCRIPT, EXPLAINED_TRACE, FIRST, FORALL, FROM, HART, HARTS, HARTS_BESIDE_TRACE, HINTS,
    HOW, IMAGE, JSON, KANATA, KEEP, Kind, LIGHT, LINES, LOOKS, NAMES, NEVER, NEVER_STUCK, ORDER,
    ORDER_OR_ROUNDS, OUTCOME, OUTCOME_OF_TEST, RECORDS, REGISTERS, ROUNDS, RUN_TEST, SCRIPT, SEED,
    SHOW, STATES, STEPS, STORY, STORY_SVG, STUCK, SUMMARY, SVG, SVG_OF_WHY, TEST, THEME, TIMES,
    TITLE, TO, TRACE, WATCH, WHY, WHY_ENDS, WHY_NEVER, WHY_NONE, WHY_REFUSED, WIDTH, WITHOUT,
    WITNESS, WRITTEN_IMAGE, WRITTEN_OUT, WRITTEN_SCRIPT, WRITTEN_STORY, WRITTEN_TRACE,
};
use crate::forms::{
    CHART_FORM, CONFIGURATION_FORM, LITMUS_FORM, MIGRATE_FORM, ORDER_FORM, OUTCOMES_FORM,
    SCRIPT_FORM, TRACE_FORM,
};
use crate::version::VERSION;
use clap::{Arg, ArgAction, Command};
use std::alloc::{AllocError, Global};

/// A subcommand, as help describes it.
pub(crate) struct Subcommand {
    name: &'static str,
    about: &'static str,
    arguments: &'static [Argument],
    /// How its other file is written, for the end of its help; empty where that says nothing.
    form: &'static str,
}

/// The subcommands that print a report, in the order in which help lists them.
static OF_REPORTS: [Subcommand; 4] = [
    Subcommand {
        name: "step",
        about: "Make a script's asks of the core in order, and print a report",
        arguments: &[
            IMAGE,
            SCRIPT,
            CONFIG,
            HARTS,
            COUNTS,
            JSON,
            LINES,
            LOOKS,
            NAMES,
            RECORDS,
            SHOW,
            STORY,
            ALL,
            WHY,
            WRITTEN_TRACE,
        ],
        form: SCRIPT_FORM,
    },
    Subcommand {
        name: "run",
        about: "Run the core, with a thread for each actor, and print a report",
        arguments: &[
            IMAGE,
            CONFIG,
            HARTS,
            COUNTS,
            JSON,
            LINES,
            NAMES,
            RECORDS,
            WHY_ENDS,
            TIMES,
            WATCH,
            EXISTS,
            FORALL,
            NEVER,
            KEEP,
            WRITTEN_TRACE,
        ],
        form: OUTCOMES_FORM,
    },
    Subcommand {
        name: "check",
        about: "Check that a trace is a history of the core, and print its report",
        arguments: &[
            IMAGE,
            TRACE,
            CONFIG,
            HARTS_BESIDE_TRACE,
            COUNTS,
            JSON,
            LINES,
            NAMES,
            RECORDS,
            STORY,
            ALL,
            WHY_REFUSED,
        ],
        form: TRACE_FORM,
    },
    Subcommand {
        name: "plain",
        about: "Run the plain machine in an order of harts, and print a report",
        arguments: &[
            IMAGE,
            ORDER_OR_ROUNDS,
            CONFIG,
            HARTS,
            LINES,
            NAMES,
            RECORDS,
            ROUNDS,
            STEPS,
            SEED,
            STORY,
            STORY_SVG,
            THEME,
            ALL,
        ],
        form: ORDER_FORM,
    },
];

/// The others that have an image, which help lists behind them.
static OF_IMAGES: [Subcommand; 6] = [
    Subcommand {
        name: "schedule",
        about: "Print the script that makes the core retire in an order of harts",
        arguments: &[IMAGE, ORDER, CONFIG, HARTS],
        form: ORDER_FORM,
    },
    Subcommand {
        name: "script",
        about: "Print the script that makes the core have a trace's history again",
        arguments: &[IMAGE, TRACE, CONFIG, HARTS_BESIDE_TRACE],
        form: TRACE_FORM,
    },
    Subcommand {
        name: "list",
        about: "Print each word of the program's code: address, word, instruction",
        arguments: &[IMAGE, CONFIG, LINES, NAMES],
        form: "",
    },
    Subcommand {
        name: "chart",
        about: "Draw a trace's pipeline: a row an instruction, a column an event",
        arguments: &[
            IMAGE,
            TRACE,
            CONFIG,
            HARTS_BESIDE_TRACE,
            FROM,
            TO,
            HART,
            NAMES,
            WIDTH,
            COLUMNS,
            REGISTERS,
            COUNTERS,
            SVG,
            KANATA,
            TITLE,
            LIGHT,
            DARK,
        ],
        form: CHART_FORM,
    },
    Subcommand {
        name: "explain",
        about: "Tell what image and configuration hold, or why they are refused",
        arguments: &[
            IMAGE,
            CONFIG,
            HARTS_BESIDE_TRACE,
            EXPLAINED_SCRIPT,
            EXPLAINED_ORDER,
            EXPLAINED_TRACE,
        ],
        form: "",
    },
    Subcommand {
        name: "outcomes",
        about: "List every end that the program has on the plain machine",
        arguments: &[
            IMAGE,
            CONFIG,
            HARTS,
            STATES,
            WATCH,
            EXISTS,
            FORALL,
            NEVER,
            NEVER_STUCK,
            WHY_NONE,
            SVG_OF_WHY,
            FIRST,
            OUTCOME,
            STUCK,
            WITNESS,
            WRITTEN_SCRIPT,
            WRITTEN_STORY,
            STORY_SVG,
            THEME,
            ALL,
            LINES,
            WITHOUT,
            HOW,
        ],
        form: OUTCOMES_FORM,
    },
];

/// Those that have none, which help lists last.
static OF_OTHERS: [Subcommand; 2] = [
    Subcommand {
        name: "litmus",
        about: "List every final state of a litmus test, as herd does",
        arguments: &[
            TEST,
            CONFIG,
            STATES,
            WRITTEN_IMAGE,
            WHY_NEVER,
            SVG_OF_WHY,
            OUTCOME_OF_TEST,
            WITNESS,
            WRITTEN_SCRIPT,
            WRITTEN_STORY,
            STORY_SVG,
            THEME,
            ALL,
            RUN_TEST,
            SUMMARY,
            EXPECT,
        ],
        form: LITMUS_FORM,
    },
    Subcommand {
        name: "migrate",
        about: "Write version 3 of an older trace",
        arguments: &[TRACE, WRITTEN_OUT, CONFIG],
        form: MIGRATE_FORM,
    },
];

/// The program's command line.
pub fn describe<'a>(alloc: Global) -> Result<Command<'a>, AllocError>
    ensures { IfOk result (λ c. app_of c ≡ smtsim) }
{
    let of_reports = add_of_reports(without_subcommands(alloc), alloc)?;
    let of_images = add_of_images(of_reports, alloc)?;
    add_subcommands(of_images, &OF_OTHERS, alloc)
}

/// The program's command line without its subcommands.
fn without_subcommands<'a>(alloc: Global) -> Command<'a>
    ensures { app_of result ≡ top }
{
    Command::new(alloc, "smtsim")
        .about("Simulate a simultaneous multithreading core whose harts run one RV32IMA program")
        .version(VERSION)
        .after_help(CONFIGURATION_FORM)
        .subcommand_required(true)
}

/// Adds the subcommands that print a report. (The check of a function grows with the tables that it reads.)
fn add_of_reports<'a>(command: Command<'a>, alloc: Global) -> Result<Command<'a>, AllocError>
    ensures { (app : App) → app_of command.entry ≡ app
        → IfOk result (λ c. app_of c ≡ fold with_command app report_commands) }
{
    add_subcommands(command, &OF_REPORTS, alloc)
}

/// Adds the others that have an image.
fn add_of_images<'a>(command: Command<'a>, alloc: Global) -> Result<Command<'a>, AllocError>
    ensures { (app : App) → app_of command.entry ≡ app
        → IfOk result (λ c. app_of c ≡ fold with_command app image_commands) }
{
    add_subcommands(command, &OF_IMAGES, alloc)
}

/// Adds subcommands in turn.
fn add_subcommands<'a>(
    command: Command<'a>,
    rows: &'static [Subcommand],
    alloc: Global,
) -> Result<Command<'a>, AllocError>
    ensures { (app : App) → app_of command.entry ≡ app
        → IfOk result (λ c. app_of c ≡ fold with_row app rows.now) }
{
    let mut command = command;
    for row in rows {
        let subcommand = subcommand_of(row, alloc)?;
        command = command.subcommand(subcommand)?;
    }
    Ok(command)
}

/// The subcommand of a row, with the option of all of them.
fn subcommand_of<'a>(row: &'static Subcommand, alloc: Global) -> Result<Command<'a>, AllocError>
    ensures { IfOk result (IsCommand (subcommand_in row.now)) }
{
    let command = own_arguments_of(row, alloc)?;
    command.arg(argument_of(&HINTS, alloc))
}

/// The subcommand of a row, with its own arguments.
fn own_arguments_of<'a>(row: &'static Subcommand, alloc: Global) -> Result<Command<'a>, AllocError>
    ensures { IfOk result (IsCommand (own_arguments_in row.now)) }
{
    let mut command = Command::new(alloc, row.name)
        .about(row.about)
        .after_help(row.form);
    for argument in row.arguments {
        command = command.arg(argument_of(argument, alloc))?;
    }
    Ok(command)
}

/// The argument of a row.
fn argument_of<'a>(row: &'static Argument, alloc: Global) -> Arg<'a>
    ensures { IsArgument (rule_in row.now) result }
{
    let argument = Arg::new(alloc, row.name).help(row.help);
    match row.kind {
        Kind::File => argument.required(true),
        Kind::Files => argument.required(true).action(ArgAction::Append),
        Kind::OptionalFile => argument,
        Kind::Option => argument.long(row.name).value_name("FILE"),
        Kind::Folder => argument.long(row.name).value_name("FOLDER"),
        Kind::Flag => argument.long(row.name).action(ArgAction::SetTrue),
        Kind::Number => argument.long(row.name).value_name("N"),
        Kind::Place => argument.long(row.name).value_name("PLACE"),
        Kind::List => argument.long(row.name).value_name("LIST"),
        Kind::Condition => argument.long(row.name).value_name("CONDITION"),
        Kind::When => argument.long(row.name).value_name("WHEN"),
        Kind::Theme => argument.long(row.name).value_name("THEME"),
        Kind::Columns => argument.long(row.name).value_name("OF"),
        Kind::Text => argument.long(row.name).value_name("TEXT"),
    }
}
