ghost use Rattle.std.specs.Prelude.{map, IfOk, IfErr};
ghost use Rattle.clap.specs.Words.{found_of, rows_of, subcommand_rows_of};
ghost use Rattle.sim_inputs.specs.CommandLine.{AreWordsRefusedFor, Asks, Finds, IsCommandOf};
ghost use Rattle.sim_inputs.specs.CommandLine.{IsProgramCommandOf, Names};

use crate::clap_errors::refusal;
use crate::description::describe;
use crate::files::{reads_input_once, writes_no_dash};
use crate::found_commands::{
    chart_in, check_in, explain_in, list_in, litmus_in, migrate_in, outcomes_in, plain_in, run_in,
    schedule_in, script_in, step_in,
};
use crate::found_values::{harts_in, value_of};
use crate::hints_wanted::HintsWanted;
use crate::line::{Command, Line, ProgramCommand, WordsRefused};
use clap::ArgMatches;
use std::alloc::Global;

/// Reads the program's words, its own name first. `Help` is answered where `clap` answers with its
/// help, `Version` where it answers with the version, `Refused` where the words ask for nothing, and
/// `Memory` where there isn't enough of it.
pub fn read_words<'a>(words: &'a [&'a str], alloc: Global) -> Result<Line<'a>, WordsRefused>
    ensures ok { IfOk result (Asks (map (λ word. word.now) words.entry.now)) }
    ensures refused { IfErr result (AreWordsRefusedFor (map (λ word. word.now) words.entry.now)) }
{
    let Ok(command) = describe(alloc) else {
        return Err(WordsRefused::Memory);
    };
    let matches = match command.try_get_matches_from(words) {
        Ok(matches) => matches,
        Err(error) => return Err(refusal(error, alloc)),
    };
    match line_in(&matches) {
        Some(line) => Ok(line),
        None => Err(WordsRefused::Refused),
    }
}

/// The line that the matches hold.
fn line_in<'a>(matches: &ArgMatches<'a>) -> Option<Line<'a>>
    ensures { Finds (Names (subcommand_rows_of matches.now)) result }
{
    let (name, found) = matches.subcommand()?;
    let command = command_named(name, found)?;
    let config = value_of(found, "config");
    let harts = harts_in(found)?;
    let hints = HintsWanted::of(value_of(found, "hints"))?;
    let line = Line {
        config,
        harts,
        hints,
        command,
    };
    if !reads_input_once(&line) {
        return None;
    }
    if !writes_no_dash(&line) {
        return None;
    }
    Some(line)
}

/// The command of this name, of what was found for its arguments and options; none where there is
/// no command of this name, or a file is missing that it must have.
fn command_named<'a>(name: &str, found: &ArgMatches<'a>) -> Option<Command<'a>>
    ensures { Finds (IsCommandOf name.now (rows_of (found_of found.now))) result }
{
    match name {
        "explain" => Some(Command::Explain(explain_in(found)?)),
        "litmus" => Some(Command::Litmus(litmus_in(found)?)),
        "migrate" => Some(Command::Migrate(migrate_in(found)?)),
        _ => Some(Command::OfProgram(program_command_named(name, found)?)),
    }
}

/// So it is of a command of a program.
fn program_command_named<'a>(name: &str, found: &ArgMatches<'a>) -> Option<ProgramCommand<'a>>
    ensures { Finds (IsProgramCommandOf name.now (rows_of (found_of found.now))) result }
{
    match name {
        "step" => Some(ProgramCommand::Step(step_in(found)?)),
        "run" => Some(ProgramCommand::Run(run_in(found)?)),
        "check" => Some(ProgramCommand::Check(check_in(found)?)),
        "plain" => Some(ProgramCommand::Plain(plain_in(found)?)),
        "schedule" => Some(ProgramCommand::Schedule(schedule_in(found)?)),
        "script" => Some(ProgramCommand::Script(script_in(found)?)),
        "list" => Some(ProgramCommand::List(list_in(found)?)),
        "chart" => Some(ProgramCommand::Chart(chart_in(found)?)),
        "outcomes" => Some(ProgramCommand::Outcomes(outcomes_in(found)?)),
        _ => None,
    }
}
