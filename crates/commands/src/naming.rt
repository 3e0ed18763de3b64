//! The names of an image's program, for the commands that show or take names.

ghost use Rattle.std.specs.Prelude.{◌≡◌, ◌||◌, IfOk, IfErr};
ghost use Rattle.symbols.specs.Tables.{table_of};
ghost use Rattle.command_parts.specs.declared.refused.Refused.TheVariants.{Memory};
ghost use Rattle.command_parts.specs.Inputs.{AreNamesFor};
ghost use Rattle.commands.specs.Commands.{is_function, wants_names};

use command_parts::{Refused, names_in};
use sim_inputs::{ChartEnd, ProgramCommand, StepCommand};
use std::alloc::Global;
use symbols::Symbols;

/// Whether a command shows or takes names of its program.
pub(crate) fn wants_names(command: &ProgramCommand<'_>) -> bool
    ensures { result ≡ wants_names command.now }
{
    match command {
        ProgramCommand::Outcomes(_) => true,
        ProgramCommand::Chart(chart) => {
            chart.names || is_function(chart.from) || is_function(chart.to)
        }
        ProgramCommand::Step(step) => step_wants_names(step),
        ProgramCommand::Run(run) => {
            run.names || run.watch.is_some() || run.question.is_some() || run.keep.is_some()
        }
        ProgramCommand::Check(check) => check.names || check.story,
        ProgramCommand::Plain(plain) => { plain.names || plain.story || plain.story_svg.is_some() }
        ProgramCommand::List(list) => list.names,
        ProgramCommand::Schedule(_) | ProgramCommand::Script(_) => false,
    }
}

/// Whether `step` shows names, at addresses or in its story.
pub(crate) fn step_wants_names(step: &StepCommand<'_>) -> bool
    ensures { result ≡ (step.now.names || step.now.story) }
{
    step.names || step.story
}

/// Whether a chart begins or ends at a function.
fn is_function(end: ChartEnd<'_>) -> bool
    ensures { result ≡ is_function end.entry }
{
    matches!(end, ChartEnd::Function(_))
}

/// The names of the program in an image's file, where they are wanted; else none.
pub(crate) fn names_where(
    is_wanted: bool,
    file: &[u8],
    alloc: Global,
) -> Result<Symbols<'_>, Refused>
    ensures names { IfOk result (λ names. AreNamesFor is_wanted file.now (table_of names)) }
    ensures refused { IfErr result (λ why. why ≡ Memory) }
{
    if !is_wanted {
        return Ok(Symbols::none(alloc));
    }
    names_in(file, alloc)
}
