//! All that the program does with a line of `step` whose script is typed, once its other files are read.

ghost use Rattle.std.specs.Prelude.{◌≡◌, ◌⊎◌, [], IsTrue, IfOk, IfErr, OnOk, Ok, Err, true, false};
ghost use Rattle.std.specs.Prelude.{is_some, Some, IsSomeAnd};
ghost use Rattle.report_lines.specs.Statuses.{says_harts};
ghost use Rattle.sim_inputs.specs.declared.line.Command.TheVariants.{OfProgram};
ghost use Rattle.sim_inputs.specs.declared.line.ProgramCommand.TheVariants.{Step};
ghost use Rattle.command_parts.specs.declared.refused.Refused.{Refused as AnyRefused};
ghost use Rattle.core_commands.specs.Account.{IsTraceWritten};
ghost use Rattle.command_parts.specs.Inputs.{as_read};
ghost use Rattle.commands.specs.Perform.{IsRefusal};
ghost use Rattle.commands.specs.Commands.{origins_in};
ghost use Rattle.commands.specs.Typed.{TypedComesTo};
ghost use Rattle.command_parts.specs.Refused.{exit_status_of, refusal_of};
ghost use Rattle.core_commands.specs.Wanted.{step_wants};
ghost use Rattle.core_commands.specs.Prompt.{PromptComesTo};
ghost use Rattle.core_commands.specs.Step.{IsStepRefusal};
ghost use Rattle.symbols.specs.Tables.{table_of};
ghost use Rattle.address_labels.specs.Labels.{marks_where};

use crate::labelling::labels_where;
use crate::naming::{names_where, step_wants_names};
use crate::performing::refuse_line;
use crate::settings::settings_with;
use command_parts::{Context, Inputs, Refused, image_of, lines_where, settings_of};
use core_commands::{Wanted, perform_prompt};
use elf_image::Image;
use sim_inputs::{HartCount, Settings, StepCommand};
use smt_core::Predict;
use source_lines::SourceLines;
use std::io::{BufRead, Write};
use stress_runs::EndFiles;
use symbols::Symbols;

/// Does all that the program does with a line of `step` whose script is typed, once its other files
/// are read, with so many harts where that is given: as `perform` does, but each line of `reader` is asked as it comes.
/// It is refused as an empty script is.
pub fn perform_typed<R, G, P: Predict + Copy, B: BufRead, S: EndFiles, W: Write, E: Write>(
    context: &mut Context<'_, R, G, P, S, W>,
    step: &StepCommand<'_>,
    harts: Option<HartCount>,
    inputs: &Inputs<'_>,
    reader: &mut B,
    err: &mut E,
) -> u8
    requires works { S.has_failed context.old.files ≡ false }
    requires finished { S.is_finished context.old.files ≡ true }
    ensures kept { says_harts result ≡ false
        → IsSomeAnd context.new.refused (λ reason. exit_status_of reason ≡ result) }
    ensures known { IsTrue (says_harts result) ⊎ (result ≡ 2) ⊎ (result ≡ 4) ⊎ (result ≡ 5) }
    ensures unset { IfErr inputs.now.config (λ why. result ≡ 5) }
    ensures refused { says_harts result ≡ false → (reason : AnyRefused)
        × (exit_status_of reason ≡ result) × IsRefusal harts (OfProgram (Step step.now))
        (as_read inputs.now.config) (as_read inputs.now.program) (Ok []) (as_read inputs.now.lines) reason }
    ensures ended { IsTrue (says_harts result) → TypedComesTo P.predicts context.old.predict harts step.now
        (as_read inputs.now.config) (as_read inputs.now.program) (as_read inputs.now.lines) (B.remaining reader.old)
        (step_wants step.now)
        (IsTraceWritten S.written S.has_failed context.old.files context.new.files (is_some step.now.trace))
        (W.contents context.old.out) (W.contents context.new.out) result }
    ensures finished { IsTrue (says_harts result) → S.is_finished context.new.files ≡ true }
    ensures unwanted { is_some step.now.trace ≡ false → context.new.files ≡ context.old.files }
{
    match read_and_prompt(context, step, &harts, inputs, reader) {
        Ok(status) => status,
        Err(refused) => refuse_line(refused, context, err),
    }
}

/// The exit status of a typed script, with all flushed that it prints.
fn read_and_prompt<R, G, P: Predict + Copy, B: BufRead, S: EndFiles, W: Write>(
    context: &mut Context<'_, R, G, P, S, W>,
    step: &StepCommand<'_>,
    harts: &Option<HartCount>,
    inputs: &Inputs<'_>,
    reader: &mut B,
) -> Result<u8, Refused>
    requires works { S.has_failed context.old.files ≡ false }
    requires finished { S.is_finished context.old.files ≡ true }
    ensures unset { IfErr inputs.now.config (λ why. result ≡ Err (refusal_of why)) }
    ensures refused { IfErr result (IsRefusal harts.now (OfProgram (Step step.now)) (as_read inputs.now.config)
        (as_read inputs.now.program) (Ok []) (as_read inputs.now.lines)) }
    ensures ended { IfOk result (TypedComesTo P.predicts context.old.predict harts.now step.now
        (as_read inputs.now.config)
        (as_read inputs.now.program) (as_read inputs.now.lines) (B.remaining reader.old) (step_wants step.now)
        (IsTraceWritten S.written S.has_failed context.old.files context.new.files (is_some step.now.trace))
        (W.contents context.old.out) (W.contents context.new.out)) }
    ensures finished { OnOk result (S.is_finished context.new.files ≡ true) }
    ensures unwanted { is_some step.now.trace ≡ false → context.new.files ≡ context.old.files }
{
    let config = inputs.config?;
    let own = settings_of(config, context.alloc)?;
    let ram = own.ram;
    let settings = settings_with(own, harts);
    let file = inputs.program?;
    let image = image_of(file, ram, context.alloc)?;
    let wants_names = step_wants_names(step);
    let names = names_where(wants_names, file, context.alloc)?;
    let wants_lines = step.lines.is_some();
    let lines = match lines_where(wants_lines, inputs.lines, &image, context.alloc) {
        Ok(lines) => lines,
        Err(refused) => return Err(refused),
    };
    // Handed on as it is: a `?` would leave the prover to find what the refusal becomes.
    let status = match prompt_beside(context, step, &settings, &image, &names, &lines, reader) {
        Ok(status) => status,
        Err(refused) => return Err(refused),
    };
    match context.out.flush() {
        Ok(()) => Ok(status),
        Err(_) => Err(Refused::Output),
    }
}

/// Asks each line of `reader` as it comes, with what the line wants beside addresses.
fn prompt_beside<R, G, P: Predict + Copy, B: BufRead, S: EndFiles, W: Write>(
    context: &mut Context<'_, R, G, P, S, W>,
    step: &StepCommand<'_>,
    settings: &Settings,
    image: &Image,
    names: &Symbols<'_>,
    lines: &Option<SourceLines<'_>>,
    reader: &mut B,
) -> Result<u8, Refused>
    requires works { S.has_failed context.old.files ≡ false }
    requires finished { S.is_finished context.old.files ≡ true }
    ensures refused { IfErr result (IsStepRefusal settings.now []) }
    ensures ended { IfOk result (PromptComesTo P.predicts context.old.predict settings.now image.now
        step.now.why (B.remaining reader.old) (step_wants step.now (table_of names.now))
        (marks_where step.now.names (table_of names.now) (origins_in lines.now))
        (IsTraceWritten S.written S.has_failed context.old.files context.new.files (is_some step.now.trace))
        (W.contents context.old.out) (W.contents context.new.out)) }
    ensures finished { OnOk result (S.is_finished context.new.files ≡ true) }
    ensures unwanted { is_some step.now.trace ≡ false → context.new.files ≡ context.old.files }
{
    let labels = &labels_where(step.names, names, lines);
    let wanted = Wanted::of_step(step, names);
    perform_prompt(context, image, settings, step.why, wanted, labels, reader)
}
