//! All that the program does with a line once its files are read.

ghost use Rattle.std.specs.Prelude.{◌≡◌, ◌⊎◌, IsTrue, IfOk, IfErr, OnOk, Err, is_some, true, false};
ghost use Rattle.std.specs.Prelude.{IsSomeAnd};
ghost use Rattle.command_parts.specs.declared.refused.Refused.TheVariants.{Output};
ghost use Rattle.report_lines.specs.Statuses.{says_harts};
ghost use Rattle.command_parts.specs.declared.refused.Refused.{Refused as AnyRefused};
ghost use Rattle.command_parts.specs.Refused.{exit_status_of, refusal_of};
ghost use Rattle.sim_inputs.specs.Files.{written_for_test};
ghost use Rattle.command_parts.specs.Inputs.{as_read};
ghost use Rattle.symbols.specs.Tables.{table_of};
ghost use Rattle.commands.specs.Commands.{IsProgramUnreported, origins_in, program_writes_file};
ghost use Rattle.commands.specs.Perform.{IsRefusal, LineComesTo, IsLeft, IsUnreported, writes_file};
ghost use Rattle.commands.specs.Perform.{IsProgramRefusal, ProgramComesTo, IsPerformed};
ghost use Rattle.commands.specs.Perform.{IsLitmusLineRefusal, LitmusLineComesTo};
ghost use Rattle.commands.specs.Perform.{IsMigrateLineRefusal, MigrationComesTo};
ghost use Rattle.event_text.specs.Sinking.{HasPut};
ghost use Rattle.commands.specs.Written.{IsWritten};

use crate::explain_line::read_and_explain;
use crate::labelling::{labels_for, picture_for, story_for};
use crate::list::perform_list;
use crate::naming::{names_where, wants_names};
use crate::runs::perform_runs;
use crate::settings::settings_with;
use crate::tested::test_or_run;
use crate::two_cores::are_two_cores;
use actors::Gate;
use command_parts::{Context, Inputs, Refused, Unread, image_of, lines_where, refuse, settings_of};
use core_commands::{
    Wanted, perform_chart, perform_check, perform_migrate, perform_script, perform_step,
};
use elf_image::Image;
use plain_commands::{
    perform_outcomes, perform_plain, perform_rounds, perform_schedule, rounds_of,
};
use sim_inputs::{Command, HartCount, Line, LitmusCommand, ProgramCommand, Settings};
use smt_core::Predict;
use source_lines::SourceLines;
use std::alloc::Global;
use std::io::Write;
use std::sync::Wait;
use std::thread::Threads;
use stress_runs::EndFiles;
use symbols::Symbols;

/// Does all that the program does once its files are read, and answers its exit status: how the harts
/// stand, 0 for a listing, a schedule, a script, a chart, a litmus test and a migration, 2 for a refused
/// input, 4 for a refused trace, 5 where memory, a thread or a file failed. A refusal is one line on `err`.
/// The configuration is looked at first, then the image, then of a trace whether it names its core beside harts of the
/// line, then the lines of the image's sources, and then the script, the order or the trace; a file that couldn't be
/// read is refused where it is looked at. All that is printed is flushed. The context keeps why the line was refused,
/// if it was.
///
/// The trace of a core goes into `files`, a sink that hasn't failed, where the line names a file for it:
/// behind the last ask, and before the tables and the report, and its file is finished. Where the sink fails,
/// neither is printed. So does a chart that is written to a file, and a migrated trace, of which nothing is
/// put where it is refused for anything else. A run of threads asks the gate whether it may go on.
pub fn perform<
    G: Gate + Sync,
    P: Predict + Copy + Send,
    S: EndFiles,
    W: Write,
    E: Write,
    R: Threads + Wait + Sync,
>(context: &mut Context<'_, R, G, P, S, W>, line: &Line<'_>, inputs: &Inputs<'_>, err: &mut E) -> u8
    requires works { S.has_failed context.old.files ≡ false }
    requires finished { S.is_finished context.old.files ≡ true }
    ensures kept { says_harts result ≡ false
        → IsSomeAnd context.new.refused (λ reason. exit_status_of reason ≡ result) }
    ensures known { IsTrue (says_harts result) ⊎ (result ≡ 2) ⊎ (result ≡ 4) ⊎ (result ≡ 5) }
    ensures unset { IfErr inputs.now.config (λ why. result ≡ 5) }
    ensures refused { says_harts result ≡ false → (reason : AnyRefused)
        × (exit_status_of reason ≡ result) × IsRefusal line.now.harts line.now.command
        (as_read inputs.now.config) (as_read inputs.now.program) (as_read inputs.now.second)
        (as_read inputs.now.lines) reason }
    ensures ended { IsTrue (says_harts result) → LineComesTo line.now.harts line.now.command
        (as_read inputs.now.config) (as_read inputs.now.program) (as_read inputs.now.second) (as_read inputs.now.lines)
        (IsWritten S.begins S.written S.has_failed context.old.files context.new.files) (W.contents context.old.out)
        (W.contents context.new.out) result }
    ensures left { says_harts result ≡ false → (reason : AnyRefused)
        × (exit_status_of reason ≡ result) × IsRefusal line.now.harts line.now.command (as_read inputs.now.config)
        (as_read inputs.now.program) (as_read inputs.now.second) (as_read inputs.now.lines) reason
        × IsLeft line.now.command context.old.files context.new.files reason }
    ensures finished { IsTrue (says_harts result) → S.is_finished context.new.files ≡ true }
    ensures unwanted { writes_file line.now.command ≡ false → context.new.files ≡ context.old.files }
    ensures unreported { S.has_failed context.new.files ≡ true → IsUnreported line.now.command
        (as_read inputs.now.second) (W.contents context.old.out) (W.contents context.new.out) }
{
    match perform_line(context, line, inputs) {
        Ok(status) => status,
        Err(refused) => refuse_line(refused, context, err),
    }
}

/// Says why a line is refused, and keeps it for a hint. Answers the exit status.
pub(crate) fn refuse_line<R, G, P, S, W, E: Write>(
    refused: Refused,
    context: &mut Context<'_, R, G, P, S, W>,
    err: &mut E,
) -> u8
    ensures status { result ≡ exit_status_of refused }
    ensures kept { context.new ≡ record context.old { refused = Some refused } }
{
    context.refused = Some(refused);
    refuse(refused, err)
}

/// The exit status of a line whose inputs are accepted, with all flushed that it prints.
fn perform_line<
    G: Gate + Sync,
    P: Predict + Copy + Send,
    S: EndFiles,
    W: Write,
    R: Threads + Wait + Sync,
>(
    context: &mut Context<'_, R, G, P, S, W>,
    line: &Line<'_>,
    inputs: &Inputs<'_>,
) -> Result<u8, Refused>
    requires works { S.has_failed context.old.files ≡ false }
    requires finished { S.is_finished context.old.files ≡ true }
    ensures unset { IfErr inputs.now.config (λ why. result ≡ Err (refusal_of why)) }
    ensures refused { IfErr result (IsRefusal line.now.harts line.now.command (as_read inputs.now.config)
        (as_read inputs.now.program) (as_read inputs.now.second) (as_read inputs.now.lines)) }
    ensures ended { IfOk result (LineComesTo line.now.harts line.now.command (as_read inputs.now.config)
        (as_read inputs.now.program) (as_read inputs.now.second) (as_read inputs.now.lines)
        (IsWritten S.begins S.written S.has_failed context.old.files context.new.files) (W.contents context.old.out)
        (W.contents context.new.out)) }
    ensures left { IfErr result (IsLeft line.now.command context.old.files context.new.files) }
    ensures finished { OnOk result (S.is_finished context.new.files ≡ true) }
    ensures unwanted { writes_file line.now.command ≡ false → context.new.files ≡ context.old.files }
    ensures unreported { S.has_failed context.new.files ≡ true → IsUnreported line.now.command
        (as_read inputs.now.second) (W.contents context.old.out) (W.contents context.new.out) }
{
    let alloc = context.alloc;
    match &line.command {
        Command::OfProgram(command) => read_and_perform(context, command, &line.harts, inputs),
        Command::Explain(explain) => read_and_explain(
            explain,
            &line.harts,
            inputs,
            &mut context.predict,
            &mut context.out,
            alloc,
        ),
        Command::Litmus(litmus) => read_and_test(context, litmus, inputs),
        Command::Migrate(_) => read_and_migrate(inputs, &mut context.files, alloc),
    }
}

/// The exit status of a litmus test, with all flushed that is printed of it.
fn read_and_test<
    G: Gate + Sync,
    P: Predict + Copy + Send,
    S: EndFiles,
    W: Write,
    R: Threads + Wait + Sync,
>(
    context: &mut Context<'_, R, G, P, S, W>,
    litmus: &LitmusCommand<'_>,
    inputs: &Inputs<'_>,
) -> Result<u8, Refused>
    requires works { S.has_failed context.old.files ≡ false }
    requires finished { S.is_finished context.old.files ≡ true }
    ensures unset { IfErr inputs.now.config (λ why. result ≡ Err (refusal_of why)) }
    ensures refused { IfErr result (IsLitmusLineRefusal litmus.now (as_read inputs.now.config)
        (as_read inputs.now.program)) }
    ensures ended { IfOk result (LitmusLineComesTo litmus.now (as_read inputs.now.config)
        (as_read inputs.now.program) (HasPut S.written S.has_failed context.old.files context.new.files)
        (W.contents context.old.out) (W.contents context.new.out)) }
    ensures finished { OnOk result (S.is_finished context.new.files ≡ true) }
    ensures unwanted { is_some (written_for_test litmus.now) ≡ false → context.new.files ≡ context.old.files }
    ensures unreported { S.has_failed context.new.files ≡ true
        → W.contents context.new.out ≡ W.contents context.old.out }
{
    let sizes = inputs.config?;
    let settings = settings_of(sizes, context.alloc)?;
    let text = inputs.program?;
    let status = match test_or_run(context, text, litmus, settings) {
        Ok(status) => status,
        Err(refused) => return Err(refused),
    };
    match context.out.flush() {
        Ok(()) => Ok(status),
        Err(_) => Err(Refused::Output),
    }
}

/// The exit status of a migration, which prints nothing.
fn read_and_migrate<S: EndFiles>(
    inputs: &Inputs<'_>,
    file: &mut S,
    alloc: Global,
) -> Result<u8, Refused>
    requires works { S.has_failed file.old ≡ false }
    requires finished { S.is_finished file.old ≡ true }
    ensures unset { IfErr inputs.now.config (λ why. result ≡ Err (refusal_of why)) }
    ensures refused { IfErr result (IsMigrateLineRefusal (as_read inputs.now.config)
        (as_read inputs.now.second)) }
    ensures ended { IfOk result (MigrationComesTo (as_read inputs.now.config)
        (as_read inputs.now.second) (HasPut S.written S.has_failed file.old file.new)) }
    ensures left { IfErr result (λ why. (why ≡ Output) ⊎ (file.new ≡ file.old)) }
    ensures finished { OnOk result (S.is_finished file.new ≡ true) }
{
    let sizes = inputs.config?;
    let settings = settings_of(sizes, alloc)?;
    let text = inputs.second?;
    match perform_migrate(text, &settings, file, alloc) {
        Ok(status) => Ok(status),
        Err(refused) => Err(refused),
    }
}

/// The exit status of a command of a program, with all flushed that it prints.
fn read_and_perform<
    G: Gate + Sync,
    P: Predict + Copy + Send,
    S: EndFiles,
    W: Write,
    R: Threads + Wait + Sync,
>(
    context: &mut Context<'_, R, G, P, S, W>,
    command: &ProgramCommand<'_>,
    harts: &Option<HartCount>,
    inputs: &Inputs<'_>,
) -> Result<u8, Refused>
    requires works { S.has_failed context.old.files ≡ false }
    requires finished { S.is_finished context.old.files ≡ true }
    ensures unset { IfErr inputs.now.config (λ why. result ≡ Err (refusal_of why)) }
    ensures refused { IfErr result (IsProgramRefusal harts.now command.now (as_read inputs.now.config)
        (as_read inputs.now.program) (as_read inputs.now.second) (as_read inputs.now.lines)) }
    ensures ended { IfOk result (ProgramComesTo harts.now command.now (as_read inputs.now.config)
        (as_read inputs.now.program) (as_read inputs.now.second) (as_read inputs.now.lines)
        (IsWritten S.begins S.written S.has_failed context.old.files context.new.files) (W.contents context.old.out)
        (W.contents context.new.out)) }
    ensures finished { OnOk result (S.is_finished context.new.files ≡ true) }
    ensures unwanted { program_writes_file command.now ≡ false → context.new.files ≡ context.old.files }
    ensures unreported { S.has_failed context.new.files ≡ true → IsProgramUnreported command.now
        (as_read inputs.now.second) (W.contents context.old.out) (W.contents context.new.out) }
{
    let config = inputs.config?;
    let own = settings_of(config, context.alloc)?;
    let ram = own.ram;
    let settings = settings_with(own, harts);
    let file = inputs.program?;
    let image = image_of(file, ram, context.alloc)?;
    if command.reads_trace() && are_two_cores(harts, inputs.second) {
        return Err(Refused::Harts);
    }
    let names = names_where(wants_names(command), file, context.alloc)?;
    let wants_lines = command.lines().is_some();
    let lines = match lines_where(wants_lines, inputs.lines, &image, context.alloc) {
        Ok(lines) => lines,
        Err(refused) => return Err(refused),
    };
    // Handed on as it is: a `?` would leave the prover to find what the refusal becomes.
    let status = match perform_command(
        context,
        command,
        &settings,
        &image,
        &names,
        &lines,
        inputs.second,
    ) {
        Ok(status) => status,
        Err(refused) => return Err(refused),
    };
    match context.out.flush() {
        Ok(()) => Ok(status),
        Err(_) => Err(Refused::Output),
    }
}

/// Does what a command of a program asks for, of its settings, its image with the names and the lines that it
/// wants, and its second file.
fn perform_command<
    G: Gate + Sync,
    P: Predict + Copy + Send,
    S: EndFiles,
    W: Write,
    R: Threads + Wait + Sync,
>(
    context: &mut Context<'_, R, G, P, S, W>,
    command: &ProgramCommand<'_>,
    settings: &Settings,
    image: &Image,
    names: &Symbols<'_>,
    lines: &Option<SourceLines<'_>>,
    second: Result<&[u8], Unread>,
) -> Result<u8, Refused>
    requires works { S.has_failed context.old.files ≡ false }
    requires finished { S.is_finished context.old.files ≡ true }
    ensures { IsPerformed S.begins S.is_finished S.written S.has_failed context.old.files context.new.files command.now
        settings.now image.now (table_of names.now) (origins_in lines.now)
        (as_read second.entry) (W.contents context.old.out) (W.contents context.new.out) result }
{
    let alloc = context.alloc;
    let labels = &labels_for(command, names, lines);
    match command {
        ProgramCommand::Step(step) => {
            let wanted = Wanted::of_step(step, names);
            let script = second?;
            perform_step(context, image, settings, script, step.why, wanted, labels)
        }
        ProgramCommand::Run(run) => perform_runs(context, image, settings, run, names, labels),
        ProgramCommand::Check(check) => {
            let wanted = Wanted::of_check(check, names);
            let text = second?;
            perform_check(
                image,
                settings,
                text,
                wanted,
                labels,
                &mut context.out,
                alloc,
            )
        }
        ProgramCommand::Plain(plain) => {
            if let Some(rounds) = rounds_of(plain) {
                return perform_rounds(context, image, settings, rounds, plain.records, labels);
            }
            let order = second?;
            let story = &story_for(plain, settings, names, labels);
            let picture = &picture_for(plain, settings, names, labels);
            perform_plain(
                context,
                image,
                settings,
                order,
                story,
                picture,
                plain.records,
                labels,
            )
        }
        ProgramCommand::Schedule(_) => {
            let order = second?;
            perform_schedule(image, settings, order, &mut context.out, alloc)
        }
        ProgramCommand::Script(_) => {
            let text = second?;
            perform_script(image, settings, text, &mut context.out, alloc)
        }
        ProgramCommand::List(_) => perform_list(image, labels, &mut context.out),
        ProgramCommand::Outcomes(outcomes) => {
            perform_outcomes(context, image, settings, names, labels, outcomes)
        }
        ProgramCommand::Chart(chart) => {
            let text = second?;
            perform_chart(context, image, settings, text, chart, names)
        }
    }
}
