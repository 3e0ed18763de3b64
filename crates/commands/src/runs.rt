//! The command `run`, once or as often as is asked for.

ghost use Rattle.std.specs.Prelude.{◌≡◌, List, Option, true, false};
ghost use Rattle.sim_inputs.specs.declared.line.ProgramCommand.TheVariants.{Run};
ghost use Rattle.symbols.specs.Tables.{table_of};
ghost use Rattle.source_lines.specs.Lines.{Origin};
ghost use Rattle.address_labels.specs.Labels.{marks_of, marks_where};
ghost use Rattle.command_parts.specs.Inputs.{Read};
ghost use Rattle.commands.specs.Perform.{IsPerformed};

use actors::Gate;
use address_labels::Labels;
use command_parts::{Context, Refused};
use core_commands::{Wanted, make_run, perform_run, perform_stress};
use elf_image::Image;
use sim_inputs::{RunCommand, Settings};
use smt_core::Predict;
use std::io::Write;
use std::sync::Wait;
use std::thread::Threads;
use stress_runs::EndFiles;
use symbols::Symbols;

/// Runs an image once, or as often as is asked for.
pub(crate) fn perform_runs<
    G: Gate + Sync,
    P: Predict + Copy + Send,
    S: EndFiles,
    W: Write,
    R: Threads + Wait + Sync,
>(
    context: &mut Context<'_, R, G, P, S, W>,
    image: &Image,
    settings: &Settings,
    run: &RunCommand<'_>,
    names: &Symbols<'_>,
    labels: &Labels<'_>,
) -> Result<u8, Refused>
    requires works { S.has_failed context.old.files ≡ false }
    requires finished { S.is_finished context.old.files ≡ true }
    ensures { (lines : Option (List Origin)) (second : Read)
        → marks_of labels.now ≡ marks_where run.now.names (table_of names.now) lines
        → IsPerformed S.begins S.is_finished S.written S.has_failed context.old.files context.new.files
        (Run run.now) settings.now image.now (table_of names.now) lines second (W.contents context.old.out)
        (W.contents context.new.out)
        result }
{
    if let Some(times) = run.times {
        let (rt, gate, predict, alloc) = (context.rt, context.gate, context.predict, context.alloc);
        let mut make = |image: &Image, settings: &Settings| make_run(
            rt, image, settings, gate, predict, alloc,
        );
        return perform_stress(context, &mut make, image, settings, names, run, times);
    }
    let wanted = Wanted::of_run(run);
    // A refusal is handed on as it is: a `?` would leave the prover to find what it becomes.
    match perform_run(context, image, settings, wanted, labels) {
        Ok(report) => Ok(report.status),
        Err(refused) => Err(refused),
    }
}
