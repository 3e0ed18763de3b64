//! The command `step` with a script that is typed: each of its words is asked as it comes.

ghost use Rattle.std.specs.Prelude.{◌≡◌, [], IfOk, IfErr, OnOk, true, false};
ghost use Rattle.address_labels.specs.Labels.{marks_of};
ghost use Rattle.core_commands.specs.Account.{IsTraceWritten};
ghost use Rattle.core_commands.specs.Wanted.{wants_of};
ghost use Rattle.core_commands.specs.Prompt.{PromptComesTo};
ghost use Rattle.core_commands.specs.Step.{IsStepRefusal};

use crate::account::{idle_of, write_account};
use crate::wanted::Wanted;
use address_labels::Labels;
use command_parts::{Context, Refused};
use elf_image::Image;
use prompts::{PromptRefused, Simulation, prompt};
use sim_inputs::Settings;
use smt_core::Predict;
use std::io::{BufRead, Write};
use stress_runs::EndFiles;

/// Asks the words of each line of a reader as it comes, and answers it at once; behind the last line
/// writes the core's trace where it is wanted, and then what else is wanted of it and its report.
/// Answers the exit status: how the harts stand.
///
/// Refused is what is refused of an empty script. A line that isn't followed is complained of in its
/// place, and changes nothing.
#[inline(never)]
pub fn perform_prompt<R, G, P: Predict + Copy, B: BufRead, S: EndFiles, W: Write>(
    context: &mut Context<'_, R, G, P, S, W>,
    image: &Image,
    settings: &Settings,
    why: bool,
    wanted: Wanted<'_>,
    labels: &Labels<'_>,
    reader: &mut B,
) -> Result<u8, Refused>
    requires works { S.has_failed context.old.files ≡ false }
    requires finished { S.is_finished context.old.files ≡ true }
    ensures refused { IfErr result (IsStepRefusal settings.now []) }
    ensures ended { IfOk result (PromptComesTo P.predicts context.old.predict settings.now image.now
        why (B.remaining reader.old) (wants_of wanted.entry) (marks_of labels.now)
        (IsTraceWritten S.written S.has_failed context.old.files context.new.files wanted.entry.trace)
        (W.contents context.old.out) (W.contents context.new.out)) }
    ensures unwanted { wanted.entry.trace ≡ false → context.new.files ≡ context.old.files }
    ensures unbroken { OnOk result (S.has_failed context.new.files ≡ false) }
    ensures finished { OnOk result (S.is_finished context.new.files ≡ true) }
{
    let simulation = Simulation {
        image,
        config: &settings.config,
        limit: settings.limit,
        predict: context.predict,
        alloc: context.alloc,
    };
    let prompted = match prompt(&simulation, why, reader, &mut context.out) {
        Ok(prompted) => prompted,
        Err(PromptRefused::Config) => return Err(Refused::Config),
        Err(PromptRefused::Memory) => return Err(Refused::Memory),
        Err(PromptRefused::Output) => return Err(Refused::Output),
    };
    let idle = idle_of(&prompted.core, &prompted.idle);
    write_account(
        &prompted.core,
        idle,
        wanted,
        labels,
        &mut context.files,
        &mut context.out,
        context.alloc,
    )
}
