//! A litmus test, whose states are listed, or counted over runs of the core.

ghost use Rattle.std.specs.Prelude.{◌≡◌, IfOk, IfErr, OnOk, is_some, true, false};
ghost use Rattle.event_text.specs.Sinking.{HasPut};
ghost use Rattle.sim_inputs.specs.Files.{written_for_test};
ghost use Rattle.commands.specs.Tested.{IsTestedRefusal, TestedComesTo};

use actors::Gate;
use command_parts::{Context, Refused};
use core_commands::{make_run, perform_test_runs};
use elf_image::Image;
use plain_commands::perform_litmus;
use sim_inputs::{LitmusCommand, Settings};
use smt_core::Predict;
use std::io::Write;
use std::sync::Wait;
use std::thread::Threads;
use stress_runs::EndFiles;

/// Lists the final states of the test that a text is, or counts them over as many runs of the core as the command asks
/// for.
pub(crate) fn test_or_run<
    G: Gate + Sync,
    P: Predict + Copy + Send,
    S: EndFiles,
    W: Write,
    R: Threads + Wait + Sync,
>(
    context: &mut Context<'_, R, G, P, S, W>,
    text: &[u8],
    litmus: &LitmusCommand<'_>,
    settings: Settings,
) -> Result<u8, Refused>
    requires works { S.has_failed context.old.files ≡ false }
    requires finished { S.is_finished context.old.files ≡ true }
    ensures refused { IfErr result (IsTestedRefusal litmus.now.run text.now settings litmus.now) }
    ensures ended { IfOk result (TestedComesTo litmus.now.run text.now settings litmus.now
        (HasPut S.written S.has_failed context.old.files context.new.files)
        (W.contents context.old.out) (W.contents context.new.out)) }
    ensures unwanted { is_some (written_for_test litmus.now) ≡ false → context.new.files ≡ context.old.files }
    ensures unbroken { OnOk result (S.has_failed context.new.files ≡ false) }
    ensures finished { OnOk result (S.is_finished context.new.files ≡ true) }
    ensures unreported { S.has_failed context.new.files ≡ true
        → W.contents context.new.out ≡ W.contents context.old.out }
{
    if let Some(times) = litmus.run {
        let (rt, gate, predict, alloc) = (context.rt, context.gate, context.predict, context.alloc);
        let mut make = |image: &Image, settings: &Settings| make_run(
            rt, image, settings, gate, predict, alloc,
        );
        return perform_test_runs(context, &mut make, text, litmus, settings, times);
    }
    perform_litmus(
        text,
        litmus,
        settings,
        context.gate,
        &mut context.files,
        &mut context.out,
        context.alloc,
    )
}
