//! The command `script`: the script that makes the core have a history again.

ghost use Rattle.std.specs.Prelude.{◌≡◌, reverse, IfOk, IfErr};
ghost use Rattle.actors.specs.declared.static_predictor.StaticPredictor.{StaticPredictor as Static};
ghost use Rattle.history_scripts.specs.Again.{IsScriptOf};
ghost use Rattle.core_commands.specs.{Check.setup_by};
ghost use Rattle.plain_commands.specs.{Retiring.guesses_statically};
ghost use Rattle.core_commands.specs.Script.{IsScriptingRefusal, ScriptComesTo, IsMakingRefusal};

use crate::check::{config_by, read_events};
use actors::StaticPredictor;
use command_parts::Refused;
use elf_image::Image;
use event_text::Trace;
use history_scripts::{HistoryScript, ScriptRefused, make_script};
use sim_inputs::Settings;
use std::alloc::Global;
use std::io::Write;

/// Writes the script that makes the core of an image and some settings have the history of a trace
/// again: a line for each event, which asks for it. Answers the exit status, 0.
///
/// Refused are, in this order, what `perform_check` refuses of the trace, and the first event that
/// the core decides otherwise: a fetch that doesn't predict what the program's predictor guesses,
/// and a rename that doesn't take the least free register. Then nothing is printed. `Output` is
/// answered where `out` failed.
///
/// What `step_bytes` finishes by this script with the program's predictor, of the same image and
/// settings and with room for the history, has just this history: that is a part of `ended`.
#[inline(never)]
pub fn perform_script<W: Write>(
    image: &Image,
    settings: &Settings,
    trace: &[u8],
    out: &mut W,
    alloc: Global,
) -> Result<u8, Refused>
    ensures refused { IfErr result (IsScriptingRefusal settings.now image.now trace.now) }
    ensures ended { IfOk result (ScriptComesTo settings.now image.now trace.now
        (W.contents out.old) (W.contents out.new)) }
{
    let trace = read_events(trace, alloc)?;
    let script = script_of(image, settings, &trace, alloc)?;
    match script.write(out) {
        Ok(()) => Ok(0),
        Err(_) => Err(Refused::Output),
    }
}

/// The script of a trace's events, for the core that it is of.
fn script_of<'a>(
    image: &Image,
    settings: &Settings,
    trace: &'a Trace,
    alloc: Global,
) -> Result<HistoryScript<'a>, Refused>
    ensures made { IfOk result (IsScriptOf {P = Static} guesses_statically
        (setup_by settings.now image.now trace.now.head) (reverse trace.now.events)) }
    ensures refused { IfErr result
        (IsMakingRefusal (setup_by settings.now image.now trace.now.head) trace.now.events) }
{
    let config = config_by(settings, trace.head());
    match make_script(image, &config, trace.events(), &mut StaticPredictor, alloc) {
        Ok(script) => Ok(script),
        Err(ScriptRefused::Config) => Err(Refused::Config),
        Err(ScriptRefused::Event { index, rule }) => Err(Refused::Event { index, rule }),
        Err(ScriptRefused::Prediction(index)) => Err(Refused::Prediction(index)),
        Err(ScriptRefused::Register(index)) => Err(Refused::Register(index)),
        Err(ScriptRefused::Memory) => Err(Refused::Memory),
    }
}
