//! A line of `explain`: its files, one behind the other.

ghost use Rattle.std.specs.Prelude.{◌≡◌, IfOk, IfErr, OnOk, Ok, Err, Some};
ghost use Rattle.command_parts.specs.Refused.{refusal_of};
ghost use Rattle.command_parts.specs.Inputs.{as_read, OfProgram};
ghost use Rattle.commands.specs.Perform.{IsExplainLineRefusal, ExplainLineComesTo, HasToldBeside};

use crate::explain::perform_explain;
use crate::explain_beside::tell_beside;
use crate::settings::settings_with;
use crate::two_cores::are_two_cores;
use command_parts::{Inputs, Refused, image_of, settings_of};
use sim_inputs::{Beside, ExplainCommand, HartCount};
use smt_core::Predict;
use std::alloc::Global;
use std::io::Write;

/// The exit status of a line that explains its files, with all flushed that it prints of them. Configuration and
/// image are taken before they are refused. What is explained beside them is looked at where both are accepted.
pub(crate) fn read_and_explain<P: Predict, W: Write>(
    explain: &ExplainCommand<'_>,
    harts: &Option<HartCount>,
    inputs: &Inputs<'_>,
    predict: &mut P,
    out: &mut W,
    alloc: Global,
) -> Result<u8, Refused>
    ensures unset { IfErr inputs.now.config (λ why. result ≡ Err (refusal_of why)) }
    ensures refused { IfErr result (IsExplainLineRefusal harts.now explain.now.beside (as_read inputs.now.config)
        (as_read inputs.now.program) (as_read inputs.now.second)) }
    ensures ended { IfOk result (ExplainLineComesTo harts.now explain.now.beside (as_read inputs.now.config)
        (as_read inputs.now.program) (as_read inputs.now.second) (W.contents out.old) (W.contents out.new)) }
{
    let text = inputs.config?;
    // Handed on as it is: a `?` would leave the prover to find what the refusal becomes.
    let status = match perform_explain(text, harts, inputs.program, out, alloc) {
        Ok(status) => status,
        Err(refused) => return Err(refused),
    };
    match &explain.beside {
        None => Ok(status),
        Some(beside) => {
            read_and_tell(beside, text, harts, inputs, predict, out, alloc)?;
            Ok(status)
        }
    }
}

/// Says what there is to say of the text beside an image and the text of a configuration.
fn read_and_tell<P: Predict, W: Write>(
    beside: &Beside<'_>,
    config: &[u8],
    harts: &Option<HartCount>,
    inputs: &Inputs<'_>,
    predict: &mut P,
    out: &mut W,
    alloc: Global,
) -> Result<(), Refused>
    ensures refused { IfErr result (IsExplainLineRefusal harts.now (Some beside.now) (Ok config.now)
        (as_read inputs.now.program) (as_read inputs.now.second)) }
    ensures told { OnOk result (OfProgram (Ok config.now) (as_read inputs.now.program)
        (λ settings program. HasToldBeside harts.now (Some beside.now) settings program (as_read inputs.now.second)
        (W.contents out.old) (W.contents out.new))) }
{
    let own = settings_of(config, alloc)?;
    let ram = own.ram;
    let settings = settings_with(own, harts);
    let bytes = inputs.program?;
    let image = image_of(bytes, ram, alloc)?;
    if beside.is_trace() && are_two_cores(harts, inputs.second) {
        return Err(Refused::Harts);
    }
    let text = inputs.second?;
    match tell_beside(*beside, text, &settings, &image, predict, out, alloc) {
        Ok(()) => Ok(()),
        Err(refused) => Err(refused),
    }
}
