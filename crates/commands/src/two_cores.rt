//! Whether harts are asked for of a core that its trace names itself.

ghost use Rattle.std.specs.Prelude.{Decides};
ghost use Rattle.command_parts.specs.Inputs.{as_read};
ghost use Rattle.commands.specs.Perform.{AreTwoCores};

use command_parts::Unread;
use event_text::names_core;
use sim_inputs::HartCount;

/// Whether harts are given beside a trace that says itself of what core it is. Of one that couldn't be read nothing is
/// said.
pub(crate) fn are_two_cores(harts: &Option<HartCount>, trace: Result<&[u8], Unread>) -> bool
    ensures { Decides result (AreTwoCores harts.now (as_read trace.entry)) }
{
    match (harts, trace) {
        (Some(_), Ok(text)) => names_core(text),
        _ => false,
    }
}
