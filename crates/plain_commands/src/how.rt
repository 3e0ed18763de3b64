//! How many states a search has, and how many without each of its reductions, as the command `outcomes` tells it.

ghost use Rattle.std.specs.Prelude.{◌≡◌, IfErr, IfOk};
ghost use Rattle.command_parts.specs.declared.refused.Refused.TheVariants.{Memory};
ghost use Rattle.plain_commands.specs.How.{IsCounted, IsHowOf};

use crate::searching::find_shown;
use actors::Gate;
use command_parts::Refused;
use elf_image::Image;
use outcome_text::{How, StateCount, count_of};
use outcomes::Outcomes;
use reductions::Reduction;
use sim_inputs::OutcomesCommand;
use std::alloc::Global;
use watched_outcomes::Watch;

/// How many states the search has that has found these outcomes, and how many those that leave each reduction out that
/// it uses, where that is asked. The gate is shown how far they are.
pub(crate) fn how_told<G: Gate>(
    image: &Image,
    harts: u8,
    watch: &Watch,
    command: &OutcomesCommand<'_>,
    outcomes: &Outcomes,
    gate: &G,
    alloc: Global,
) -> Result<Option<How>, Refused>
    ensures how { IfOk result (IsHowOf image.now harts watch.now command.now outcomes.now) }
    ensures refused { IfErr result (λ why. why ≡ Memory) }
{
    if !command.how {
        return Ok(None);
    }
    let reduction = Reduction::Conditional;
    let conditional = match counted(image, harts, watch, command, reduction, gate, alloc) {
        Ok(count) => count,
        Err(refused) => return Err(refused),
    };
    let reduction = Reduction::Jumps;
    let jumps = match counted(image, harts, watch, command, reduction, gate, alloc) {
        Ok(count) => count,
        Err(refused) => return Err(refused),
    };
    Ok(Some(How {
        states: count_of(outcomes, command.states),
        conditional,
        jumps,
    }))
}

/// How many states the search has that leaves this reduction out beside those that the command's leaves out; none where
/// that does so itself.
fn counted<G: Gate>(
    image: &Image,
    harts: u8,
    watch: &Watch,
    command: &OutcomesCommand<'_>,
    reduction: Reduction,
    gate: &G,
    alloc: Global,
) -> Result<Option<StateCount>, Refused>
    ensures counted { IfOk result (IsCounted image.now harts watch.now command.now reduction) }
    ensures refused { IfErr result (λ why. why ≡ Memory) }
{
    if command.without.has(reduction) {
        return Ok(None);
    }
    let (budget, without) = (command.states, command.without.and(reduction));
    match find_shown(image, harts, watch, budget, without, gate, &(), alloc) {
        Ok(outcomes) => Ok(Some(count_of(&outcomes, budget))),
        // What is watched is there, as the command's own search has found.
        Err(_) => Err(Refused::Memory),
    }
}
