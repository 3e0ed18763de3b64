//! Which final state of a litmus test shows how its condition comes to hold, or of a `forall` not to hold: the first
//! of those with the shortest order.

ghost use Rattle.std.specs.Prelude.{◌≡◌, ◌+◌, ◌<◌, ◌&&◌, IfOk, IfErr, IfSome, Some, length, slice_get};
ghost use Rattle.litmus_images.specs.Watching.{final_state};
ghost use Rattle.litmus_tests.specs.{Conditions.holds, WellFormed.IsWellFormed};
ghost use Rattle.outcomes.specs.{Found.Told};
ghost use Rattle.command_parts.specs.declared.refused.Refused.TheVariants.{Memory};
ghost use Rattle.plain_commands.specs.ShownStates.{IsShortest, is_shown, shows};

use command_parts::Refused;
use litmus_images::{holds_in, passes};
use litmus_tests::{LitmusTest, Quantifier};
use outcomes::Outcomes;
use std::alloc::{AllocError, Global};
use watched_outcomes::Outcome;

/// An outcome that shows it, by its index, and how many steps its order has.
#[derive(Clone, Copy, Drop)]
pub struct Shortest {
    pub index: usize,
    pub steps: usize,
}

/// The outcome that shows it by the shortest order; of several the first.
pub(crate) fn shortest_shown(
    test: &LitmusTest,
    outcomes: &Outcomes,
    alloc: Global,
) -> Result<Option<Shortest>, Refused>
    requires { IsWellFormed test.now }
    ensures shortest { IfOk result
        (λ shortest. IsShortest test.now outcomes.now.listed (length outcomes.now.listed) shortest) }
    ensures inside { IfOk result
        (λ shortest. IfSome shortest (λ found. found.index < length outcomes.now.listed)) }
    ensures refused { IfErr result (λ why. why ≡ Memory) }
{
    let mut shortest = None;
    for index in 0..outcomes.count() {
        shortest = match shorter(test, outcomes, shortest, index, alloc) {
            Ok(shortest) => shortest,
            Err(refused) => return Err(refused),
        };
    }
    Ok(shortest)
}

/// The shorter of what was found so far and the outcome with this index.
fn shorter(
    test: &LitmusTest,
    outcomes: &Outcomes,
    shortest: Option<Shortest>,
    index: usize,
    alloc: Global,
) -> Result<Option<Shortest>, Refused>
    requires sound { IsWellFormed test.now }
    requires within { index < length outcomes.now.listed }
    ensures shorter { IfOk result (λ now. IsShortest test.now outcomes.now.listed index shortest
        → IsShortest test.now outcomes.now.listed (index + 1) now) }
    ensures refused { IfErr result (λ why. why ≡ Memory) }
{
    if !is_shown(test, outcomes, index) {
        return Ok(shortest);
    }
    let steps = match steps_at(outcomes, index, alloc) {
        Ok(steps) => steps,
        Err(refused) => return Err(refused),
    };
    let before = match shortest {
        Some(before) => before,
        None => return Ok(Some(Shortest { index, steps })),
    };
    if steps < before.steps {
        return Ok(Some(Shortest { index, steps }));
    }
    Ok(shortest)
}

/// Whether the outcome with this index is a final state that shows it.
fn is_shown(test: &LitmusTest, outcomes: &Outcomes, index: usize) -> bool
    requires sound { IsWellFormed test.now }
    requires within { index < length outcomes.now.listed }
    ensures { (told : Told) → slice_get outcomes.now.listed index ≡ Some told
        → result ≡ is_shown test.now told }
{
    match outcomes.outcome(index) {
        Some(outcome) => is_shown_by(test, outcome),
        None => false,
    }
}

fn is_shown_by(test: &LitmusTest, outcome: &Outcome) -> bool
    requires { IsWellFormed test.now }
    ensures { result ≡ (holds (final_state test.now outcome.now) test.now.filter
        && shows test.now.quantifier (holds (final_state test.now outcome.now) test.now.condition)) }
{
    passes(test, outcome) && shows(test.quantifier, holds_in(test, outcome))
}

/// Whether a state shows it, of which the condition holds or doesn't.
fn shows(quantifier: Quantifier, holds: bool) -> bool
    ensures { result ≡ shows quantifier holds }
{
    match quantifier {
        Quantifier::Exists | Quantifier::NotExists => holds,
        Quantifier::ForAll => !holds,
    }
}

/// How many steps the order of the outcome with this index has.
fn steps_at(outcomes: &Outcomes, index: usize, alloc: Global) -> Result<usize, Refused>
    requires { index < length outcomes.now.listed }
    ensures steps { IfOk result (λ steps. (told : Told) → slice_get outcomes.now.listed index ≡ Some told
        → steps ≡ length told.order) }
    ensures refused { IfErr result (λ why. why ≡ Memory) }
{
    match outcomes.witness(index, alloc) {
        Ok(order) => Ok(order.len()),
        Err(AllocError) => Err(Refused::Memory),
    }
}
