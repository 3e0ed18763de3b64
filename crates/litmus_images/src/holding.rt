//! Whether the condition of a litmus test holds of an end of its image.

ghost use Rattle.std.specs.Prelude.{◌≡◌, ◌<◌, ◌==◌, ◌&&◌, length, position, Some, slice_get};
ghost use Rattle.litmus_tests.specs.WellFormed.{IsWellFormed, IsCondition, IsValue};
ghost use Rattle.litmus_tests.specs.Limits.{most_locations};
ghost use Rattle.litmus_tests.specs.Conditions.{holds, narrowed, number_of};
ghost use Rattle.litmus_tests.specs.declared.condition.Observed.{Observed};
ghost use Rattle.litmus_images.specs.Watching.{registers_observed, locations_observed};
ghost use Rattle.litmus_images.specs.Watching.{number_at_place, final_state};

use crate::constants::number_of;
use crate::watching::{location_of, register_of};
use litmus_tests::{Condition, LitmusTest, Observed, Term, narrowed};
use numbers::Reg;
use watched_outcomes::Outcome;

/// The place of a register among those that are watched.
fn register_place(observed: &[Observed], hart: u8, register: Reg) -> Option<usize>
    ensures { result ≡ position (λ w. w.hart == hart && w.register == register) (registers_observed observed.now) }
{
    observed
        .iter()
        .filter_map(|other| register_of(*other))
        .position(|watched| watched.hart == hart && watched.register == register)
}

/// The place of a location among those that are watched.
fn location_place(observed: &[Observed], index: usize) -> Option<usize>
    ensures { result ≡ position (λ l. l == index) (locations_observed observed.now) }
{
    observed
        .iter()
        .filter_map(|other| location_of(*other))
        .position(|location| location == index)
}

/// The number at a place, where there is one, else 0.
fn number_at_place(numbers: &[u32], place: Option<usize>) -> u32
    ensures { result ≡ number_at_place numbers.now place }
{
    match place {
        Some(place) => numbers.get(place).copied().unwrap_or(0),
        None => 0,
    }
}

/// The number that something has in an outcome that was found for the test's watch.
#[tactic(auto, unfolding(crate::specs::Watching::final_state))]
fn number_in(test: &LitmusTest, outcome: &Outcome, observed: Observed) -> u32
    ensures { result ≡ final_state test.now outcome.now observed }
{
    match observed {
        Observed::Register { hart, register } => {
            let place = register_place(&test.observed, hart, register);
            number_at_place(outcome.registers.as_slice(), place)
        }
        Observed::Location(index) => {
            let place = location_place(&test.observed, index);
            number_at_place(outcome.words.as_slice(), place)
        }
    }
}

/// The number that the thing with this index, among those that the test looks at, has in an outcome that was found
/// for the test's watch. (In any other outcome, 0 where it isn't there.)
pub fn value_in(test: &LitmusTest, outcome: &Outcome, index: usize) -> u32
    requires { index < length test.now.observed.items }
    ensures { (observed : Observed) → slice_get test.now.observed.items index ≡ Some observed
        → result ≡ final_state test.now outcome.now observed }
{
    number_in(test, outcome, test.observed[index])
}

/// Whether a term holds of an outcome.
fn term_holds(term: Term, test: &LitmusTest, outcome: &Outcome) -> bool
    requires { IsValue most_locations term.value }
    ensures { result ≡ (final_state test.now outcome.now term.observed == narrowed term.width (number_of term.value)) }
{
    number_in(test, outcome, term.observed) == narrowed(term.width, number_of(term.value))
}

/// Whether a condition on what the test looks at holds of an outcome.
fn condition_holds(condition: &Condition, test: &LitmusTest, outcome: &Outcome) -> bool
    requires test { IsWellFormed test.now }
    requires condition { IsCondition (length test.now.words.items) test.now.locations.items
        test.now.observed.items condition.now }
    ensures { result ≡ holds (final_state test.now outcome.now) condition.now }
{
    match condition {
        Condition::Always => true,
        Condition::Holds(term) => term_holds(*term, test, outcome),
        Condition::Not(inner) => !condition_holds(inner, test, outcome),
        Condition::Both(first, second) => {
            condition_holds(first, test, outcome) && condition_holds(second, test, outcome)
        }
        Condition::Either(first, second) => {
            condition_holds(first, test, outcome) || condition_holds(second, test, outcome)
        }
        Condition::Implies(first, second) => {
            !condition_holds(first, test, outcome) || condition_holds(second, test, outcome)
        }
        Condition::Equivalent(first, second) => {
            if condition_holds(first, test, outcome) {
                condition_holds(second, test, outcome)
            } else {
                !condition_holds(second, test, outcome)
            }
        }
    }
}

/// Whether an outcome that was found for the test's watch is a final state of the test: its filter holds of it.
pub fn passes(test: &LitmusTest, outcome: &Outcome) -> bool
    requires { IsWellFormed test.now }
    ensures { result ≡ holds (final_state test.now outcome.now) test.now.filter }
{
    condition_holds(&test.filter, test, outcome)
}

/// Whether the test's condition holds of an outcome that was found for the test's watch.
pub fn holds_in(test: &LitmusTest, outcome: &Outcome) -> bool
    requires { IsWellFormed test.now }
    ensures { result ≡ holds (final_state test.now outcome.now) test.now.condition }
{
    condition_holds(&test.condition, test, outcome)
}
