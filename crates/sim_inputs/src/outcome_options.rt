//! Whether the options of `outcomes` go together: of orders, of stories, of pictures and of why.

ghost use Rattle.std.specs.Prelude.{◌≡◌};
ghost use Rattle.sim_inputs.specs.CommandLine.{are_orders_together, are_reasons_together, are_stories_together};
ghost use Rattle.sim_inputs.specs.CommandLine.{can_be_searched};
ghost use Rattle.sim_inputs.specs.CommandLine.{has_condition, has_no_file, has_one_file, has_one_story, has_story};

use crate::line::{OutcomesCommand, QuestionText};
use crate::themes::can_be_themed;

/// Whether some state is looked at, and the options of orders, of stories, of pictures and of why go together; and how
/// the search went is told of one that looks at all.
pub(crate) fn can_be_searched(outcomes: &OutcomesCommand<'_>) -> bool
    ensures { result ≡ can_be_searched outcomes.now }
{
    outcomes.states >= 1
        && are_orders_together(outcomes)
        && (!outcomes.first || has_condition(outcomes))
        && (!outcomes.how || !outcomes.first)
        && are_stories_together(outcomes)
        && are_reasons_together(outcomes)
        && can_be_themed(outcomes.story_svg.is_some(), outcomes.theme.is_some())
}

/// Whether what says more of a story has one. (Source lines stand behind accesses, too.)
fn are_stories_together(outcomes: &OutcomesCommand<'_>) -> bool
    ensures { result ≡ are_stories_together outcomes.now }
{
    if outcomes.story.is_some() {
        return true;
    }
    let is_of_lines = outcomes.story_svg.is_some() || outcomes.why;
    !outcomes.all && (is_of_lines || outcomes.lines.is_none())
}

/// Whether it is told why where a picture of that is written, and then of all outcomes, with no order beside it.
fn are_reasons_together(outcomes: &OutcomesCommand<'_>) -> bool
    ensures { result ≡ are_reasons_together outcomes.now }
{
    if !outcomes.why {
        return outcomes.svg.is_none();
    }
    !outcomes.first && outcomes.outcome.is_none() && !outcomes.stuck && has_no_file(outcomes)
}

/// Whether an order is written of one end alone, and into one file; or none is.
fn are_orders_together(outcomes: &OutcomesCommand<'_>) -> bool
    ensures { result ≡ are_orders_together outcomes.now }
{
    match outcomes.outcome {
        Some(number) => number >= 1 && !outcomes.stuck && has_one_file(outcomes),
        None if outcomes.stuck => has_one_file(outcomes),
        None if outcomes.question.is_some() => has_no_file(outcomes) || has_one_file(outcomes),
        None => has_no_file(outcomes),
    }
}

/// Whether an order is written in one way: as it is, as its script, as its story or as a picture of that.
fn has_one_file(outcomes: &OutcomesCommand<'_>) -> bool
    ensures { result ≡ has_one_file outcomes.now }
{
    match (outcomes.witness, outcomes.script) {
        (Some(_), None) | (None, Some(_)) => !has_story(outcomes),
        (None, None) => has_one_story(outcomes),
        (Some(_), Some(_)) => false,
    }
}

/// Whether a story is written, or a picture of one, and not both.
fn has_one_story(outcomes: &OutcomesCommand<'_>) -> bool
    ensures { result ≡ has_one_story outcomes.now }
{
    match (outcomes.story, outcomes.story_svg) {
        (Some(_), None) | (None, Some(_)) => true,
        _ => false,
    }
}

fn has_no_file(outcomes: &OutcomesCommand<'_>) -> bool
    ensures { result ≡ has_no_file outcomes.now }
{
    outcomes.witness.is_none() && outcomes.script.is_none() && !has_story(outcomes)
}

/// Whether a story is written, or a picture of one.
fn has_story(outcomes: &OutcomesCommand<'_>) -> bool
    ensures { result ≡ has_story outcomes.now }
{
    outcomes.story.is_some() || outcomes.story_svg.is_some()
}

/// Whether a question is asked that has a condition.
fn has_condition(outcomes: &OutcomesCommand<'_>) -> bool
    ensures { result ≡ has_condition outcomes.now.question }
{
    match outcomes.question {
        Some(QuestionText::NeverStuck) | None => false,
        Some(_) => true,
    }
}
