//! Which outcome settles a question, and what the command's exit status is.

ghost use Rattle.std.specs.Prelude.{◌≡◌, ◌<◌, true, length, position, Some, IfSome, slice_get};
ghost use Rattle.outcomes.specs.Found.{Told};
ghost use Rattle.plain_commands.specs.Questions.{settles, status_of_answer, status_of_extent};

use outcome_queries::{Answer, Question, holds};
use outcomes::{Extent, Outcomes, Until};
use watched_outcomes::{Outcome, Watch};

/// Asks a search for the first outcome that settles a question, where it is to end there.
#[derive(Drop)]
pub(crate) struct FirstSettling<'question, 'text, 'watch> {
    pub(crate) question: &'question Option<Question<'text>>,
    pub(crate) watch: &'watch Watch,
    pub(crate) first: bool,
}

impl Until for FirstSettling<'_, '_, '_> {
    ghost Asks = { λ until ending.
        (until.first ≡ true) × (settles until.watch.now until.question.now ending ≡ true) };

    fn is_asked(&self, outcome: &Outcome) -> bool {
        self.first && settles(self.watch, self.question, outcome)
    }
}

/// Whether an outcome settles a question: its condition holds of it, or doesn't, where it is asked of each.
pub(crate) fn settles(watch: &Watch, question: &Option<Question<'_>>, outcome: &Outcome) -> bool
    ensures { result ≡ settles watch.now question.now outcome.now }
{
    match question {
        Some(Question::Exists(condition)) => holds(condition, watch, outcome),
        Some(Question::ForAll(condition)) => !holds(condition, watch, outcome),
        Some(Question::Never(condition)) => holds(condition, watch, outcome),
        Some(Question::NeverStuck) | None => false,
    }
}

/// The index of the first outcome that settles a question, if one does.
pub(crate) fn settling(
    outcomes: &Outcomes,
    watch: &Watch,
    question: &Option<Question<'_>>,
) -> Option<usize>
    ensures { result
        ≡ position (λ (told : Told). settles watch.now question.now told.ending) outcomes.now.listed }
{
    for index in 0..outcomes.count() {
        if settles_at(outcomes, watch, question, index) {
            return Some(index);
        }
    }
    None
}

/// Whether the outcome with this index settles a question.
fn settles_at(
    outcomes: &Outcomes,
    watch: &Watch,
    question: &Option<Question<'_>>,
    index: usize,
) -> bool
    requires { index < length outcomes.now.listed }
    ensures { (told : Told) → slice_get outcomes.now.listed index ≡ Some told
        → result ≡ settles watch.now question.now told.ending }
{
    match outcomes.outcome(index) {
        Some(outcome) => settles(watch, question, outcome),
        None => false,
    }
}

/// The exit status that goes with an answer.
pub fn status_of_answer(answer: Answer) -> u8
    ensures { result ≡ status_of_answer answer }
{
    match answer {
        Answer::Yes => 0,
        Answer::No => 1,
        Answer::Unknown => 3,
    }
}

/// The exit status where nothing is asked.
pub(crate) fn status_of_extent(extent: Extent) -> u8
    ensures { result ≡ status_of_extent extent }
{
    match extent {
        Extent::Whole => 0,
        Extent::Beyond | Extent::First => 3,
    }
}
