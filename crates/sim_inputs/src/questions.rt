//! What was found for the questions about outcomes, and about the ends of runs.

ghost use Rattle.clap.specs.Words.{found_of, rows_of};
ghost use Rattle.sim_inputs.specs.CommandLine.{Finds, IsAskedBy, IsQuestion};

use crate::found_values::{is_set, value_of};
use crate::line::QuestionText;
use clap::ArgMatches;

/// What is asked of outcomes, and whether it is told why.
#[derive(Clone, Copy, Drop)]
pub(crate) struct AskedOfOutcomes<'a> {
    pub(crate) question: Option<QuestionText<'a>>,
    pub(crate) why: bool,
}

/// What is asked of outcomes: a question, if one is, or why a condition holds of none, which asks that too; none where
/// it would be two.
pub(crate) fn asked_in<'a>(found: &ArgMatches<'a>) -> Option<AskedOfOutcomes<'a>>
    ensures { Finds (λ asked. IsAskedBy (rows_of (found_of found.now)) asked.question asked.why) result }
{
    let Some(question) = question_in(found) else {
        return None;
    };
    match (value_of(found, "why"), question) {
        (None, question) => Some(AskedOfOutcomes {
            question,
            why: false,
        }),
        (Some(condition), None) => Some(AskedOfOutcomes {
            question: Some(QuestionText::Never(condition)),
            why: true,
        }),
        (Some(_), Some(_)) => None,
    }
}

/// The question that is asked of outcomes or of runs, if one is; none where it would be two.
pub(crate) fn question_in<'a>(found: &ArgMatches<'a>) -> Option<Option<QuestionText<'a>>>
    ensures { Finds (IsQuestion (rows_of (found_of found.now))) result }
{
    let (exists, for_all) = (value_of(found, "exists"), value_of(found, "forall"));
    let (never, never_stuck) = (value_of(found, "never"), is_set(found, "never-stuck"));
    match (exists, for_all, never, never_stuck) {
        (None, None, None, false) => Some(None),
        (Some(condition), None, None, false) => Some(Some(QuestionText::Exists(condition))),
        (None, Some(condition), None, false) => Some(Some(QuestionText::ForAll(condition))),
        (None, None, Some(condition), false) => Some(Some(QuestionText::Never(condition))),
        (None, None, None, true) => Some(Some(QuestionText::NeverStuck)),
        _ => None,
    }
}
