//! What is answered to a question about all outcomes.

ghost use Rattle.std.specs.Prelude.{◌≡◌, ◌<◌, length, Some, OnOk, slice_get};
ghost use Rattle.std.specs.Io.KnownBytes.{Appends};
ghost use Rattle.std.specs.List.{list_all, list_any};
ghost use Rattle.text_fields.specs.Each.{each_from};
ghost use Rattle.outcome_text.specs.Answers.{answer_of, if_whole, answer_text, answer_words, question_words, lines_text};
ghost use Rattle.outcome_text.specs.Answers.{holds_of, is_named, names_lines, place_of, place_text};
ghost use Rattle.outcome_text.specs.Answers.{settled, settles};
ghost use Rattle.outcomes.specs.Found.{Told};

use arrayvec::ArrayString;
use outcome_queries::{Answer, Condition, Question, holds};
use outcomes::Outcomes;
use std::io;
use std::io::Write;
use text_fields::{push_ascii, push_decimal};
use watched_outcomes::{Outcome, Watch};

/// What is answered to a question, where these outcomes were found: all of them, if the list is whole; only then it is
/// known whether there is a state that can't go on to an end. What was found settles some questions before that: one
/// outcome of which a condition holds, or doesn't.
pub fn answer_of(
    question: &Question<'_>,
    outcomes: &Outcomes,
    watch: &Watch,
    is_whole: bool,
    is_stuck: bool,
) -> Answer
    ensures { result ≡ answer_of watch.now question.now outcomes.now.listed is_whole is_stuck }
{
    match question {
        Question::Exists(condition) => match holds_of_any(outcomes, watch, condition) {
            true => Answer::Yes,
            false => if_whole(is_whole, Answer::No),
        },
        Question::ForAll(condition) => match holds_of_all(outcomes, watch, condition) {
            true => if_whole(is_whole, Answer::Yes),
            false => Answer::No,
        },
        Question::Never(condition) => match holds_of_any(outcomes, watch, condition) {
            true => Answer::No,
            false => if_whole(is_whole, Answer::Yes),
        },
        Question::NeverStuck => match is_stuck {
            true => if_whole(is_whole, Answer::No),
            false => if_whole(is_whole, Answer::Yes),
        },
    }
}

/// An answer that a whole list alone gives.
fn if_whole(is_whole: bool, answer: Answer) -> Answer
    ensures { result ≡ if_whole is_whole answer }
{
    if is_whole { answer } else { Answer::Unknown }
}

/// Whether a condition holds of an outcome.
fn holds_of_any(outcomes: &Outcomes, watch: &Watch, condition: &Condition<'_>) -> bool
    ensures { result ≡ list_any (holds_of watch.now condition.now) outcomes.now.listed }
{
    for index in 0..outcomes.count() {
        if holds_at(outcomes, watch, condition, index) {
            return true;
        }
    }
    false
}

/// Whether a condition holds of each.
fn holds_of_all(outcomes: &Outcomes, watch: &Watch, condition: &Condition<'_>) -> bool
    ensures { result ≡ list_all (holds_of watch.now condition.now) outcomes.now.listed }
{
    for index in 0..outcomes.count() {
        if !holds_at(outcomes, watch, condition, index) {
            return false;
        }
    }
    true
}

/// Whether a condition holds of the outcome with this index.
fn holds_at(outcomes: &Outcomes, watch: &Watch, condition: &Condition<'_>, index: usize) -> bool
    requires { index < length outcomes.now.listed }
    ensures { (told : Told) → slice_get outcomes.now.listed index ≡ Some told
        → result ≡ holds_of watch.now condition.now told }
{
    match outcomes.outcome(index) {
        Some(outcome) => holds(condition, watch, outcome),
        None => false,
    }
}

/// Writes what is answered to a question, and by the numbers of their lines from 1 the outcomes that settle it.
#[tactic(auto, unfolding(crate::specs::Answers::answer_text))]
pub fn write_answer<W: Write>(
    question: &Question<'_>,
    answer: Answer,
    outcomes: &Outcomes,
    watch: &Watch,
    out: &mut W,
) -> io::Result<()>
    ensures { OnOk result (Appends (W.contents out.old) (W.contents out.new)
        (answer_text watch.now question.now answer outcomes.now.listed)) }
{
    out.write_all(question_words(question).as_bytes())?;
    out.write_all(answer_words(answer).as_bytes())?;
    write_lines(question, answer, outcomes, watch, out)?;
    out.write_all(b"\n")
}

/// What stands before the answer to a question.
pub fn question_words(question: &Question<'_>) -> &'static str
    ensures { result.now ≡ question_words question.now }
{
    match question {
        Question::Exists(_) => "exists: ",
        Question::ForAll(_) => "forall: ",
        Question::Never(_) => "never: ",
        Question::NeverStuck => "never-stuck: ",
    }
}

/// An answer in words.
pub fn answer_words(answer: Answer) -> &'static str
    ensures { result.now ≡ answer_words answer }
{
    match answer {
        Answer::Yes => "yes",
        Answer::No => "no",
        Answer::Unknown => "unknown",
    }
}

/// Writes which outcomes settle a question, where some do.
#[tactic(auto, unfolding(crate::specs::Answers::lines_text))]
fn write_lines<W: Write>(
    question: &Question<'_>,
    answer: Answer,
    outcomes: &Outcomes,
    watch: &Watch,
    out: &mut W,
) -> io::Result<()>
    ensures { OnOk result (Appends (W.contents out.old) (W.contents out.new)
        (lines_text watch.now question.now answer outcomes.now.listed)) }
{
    if !names_lines(question, answer) {
        return Ok(());
    }
    out.write_all(b", outcomes")?;
    write_places(question, outcomes, watch, out)
}

/// Whether outcomes settle a question that is answered so.
pub fn names_lines(question: &Question<'_>, answer: Answer) -> bool
    ensures { result ≡ names_lines question.now answer }
{
    match answer {
        Answer::Yes => match question {
            Question::Exists(_) => true,
            Question::ForAll(_) | Question::Never(_) | Question::NeverStuck => false,
        },
        Answer::No => match question {
            Question::ForAll(_) | Question::Never(_) => true,
            Question::Exists(_) | Question::NeverStuck => false,
        },
        Answer::Unknown => false,
    }
}

fn write_places<W: Write>(
    question: &Question<'_>,
    outcomes: &Outcomes,
    watch: &Watch,
    out: &mut W,
) -> io::Result<()>
    ensures { OnOk result (Appends (W.contents out.old) (W.contents out.new)
        (each_from (place_text watch.now question.now) 0 outcomes.now.listed)) }
{
    for index in 0..outcomes.count() {
        write_place(
            is_named_at(question, outcomes, watch, index),
            index + 1,
            out,
        )?;
    }
    Ok(())
}

/// Whether the outcome with this index is one of those that can settle a question.
fn is_named_at(question: &Question<'_>, outcomes: &Outcomes, watch: &Watch, index: usize) -> bool
    requires { index < length outcomes.now.listed }
    ensures { (told : Told) → slice_get outcomes.now.listed index ≡ Some told
        → result ≡ is_named watch.now question.now told }
{
    match outcomes.outcome(index) {
        Some(outcome) => settles(question, watch, outcome),
        None => false,
    }
}

/// Whether an outcome of its own can settle a question: its condition holds of it; of `forall`, it doesn't.
pub fn settles(question: &Question<'_>, watch: &Watch, outcome: &Outcome) -> bool
    ensures { result ≡ settles watch.now question.now outcome.now }
{
    match question {
        Question::Exists(condition) | Question::Never(condition) => holds(
            condition, watch, outcome,
        ),
        Question::ForAll(condition) => !holds(condition, watch, outcome),
        Question::NeverStuck => false,
    }
}

/// What is answered to a question that an outcome settles, however many others there are.
pub fn settled(question: &Question<'_>) -> Answer
    ensures { result ≡ settled question.now }
{
    match question {
        Question::Exists(_) => Answer::Yes,
        Question::ForAll(_) | Question::Never(_) => Answer::No,
        Question::NeverStuck => Answer::Unknown,
    }
}

/// Writes the number of an outcome's line, where it is named.
pub fn write_place<W: Write>(is_named: bool, number: usize, out: &mut W) -> io::Result<()>
    ensures { OnOk result (Appends (W.contents out.old) (W.contents out.new)
        (place_of is_named number)) }
{
    if !is_named {
        return Ok(());
    }
    let mut place = ArrayString::<32>::new();
    push_ascii(&mut place, b' ');
    push_decimal(&mut place, number);
    out.write_all(place.as_bytes())
}
