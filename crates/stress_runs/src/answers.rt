//! What so many runs answer to a question. They are a sample: an end that came settles it, where it can; that others
//! can't come no runs say.

ghost use Rattle.std.specs.Prelude.{◌≡◌, OnOk};
ghost use Rattle.std.specs.Io.KnownBytes.{Appends};
ghost use Rattle.std.specs.List.{list_any};
ghost use Rattle.text_fields.specs.Each.{each_from};
ghost use Rattle.stress_runs.specs.Answers.{end_place, ends_named, row_settles, sampled_answer, sampled_text};

use crate::tally::Row;
use outcome_queries::{Answer, Question};
use outcome_text::{answer_words, names_lines, question_words, settled, settles, write_place};
use std::io;
use std::io::Write;
use watched_outcomes::Watch;

/// What the ends of these rows answer to a question, where this was watched of them.
pub fn sampled_answer(question: &Question<'_>, watch: &Watch, rows: &[Row]) -> Answer
    ensures { result ≡ sampled_answer watch.now question.now rows.now }
{
    if any_settles(question, watch, rows) {
        settled(question)
    } else {
        Answer::Unknown
    }
}

fn any_settles(question: &Question<'_>, watch: &Watch, rows: &[Row]) -> bool
    ensures { result ≡ list_any (row_settles watch.now question.now) rows.now }
{
    rows.iter().any(|row| settles(question, watch, &row.end))
}

/// Writes what is answered to a question, and by their numbers from 1 the ends that settle it.
#[tactic(auto, unfolding(crate::specs::Answers::sampled_text))]
pub fn report_answer<W: Write>(
    question: &Question<'_>,
    answer: Answer,
    watch: &Watch,
    rows: &[Row],
    out: &mut W,
) -> io::Result<()>
    ensures { OnOk result (Appends (W.contents out.old) (W.contents out.new)
        (sampled_text watch.now question.now answer rows.now)) }
{
    out.write_all(question_words(question).as_bytes())?;
    out.write_all(answer_words(answer).as_bytes())?;
    write_ends(question, answer, watch, rows, out)?;
    out.write_all(b"\n")
}

/// Writes which ends settle a question, where some do.
#[tactic(auto, unfolding(crate::specs::Answers::ends_named))]
fn write_ends<W: Write>(
    question: &Question<'_>,
    answer: Answer,
    watch: &Watch,
    rows: &[Row],
    out: &mut W,
) -> io::Result<()>
    ensures { OnOk result (Appends (W.contents out.old) (W.contents out.new)
        (ends_named watch.now question.now answer rows.now)) }
{
    if !names_lines(question, answer) {
        return Ok(());
    }
    out.write_all(b", ends")?;
    write_places(question, watch, rows, out)
}

fn write_places<W: Write>(
    question: &Question<'_>,
    watch: &Watch,
    rows: &[Row],
    out: &mut W,
) -> io::Result<()>
    ensures { OnOk result (Appends (W.contents out.old) (W.contents out.new)
        (each_from (end_place watch.now question.now) 0 rows.now)) }
{
    for (index, row) in rows.iter().enumerate() {
        write_place(settles(question, watch, &row.end), index + 1, out)?;
    }
    Ok(())
}
