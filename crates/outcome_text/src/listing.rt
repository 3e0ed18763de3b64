//! The text of what was found.

ghost use Rattle.std.specs.Prelude.{◌≡◌, ◌<◌, length, Some, slice_get, OnOk};
ghost use Rattle.std.specs.Io.KnownBytes.{Appends};
ghost use Rattle.outcomes.specs.Found.{Told};
ghost use Rattle.text_fields.specs.Each.{each_from};
ghost use Rattle.outcome_text.specs.Listing.{told_line, ends_text, whole_text, extent_text};
ghost use Rattle.outcome_text.specs.Listing.{outcomes_text, incomplete_text};
ghost use Rattle.searches.specs.declared.extent.Extent.TheVariants.{Whole};

use crate::how::{How, write_how};
use crate::line::write_line;
use crate::unwritten::write_unwritten;
use arrayvec::ArrayString;
use outcome_queries::Columns;
use outcomes::{Extent, Outcomes};
use report_lines::report_count;
use std::io;
use std::io::Write;
use text_fields::push_decimal;

/// Writes the outcomes of a program that a search has found, of which this was watched: a line for each, how many
/// there are, how many states were found, and the line of how, where there is one. Behind that, of a whole search, that these are all, whether a state
/// can't go on to an end, a line for each place in memory that is watched for nothing, and the answer's line; of a
/// part the answer's line, and that there are more than so many states, which were to be looked at, or that the search
/// has ended with the first outcome that answers. Where it answers Ok, it has written exactly these lines.
#[tactic(auto, unfolding(crate::specs::Listing::outcomes_text))]
pub fn write_outcomes<W: Write>(
    outcomes: &Outcomes,
    columns: &Columns<'_>,
    is_stuck: bool,
    budget: u32,
    how: &Option<How>,
    answer: &[u8],
    out: &mut W,
) -> io::Result<()>
    ensures { OnOk result (Appends (W.contents out.old) (W.contents out.new)
        (outcomes_text columns.now.registers.items columns.now.words.items outcomes.now is_stuck budget how.now
        answer.now)) }
{
    write_lines(outcomes, columns, out)?;
    report_count("outcomes", outcomes.count() as u64, out)?;
    report_count("states", outcomes.states(), out)?;
    write_how(how, out)?;
    write_extent(outcomes, columns, is_stuck, budget, answer, out)
}

/// Writes what the extent of a search says of its outcomes, and the answer.
fn write_extent<W: Write>(
    outcomes: &Outcomes,
    columns: &Columns<'_>,
    is_stuck: bool,
    budget: u32,
    answer: &[u8],
    out: &mut W,
) -> io::Result<()>
    ensures { OnOk result (Appends (W.contents out.old) (W.contents out.new)
        (extent_text columns.now.words.items outcomes.now.unwritten is_stuck budget answer.now outcomes.now.extent)) }
{
    match outcomes.extent() {
        Extent::Whole => {
            write_whole(outcomes, columns, is_stuck, out)?;
            out.write_all(answer)
        }
        Extent::Beyond => {
            out.write_all(answer)?;
            write_incomplete(budget, out)
        }
        Extent::First => {
            out.write_all(answer)?;
            out.write_all(b"not complete: first\n")
        }
    }
}

/// Writes that these are all, and what is known then.
#[tactic(auto, unfolding(crate::specs::Listing::whole_text))]
fn write_whole<W: Write>(
    outcomes: &Outcomes,
    columns: &Columns<'_>,
    is_stuck: bool,
    out: &mut W,
) -> io::Result<()>
    requires { outcomes.now.extent ≡ Whole }
    ensures { OnOk result (Appends (W.contents out.old) (W.contents out.new)
        (whole_text columns.now.words.items outcomes.now.unwritten is_stuck)) }
{
    out.write_all(b"complete\n")?;
    out.write_all(ends_text(is_stuck).as_bytes())?;
    write_unwritten(outcomes, columns.words.as_slice(), out)
}

/// Writes that there are more states than these, which were to be looked at.
#[tactic(auto, unfolding(crate::specs::Listing::incomplete_text))]
pub fn write_incomplete<W: Write>(states: u32, out: &mut W) -> io::Result<()>
    ensures { OnOk result (Appends (W.contents out.old) (W.contents out.new)
        (incomplete_text states)) }
{
    let mut line = ArrayString::<64>::new();
    line.push_str("not complete: more than ");
    push_decimal(&mut line, states);
    line.push_str(" states\n");
    out.write_all(line.as_bytes())
}

/// The line of a whole search that says whether there is a state from which no order leads on to an end.
pub fn ends_text(is_stuck: bool) -> &'static str
    ensures { result.now ≡ ends_text is_stuck }
{
    match is_stuck {
        true => "stuck\n",
        false => "always can end\n",
    }
}

fn write_lines<W: Write>(outcomes: &Outcomes, columns: &Columns<'_>, out: &mut W) -> io::Result<()>
    ensures { OnOk result (Appends (W.contents out.old) (W.contents out.new)
        (each_from (told_line columns.now.registers.items columns.now.words.items) 0 outcomes.now.listed)) }
{
    for index in 0..outcomes.count() {
        write_line_at(outcomes, columns, index, out)?;
    }
    Ok(())
}

/// Writes the line of the outcome with this index.
fn write_line_at<W: Write>(
    outcomes: &Outcomes,
    columns: &Columns<'_>,
    index: usize,
    out: &mut W,
) -> io::Result<()>
    requires { index < length outcomes.now.listed }
    ensures { OnOk result ((told : Told) → slice_get outcomes.now.listed index ≡ Some told
        → Appends (W.contents out.old) (W.contents out.new) (told_line columns.now.registers.items columns.now.words.items index told)) }
{
    match outcomes.outcome(index) {
        Some(outcome) => write_line(columns, outcome, out),
        None => Ok(()),
    }
}
