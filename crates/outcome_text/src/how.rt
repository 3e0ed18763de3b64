//! The line that says how many states a search has found, and how many more those that leave a reduction out.

ghost use Rattle.std.specs.Prelude.{◌≡◌, OnOk};
ghost use Rattle.std.specs.Io.KnownBytes.{Appends};
ghost use Rattle.outcome_text.specs.How.{count_of, count_words, how_line, how_text, lead_text, without_text};

use arrayvec::ArrayString;
use outcomes::{Extent, Outcomes};
use reductions::Reduction;
use std::io;
use std::io::Write;
use text_fields::push_decimal;

/// How many states a search has found.
#[derive(Clone, Copy, Drop)]
pub enum StateCount {
    /// So many.
    Exactly(u64),
    /// There are more than these, which were to be looked at.
    MoreThan(u32),
}

/// How many states a search has found, and of each reduction that it uses how many one has found that leaves it out as
/// well. There is none of a reduction that the search itself leaves out.
#[derive(Clone, Copy, Drop)]
pub struct How {
    pub states: StateCount,
    /// Of the one without `RX`.
    pub conditional: Option<StateCount>,
    /// Of the one without `J`.
    pub jumps: Option<StateCount>,
}

/// How many states a search has found, which was to look at so many at the most.
pub fn count_of(outcomes: &Outcomes, budget: u32) -> StateCount
    ensures { result ≡ count_of budget outcomes.now }
{
    match outcomes.extent() {
        Extent::Beyond => StateCount::MoreThan(budget),
        Extent::Whole | Extent::First => StateCount::Exactly(outcomes.states()),
    }
}

/// Writes the line, where there is one.
pub(crate) fn write_how<W: Write>(how: &Option<How>, out: &mut W) -> io::Result<()>
    ensures { OnOk result (Appends (W.contents out.old) (W.contents out.new) (how_text how.now)) }
{
    match how {
        Some(how) => write_line(how, out),
        None => Ok(()),
    }
}

/// Writes the line of a search.
#[tactic(auto, unfolding(crate::specs::How::how_line))]
fn write_line<W: Write>(how: &How, out: &mut W) -> io::Result<()>
    ensures { OnOk result (Appends (W.contents out.old) (W.contents out.new) (how_line how.now)) }
{
    out.write_all(b"how ")?;
    write_count(how.states, out)?;
    out.write_all(b" states")?;
    write_without(Reduction::Conditional, how.conditional, out)?;
    write_without(Reduction::Jumps, how.jumps, out)?;
    out.write_all(b"\n")
}

/// Writes how many states a search has that leaves this reduction out, where there is one.
fn write_without<W: Write>(
    reduction: Reduction,
    count: Option<StateCount>,
    out: &mut W,
) -> io::Result<()>
    ensures { OnOk result
        (Appends (W.contents out.old) (W.contents out.new) (without_text reduction count)) }
{
    let Some(count) = count else {
        return Ok(());
    };
    write_lead(reduction, out)?;
    write_count(count, out)
}

/// Writes the words that stand before the number of the search without a reduction.
#[tactic(auto, unfolding(crate::specs::How::lead_text))]
fn write_lead<W: Write>(reduction: Reduction, out: &mut W) -> io::Result<()>
    ensures { OnOk result
        (Appends (W.contents out.old) (W.contents out.new) (lead_text reduction)) }
{
    out.write_all(b", without ")?;
    out.write_all(reduction.name().as_bytes())?;
    out.write_all(b" ")
}

/// Writes a number of states in words.
#[tactic(auto, unfolding(crate::specs::How::count_words))]
fn write_count<W: Write>(count: StateCount, out: &mut W) -> io::Result<()>
    ensures { OnOk result (Appends (W.contents out.old) (W.contents out.new) (count_words count)) }
{
    let mut words = ArrayString::<64>::new();
    match count {
        StateCount::Exactly(states) => {
            push_decimal(&mut words, states);
            out.write_all(words.as_bytes())
        }
        StateCount::MoreThan(budget) => {
            words.push_str("more than ");
            push_decimal(&mut words, budget);
            out.write_all(words.as_bytes())
        }
    }
}
