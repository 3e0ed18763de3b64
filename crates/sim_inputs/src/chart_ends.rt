//! Where a chart begins and ends, by the words of its options.

ghost use Rattle.std.specs.Prelude.{◌≡◌};
ghost use Rattle.clap.specs.Words.{first_of, found_of, rows_of};
ghost use Rattle.sim_inputs.specs.CommandLine.{Finds, IsEnd};
ghost use Rattle.sim_inputs.specs.ChartEnds.{do_ends_rise, IsEndOf};

use crate::found_values::value_of;
use crate::line::ChartEnd;
use clap::ArgMatches;
use text_fields::read_decimal;

/// Where a chart begins or ends by this option, or at the default event where it isn't given; none where its word says
/// no such place.
pub(crate) fn chart_end<'a>(
    found: &ArgMatches<'a>,
    name: &str,
    default: u32,
    greatest: u32,
) -> Option<ChartEnd<'a>>
    ensures { Finds (IsEnd (rows_of (found_of found.now)) name.now default greatest) result }
{
    match value_of(found, name) {
        Some(word) => read_end(word, greatest),
        None => Some(ChartEnd::Event(default)),
    }
}

/// What a word says of where a chart begins or ends: one that begins with a digit is the number of an event, of at most
/// `greatest`, one in single quotes the name of a function between them, and every other one a name itself. None where
/// it is no number, or there is no name.
pub(crate) fn read_end(word: &str, greatest: u32) -> Option<ChartEnd<'_>>
    ensures { Finds (IsEndOf word.now greatest) result }
{
    let bytes = word.as_bytes();
    if bytes.is_empty() {
        return None;
    }
    if bytes[0].is_ascii_digit() {
        return Some(ChartEnd::Event(read_decimal(bytes, greatest).ok()?));
    }
    if bytes[0] != b'\'' {
        return Some(ChartEnd::Function(word));
    }
    let name = word.strip_prefix('\'')?.strip_suffix('\'')?;
    if name.is_empty() {
        return None;
    }
    Some(ChartEnd::Function(name))
}

/// Whether the first event isn't behind the last one, where both are numbers.
pub(crate) fn do_ends_rise(from: ChartEnd<'_>, to: ChartEnd<'_>) -> bool
    ensures { result ≡ do_ends_rise from.entry to.entry }
{
    match (from, to) {
        (ChartEnd::Event(first), ChartEnd::Event(last)) => first <= last,
        _ => true,
    }
}
