//! The options of a chart: what a column of it is, and whether they go together.

ghost use Rattle.std.specs.Prelude.{◌≡◌, codes, option_map};
ghost use Rattle.clap.specs.Words.{first_of, found_of, rows_of};
ghost use Rattle.sim_inputs.specs.ChartOptions.{are_apart, can_be_drawn, columns_in, columns_named, is_dressed_alone};

use crate::chart_ends::do_ends_rise;
use crate::found_values::value_of;
use crate::line::{ChartCommand, Columns};
use crate::themes::can_be_themed;
use clap::ArgMatches;

/// What `--columns` says with this word; none where it is none of its words.
pub(crate) fn columns_named(word: &str) -> Option<Columns>
    ensures { result ≡ columns_named word.now }
{
    match word {
        "events" => Some(Columns::Events),
        "rounds" => Some(Columns::Rounds),
        _ => None,
    }
}

/// The columns that were found, or events where none were given; none where something else was found.
pub(crate) fn columns_in(found: &ArgMatches<'_>) -> Option<Columns>
    ensures { result ≡ columns_in (first_of (codes "columns") (rows_of (found_of found.now))) }
{
    match value_of(found, "columns") {
        Some(word) => columns_named(word),
        None => Some(Columns::Events),
    }
}

/// Whether the options of a chart go together: its events rise where both are numbers, a line has room, its two files
/// have two names, and a picture alone has a title and colours.
pub(crate) fn can_be_drawn(chart: &ChartCommand<'_>) -> bool
    ensures { result ≡ can_be_drawn chart.now }
{
    do_ends_rise(chart.from, chart.to)
        && chart.width >= 1
        && are_apart(chart.svg, chart.kanata)
        && is_dressed_alone(chart)
}

/// Whether a picture is drawn where there is a title or a colour of one.
fn is_dressed_alone(chart: &ChartCommand<'_>) -> bool
    ensures { result ≡ is_dressed_alone chart.now }
{
    let is_drawn = chart.svg.is_some();
    (is_drawn || chart.title.is_none()) && can_be_themed(is_drawn, chart.theme.is_some())
}

/// Whether two files that are written have two names, where both are.
fn are_apart(one: Option<&str>, other: Option<&str>) -> bool
    ensures { result ≡ are_apart (option_map (λ name. name.now) one.entry) (option_map (λ name. name.now) other.entry) }
{
    match (one, other) {
        (Some(one), Some(other)) => one != other,
        _ => true,
    }
}
