//! What was found for one argument or option.

ghost use Rattle.std.specs.Prelude.{◌≡◌, option_map};
ghost use Rattle.clap.specs.Words.{first_of, found_of, rows_of};
ghost use Rattle.sim_inputs.specs.CommandLine.{AreHarts, Finds, is_flag_set, number_in, number_or};

use crate::hart_count::HartCount;
use clap::ArgMatches;
use numbers::sizes::MOST_HARTS;
use text_fields::read_decimal;

/// The number that was found for an option, of at most `greatest`, or the default where it isn't
/// given; none where something else was found.
pub(crate) fn number_or(
    found: &ArgMatches<'_>,
    name: &str,
    default: u32,
    greatest: u32,
) -> Option<u32>
    ensures { result ≡ number_or default greatest (first_of name.now (rows_of (found_of found.now))) }
{
    match value_of(found, name) {
        Some(text) => read_decimal(text.as_bytes(), greatest).ok(),
        None => Some(default),
    }
}

/// The number that was found for an option, of at most `greatest`, if one was given; none where
/// something else was found.
pub(crate) fn number(found: &ArgMatches<'_>, name: &str, greatest: u32) -> Option<Option<u32>>
    ensures { result ≡ number_in greatest (first_of name.now (rows_of (found_of found.now))) }
{
    match value_of(found, name) {
        Some(text) => Some(Some(read_decimal(text.as_bytes(), greatest).ok()?)),
        None => Some(None),
    }
}

/// How many harts were asked for, if that was found; none where something else was.
pub(crate) fn harts_in(found: &ArgMatches<'_>) -> Option<Option<HartCount>>
    ensures { Finds (AreHarts (rows_of (found_of found.now))) result }
{
    match number(found, "harts", u32::from(MOST_HARTS))? {
        Some(count) => Some(Some(HartCount::new(count)?)),
        None => Some(None),
    }
}

/// The text that was found for an argument or an option: a file's name, a list, a number.
pub(crate) fn value_of<'a>(found: &ArgMatches<'a>, name: &str) -> Option<&'a str>
    ensures { option_map (λ value. value.now) result ≡ first_of name.now (rows_of (found_of found.now)) }
{
    found.get_str(name)
}

/// Whether a flag is set. (`get_flag` says it for the values "true" and "false" alone.)
pub(crate) fn is_set(found: &ArgMatches<'_>, name: &str) -> bool
    ensures { result ≡ is_flag_set name.now (rows_of (found_of found.now)) }
{
    match value_of(found, name) {
        Some(value) => value == "true",
        None => false,
    }
}
