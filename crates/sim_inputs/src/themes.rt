//! The colours of a picture: what `--theme` says, and what `--light` and `--dark` do.

ghost use Rattle.std.specs.Prelude.{◌≡◌, codes};
ghost use Rattle.clap.specs.Words.{first_of, found_of, rows_of};
ghost use Rattle.sim_inputs.specs.CommandLine.{is_flag_set};
ghost use Rattle.sim_inputs.specs.Themes.{can_be_themed, shade_of, theme_in, theme_named};

use crate::found_values::{is_set, value_of};
use clap::ArgMatches;
use story_pictures::Theme;

/// What `--theme` says with this word; none where it is none of its words.
pub(crate) fn theme_named(word: &str) -> Option<Theme>
    ensures { result ≡ theme_named word.now }
{
    match word {
        "auto" => Some(Theme::Automatic),
        "light" => Some(Theme::Light),
        "dark" => Some(Theme::Dark),
        _ => None,
    }
}

/// The colours that were found, if some were given; none where something else was found.
pub(crate) fn theme_in(found: &ArgMatches<'_>) -> Option<Option<Theme>>
    ensures { result ≡ theme_in (first_of (codes "theme") (rows_of (found_of found.now))) }
{
    match value_of(found, "theme") {
        Some(word) => Some(Some(theme_named(word)?)),
        None => Some(None),
    }
}

/// The colours that `--light` or `--dark` says, if one of them is given; none where both are.
pub(crate) fn shade_in(found: &ArgMatches<'_>) -> Option<Option<Theme>>
    ensures { result ≡ shade_of (is_flag_set (codes "light") (rows_of (found_of found.now)))
        (is_flag_set (codes "dark") (rows_of (found_of found.now))) }
{
    match (is_set(found, "light"), is_set(found, "dark")) {
        (false, false) => Some(None),
        (true, false) => Some(Some(Theme::Light)),
        (false, true) => Some(Some(Theme::Dark)),
        (true, true) => None,
    }
}

/// Whether what has colours is drawn.
pub(crate) fn can_be_themed(is_drawn: bool, is_themed: bool) -> bool
    ensures { result ≡ can_be_themed is_drawn is_themed }
{
    is_drawn || !is_themed
}
