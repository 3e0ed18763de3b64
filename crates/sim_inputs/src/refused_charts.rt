//! Which options of a chart don't go together.

use crate::refused_together::{ONE_OF_THEM, RefusedOptions, has, refused};
use clap::ArgMatches;

/// Two colours, two files of one name, and what is of a picture without one.
pub(crate) fn refused_of_charts(found: &ArgMatches<'_>) -> Option<RefusedOptions> {
    if has(found, "light") && has(found, "dark") {
        return refused("--light --dark", ONE_OF_THEM);
    }
    match (found.get_str("svg"), found.get_str("kanata")) {
        (Some(picture), Some(log)) if picture == log => {
            return refused("--svg --kanata", "two files of different names");
        }
        (Some(_), _) => return None,
        (None, _) => {}
    }
    let word = if has(found, "title") {
        "--title"
    } else if has(found, "light") {
        "--light"
    } else if has(found, "dark") {
        "--dark"
    } else {
        return None;
    };
    refused(word, "--svg FILE beside it")
}
