//! The limits of a core in the texts of help.

use numbers::sizes::{
    FEWEST_QUEUED, MOST_ACTORS, MOST_EVENTS, MOST_EXTRA, MOST_HARTS, MOST_QUEUED, RENAMED_REGISTERS,
};
use std::alloc::{AllocError, Global};

/// What stands in a text of help for a limit, and the limit.
const LIMITS: [(&str, u32); 9] = [
    ("{LAST_ACTOR}", MOST_ACTORS as u32 - 1),
    ("{LAST_HART}", MOST_HARTS as u32 - 1),
    ("{MOST_ACTORS}", MOST_ACTORS as u32),
    ("{MOST_HARTS}", MOST_HARTS as u32),
    ("{MOST_EXTRA}", MOST_EXTRA as u32),
    ("{RENAMED_REGISTERS}", RENAMED_REGISTERS as u32),
    ("{FEWEST_QUEUED}", FEWEST_QUEUED as u32),
    ("{MOST_QUEUED}", MOST_QUEUED as u32),
    ("{MOST_EVENTS}", MOST_EVENTS),
];

/// A text of help with each limit in its place. `clap` keeps what it is given for as long as the
/// words that it reads, so the limits come into what it has printed.
pub(crate) fn with_limits(help: String, alloc: Global) -> Result<String, AllocError> {
    let mut text = help;
    for (name, limit) in LIMITS {
        let digits = limit.to_string(alloc)?;
        text = text.as_str().replace(alloc, name, digits.as_str())?;
    }
    Ok(text)
}
