//! What the program itself refuses of options that `clap` takes: a number that doesn't fit, options that don't
//! go together, and a dash in place of a file where it is none.

use crate::chart_ends::{do_ends_rise, read_end};
use crate::chart_options::columns_named;
use crate::hints_wanted::HintsWanted;
use crate::refused_together::refused_together;
use crate::themes::theme_named;
use clap::ArgMatches;
use hints::{Hint, Part};
use numbers::sizes::{MOST_EVENTS, MOST_HARTS};
use reductions::read_list;
use std::alloc::{AllocError, Global};
use text_fields::read_decimal;

/// An option that has a number, and which.
struct NumberOption {
    name: &'static str,
    least: u32,
    greatest: u32,
}

macro_rules! number_option {
    ($name:expr, $least:expr, $greatest:expr) => {
        NumberOption {
            name: $name,
            least: $least,
            greatest: $greatest,
        }
    };
}

/// The options that have a number, in the order in which they are looked at.
static NUMBERS: [NumberOption; 10] = [
    number_option!("harts", 1, MOST_HARTS as u32),
    number_option!("hart", 0, MOST_HARTS as u32 - 1),
    number_option!("width", 1, 10_000),
    number_option!("times", 1, 1_000_000),
    number_option!("rounds", 1, u32::MAX),
    number_option!("steps", 0, u32::MAX),
    number_option!("seed", 0, u32::MAX),
    number_option!("states", 1, u32::MAX),
    number_option!("outcome", 1, u32::MAX),
    number_option!("run", 1, 1_000_000),
];

/// The options and the argument that name a file or a folder that is written, and so no dash.
const WRITTEN: [&str; 10] = [
    "trace",
    "keep",
    "svg",
    "kanata",
    "witness",
    "script",
    "story",
    "story-svg",
    "image",
    "OUT",
];

/// Adds to a hint why these matches are no line. Fails only for want of memory.
pub(crate) fn add_refused_options(
    matches: &ArgMatches<'_>,
    hint: &mut Hint,
    alloc: Global,
) -> Result<(), AllocError> {
    if let Some((name, found)) = matches.subcommand() {
        add_first_refused(name, found, hint, alloc)?;
    }
    hint.add(Part::More, b"try '--help'.")
}

/// Adds what is refused first: a word that its option hasn't, an end of a chart, a number, options that don't go
/// together, a dash.
fn add_first_refused(
    command: &str,
    found: &ArgMatches<'_>,
    hint: &mut Hint,
    alloc: Global,
) -> Result<(), AllocError> {
    if add_odd_word(found, hint, alloc)? {
        return Ok(());
    }
    if add_end(found, hint, alloc)? {
        return Ok(());
    }
    if add_number(found, hint, alloc)? {
        return Ok(());
    }
    if add_turned(found, hint, alloc)? {
        return Ok(());
    }
    if let Some(refused) = refused_together(command, found) {
        hint.add(Part::Word, refused.words.as_bytes())?;
        return hint.add(Part::Expected, refused.expected.as_bytes());
    }
    add_dash(found, hint, alloc)
}

/// The options that have one word of a few, or a list of such, in the order in which they are looked at.
const OF_WORDS: [&str; 4] = ["hints", "theme", "columns", "without"];

/// Adds the first option whose word is none of its own. Answers whether there is one.
fn add_odd_word(
    found: &ArgMatches<'_>,
    hint: &mut Hint,
    alloc: Global,
) -> Result<bool, AllocError> {
    for name in OF_WORDS {
        let Some(word) = found.get_str(name) else {
            continue;
        };
        let Some(expected) = words_in_place(name, word) else {
            continue;
        };
        add_word(name, word, hint, alloc)?;
        hint.add(Part::Expected, expected.as_bytes())?;
        return Ok(true);
    }
    Ok(false)
}

/// What may stand in place of an option's word, where that is none of its own.
fn words_in_place(name: &str, word: &str) -> Option<&'static str> {
    match name {
        "hints" if HintsWanted::named(word).is_none() => Some("auto, always, never or json"),
        "theme" if theme_named(word).is_none() => Some("auto, light or dark"),
        "columns" if columns_named(word).is_none() => Some("events or rounds"),
        "without" if read_list(word).is_none() => Some("RX, J, or both: RX,J"),
        _ => None,
    }
}

/// The last event that a chart may begin or end at.
const LAST_PLACE: u32 = MOST_EVENTS - 1;

/// Adds the first of the two ends of a chart that is no place. Answers whether there is one.
fn add_end(found: &ArgMatches<'_>, hint: &mut Hint, alloc: Global) -> Result<bool, AllocError> {
    for name in ["from", "to"] {
        let Some(word) = found.get_str(name) else {
            continue;
        };
        if read_end(word, LAST_PLACE).is_some() {
            continue;
        }
        add_word(name, word, hint, alloc)?;
        let mut expected = String::new(alloc);
        write!(
            expected,
            "a whole number from 0 to {LAST_PLACE}, or the name of a function"
        )?;
        hint.add(Part::Expected, expected.as_bytes())?;
        return Ok(true);
    }
    Ok(false)
}

/// Adds the first option whose number doesn't fit. Answers whether there is one.
fn add_number(found: &ArgMatches<'_>, hint: &mut Hint, alloc: Global) -> Result<bool, AllocError> {
    for option in &NUMBERS {
        let Some(text) = found.get_str(option.name) else {
            continue;
        };
        if option.takes(text) {
            continue;
        }
        add_word(option.name, text, hint, alloc)?;
        let (least, greatest) = (option.least, option.greatest);
        let mut expected = String::new(alloc);
        write!(expected, "a whole number from {least} to {greatest}")?;
        hint.add(Part::Expected, expected.as_bytes())?;
        return Ok(true);
    }
    Ok(false)
}

/// Adds the events of a chart where the last is before the first. Answers whether it is so.
fn add_turned(found: &ArgMatches<'_>, hint: &mut Hint, alloc: Global) -> Result<bool, AllocError> {
    let (Some(from), Some(to)) = (found.get_str("from"), found.get_str("to")) else {
        return Ok(false);
    };
    match (read_end(from, LAST_PLACE), read_end(to, LAST_PLACE)) {
        (Some(first), Some(last)) if !do_ends_rise(first, last) => {}
        _ => return Ok(false),
    }
    let mut words = String::new(alloc);
    write!(words, "--from {from} --to {to}")?;
    hint.add(Part::Word, words.as_bytes())?;
    hint.add(Part::Expected, b"no --to below the --from")?;
    Ok(true)
}

/// Adds a dash that stands in place of a file that is written, or of a second one that is read.
fn add_dash(found: &ArgMatches<'_>, hint: &mut Hint, alloc: Global) -> Result<(), AllocError> {
    for name in WRITTEN {
        if found.get_str(name) == Some("-") {
            add_word(name, "-", hint, alloc)?;
            return hint.add(
                Part::Expected,
                b"a file that is written; ./- for one of that name",
            );
        }
    }
    hint.add(Part::Word, b"-")?;
    hint.add(
        Part::Expected,
        b"- in place of one file that is read at most",
    )
}

/// Adds an option, or an argument by its name in the usage, with its word.
fn add_word(name: &str, word: &str, hint: &mut Hint, alloc: Global) -> Result<(), AllocError> {
    let mut words = String::new(alloc);
    if name != "OUT" {
        words.push_str("--")?;
    }
    write!(words, "{name} {word}")?;
    hint.add(Part::Word, words.as_bytes())
}

impl NumberOption {
    /// Whether it has this number.
    fn takes(&self, text: &str) -> bool {
        match read_decimal(text.as_bytes(), self.greatest) {
            Ok(number) => self.least <= number,
            Err(_) => false,
        }
    }
}
