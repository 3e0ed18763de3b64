//! Which options of a command don't go together, and what may stand in their place.

use crate::refused_charts::refused_of_charts;
use crate::several_tests::{are_several, names_input};
use clap::ArgMatches;

/// Options that don't go together, as they stand in a command line, and what may stand there.
#[derive(Clone, Copy, Drop)]
pub(crate) struct RefusedOptions {
    pub words: &'static str,
    pub expected: &'static str,
}

pub(crate) const fn refused(words: &'static str, expected: &'static str) -> Option<RefusedOptions> {
    Some(RefusedOptions { words, expected })
}

/// What may stand in place of two options of which each excludes the other.
pub(crate) const ONE_OF_THEM: &str = "one of them at most";

/// What may stand beside an option by which something is made of one test.
const ONE_TEST: &str = "one test beside it, and no list";

/// What may stand beside what names an order.
const AN_ORDERS_FILE: &str =
    "--witness FILE, --script FILE, --story FILE or --story-svg FILE beside it";

/// The first options of a command that don't go together, if there are some.
pub(crate) fn refused_together(command: &str, found: &ArgMatches<'_>) -> Option<RefusedOptions> {
    match command {
        "step" | "check" => refused_of_stories(found),
        "run" => refused_of_runs(found),
        "plain" => refused_of_plain(found),
        "chart" => refused_of_charts(found),
        "litmus" => refused_of_tests(found),
        "outcomes" => refused_of_outcomes(found),
        _ => None,
    }
}

/// Whether an option was given, or a flag set.
pub(crate) fn has(found: &ArgMatches<'_>, name: &str) -> bool {
    match found.get_str(name) {
        Some(value) => value != "false",
        None => false,
    }
}

fn refused_of_runs(found: &ArgMatches<'_>) -> Option<RefusedOptions> {
    if !has(found, "times") {
        return refused_of_one_run(found);
    }
    if let Some(refused) = refused_of_questions(found) {
        return Some(refused);
    }
    if found.get_str("keep") == Some("") {
        return refused("--keep ''", "the name of a folder");
    }
    let words = if has(found, "trace") {
        "--times --trace"
    } else if has(found, "counts") {
        "--times --counts"
    } else if has(found, "json") {
        "--times --json"
    } else if has(found, "lines") {
        "--times --lines"
    } else if has(found, "names") {
        "--times --names"
    } else if has(found, "records") {
        "--times --records"
    } else if has(found, "why") {
        "--times --why"
    } else {
        return None;
    };
    refused(words, ONE_OF_THEM)
}

/// What is asked or kept of many runs, without them.
fn refused_of_one_run(found: &ArgMatches<'_>) -> Option<RefusedOptions> {
    let word = if has(found, "watch") {
        "--watch"
    } else if has(found, "exists") {
        "--exists"
    } else if has(found, "forall") {
        "--forall"
    } else if has(found, "never") {
        "--never"
    } else if has(found, "keep") {
        "--keep"
    } else {
        return None;
    };
    refused(word, "--times N beside it")
}

/// What says more of a story, without one.
fn refused_of_stories(found: &ArgMatches<'_>) -> Option<RefusedOptions> {
    if has(found, "all") && !has(found, "story") {
        return refused("--all", "--story beside it");
    }
    None
}

fn refused_of_plain(found: &ArgMatches<'_>) -> Option<RefusedOptions> {
    match (has(found, "ORDER"), has(found, "rounds")) {
        (true, true) => refused("ORDER --rounds", ONE_OF_THEM),
        (false, false) => refused("neither ORDER nor --rounds", "one of them"),
        (true, false) if has(found, "steps") => refused("--steps", "--rounds K beside it"),
        (true, false) if has(found, "seed") => refused("--seed", "--rounds K beside it"),
        (false, true) if has(found, "story") => refused("--story", "ORDER in place of --rounds"),
        (false, true) if has(found, "story-svg") => {
            refused("--story-svg", "ORDER in place of --rounds")
        }
        _ => match refused_of_stories(found) {
            Some(refused) => Some(refused),
            None => refused_of_themes(found),
        },
    }
}

/// Colours without a picture.
fn refused_of_themes(found: &ArgMatches<'_>) -> Option<RefusedOptions> {
    if has(found, "theme") && !has(found, "story-svg") {
        return refused("--theme", "--story-svg FILE beside it");
    }
    None
}

fn refused_of_outcomes(found: &ArgMatches<'_>) -> Option<RefusedOptions> {
    if let Some(refused) = refused_of_why(found) {
        return Some(refused);
    }
    if let Some(refused) = refused_of_questions(found) {
        return Some(refused);
    }
    if has(found, "how") && has(found, "first") {
        return refused("--how --first", ONE_OF_THEM);
    }
    if let Some(refused) = refused_of_orders(found) {
        return Some(refused);
    }
    if let Some(refused) = refused_of_themes(found) {
        return Some(refused);
    }
    if has(found, "story") {
        return None;
    }
    if has(found, "all") {
        return refused("--all", "--story FILE beside it");
    }
    if has(found, "lines") && !has(found, "story-svg") && !has(found, "why") {
        return refused(
            "--lines",
            "--story FILE, --story-svg FILE or --why CONDITION beside it",
        );
    }
    None
}

/// A question, part of the outcomes or an order beside why, and its picture without it.
fn refused_of_why(found: &ArgMatches<'_>) -> Option<RefusedOptions> {
    if !has(found, "why") {
        return match has(found, "svg") {
            true => refused("--svg", "--why CONDITION beside it"),
            false => None,
        };
    }
    match beside_why(found) {
        Some(words) => refused(words, ONE_OF_THEM),
        None => None,
    }
}

/// What doesn't stand beside why, with that.
fn beside_why(found: &ArgMatches<'_>) -> Option<&'static str> {
    let words = if has(found, "exists") {
        "--exists --why"
    } else if has(found, "forall") {
        "--forall --why"
    } else if has(found, "never") {
        "--never --why"
    } else if has(found, "never-stuck") {
        "--never-stuck --why"
    } else if has(found, "first") {
        "--why --first"
    } else if has(found, "outcome") {
        "--why --outcome"
    } else if has(found, "stuck") {
        "--why --stuck"
    } else {
        return order_beside_why(found);
    };
    Some(words)
}

/// What is of an order doesn't.
fn order_beside_why(found: &ArgMatches<'_>) -> Option<&'static str> {
    match written_order(found) {
        "--witness" => Some("--why --witness"),
        "--script" => Some("--why --script"),
        "--story" => Some("--why --story"),
        "--story-svg" => Some("--why --story-svg"),
        _ if has(found, "theme") => Some("--why --theme"),
        _ if has(found, "all") => Some("--why --all"),
        _ => None,
    }
}

/// Two files of a test, what is asked of its states beside runs of the core, what is of one test beside several, and what
/// `outcomes` refuses of an order.
fn refused_of_tests(found: &ArgMatches<'_>) -> Option<RefusedOptions> {
    if let Some(words) = two_of_one_test(found) {
        return refused(words, ONE_OF_THEM);
    }
    match refused_of_several(found) {
        Some(refused) => Some(refused),
        None => refused_of_test_orders(found),
    }
}

/// Two options of one test that don't stand side by side.
fn two_of_one_test(found: &ArgMatches<'_>) -> Option<&'static str> {
    let (run, why) = (has(found, "run"), has(found, "why"));
    let (image, svg, outcome) = (
        has(found, "image"),
        has(found, "svg"),
        has(found, "outcome"),
    );
    match (run, why, image, svg, outcome) {
        (true, true, _, _, _) => Some("--run --why"),
        (true, false, _, true, _) => Some("--run --svg"),
        (true, false, _, false, true) => Some("--run --outcome"),
        (_, _, true, true, _) => Some("--image --svg"),
        (_, _, true, false, true) => Some("--image --outcome"),
        (_, _, false, true, true) => Some("--svg --outcome"),
        _ => None,
    }
}

/// What is of one test beside several, two things in place of the states, and standard input among several.
fn refused_of_several(found: &ArgMatches<'_>) -> Option<RefusedOptions> {
    if has(found, "summary") && has(found, "expect") {
        return refused("--summary --expect", ONE_OF_THEM);
    }
    let is_several = are_several(found);
    let words = of_one_test(found);
    if is_several && !words.is_empty() {
        return refused(words, ONE_TEST);
    }
    if let Some(words) = beside_lines(found) {
        return refused(words, ONE_OF_THEM);
    }
    if is_several && names_input(found) {
        return refused("-", "the names of files, where there are several");
    }
    None
}

/// The option by which something is made of one test; nothing where there is none.
fn of_one_test(found: &ArgMatches<'_>) -> &'static str {
    if has(found, "image") {
        "--image"
    } else if has(found, "svg") {
        "--svg"
    } else if has(found, "outcome") {
        "--outcome"
    } else if has(found, "run") {
        "--run"
    } else {
        ""
    }
}

/// What doesn't stand beside lines that are printed in place of the states, with the option that has them printed.
fn beside_lines(found: &ArgMatches<'_>) -> Option<&'static str> {
    let (summary, expect) = (has(found, "summary"), has(found, "expect"));
    if !summary && !expect {
        return None;
    }
    match (of_one_test(found), summary) {
        ("--image", true) => Some("--image --summary"),
        ("--image", false) => Some("--image --expect"),
        ("--svg", true) => Some("--svg --summary"),
        ("--svg", false) => Some("--svg --expect"),
        ("--outcome", true) => Some("--outcome --summary"),
        ("--outcome", false) => Some("--outcome --expect"),
        ("--run", true) => Some("--run --summary"),
        ("--run", false) => Some("--run --expect"),
        (_, true) if has(found, "why") => Some("--why --summary"),
        (_, false) if has(found, "why") => Some("--why --expect"),
        _ => None,
    }
}

/// An order without its file or with two, a file without an order, and what says more of a story without one.
fn refused_of_test_orders(found: &ArgMatches<'_>) -> Option<RefusedOptions> {
    if let Some(refused) = refused_of_files(found) {
        return Some(refused);
    }
    let files = written_order(found);
    match has(found, "outcome") {
        true if files.is_empty() => return refused("--outcome", AN_ORDERS_FILE),
        false if !files.is_empty() => return refused(files, "--outcome N beside it"),
        _ => {}
    }
    if let Some(refused) = refused_of_themes(found) {
        return Some(refused);
    }
    if has(found, "all") && !has(found, "story") {
        return refused("--all", "--story FILE beside it");
    }
    None
}

/// Two questions, and `--first` without a condition. Of runs there are but three, and no `--first`.
fn refused_of_questions(found: &ArgMatches<'_>) -> Option<RefusedOptions> {
    let exists = has(found, "exists");
    let (for_all, never) = (has(found, "forall"), has(found, "never"));
    let stuck = has(found, "never-stuck");
    let words = match (exists, for_all, never, stuck) {
        (true, true, _, _) => "--exists --forall",
        (true, false, true, _) => "--exists --never",
        (true, false, false, true) => "--exists --never-stuck",
        (false, true, true, _) => "--forall --never",
        (false, true, false, true) => "--forall --never-stuck",
        (false, false, true, true) => "--never --never-stuck",
        (false, false, false, _) if has(found, "first") => return refused(
            "--first",
            "--exists, --forall or --never beside it",
        ),
        _ => return None,
    };
    refused(words, ONE_OF_THEM)
}

/// Orders of two ends, an order without its file or with two, and a file without an order.
fn refused_of_orders(found: &ArgMatches<'_>) -> Option<RefusedOptions> {
    if let Some(refused) = refused_of_files(found) {
        return Some(refused);
    }
    let files = written_order(found);
    let words = match (has(found, "outcome"), has(found, "stuck")) {
        (true, true) => return refused("--outcome --stuck", ONE_OF_THEM),
        (false, false) if files.is_empty() || asks(found) => return None,
        (false, false) => return refused(files, "--outcome N, --stuck or a question beside it"),
        (true, false) => "--outcome",
        (false, true) => "--stuck",
    };
    if files.is_empty() {
        return refused(words, AN_ORDERS_FILE);
    }
    None
}

/// Two files for one order.
fn refused_of_files(found: &ArgMatches<'_>) -> Option<RefusedOptions> {
    let (witness, script) = (has(found, "witness"), has(found, "script"));
    let (story, picture) = (has(found, "story"), has(found, "story-svg"));
    let words = match (witness, script, story, picture) {
        (true, true, _, _) => "--witness --script",
        (true, false, true, _) => "--witness --story",
        (true, false, false, true) => "--witness --story-svg",
        (false, true, true, _) => "--script --story",
        (false, true, false, true) => "--script --story-svg",
        (false, false, true, true) => "--story --story-svg",
        _ => return None,
    };
    refused(words, ONE_OF_THEM)
}

/// The option by which an order is written; nothing where none is.
fn written_order(found: &ArgMatches<'_>) -> &'static str {
    if has(found, "witness") {
        "--witness"
    } else if has(found, "script") {
        "--script"
    } else if has(found, "story") {
        "--story"
    } else if has(found, "story-svg") {
        "--story-svg"
    } else {
        ""
    }
}

/// Whether a question is asked.
fn asks(found: &ArgMatches<'_>) -> bool {
    has(found, "exists") || has(found, "forall") || has(found, "never") || has(found, "never-stuck")
}
