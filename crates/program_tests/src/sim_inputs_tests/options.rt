//! The options of a chart, of a search and of what is told of it: each is read, and is refused where it has no place.

use super::words_of;
use crate::rows::holds;
use sim_inputs::{
    ChartCommand, Columns, Command, Line, OutcomesCommand, ProgramCommand, read_words,
};
use std::alloc::Global;
use story_pictures::Theme;

/// The words of a chart, and what they ask for: what a column is, whether registers and counters stand there, the
/// picture's title and its colours, and its two files.
type ChartRow = (
    &'static str,
    [&'static str; 3],
    [bool; 2],
    [Option<&'static str>; 2],
);

const CHARTS: [ChartRow; 7] = [
    (
        "smtsim chart a t --columns rounds",
        ["rounds", "", ""],
        [false, false],
        [None, None],
    ),
    (
        "smtsim chart a --columns=events t --registers",
        ["events", "", ""],
        [true, false],
        [None, None],
    ),
    (
        "smtsim chart --counters a t --kanata k",
        ["events", "", ""],
        [false, true],
        [Some("k"), None],
    ),
    (
        "smtsim chart a t --svg p --title two",
        ["events", "two", ""],
        [false, false],
        [Some("p"), None],
    ),
    (
        "smtsim chart a t --light --svg p",
        ["events", "", "light"],
        [false, false],
        [Some("p"), None],
    ),
    (
        "smtsim chart a t --svg p --dark",
        ["events", "", "dark"],
        [false, false],
        [Some("p"), None],
    ),
    (
        "smtsim chart a t --kanata k --svg p",
        ["events", "", ""],
        [false, false],
        [Some("p"), Some("k")],
    ),
];

/// The words of a search, and what they ask for: which reductions it leaves out, and whether it is told how it went.
const SEARCHES: [(&str, [bool; 2], bool); 5] = [
    ("smtsim outcomes a --how", [false, false], true),
    ("smtsim outcomes --without RX a", [true, false], false),
    ("smtsim outcomes a --without=J", [false, true], false),
    ("smtsim outcomes a --without RX,J --how", [true, true], true),
    ("smtsim outcomes a --without J,RX", [true, true], false),
];

fn chart_in<'a>(line: &Line<'a>) -> Option<ChartCommand<'a>> {
    match line.command {
        Command::OfProgram(ProgramCommand::Chart(chart)) => Some(chart),
        _ => None,
    }
}

fn search_in<'a>(line: &Line<'a>) -> Option<OutcomesCommand<'a>> {
    match line.command {
        Command::OfProgram(ProgramCommand::Outcomes(outcomes)) => Some(outcomes),
        _ => None,
    }
}

fn columns_of(chart: &ChartCommand<'_>) -> &'static str {
    match chart.columns {
        Columns::Events => "events",
        Columns::Rounds => "rounds",
    }
}

/// The title of a picture; none is as an empty one.
fn title_of<'a>(chart: &ChartCommand<'a>) -> &'a str {
    match chart.title {
        Some(title) => title,
        None => "",
    }
}

fn shade_of(chart: &ChartCommand<'_>) -> &'static str {
    match chart.theme {
        Some(Theme::Automatic) => "auto",
        Some(Theme::Light) => "light",
        Some(Theme::Dark) => "dark",
        None => "",
    }
}

/// Whether the words of a row ask for the chart that it says.
fn draws(row: &ChartRow, alloc: Global) -> bool {
    let (text, texts, flags, files) = row;
    let Ok(words) = words_of(text, alloc) else {
        return false;
    };
    let Ok(line) = read_words(&words, alloc) else {
        return false;
    };
    let Some(chart) = chart_in(&line) else {
        return false;
    };
    let named = line.files();
    columns_of(&chart) == texts[0]
        && title_of(&chart) == texts[1]
        && shade_of(&chart) == texts[2]
        && chart.registers == flags[0]
        && chart.counters == flags[1]
        && named.written == files[0]
        && named.beside == files[1]
}

#[test]
fn each_option_of_a_chart_is_read(rt: HostRuntime) {
    for row in &CHARTS {
        holds(&rt, row.0, draws(row, rt.alloc()));
    }
}

/// Whether words ask for a search that leaves these out, and is told of.
fn searches(text: &str, without: [bool; 2], how: bool, alloc: Global) -> bool {
    let Ok(words) = words_of(text, alloc) else {
        return false;
    };
    let Ok(line) = read_words(&words, alloc) else {
        return false;
    };
    match search_in(&line) {
        Some(search) => {
            [search.without.conditional, search.without.jumps] == without && search.how == how
        }
        None => false,
    }
}

#[test]
fn each_option_of_a_search_is_read(rt: HostRuntime) {
    for (text, without, how) in &SEARCHES {
        holds(&rt, text, searches(text, *without, *how, rt.alloc()));
    }
}
