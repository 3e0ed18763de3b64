//! What stands over the legend of a picture: its title, which events it shows, and what a column is.

use super::form::PictureForm;
use super::legend::legend_height;
use super::page::MARGIN;
use crate::chart::Chart;
use std::io;
use std::io::Write;
use svg_drawing::{write_label, write_shown_text};

/// How many bytes of a title, and of the name of a file, are shown.
const MOST_OF_TITLE: usize = 120;

const MOST_OF_NAME: usize = 60;

/// The width of a character of the title.
const LETTER: u32 = 10;

/// The heights of its lines, and of all of them.
const TITLE: u32 = 24;

const EVENTS: u32 = 44;

const AXIS: u32 = 62;

const HEADING: u32 = 70;

/// Where the legend begins.
pub(crate) fn legend_top() -> u32 {
    HEADING
}

/// How much stands over the bands.
pub(crate) fn over_bands(chart: &Chart<'_>, form: &PictureForm<'_>) -> u32 {
    HEADING.saturating_add(legend_height(chart, form))
}

/// Writes the title of the file, which a browser shows.
pub(crate) fn write_file_title<W: Write>(
    chart: &Chart<'_>,
    form: &PictureForm<'_>,
    out: &mut W,
) -> io::Result<()> {
    out.write_all(b"<title>")?;
    write_words(form, out)?;
    out.write_all(b": ")?;
    write_events(chart, out)?;
    out.write_all(b"</title>\n")
}

/// Writes the title, which events are shown of how many, and what a column is.
pub(crate) fn write_heading<W: Write>(
    chart: &Chart<'_>,
    form: &PictureForm<'_>,
    out: &mut W,
) -> io::Result<()> {
    write!(out, "<text class=\"head\" x=\"{MARGIN}\" y=\"{TITLE}\">")?;
    write_words(form, out)?;
    write!(out, "</text>\n<text x=\"{MARGIN}\" y=\"{EVENTS}\">")?;
    write_events(chart, out)?;
    out.write_all(b"</text>\n")?;
    write_label("far", MARGIN, AXIS, axis_of(chart), out)
}

/// What a column is.
fn axis_of(chart: &Chart<'_>) -> &'static str {
    if chart.columns.are_events() {
        "a column is an event: no cycles"
    } else {
        "a column is a round: the longest run of events in which no actor and no instruction comes twice; no cycles"
    }
}

fn axis_width(chart: &Chart<'_>) -> u32 {
    if chart.columns.are_events() { 250 } else { 790 }
}

/// Writes the words of the title: those that are given, or else the names of both files.
fn write_words<W: Write>(form: &PictureForm<'_>, out: &mut W) -> io::Result<()> {
    match form.title {
        Some(title) => write_cut(title, MOST_OF_TITLE, out),
        None => write_names(form, out),
    }
}

fn write_names<W: Write>(form: &PictureForm<'_>, out: &mut W) -> io::Result<()> {
    write_cut(file_of(form.image), MOST_OF_NAME, out)?;
    out.write_all(b", ")?;
    write_cut(file_of(form.trace), MOST_OF_NAME, out)
}

/// Writes a text of an input, or so many bytes of it and two dots where it is longer.
fn write_cut<W: Write>(text: &[u8], most: usize, out: &mut W) -> io::Result<()> {
    if text.len() <= most {
        return write_shown_text(text, out);
    }
    write_shown_text(&text[..most], out)?;
    out.write_all(b"..")
}

/// The name of a file without its folders.
fn file_of(path: &[u8]) -> &[u8] {
    match path.iter().rposition(|byte| *byte == b'/') {
        Some(place) => &path[place + 1..],
        None => path,
    }
}

/// Writes which events are shown, of how many.
fn write_events<W: Write>(chart: &Chart<'_>, out: &mut W) -> io::Result<()> {
    let all = chart.events.len();
    let view = &chart.view;
    if view.span() == 0 {
        return write!(out, "no events of {all}");
    }
    let (from, to) = (chart.columns.head(view.from), chart.columns.last(view.to));
    write!(out, "events {from} to {to} of {all}")?;
    match view.hart {
        Some(hart) => write!(out, ", instructions of hart {hart}"),
        None => Ok(()),
    }
}

/// How wide the heading is, with the margins.
pub(crate) fn heading_width(chart: &Chart<'_>, form: &PictureForm<'_>) -> u32 {
    let words = match form.title {
        Some(title) => shown_width(title, MOST_OF_TITLE),
        None => shown_width(file_of(form.image), MOST_OF_NAME)
            .saturating_add(2)
            .saturating_add(shown_width(file_of(form.trace), MOST_OF_NAME)),
    };
    words
        .saturating_mul(LETTER)
        .max(axis_width(chart))
        .saturating_add(MARGIN * 2)
}

/// How many characters a text has as it is shown and cut, or a few more.
fn shown_width(text: &[u8], most: usize) -> u32 {
    let mut width = 2_u32;
    for index in 0..text.len().min(most) {
        width = width.saturating_add(byte_width(text[index]));
    }
    width
}

fn byte_width(byte: u8) -> u32 {
    if byte < b' ' || byte == 0x7f { 4 } else { 1 }
}
