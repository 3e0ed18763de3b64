//! The text of explained asks.

use crate::squash::write_cause;
use crate::tally::Tally;
use crate::walk::Walk;
use events::History;
use scripts::{Action, ScriptWord};
use smt_core::Core;
use std::alloc::{AllocError, Global};
use std::io;
use std::io::Write;

/// The explained lines of these words' asks: `lines` are theirs as `run_script` prints them, `made`
/// is the history that the asks have left, and `core` is of the same image and configuration and
/// has made no step. Behind them stands how often each reason came.
///
/// An error is want of memory for the text.
pub fn explain(
    words: &[ScriptWord],
    lines: &[u8],
    made: &History,
    core: Core,
    alloc: Global,
) -> Result<Vec<u8>, AllocError> {
    let mut text = Vec::new(alloc);
    let mut walk = Walk::new(core, made);
    match write_words(words, lines, &mut walk, &mut text) {
        Ok(()) => Ok(text),
        Err(_) => Err(AllocError),
    }
}

fn write_words<W: Write>(
    words: &[ScriptWord],
    lines: &[u8],
    walk: &mut Walk<'_>,
    out: &mut W,
) -> io::Result<()> {
    let mut tally = Tally::new();
    let mut rest = lines;
    for word in words {
        rest = write_word(*word, rest, walk, &mut tally, out)?;
    }
    tally.write(out)
}

/// Writes the lines of one word, each action of it in turn, and answers the lines that are left.
fn write_word<'l, W: Write>(
    word: ScriptWord,
    lines: &'l [u8],
    walk: &mut Walk<'_>,
    tally: &mut Tally,
    out: &mut W,
) -> io::Result<&'l [u8]> {
    let mut rest = lines;
    for turn in 0..word.repeat {
        rest = write_action(word.action, rest, walk, tally, out)?;
    }
    Ok(rest)
}

/// Writes the lines of one action: one, or two of a unit to which a job came.
fn write_action<'l, W: Write>(
    action: Action,
    lines: &'l [u8],
    walk: &mut Walk<'_>,
    tally: &mut Tally,
    out: &mut W,
) -> io::Result<&'l [u8]> {
    let Action::Unit { actor } = action else {
        let (line, rest) = first_line(lines);
        write_ask(action, line, walk, tally, out)?;
        return Ok(rest);
    };
    let (line, rest) = first_line(lines);
    write_ask(Action::Issue { actor }, line, walk, tally, out)?;
    if !is_done(line) {
        return Ok(rest);
    }
    let (line, rest) = first_line(rest);
    write_ask(Action::Complete { actor }, line, walk, tally, out)?;
    Ok(rest)
}

/// The first line of these, without its newline, and the others.
fn first_line(lines: &[u8]) -> (&[u8], &[u8]) {
    match lines.iter().position(|byte| *byte == b'\n') {
        Some(end) if end < lines.len() => (&lines[..end], &lines[end + 1..]),
        _ => (lines, &[]),
    }
}

fn is_done(line: &[u8]) -> bool {
    line.starts_with(b"done")
}

/// Writes an ask, its line, and what explains it.
fn write_ask<W: Write>(
    action: Action,
    line: &[u8],
    walk: &mut Walk<'_>,
    tally: &mut Tally,
    out: &mut W,
) -> io::Result<()> {
    write_name(action, out)?;
    out.write_all(line)?;
    if is_done(line) {
        write_squash(walk, tally, out)?;
    } else {
        write_reason(action, walk, tally, out)?;
    }
    out.write_all(b"\n")
}

/// Writes the letter and the numbers of an ask, and a space.
fn write_name<W: Write>(action: Action, out: &mut W) -> io::Result<()> {
    match action {
        Action::Fetch { actor } => write!(out, "F{actor} "),
        Action::Decode { actor, hart } => write!(out, "D{actor}.{hart} "),
        Action::Rename { actor, hart } => write!(out, "R{actor}.{hart} "),
        Action::Retire { actor, hart } => write!(out, "T{actor}.{hart} "),
        Action::Issue { actor } => write!(out, "I{actor} "),
        Action::Complete { actor } => write!(out, "C{actor} "),
        Action::Unit { actor } => write!(out, "U{actor} "),
    }
}

/// Writes why no step was made.
fn write_reason<W: Write>(
    action: Action,
    walk: &Walk<'_>,
    tally: &mut Tally,
    out: &mut W,
) -> io::Result<()> {
    match walk.reason_of(action) {
        Some(reason) => {
            tally.count_reason(reason);
            write!(out, ": {reason}")
        }
        None => Ok(()),
    }
}

/// Follows the event that was made, and writes what it has squashed.
fn write_squash<W: Write>(walk: &mut Walk<'_>, tally: &mut Tally, out: &mut W) -> io::Result<()> {
    let Some(squash) = walk.follow() else {
        return Ok(());
    };
    tally.count_cause(squash.cause);
    write_count(squash.count, squash.hart, out)?;
    write_cause(squash.cause, out)
}

fn write_count<W: Write>(count: usize, hart: u8, out: &mut W) -> io::Result<()> {
    write!(out, ": squashes {count} of hart {hart}, ")
}
