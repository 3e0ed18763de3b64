//! What is owed of a script: passes that count their actors' events, and a line for each ask, in the
//! script's order.

use super::script_rows::{ASTRAY, RUNS, Row, ScriptRun};
use crate::rows::{shows, text_of};
use actors::StaticPredictor;
use core_commands::step_bytes;
use sim_inputs::read_config;
use smt_core::{Finished, Predict};
use std::alloc::Global;
use std::process::Abort;
use test_support::{Always, Miscount, file_of, first_miscount};

/// A core that was asked, and the lines of the asks.
#[derive(Drop)]
struct Asked {
    finished: Finished,
    lines: Vec<u8>,
}

fn asked_by<P: Predict>(run: &ScriptRun, predict: &mut P, alloc: Global) -> Option<Asked> {
    let Ok(file) = file_of(run.words, 0, alloc) else {
        return None;
    };
    let settings = read_config(run.config, alloc).ok()?;
    let script = run.script.as_bytes();
    let mut lines = Vec::new(alloc);
    let stepped = step_bytes(&file, &settings, script, predict, &mut lines, alloc);
    let finished = stepped.ok()?;
    Some(Asked { finished, lines })
}

/// An ask as its word in a script spells it: the letter of its kind, its actor, and the hart that
/// it names, if it names one.
#[derive(Clone, Copy, Drop)]
struct Spelled<'a> {
    kind: &'a str,
    actor: &'a str,
    hart: Option<&'a str>,
}

fn ask_of(word: &str) -> Spelled<'_> {
    let (kind, place) = (word.get(..1).unwrap_or(""), word.get(1..).unwrap_or(""));
    match place.split_once('.') {
        Some((actor, hart)) => Spelled {
            kind,
            actor,
            hart: Some(hart),
        },
        None => Spelled {
            kind,
            actor: place,
            hart: None,
        },
    }
}

/// How often a word's ask comes: its number behind the star, or once.
fn times(number: &str) -> u32 {
    let mut times = 0u32;
    for digit in number.bytes() {
        let ones = digit.wrapping_sub(b'0') as u32;
        times = times.wrapping_mul(10).wrapping_add(ones);
    }
    times
}

/// The fields of a line, as many as are looked at; empty behind its last.
fn fields_of(line: &str) -> [&str; 4] {
    let mut fields = line.split(' ');
    let first = fields.next().unwrap_or("");
    let second = fields.next().unwrap_or("");
    let third = fields.next().unwrap_or("");
    let fourth = fields.next().unwrap_or("");
    [first, second, third, fourth]
}

/// The hart of an instruction: that of the line of its fetch; empty where there is none.
fn hart_of<'a>(lines: &'a str, seq: &str) -> &'a str {
    for line in lines.lines() {
        let [kind, _actor, hart, fetched] = fields_of(line.strip_prefix("done ").unwrap_or(""));
        if kind == "F" && fetched == seq {
            return hart;
        }
    }
    ""
}

/// Whether a line's event is one that an ask makes: of its kind, of its actor, and of the hart that
/// it names.
fn is_event_of(event: &str, ask: Spelled<'_>, lines: &str) -> bool {
    let [kind, actor, seq, _other] = fields_of(event);
    let is_of_hart = match ask.hart {
        Some(hart) => hart_of(lines, seq) == hart,
        None => true,
    };
    let is_dropped = ask.kind == "C" && kind == "X";
    (kind == ask.kind || is_dropped) && actor == ask.actor && is_of_hart
}

/// Whether a line is an answer to an ask.
fn answers(line: &str, ask: Spelled<'_>, lines: &str) -> bool {
    match line.strip_prefix("done ") {
        Some(event) => is_event_of(event, ask, lines),
        None => line == "idle" || line == "full" || (ask.kind == "C" && line == "none"),
    }
}

/// The text behind the answer to an ask, if its first line is one.
fn behind<'a>(text: &'a str, ask: Spelled<'_>, lines: &str) -> Option<&'a str> {
    let (line, rest) = text.split_once('\n')?;
    if answers(line, ask, lines) {
        Some(rest)
    } else {
        None
    }
}

/// The text behind the answers to a word's ask. A unit makes two asks where a job comes.
fn behind_word<'a>(text: &'a str, ask: Spelled<'_>, lines: &str) -> Option<&'a str> {
    if ask.kind != "U" {
        return behind(text, ask, lines);
    }
    let rest = behind(text, Spelled { kind: "I", ..ask }, lines)?;
    if text.starts_with("done ") {
        behind(rest, Spelled { kind: "C", ..ask }, lines)
    } else {
        Some(rest)
    }
}

/// A word of a script, and the text that stands where the lines of its asks should; behind the last
/// word, the text that is too much.
#[derive(Clone, Copy, Drop)]
struct Stray<'a> {
    word: &'a str,
    text: &'a str,
}

/// The text behind the answers to all asks of a word.
fn behind_all<'a>(text: &'a str, word: &str, lines: &str) -> Option<&'a str> {
    let (ask, number) = word.split_once('*').unwrap_or((word, "1"));
    let mut rest = text;
    for _ in 0..times(number) {
        match behind_word(rest, ask_of(ask), lines) {
            Some(next) => rest = next,
            None => return None,
        }
    }
    Some(rest)
}

/// The first word of a script whose asks have other lines than their own, if there is one.
fn first_stray<'a>(script: &'a str, lines: &'a str) -> Option<Stray<'a>> {
    let mut rest = lines;
    for word in script.split(' ') {
        match behind_all(rest, word, lines) {
            Some(next) => rest = next,
            None => return Some(Stray { word, text: rest }),
        }
    }
    if rest.is_empty() {
        None
    } else {
        Some(Stray {
            word: "",
            text: rest,
        })
    }
}

/// Asserts that the lines are those of the script's asks, in their order.
fn follows(rt: &impl Abort, script: &str, lines: &str) {
    if let Some(Stray { word, text }) = first_stray(script, lines) {
        shows(rt, word, text, false);
    }
}

/// Asserts that no pass counted otherwise than its actor has events, and shows both numbers where
/// one did.
fn counts(rt: &impl Abort, row: &str, miscount: Option<Miscount>) {
    if let Some(
        Miscount {
            actor,
            counted,
            events,
        },
    ) = miscount
    {
        assert!(rt;
            counted == events,
            "at {row:?} actor {actor} has {events} events, counted {counted}"
        );
    }
}

/// Asserts what is owed of a script, and that each ask has its lines.
fn asks<P: Predict>(rt: &impl Abort, row: &Row, predict: &mut P, alloc: Global) {
    let Some(asked) = asked_by(&row.run, predict, alloc) else {
        return shows(rt, row.name, "a refusal", false);
    };
    shows(rt, row.name, "a stranger's pass", asked.finished.told);
    shows(rt, row.name, "a stranger's core", asked.finished.own);
    counts(rt, row.name, first_miscount(&asked.finished));
    follows(rt, row.run.script, text_of(&asked.lines));
}

#[test]
fn passes_count_their_actors_events_and_each_ask_has_its_lines(rt: HostRuntime) {
    for row in &RUNS {
        asks(&rt, row, &mut StaticPredictor, rt.alloc());
    }
    asks(&rt, &ASTRAY, &mut Always(0), rt.alloc());
}
