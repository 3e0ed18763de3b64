//! Hints: their lines and their JSON, and when they are wanted. Texts by docs/FORMATS.md.

use crate::rows::{holds, shows, text_of};
use hints::{Form, Hint, Part};
use sim_inputs::{HintsWanted, add_refused_words, hints_asked};
use std::alloc::{AllocError, Global};

/// A hint of eight parts, of which six stand there.
fn hint_of(form: Form, said: &[u8], alloc: Global) -> Result<Vec<u8>, AllocError> {
    let mut hint = Hint::new(form, "a \"fault\"", 2, alloc)?;
    hint.add(Part::Word, said)?;
    for part in [
        Part::Cause,
        Part::Meant,
        Part::For,
        Part::See,
        Part::Tip,
        Part::More,
        Part::Line,
    ] {
        hint.add(part, b"x")?;
    }
    hint.finish()
}

/// Texts, and as what a word they are shown.
const WORDS: [(&[u8], &str); 5] = [
    (b"f0", "f0"),
    (b"a\nb\x1b\x7f", "a\\x0ab\\x1b\\x7f"),
    (b"\xc3\xa4", "\u{e4}"),
    (b"\xc3\xa4\xff", "\\xc3\\xa4\\xff"),
    (b"", ""),
];

const BEHIND: &str = "\n cause: x\n meant: x\n for: x\n see: x\n tip: x\n";

#[test]
fn a_hint_has_six_lines_without_control_characters(rt: HostRuntime) {
    let alloc = rt.alloc();
    for (said, shown) in &WORDS {
        let came = hint_of(Form::Lines, said, alloc);
        let wanted = format!(in alloc; " word: {shown}{BEHIND}");
        match (came, wanted) {
            (Ok(came), Ok(wanted)) => {
                let is = came.as_slice() == wanted.as_bytes();
                shows(&rt, shown, text_of(&came), is);
            }
            _ => holds(&rt, shown, false),
        }
    }
}

const AS_JSON: &str = " {\"fault\":\"a \\\"fault\\\"\",\"status\":2,\"hint\":[\
    {\"part\":\"word\",\"text\":\"a\\\\x0a\\\"\"},{\"part\":\"cause\",\"text\":\"x\"},\
    {\"part\":\"meant\",\"text\":\"x\"},{\"part\":\"for\",\"text\":\"x\"},\
    {\"part\":\"see\",\"text\":\"x\"},{\"part\":\"tip\",\"text\":\"x\"}]}\n";

#[test]
fn as_json_it_is_one_line(rt: HostRuntime) {
    match hint_of(Form::Json, b"a\n\"", rt.alloc()) {
        Ok(came) => shows(&rt, "an object", text_of(&came), text_of(&came) == AS_JSON),
        Err(_) => holds(&rt, "an object", false),
    }
}

/// Words, and what they ask of hints where they are a wrong command line.
const ASKED: [(&[&str], HintsWanted); 8] = [
    (&["smtsim"], HintsWanted::Auto),
    (&["smtsim", "--hints", "json"], HintsWanted::Json),
    (&["smtsim", "--hints=never", "a"], HintsWanted::Never),
    (
        &["smtsim", "--hints=never", "--hints", "always"],
        HintsWanted::Always,
    ),
    (
        &["smtsim", "--hints", "always", "--hints", "odd"],
        HintsWanted::Always,
    ),
    (&["smtsim", "--", "--hints", "always"], HintsWanted::Auto),
    (&["smtsim", "--hints"], HintsWanted::Auto),
    (&["smtsim", "--hints", "--hints=json"], HintsWanted::Json),
];

#[test]
fn the_last_word_of_hints_counts(rt: HostRuntime) {
    for (place, (words, wanted)) in ASKED.iter().enumerate() {
        let is = hints_asked(words) == *wanted;
        holds(
            &rt,
            words.last().copied().unwrap_or("none"),
            is && place < ASKED.len(),
        );
    }
}

#[test]
fn hints_are_for_a_terminal_where_nothing_is_asked(rt: HostRuntime) {
    holds(
        &rt,
        "auto",
        HintsWanted::Auto.form(true) == Some(Form::Lines),
    );
    holds(&rt, "elsewhere", HintsWanted::Auto.form(false).is_none());
    holds(
        &rt,
        "always",
        HintsWanted::Always.form(false) == Some(Form::Lines),
    );
    holds(&rt, "never", HintsWanted::Never.form(true).is_none());
    holds(
        &rt,
        "json",
        HintsWanted::Json.form(false) == Some(Form::Json),
    );
}

/// Words that are a wrong command line, and what is said of them.
const REFUSED: [(&[&str], &str); 3] = [
    (
        &["smtsim", "list", "a", "--svg"],
        " error: unexpected argument '--svg' found\n \
        tip: to pass '--svg' as a value, use '-- --svg'\n usage: smtsim list <IMAGE>\n \
        more: try '--help'.\n",
    ),
    (
        &["smtsim", "chart", "a", "t", "--hart", "16"],
        " word: --hart 16\n expected: a whole number from 0 to 15\n more: try '--help'.\n",
    ),
    (
        &["smtsim", "run", "a", "--trace", "-"],
        " word: --trace -\n expected: a file that is written; ./- for one of that name\n \
        more: try '--help'.\n",
    ),
];

fn refused(words: &[&str], alloc: Global) -> Result<Vec<u8>, AllocError> {
    let mut hint = Hint::new(Form::Lines, "command line", 2, alloc)?;
    add_refused_words(words, &mut hint, alloc)?;
    hint.finish()
}

#[test]
fn what_is_wrong_with_words_is_said(rt: HostRuntime) {
    for (words, wanted) in &REFUSED {
        match refused(words, rt.alloc()) {
            Ok(came) => shows(&rt, wanted, text_of(&came), text_of(&came) == *wanted),
            Err(_) => holds(&rt, wanted, false),
        }
    }
}
