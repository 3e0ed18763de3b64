//! How many harts words ask for, and settings with so many; what the version is.

use super::words_of;
use crate::rows::holds;
use sim_inputs::{
    Beside, HartCount, ListCommand, ProgramCommand, ScriptCommand, Settings, WordsRefused,
    read_words,
};
use std::alloc::Global;
use std::test::Fail;

/// Words, and how many harts they ask for.
static HARTS: [(&str, Option<u8>); 11] = [
    ("smtsim step a s --harts 1", Some(1)),
    ("smtsim run --harts=16 a", Some(16)),
    ("smtsim check a t --harts 2", Some(2)),
    ("smtsim plain a o --harts 3 --config c", Some(3)),
    ("smtsim schedule --harts 4 a o", Some(4)),
    ("smtsim script a t --harts 5", Some(5)),
    ("smtsim chart a t --hart 0 --harts 6", Some(6)),
    ("smtsim explain a --harts 7", Some(7)),
    ("smtsim outcomes a --harts 8", Some(8)),
    ("smtsim run a", None),
    ("smtsim list a", None),
];

/// How many harts the words ask for; nothing where they ask for no line.
fn harts_of(text: &str, alloc: Global) -> Option<Option<u8>> {
    let Ok(words) = words_of(text, alloc) else {
        return None;
    };
    match read_words(&words, alloc) {
        Ok(line) => match line.harts {
            Some(harts) => Some(Some(harts.count())),
            None => Some(None),
        },
        Err(_) => None,
    }
}

#[test]
fn words_ask_for_harts(rt: HostRuntime) {
    for (words, harts) in &HARTS {
        holds(&rt, words, harts_of(words, rt.alloc()) == Some(*harts));
    }
}

#[test]
fn harts_are_one_to_sixteen(rt: HostRuntime) {
    assert!(rt; HartCount::new(0).is_none());
    assert!(rt; HartCount::new(17).is_none());
    assert!(rt; HartCount::new(256).is_none());
    for count in 1..=16 {
        match HartCount::new(count) {
            Some(harts) => assert!(rt; u32::from(harts.count()) == count),
            None => assert!(rt; false),
        }
    }
}

#[test]
fn settings_have_the_harts_that_are_given(rt: HostRuntime) {
    assert!(rt; Settings::default().with_harts(None).config.harts == 1);
    let settings = Settings::default().with_harts(HartCount::new(4));
    assert!(rt; settings.config.harts == 4);
    assert!(rt; settings.config.extra == 64);
    assert!(rt; settings.ram.bytes() == 65_536);
}

#[test]
fn a_script_is_made_of_a_trace_and_a_listing_of_none(rt: HostRuntime) {
    let script = ProgramCommand::Script(ScriptCommand {
        image: "a",
        trace: "t",
    });
    assert!(rt; script.reads_trace());
    let list = ProgramCommand::List(ListCommand {
        image: "a",
        lines: None,
        names: false,
    });
    assert!(rt; !list.reads_trace());
    assert!(rt; Beside::Trace("t").is_trace());
    assert!(rt; !Beside::Order("o").is_trace());
}

/// The line of the version that the words ask for; nothing where they ask for none.
fn version_of(text: &str, alloc: Global) -> Option<String> {
    let Ok(words) = words_of(text, alloc) else {
        return None;
    };
    match read_words(&words, alloc) {
        Err(WordsRefused::Version(text)) => Some(text),
        _ => None,
    }
}

#[test]
fn the_program_knows_its_number(rt: HostRuntime) -> Result<(), Fail> {
    for words in ["smtsim --version", "smtsim -V", "smtsim --version run"] {
        let version = version_of(words, rt.alloc()).ok_or("no version")?;
        let said = version.as_str() == "smtsim 1.0.0, a build of which nothing is known\n";
        holds(&rt, words, said);
    }
    Ok(())
}
