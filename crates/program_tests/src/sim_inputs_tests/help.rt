//! The help of the program and of its commands.

use super::configuration::is_default;
use super::words_of;
use crate::rows::holds;
use sim_inputs::{WordsRefused, read_words};
use std::alloc::Global;
use std::process::Abort;
use std::test::Fail;

/// The columns of a common terminal.
const COLUMNS: usize = 80;

/// The words that ask for help, and what it tells; a bar stands between two of those.
static HELPS: [(&str, &str); 13] = [
    (
        "smtsim --help",
        "Usage: smtsim <COMMAND>|step|run|check|plain|schedule|script|list|chart|\
explain|outcomes|litmus|migrate|--version|harts|extra|queue|ram|limit|turns|actors",
    ),
    (
        "smtsim step --help",
        "Usage: smtsim step [OPTIONS] <IMAGE> <SCRIPT>|--config <FILE>|--harts <N>|--counts|--json|--lines <FILE>|\
--looks|--names|--records|--show|--story|--all|--why|--trace <FILE>",
    ),
    (
        "smtsim run --help",
        "Usage: smtsim run [OPTIONS] <IMAGE>|--config <FILE>|--harts <N>|--counts|--json|--lines <FILE>|\
--names|--records|--why|--times <N>|--watch <LIST>|--exists <CONDITION>|--forall <CONDITION>|--never <CONDITION>|\
--keep <FOLDER>|--trace <FILE>",
    ),
    (
        "smtsim check --help",
        "Usage: smtsim check [OPTIONS] <IMAGE> <TRACE>|--config <FILE>|--harts <N>|--counts|--json|\
--lines <FILE>|--names|--records|--story|--all|--why|smt-trace 3|\
config harts extra queue role role ..|smt-trace 2|smt-trace 1|\
F actor hart number pc word predicted|T actor number value next address data out",
    ),
    (
        "smtsim plain --help",
        "Usage: smtsim plain [OPTIONS] <IMAGE> [ORDER]|--config <FILE>|--harts <N>|--lines <FILE>|\
--names|--records|--rounds <N>|--steps <N>|--seed <N>|--story-svg <FILE>|--theme <THEME>|0 to 255",
    ),
    (
        "smtsim schedule --help",
        "Usage: smtsim schedule [OPTIONS] <IMAGE> <ORDER>|--config <FILE>|--harts <N>|0 to 255",
    ),
    (
        "smtsim script --help",
        "Usage: smtsim script [OPTIONS] <IMAGE> <TRACE>|--config <FILE>|--harts <N>|smt-trace 3|smt-trace 1",
    ),
    (
        "smtsim explain --help",
        "Usage: smtsim explain [OPTIONS] <IMAGE>|--config <FILE>|--harts <N>|--script <FILE>|--order <FILE>",
    ),
    (
        "smtsim outcomes --help",
        "Usage: smtsim outcomes [OPTIONS] <IMAGE>|--config <FILE>|--harts <N>|--states <N>|--watch <LIST>|\
--exists <CONDITION>|--forall <CONDITION>|--never <CONDITION>|--never-stuck|\
--why <CONDITION>|--svg <FILE>|--first|--outcome <N>|--stuck|\
--witness <FILE>|--script <FILE>|--story <FILE>|--story-svg <FILE>|--theme <THEME>|--all|--lines <FILE>|\
--without <LIST>|--how|a0@1,counter,next[3],node+8|h0=1 & !(a0@1=2)",
    ),
    (
        "smtsim litmus --help",
        "Usage: smtsim litmus [OPTIONS] <TEST>...|--config <FILE>|--states <N>|--image <FILE>|--why|\
--svg <FILE>|--summary|--expect <FILE>|herd's RISC-V format",
    ),
    (
        "smtsim list --help",
        "Usage: smtsim list [OPTIONS] <IMAGE>|--config <FILE>|--lines <FILE>|--names",
    ),
    (
        "smtsim chart --help",
        "Usage: smtsim chart [OPTIONS] <IMAGE> <TRACE>|--config <FILE>|--harts <N>|--from <PLACE>|--to <PLACE>|\
--hart <N>|--names|--width <N>|--columns <OF>|--registers|--counters|--svg <FILE>|--kanata <FILE>|\
--title <TEXT>|--light|--dark",
    ),
    (
        "smtsim migrate --help",
        "Usage: smtsim migrate [OPTIONS] <TRACE> <OUT>|--config <FILE>|version 1|version 2|version 3",
    ),
];

/// The help that the words ask for; nothing where they ask for none.
fn help_of(text: &str, alloc: Global) -> Option<String> {
    let Ok(words) = words_of(text, alloc) else {
        return None;
    };
    match read_words(&words, alloc) {
        Err(WordsRefused::Help(help)) => Some(help),
        _ => None,
    }
}

/// Asserts that a help has each of the texts, and no line that is too long.
fn tells(rt: &impl Abort, help: &str, texts: &str) {
    for text in texts.split('|') {
        holds(rt, text, help.contains(text));
    }
    for line in help.lines() {
        holds(rt, line, line.len() <= COLUMNS);
    }
}

#[test]
fn help_tells_all_there_is_and_fits_a_common_terminal(rt: HostRuntime) -> Result<(), Fail> {
    for (words, texts) in &HELPS {
        let help = help_of(words, rt.alloc()).ok_or("no help")?;
        tells(&rt, help.as_str(), texts);
    }
    Ok(())
}

/// Whether the keys that the program's help tells are a configuration of the defaults.
fn tells_the_defaults(alloc: Global) -> Option<bool> {
    let help = help_of("smtsim --help", alloc)?;
    let (_, text) = help.as_str().split_once("absent:")?;
    Some(is_default(text.as_bytes(), alloc))
}

#[test]
fn help_of_the_program_has_a_configuration_of_the_defaults(rt: HostRuntime) {
    assert!(rt; tells_the_defaults(rt.alloc()) == Some(true));
}
