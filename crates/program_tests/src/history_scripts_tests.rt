//! The words for why a list of events has no script. The scripts of traces stand in the tests of the
//! command (`commands_tests/script`).

use crate::rows::{holds, says};
use history_scripts::ScriptRefused;

/// The words for why a list of events has no script.
static WORDS: [(ScriptRefused, &str); 5] = [
    (ScriptRefused::Config, "config refused"),
    (
        ScriptRefused::Event { index: 3, rule: 2 },
        "event 3 refused rule 2",
    ),
    (ScriptRefused::Prediction(7), "event 7 predicted otherwise"),
    (ScriptRefused::Register(8), "event 8 not the least register"),
    (ScriptRefused::Memory, "memory"),
];

#[test]
fn a_refused_history_says_why(rt: HostRuntime) {
    for (refused, words) in &WORDS {
        holds(&rt, words, says(refused, words, rt.alloc()));
    }
}
