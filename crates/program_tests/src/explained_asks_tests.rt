//! Asks that are explained, against a text made by hand from the reasons of each.

use crate::rows::{shows, text_of};
use actors::StaticPredictor;
use core_commands::step_bytes;
use explained_asks::explain;
use scripts::read_script;
use sim_inputs::read_config;
use smt_core::Core;
use std::alloc::Global;
use std::process::Abort;
use test_support::EXIT_WITH_5;

/// One hart and two actors, each an arithmetic unit.
const ONE_HART: &[u8] = b"actors = [\"alu\", \"alu\"]\n";

/// The core that a script of the first program comes to; `lines` gets the lines of its asks.
fn core_after(script: &str, lines: &mut Vec<u8>, alloc: Global) -> Option<Core> {
    let settings = read_config(ONE_HART, alloc).ok()?;
    let (script, predict) = (script.as_bytes(), &mut StaticPredictor);
    let stepped = step_bytes(&EXIT_WITH_5, &settings, script, predict, lines, alloc);
    Some(stepped.ok()?.core)
}

/// What explains a script's asks; none where something fails.
fn explained(script: &str, alloc: Global) -> Option<Vec<u8>> {
    let words = read_script(script.as_bytes(), alloc).ok()?;
    let mut lines = Vec::new(alloc);
    let made = core_after(script, &mut lines, alloc)?;
    let unasked = core_after("", &mut Vec::new(alloc), alloc)?;
    explain(
        words.as_slice(),
        lines.as_slice(),
        made.history(),
        unasked,
        alloc,
    )
    .ok()
}

/// A fetch, and three mistakes.
const MISTAKES: &str = "F0 D0.3 I1 T2.0";

const EXPLAINED: &str = "F0 done F 0 0 0 80000000 00500513 80000004\n\
    D0.3 idle: hart 3 isn't there\n\
    I1 idle: nothing in the queue for alu\n\
    T2.0 idle: no such actor\n\
    why 1 no such actor\n\
    why 1 no such hart\n\
    why 1 nothing in the queue for the unit\n";

#[test]
fn each_mistake_has_its_own_reason(rt: HostRuntime) {
    let text = explained(MISTAKES, rt.alloc()).expect(&rt, "a text");
    let printed = text_of(&text);
    shows(&rt, MISTAKES, printed, printed == EXPLAINED);
}
