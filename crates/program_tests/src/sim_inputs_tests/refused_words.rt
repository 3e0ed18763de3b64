//! Words that ask for nothing.

use super::words_of;
use crate::rows::holds;
use sim_inputs::{Line, WordsRefused, read_words};
use std::alloc::{AllocError, Global};

/// A line for each.
const REFUSED: &str = "smtsim
smtsim walk first.elf first.script
smtsim step
smtsim step first.elf
smtsim step first.elf first.script more
smtsim step --fast first.elf first.script
smtsim step --show --show a b
smtsim step --show=yes a b
smtsim step --looks --looks a b
smtsim step --all a b
smtsim step --story --story a b
smtsim check --all a t
smtsim step --record a b
smtsim step a b --config
smtsim step a b --trace
smtsim step --trace t --trace t a b
smtsim --config c step a b
smtsim step a s --harts
smtsim run a --harts 0
smtsim run a --harts 17
smtsim run a --harts 01
smtsim run a --harts -1
smtsim run a --harts four
smtsim run a --harts 2 --harts 2
smtsim list a --harts 2
smtsim litmus a --harts 2
smtsim migrate t o --harts 2
smtsim --harts 2 run a
smtsim run a --version
smtsim run a -V
smtsim --version=1
smtsim run
smtsim run a b
smtsim run --show a
smtsim run --looks a
smtsim run --times 0 a
smtsim run --times 1000001 a
smtsim run --keep f a
smtsim run --watch a0@1 a
smtsim run --times 2 --watch a0@1 --watch a1@1 a
smtsim run --exists x=1 a
smtsim run --forall x=1 a
smtsim run --never x=1 a
smtsim run --times 2 --exists x=1 --exists x=2 a
smtsim run --times 2 --exists x=1 --forall x=1 a
smtsim run --times 2 --exists x=1 --never x=1 a
smtsim run --times 2 --forall x=1 --never x=1 a
smtsim run --times 2 --never-stuck a
smtsim run --times 2 --exists x=1 --first a
smtsim run --times 2 --keep= a
smtsim run --times 2 --trace t a
smtsim run --times 2 --records a
smtsim run --times 2 --why a
smtsim run --times 2 --counts a
smtsim run --times 2 --json a
smtsim run a --trace
smtsim run --trace t --trace u a
smtsim check
smtsim check a
smtsim check a t u
smtsim check --trace t a u
smtsim check --show a t
smtsim plain a
smtsim plain a b --rounds 1
smtsim plain a b --steps 1
smtsim plain a b --seed 1
smtsim plain a --steps 1
smtsim plain a --rounds 0
smtsim plain a --rounds 4294967296
smtsim plain a --rounds 1 --story-svg p
smtsim plain --story-svg p a b --all
smtsim plain --story-svg - a b
smtsim plain --theme dark a b
smtsim plain --story-svg p --theme Dark a b
smtsim plain --counts a b
smtsim plain a b c
smtsim plain --show a b
smtsim plain --trace t a b
smtsim schedule a
smtsim schedule a b c
smtsim schedule --records a b
smtsim schedule --show a b
smtsim schedule --trace t a b
smtsim script a
smtsim script a b c
smtsim script --records a b
smtsim script --show a b
smtsim script --trace t a b
smtsim step - -
smtsim check - t --config -
smtsim explain
smtsim explain a b
smtsim explain --why a
smtsim explain a --script s --order o
smtsim explain a --script s --script s
smtsim explain a --order -  --config -
smtsim explain a --script
smtsim outcomes
smtsim outcomes a b
smtsim outcomes --states 0 a
smtsim outcomes --states 4294967296 a
smtsim outcomes --outcome 1 a
smtsim outcomes --stuck a
smtsim outcomes --witness w a
smtsim outcomes --script s a
smtsim outcomes --outcome 0 --witness w a
smtsim outcomes --outcome 1 --stuck --witness w a
smtsim outcomes --outcome 1 --witness w --script s a
smtsim outcomes --stuck --witness w --script s a
smtsim outcomes --records a
smtsim outcomes --story s a
smtsim outcomes --exists x=1 --forall x=1 a
smtsim outcomes --exists x=1 --never x=1 a
smtsim outcomes --exists x=1 --never-stuck a
smtsim outcomes --forall x=1 --never x=1 a
smtsim outcomes --forall x=1 --never-stuck a
smtsim outcomes --never x=1 --never-stuck a
smtsim outcomes --first a
smtsim outcomes --first --never-stuck a
smtsim outcomes --why a
smtsim outcomes --exists x=1 --why x=1 a
smtsim outcomes --forall x=1 --why x=1 a
smtsim outcomes --never x=1 --why x=1 a
smtsim outcomes --never-stuck --why x=1 a
smtsim outcomes --why x=1 --why x=1 a
smtsim outcomes --why x=1 --first a
smtsim outcomes --why x=1 --outcome 1 a
smtsim outcomes --why x=1 --stuck a
smtsim outcomes --why x=1 --outcome 1 --witness w a
smtsim outcomes --why x=1 --witness w a
smtsim outcomes --why x=1 --script s a
smtsim outcomes --why x=1 --story s a
smtsim outcomes --why x=1 --story-svg s a
smtsim outcomes --why x=1 --theme dark --svg p a
smtsim outcomes --why x=1 --all a
smtsim outcomes --why x=1 --svg - a
smtsim outcomes --svg p a
smtsim outcomes --never x=1 --svg p a
smtsim outcomes --exists x=1 --witness w --story s a
smtsim outcomes --never x=1 --script s --story t a
smtsim outcomes --exists x=1 --all a
smtsim outcomes --exists x=1 --lines l a
smtsim outcomes --exists x=1 --story - a
smtsim outcomes --story-svg s a
smtsim outcomes --exists x=1 --story s --story-svg p a
smtsim outcomes --exists x=1 --witness w --story-svg p a
smtsim outcomes --stuck --script s --story-svg p a
smtsim outcomes --stuck --story-svg p --all a
smtsim outcomes --exists x=1 --story-svg - a
smtsim outcomes --exists x=1 --story s --theme light a
smtsim outcomes --exists x=1 --story-svg p --theme black a
smtsim outcomes --without a
smtsim outcomes --without RX,RX a
smtsim outcomes --without RX, a
smtsim outcomes --without rx a
smtsim outcomes --how --exists x=1 --first a
smtsim litmus --how a
smtsim litmus --without J a
smtsim litmus
smtsim litmus a b --image i
smtsim litmus @a --svg s
smtsim litmus a --summary --image i
smtsim litmus a --expect e --svg s
smtsim litmus a --summary --expect e
smtsim litmus a b --why --summary
smtsim litmus a --why --expect e
smtsim litmus a -
smtsim litmus - --expect -
smtsim litmus --states 0 a
smtsim litmus --states 4294967296 a
smtsim litmus --image i --svg s a
smtsim litmus --watch x7@0 a
smtsim litmus - --config -
smtsim migrate
smtsim migrate t
smtsim migrate a t o
smtsim migrate --records t o
smtsim migrate - o --config -
smtsim list
smtsim list first.elf first.script
smtsim list --records first.elf
smtsim list --show first.elf
smtsim list --trace t first.elf
smtsim list --config c --config c a
smtsim chart a
smtsim chart --records a t
smtsim chart --from 5 --to 4 a t
smtsim chart --from 16777216 a t
smtsim chart --from 01 a t
smtsim chart --to 5x a t
smtsim chart --hart 16 a t
smtsim chart --width 0 a t
smtsim chart --width 10001 a t
smtsim chart --svg p --kanata p a t
smtsim chart --svg p --kanata - a t
smtsim chart --columns cycles a t
smtsim chart --columns a t
smtsim chart --registers --registers a t
smtsim chart --title t a t
smtsim chart --kanata k --title t a t
smtsim chart --light a t
smtsim chart --kanata k --dark a t
smtsim chart --svg p --light --dark a t";

/// Whether words are refused, where there is memory for them.
fn are_refused(text: &str, alloc: Global) -> Result<bool, AllocError> {
    let words = words_of(text, alloc)?;
    Ok(is_refusal(read_words(&words, alloc)))
}

fn is_refusal(read: Result<Line<'_>, WordsRefused>) -> bool {
    matches!(read, Err(WordsRefused::Refused))
}

#[test]
fn other_words_are_refused(rt: HostRuntime) {
    let mut rows = 0u32;
    for text in REFUSED.lines() {
        holds(&rt, text, are_refused(text, rt.alloc()) == Ok(true));
        rows = rows.wrapping_add(1);
    }
    assert!(rt; rows == 203);
    assert!(rt; is_refusal(read_words(&[], rt.alloc())));
}
