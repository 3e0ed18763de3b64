//! Rounds of the plain machine, against lines worked by hand.

use crate::rows::{shows, text_of};
use address_labels::Labels;
use rounds::{Rounds, Unobserved, run_rounds};
use std::alloc::Global;
use test_support::{file_of, image_of};

/// `addi x0,x0,0`.
static NOTHING: [u32; 1] = [0x0000_0013];

/// The lines of the records of two harts, each of which runs past its code in its second step: three
/// steps in turns of one.
fn lines_of(seed: Option<u32>, alloc: Global) -> Vec<u8> {
    let mut lines = Vec::new(alloc);
    let Ok(file) = file_of(&NOTHING, 0, alloc) else {
        return lines;
    };
    let Some(image) = image_of(&file, 8192, alloc) else {
        return lines;
    };
    let rounds = Rounds {
        each: 1,
        steps: 3,
        seed,
    };
    let _ = run_rounds(
        &image,
        2,
        rounds,
        true,
        &Labels::none(),
        &mut Unobserved,
        &mut lines,
        alloc,
    );
    lines
}

/// Each hart in turn.
const IN_TURN: &str = "0 80000000 00000013 - p80000004 - - -
1 80000000 00000013 - p80000004 - - -
0 80000004 - - s1 - - -
";

/// The first numbers that 1 is drawn to are 7806831264735756412, 9396908728118811419 and
/// 11960119808228829710, which draw the harts 0, 1 and 1 of two.
const DRAWN: &str = "0 80000000 00000013 - p80000004 - - -
1 80000000 00000013 - p80000004 - - -
1 80000004 - - s1 - - -
";

#[test]
fn harts_take_turns(rt: HostRuntime) {
    let (in_turn, drawn) = (lines_of(None, rt.alloc()), lines_of(Some(1), rt.alloc()));
    shows(
        &rt,
        IN_TURN,
        text_of(&in_turn),
        text_of(&in_turn) == IN_TURN,
    );
    shows(&rt, DRAWN, text_of(&drawn), text_of(&drawn) == DRAWN);
}
