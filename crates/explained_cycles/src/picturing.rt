//! The two pictures: of an explanation, and of an execution that comes.

use crate::drawing::draw;
use crate::names::Naming;
use crate::{cycle_scene, execution};
use litmus_cycles::Explanation;
use litmus_tests::LitmusTest;
use std::alloc::Global;
use std::io;
use std::io::Write;
use stories::Row;

/// Draws the execution that an explanation shows as one SVG file (docs/FORMATS.md), by these names. Where none is shown,
/// the picture says so. An error is the one that `out` answered, or want of memory.
pub fn draw_explanation<N: Naming, W: Write>(
    test: &LitmusTest,
    names: &N,
    explanation: &Explanation,
    out: &mut W,
    alloc: Global,
) -> io::Result<()> {
    let scene = cycle_scene::scene_of(test, names, explanation, alloc)?;
    draw(&scene, out, alloc)
}

/// Draws the accesses of an execution, which are rows of its story, as one SVG file. `sentence` says what it shows, and
/// `line` is the state to which it leads. An error is the one that `out` answered, or want of memory.
pub fn draw_execution<W: Write>(
    test: &LitmusTest,
    rows: &[Row],
    sentence: &[u8],
    line: &[u8],
    out: &mut W,
    alloc: Global,
) -> io::Result<()> {
    let scene = execution::scene_of(test, rows, sentence, line, alloc)?;
    draw(&scene, out, alloc)
}
