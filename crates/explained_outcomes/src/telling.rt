//! The lines of why a condition holds of no outcome, and its picture.

use crate::program_names::ProgramNames;
use crate::reasons::Reasons;
use address_labels::Labels;
use explained_cycles::{draw_explanation, write_explanation};
use std::alloc::Global;
use std::io;
use std::io::Write;
use symbols::Symbols;

/// Writes why a condition holds of no outcome, by these names (docs/FORMATS.md). An error is the one that `out` answered.
pub fn write_reasons<W: Write>(
    reasons: &Reasons,
    symbols: &Symbols<'_>,
    labels: &Labels<'_>,
    out: &mut W,
) -> io::Result<()> {
    let names = ProgramNames {
        ways: &reasons.ways,
        symbols,
        labels,
    };
    write_explanation(&names, &reasons.explanation, out)
}

/// Draws the execution that they show as one SVG file. An error is the one that `out` answered, or want of memory.
pub fn draw_reasons<W: Write>(
    reasons: &Reasons,
    symbols: &Symbols<'_>,
    labels: &Labels<'_>,
    out: &mut W,
    alloc: Global,
) -> io::Result<()> {
    let names = ProgramNames {
        ways: &reasons.ways,
        symbols,
        labels,
    };
    draw_explanation(&reasons.test, &names, &reasons.explanation, out, alloc)
}
