//! What is said of a word of a script that says nothing.

use crate::meant::write_meant;
use crate::placed::Placed;
use crate::shown::write_placed;
use numbers::sizes::{MOST_ACTORS, MOST_HARTS};
use smt_model::Config;
use std::alloc::Global;
use std::io;
use std::io::Write;

/// Writes where a word stands that says nothing, what may have been meant, and what may stand there.
pub(crate) fn write_misspelled<W: Write>(
    placed: &Placed<'_>,
    config: &Config,
    out: &mut W,
    alloc: Global,
) -> io::Result<()> {
    write_placed(placed, out)?;
    out.write_all(b"\n")?;
    write_meant(placed.word, config, out, alloc)?;
    let (actors, harts) = (MOST_ACTORS - 1, MOST_HARTS - 1);
    writeln!(
        out,
        "expected: `F`, `I`, `C` or `U` and an actor, 0 to {actors}; or `D`, `R` or `T`, an actor, a point and a \
        hart, 0 to {harts}; behind it perhaps `*` and how often, 1 to 100000"
    )?;
    write_usual(placed.word, out)
}

/// Writes what mostly stands behind such a word, where it shows that.
pub(crate) fn write_usual<W: Write>(word: &[u8], out: &mut W) -> io::Result<()> {
    if word.contains(&b'\t') || word.contains(&b'\r') {
        return out.write_all(
            b"usually: a tab or a carriage return: words are apart by spaces and newlines alone\n",
        );
    }
    if word.contains(&b'#') {
        return out.write_all(b"usually: no space before a comment\n");
    }
    Ok(())
}
