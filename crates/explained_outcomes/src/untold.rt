//! Why nothing is told of why a condition holds of no outcome.

use program_ways::Bound;
use std::io;
use std::io::Write;

#[derive(Clone, Copy, Debug, PartialEq, Eq, Drop)]
pub enum Untold {
    /// The program has too much of something.
    Bound(Bound),
    /// The condition asks for what is put out.
    Output,
    /// It compares with more numbers than are told apart.
    Numbers,
}

/// Writes why nothing is told.
fn write_untold<W: Write>(untold: Untold, out: &mut W) -> io::Result<()> {
    match untold {
        Untold::Bound(bound) => write_bound(bound, out),
        Untold::Output => out.write_all(b"the condition asks what is put out"),
        Untold::Numbers => out.write_all(b"the condition compares with a number above 64"),
    }
}

fn write_bound<W: Write>(bound: Bound, out: &mut W) -> io::Result<()> {
    match bound {
        Bound::Accesses { hart } => write!(
            out,
            "hart {hart} makes more than 32 accesses to what harts share"
        ),
        Bound::Steps { hart } => write!(
            out,
            "hart {hart} makes more than 20,000 steps without an access to what harts share"
        ),
        Bound::Ways { hart } => write!(out, "hart {hart} has more ways than are followed"),
        Bound::Part { pc } => write!(
            out,
            "the instruction at {pc:08x} accesses a part of a word that harts share"
        ),
        Bound::Code { pc } => write!(out, "the instruction at {pc:08x} may write code"),
        Bound::Words => out.write_all(b"harts share more than 64 words"),
        Bound::Numbers => out.write_all(b"what harts share may have more than 256 numbers"),
    }
}

/// Writes why nothing is told, and what can be asked instead.
pub fn write_instead<W: Write>(untold: Untold, out: &mut W) -> io::Result<()> {
    out.write_all(b"why: not told, since ")?;
    write_untold(untold, out)?;
    out.write_all(
        b"\nwhy: what holds on the way can be asked: let a hart end with 1 where not, and ask ",
    )?;
    out.write_all(b"--never 'h0=1 | h1=1', so of each hart\n")
}
