//! What was looked at and what was found, in one sentence.

use litmus_cycles::{Explanation, Shown};
use std::io;
use std::io::Write;

/// The powers of a thousand that 64 bits hold, the greatest first.
const THOUSANDS: [u64; 7] = [
    1_000_000_000_000_000_000,
    1_000_000_000_000_000,
    1_000_000_000_000,
    1_000_000_000,
    1_000_000,
    1_000,
    1,
];

/// Writes how many candidates there are, how many of them fit, and why none of these can come. Where not all were
/// looked at, nothing is said of all.
pub(crate) fn write_verdict<W: Write>(explanation: &Explanation, out: &mut W) -> io::Result<()> {
    if !explanation.is_whole {
        return write_part(explanation, out);
    }
    match explanation.fitting {
        0 => out.write_all(b"none")?,
        fitting => write_count(fitting, out)?,
    }
    out.write_all(b" of ")?;
    write_total(explanation.candidates, out)?;
    let (noun, verb) = match (explanation.candidates, explanation.fitting) {
        (1, _) => (" candidate ", "fits"),
        (_, 0 | 1) => (" candidates ", "fits"),
        (_, _) => (" candidates ", "fit"),
    };
    out.write_all(noun.as_bytes())?;
    out.write_all(verb.as_bytes())?;
    out.write_all(b" the numbers; ")?;
    out.write_all(reason(explanation).as_bytes())?;
    out.write_all(b", all looked at")
}

/// Writes what was found where not all were looked at.
fn write_part<W: Write>(explanation: &Explanation, out: &mut W) -> io::Result<()> {
    out.write_all(b"not all candidates were looked at; ")?;
    match explanation.fitting {
        0 => out.write_all(b"none was found that fits the numbers"),
        1 => {
            out.write_all(b"1 was found that fits the numbers; ")?;
            out.write_all(reason(explanation).as_bytes())
        }
        fitting => {
            write_count(fitting, out)?;
            out.write_all(b" were found that fit the numbers; ")?;
            out.write_all(reason_of_these(explanation).as_bytes())
        }
    }
}

/// Why none can come, where all were looked at.
fn reason(explanation: &Explanation) -> &'static str {
    match (&explanation.shown, explanation.fitting) {
        (Shown::Nothing, _) => "no writes make them",
        (Shown::Cycle { .. }, 1) => "it has a cycle",
        (Shown::Cycle { .. }, _) => "each has a cycle",
        (Shown::Incoherent { .. }, _) => "what has them breaks coherence",
        (Shown::Atomicity { .. }, _) => "what has them and is coherent breaks atomicity",
        (Shown::Execution { .. }, _) => "one has no cycle",
    }
}

fn reason_of_these(explanation: &Explanation) -> &'static str {
    match &explanation.shown {
        Shown::Execution { .. } => "one has no cycle",
        _ => "each of these has a cycle",
    }
}

/// Writes how many candidates there are, where the count fits.
fn write_total<W: Write>(candidates: u64, out: &mut W) -> io::Result<()> {
    if candidates == u64::MAX {
        return out.write_all(b"more than 18 quintillion");
    }
    write_count(candidates, out)
}

/// Writes a number in decimal, with a comma before each three digits.
fn write_count<W: Write>(count: u64, out: &mut W) -> io::Result<()> {
    let mut is_begun = false;
    for power in THOUSANDS {
        let group = count / power % 1000;
        if is_begun {
            write!(out, ",{:03}", group)?;
        } else if group > 0 || power == 1 {
            write!(out, "{group}")?;
            is_begun = true;
        }
    }
    Ok(())
}
