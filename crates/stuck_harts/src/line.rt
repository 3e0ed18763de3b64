//! The line of a hart that goes on for ever.

ghost use Rattle.std.specs.Prelude.{◌≡◌, ◌<◌, OnOk};
ghost use Rattle.std.specs.Io.KnownBytes.{Appends};
ghost use Rattle.sc_machine.specs.Machine.{InEachState};
ghost use Rattle.symbols.specs.Tables.{table_of};
ghost use Rattle.stuck_harts.specs.Lines.{spin_line, lead_of, spin_text, spins_text, waiting_text};

use crate::spins::{Spin, spins_of};
use crate::turns::goes;
use sc_machine::Plain as Machine;
use std::io;
use std::io::Write;
use story_text::{write_deed, write_number};
use symbols::Symbols;

/// Why it isn't told what a hart waits for.
#[derive(Clone, Copy, PartialEq, Eq, Drop)]
pub enum Unspun {
    /// There is no memory for what the harts put out.
    Memory,
    /// The line couldn't be written.
    Output,
}

/// Writes a line for a hart that still goes once all harts have gone on in turns: what it shows then, again and again.
/// Nothing for one that has ended or stopped. The machine stands behind these turns then.
pub fn tell_spin<W: Write>(
    machine: &mut Machine,
    hart: u8,
    names: &Symbols<'_>,
    out: &mut W,
) -> Result<(), Unspun>
    ensures { OnOk result (InEachState machine.old (λ setup s. hart < setup.harts
        → Appends (W.contents out.old) (W.contents out.new) (waiting_text (table_of names.now) setup hart s))) }
{
    let spins = match spins_of(machine, hart) {
        Ok(spins) => spins,
        Err(_) => return Err(Unspun::Memory),
    };
    if !goes(machine, hart) {
        return match out.write_all(b"") {
            Ok(()) => Ok(()),
            Err(_) => Err(Unspun::Output),
        };
    }
    match write_line(hart, spins.as_slice(), names, out) {
        Ok(()) => Ok(()),
        Err(_) => Err(Unspun::Output),
    }
}

/// Writes the line of a hart.
fn write_line<W: Write>(
    hart: u8,
    spins: &[Spin],
    names: &Symbols<'_>,
    out: &mut W,
) -> io::Result<()>
    ensures { OnOk result (Appends (W.contents out.old) (W.contents out.new)
        (spin_line (table_of names.now) hart spins.now)) }
{
    out.write_all(b"h")?;
    write_number(u64::from(hart), out)?;
    out.write_all(b" spins")?;
    write_spins(spins, names, out)?;
    out.write_all(b"\n")
}

fn write_spins<W: Write>(spins: &[Spin], names: &Symbols<'_>, out: &mut W) -> io::Result<()>
    ensures { OnOk result (Appends (W.contents out.old) (W.contents out.new)
        (spins_text (table_of names.now) spins.now)) }
{
    for index in 0..spins.len() {
        write_spin(index, &spins[index], names, out)?;
    }
    Ok(())
}

/// Writes what is shown at a pc, behind what stands before it.
fn write_spin<W: Write>(
    index: usize,
    spin: &Spin,
    names: &Symbols<'_>,
    out: &mut W,
) -> io::Result<()>
    ensures { OnOk result (Appends (W.contents out.old) (W.contents out.new)
        (spin_text (table_of names.now) index spin.now)) }
{
    out.write_all(lead_of(index).as_bytes())?;
    write_deed(&spin.deed, &None, names, out)
}

fn lead_of(index: usize) -> &'static str
    ensures { result.now ≡ lead_of index }
{
    if index == 0 { ": " } else { ", " }
}
