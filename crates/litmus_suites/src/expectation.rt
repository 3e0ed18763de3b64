//! What the tests of a suite are held against: the lines of a summary that was printed before.

ghost use Rattle.std.specs.Prelude.{◌≡◌, IfErr, IfOk, OnOk, option_map};
ghost use Rattle.std.specs.Io.KnownBytes.{Appends};
ghost use Rattle.litmus_suites.specs.Lines.{verdict_text};
ghost use Rattle.litmus_suites.specs.Reading.{AreLinesOf, IsSummaryRefusal};
ghost use Rattle.litmus_suites.specs.Expecting.{counterpart, difference_text, gone_count, gone_line, gone_text, meets, met_of};
ghost use Rattle.litmus_suites.specs.Expecting.{met_text, not_there, place_of, taken};

use crate::summary_lines::{ExpectedLine, SummaryRefused, read_lines};
use crate::verdict::TestLine;
use std::alloc::Global;
use std::io;
use std::io::Write;

/// The lines of a summary that was printed before, each of which one test takes.
#[derive(Drop)]
pub struct Expectation<'a> {
    lines: Vec<ExpectedLine<'a>>,
}

/// What a test is beside the line that it takes.
#[derive(Clone, Copy, PartialEq, Eq, Drop)]
pub enum Met {
    /// Its line is the same.
    Same,
    /// Its line is another.
    Changed,
    /// It takes none.
    New,
}

impl<'a> Expectation<'a> {
    /// The lines of a summary's text.
    pub fn read(text: &'a [u8], alloc: Global) -> Result<Self, SummaryRefused>
        ensures read { IfOk result (λ expected. AreLinesOf text.now expected.lines.items) }
        ensures refused { IfErr result (IsSummaryRefusal text.now) }
    {
        match read_lines(text, alloc) {
            Ok(lines) => Ok(Expectation { lines }),
            Err(refused) => Err(refused),
        }
    }

    /// What the test of a line is beside the line that it takes: the first of its name that none has taken. Writes what
    /// differs.
    pub fn meet<W: Write>(&mut self, line: &TestLine, out: &mut W) -> io::Result<Met>
        ensures taken { self.new.lines.items ≡ taken line.now.name.items self.old.lines.items }
        ensures met { IfOk result (λ met. met
            ≡ met_of (counterpart line.now.name.items self.old.lines.items) (verdict_text line.now.verdict)) }
        ensures written { OnOk result (Appends (W.contents out.old) (W.contents out.new)
            (met_text line.now.name.items (counterpart line.now.name.items self.old.lines.items)
            (verdict_text line.now.verdict))) }
    {
        let name = line.name.as_slice();
        let text = line.verdict.text();
        let was = self.take(name);
        write_met(name, was, text.as_bytes(), out)
    }

    /// What is said in the first line of this name that none has taken, which is taken now.
    fn take(&mut self, name: &[u8]) -> Option<&'a [u8]>
        ensures was { option_map (λ was. was.now) result ≡ counterpart name.now self.old.lines.items }
        ensures taken { self.new.lines.items ≡ taken name.now self.old.lines.items }
    {
        let place = self.place_of(name);
        let Some(line) = self.lines.get(place) else {
            return None;
        };
        let taken = line.taken();
        self.lines[place] = taken;
        Some(taken.verdict)
    }

    /// The place of the first line of this name that none has taken; behind all where there is none.
    fn place_of(&self, name: &[u8]) -> usize
        ensures { result ≡ place_of name.now self.now.lines.items }
    {
        let lines = self.lines.as_slice();
        for (place, line) in lines.iter().enumerate() {
            if meets(name, line) {
                return place;
            }
        }
        lines.len()
    }

    /// Writes of each line that no test has taken that it isn't there any more.
    pub fn write_gone<W: Write>(&self, out: &mut W) -> io::Result<()>
        ensures { OnOk result (Appends (W.contents out.old) (W.contents out.new) (gone_text self.now.lines.items)) }
    {
        for line in self.lines.iter() {
            write_gone_line(line, out)?;
        }
        Ok(())
    }

    /// How many lines no test has taken.
    pub fn count_gone(&self) -> u64
        ensures { result ≡ gone_count self.now.lines.items }
    {
        let mut gone = 0_u64;
        for line in self.lines.iter() {
            if !line.is_over {
                gone += 1;
            }
        }
        gone
    }
}

/// Whether a line is of this name, and no test has taken it.
fn meets(name: &[u8], line: &ExpectedLine<'_>) -> bool
    ensures { result ≡ meets name.now line.now }
{
    !line.is_over && line.name == name
}

/// Writes what differs of a test, of which this was said, if anything was, and this is said now.
fn write_met<W: Write>(name: &[u8], was: Option<&[u8]>, is: &[u8], out: &mut W) -> io::Result<Met>
    ensures met { IfOk result (λ met. met ≡ met_of (option_map (λ was. was.now) was.entry) is.now) }
    ensures written { OnOk result (Appends (W.contents out.old) (W.contents out.new)
        (met_text name.now (option_map (λ was. was.now) was.entry) is.now)) }
{
    let Some(was) = was else {
        write_difference(name, not_there().as_bytes(), is, out)?;
        return Ok(Met::New);
    };
    if was == is {
        return Ok(Met::Same);
    }
    write_difference(name, was, is, out)?;
    Ok(Met::Changed)
}

/// Writes of a line that no test has taken that it isn't there any more.
fn write_gone_line<W: Write>(line: &ExpectedLine<'_>, out: &mut W) -> io::Result<()>
    ensures { OnOk result (Appends (W.contents out.old) (W.contents out.new) (gone_line line.now)) }
{
    if line.is_over {
        return Ok(());
    }
    write_difference(line.name, line.verdict, not_there().as_bytes(), out)
}

/// What stands in place of what is said of a test that isn't there.
fn not_there() -> &'static str
    ensures { result.now ≡ not_there }
{
    " not there"
}

/// Writes what was said of a test and what is said now, each with a blank before it.
#[tactic(auto, unfolding(crate::specs::Expecting::difference_text))]
fn write_difference<W: Write>(name: &[u8], was: &[u8], is: &[u8], out: &mut W) -> io::Result<()>
    ensures { OnOk result (Appends (W.contents out.old) (W.contents out.new)
        (difference_text name.now was.now is.now)) }
{
    out.write_all(name)?;
    out.write_all(b": was")?;
    out.write_all(was)?;
    out.write_all(b", is")?;
    out.write_all(is)?;
    out.write_all(b"\n")
}
