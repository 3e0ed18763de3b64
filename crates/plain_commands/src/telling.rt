//! What is printed of each test of a suite, and behind all of them.

ghost use Rattle.std.specs.Prelude.{◌≡◌, ◌⊎◌, ◌++◌, IfErr, IfOk, OnOk};
ghost use Rattle.std.specs.Io.KnownBytes.{Appends};
ghost use Rattle.litmus_suites.specs.Expecting.{gone_text};
ghost use Rattle.litmus_suites.specs.Counting.{differences_text, status_of as status_of_differences};
ghost use Rattle.command_parts.specs.declared.refused.Refused.TheVariants.{Output};
ghost use Rattle.plain_commands.specs.Litmus.{IsTextRefusal};
ghost use Rattle.plain_commands.specs.Suite.{AreFinished, IsFinished, IsMade, IsRefusedTest, IsSummed, IsTold};
ghost use Rattle.plain_commands.specs.Suite.{noted_line, refused_line, refused_more, status_of, with_gone};

use crate::litmus::perform_litmus;
use crate::litmus_summary::summary_of;
use actors::Gate;
use command_parts::Refused;
use event_text::Over;
use litmus_suites::{Counts, Differences, Expectation, Met, TestLine, Verdict};
use sim_inputs::{LitmusCommand, Settings};
use std::alloc::Global;
use std::io::Write;

/// What is printed of the tests of a suite.
#[derive(Drop)]
pub enum Telling<'a> {
    /// Of each all that is printed of it where it is alone, and nothing behind them.
    States,
    /// Of each a line, or what differs in it, and behind them how many there are.
    Lines(LineTelling<'a>),
}

/// What is printed of the lines of tests.
#[derive(Drop)]
pub enum LineTelling<'a> {
    /// Each of them, and behind them how many tests there are.
    Summary(Counts),
    /// What differs from what is expected, and behind that how many do.
    Comparison(Expectation<'a>, Differences),
}

impl Telling<'_> {
    /// Makes the test that a text is, of these settings with its harts, and prints what is wanted of it. Answers its exit
    /// status: 0, or 3 where it has more states than were to be looked at. Where it is refused, and the output didn't
    /// fail, nothing is printed.
    pub(crate) fn make<G: Gate, W: Write>(
        &mut self,
        text: &[u8],
        command: &LitmusCommand<'_>,
        settings: &Settings,
        gate: &G,
        out: &mut W,
        alloc: Global,
    ) -> Result<u8, Refused>
        ensures made { IfOk result
            (IsMade text.now settings.now command.now self.old self.new (W.contents out.old) (W.contents out.new)) }
        ensures refused { IfErr result (IsRefusedTest settings.now command.now text.now self.old self.new
            (W.contents out.old) (W.contents out.new)) }
    {
        match self {
            Telling::States => {
                // No file is written of one of several tests.
                let mut none = Over::new(Vec::new(alloc));
                perform_litmus(
                    text,
                    command,
                    settings.copied(),
                    gate,
                    &mut none,
                    out,
                    alloc,
                )
            }
            Telling::Lines(lines) => lines.make(text, command.states, gate, out, alloc),
        }
    }

    /// Counts a test that is refused.
    pub(crate) fn count_refused(&mut self)
        ensures { self.new ≡ refused_more self.old }
    {
        if let Telling::Lines(lines) = self {
            lines.count_refused();
        }
    }

    /// Prints what comes behind all tests. Answers the exit status: 1 where something differs from what is expected,
    /// else 0.
    pub(crate) fn finish<W: Write>(&self, out: &mut W) -> Result<u8, Refused>
        ensures finished { IfOk result (IsFinished self.now (W.contents out.old) (W.contents out.new)) }
        ensures refused { IfErr result (λ reason. reason ≡ Output) }
    {
        match self {
            Telling::States => Ok(0),
            Telling::Lines(lines) => lines.finish(out),
        }
    }
}

impl LineTelling<'_> {
    /// Makes the test that a text is, of which so many states are looked at the most, and prints what is wanted of its
    /// line.
    fn make<G: Gate, W: Write>(
        &mut self,
        text: &[u8],
        states: u32,
        gate: &G,
        out: &mut W,
        alloc: Global,
    ) -> Result<u8, Refused>
        ensures made { IfOk result
            (IsSummed text.now states self.old self.new (W.contents out.old) (W.contents out.new)) }
        ensures refused { IfErr result (λ reason. (reason ≡ Output)
            ⊎ (IsTextRefusal text.now reason × ((self.new ≡ self.old) × (W.contents out.new ≡ W.contents out.old)))) }
    {
        let line = match summary_of(text, states, gate, alloc) {
            Ok(line) => line,
            Err(refused) => return Err(refused),
        };
        match self.tell(&line, out) {
            Ok(()) => Ok(status_of(line.verdict)),
            Err(refused) => Err(refused),
        }
    }

    /// Prints what is wanted of the line of a test, and counts it.
    fn tell<W: Write>(&mut self, line: &TestLine, out: &mut W) -> Result<(), Refused>
        ensures told { OnOk result (IsTold line.now self.old self.new (W.contents out.old) (W.contents out.new)) }
        ensures refused { IfErr result (λ reason. reason ≡ Output) }
    {
        match self {
            LineTelling::Summary(counts) => {
                counts.count(line.verdict);
                match line.write(out) {
                    Ok(()) => Ok(()),
                    Err(_) => Err(Refused::Output),
                }
            }
            LineTelling::Comparison(expected, _) => match expected.meet(line, out) {
                Ok(met) => {
                    self.note(met);
                    Ok(())
                }
                Err(_) => Err(Refused::Output),
            },
        }
    }

    /// Counts a test that is this beside the line that it takes.
    fn note(&mut self, met: Met)
        ensures { self.new ≡ noted_line met self.old }
    {
        if let LineTelling::Comparison(_, differences) = self {
            differences.count(met);
        }
    }

    /// Counts a test that is refused.
    fn count_refused(&mut self)
        ensures { self.new ≡ refused_line self.old }
    {
        match self {
            LineTelling::Summary(counts) => counts.count_refused(),
            LineTelling::Comparison(_, differences) => differences.count_refused(),
        }
    }

    /// Prints what comes behind all tests. Answers the exit status.
    fn finish<W: Write>(&self, out: &mut W) -> Result<u8, Refused>
        ensures finished { IfOk result (AreFinished self.now (W.contents out.old) (W.contents out.new)) }
        ensures refused { IfErr result (λ reason. reason ≡ Output) }
    {
        match self {
            LineTelling::Summary(counts) => match counts.write(out) {
                Ok(()) => Ok(0),
                Err(_) => Err(Refused::Output),
            },
            LineTelling::Comparison(expected, differences) => {
                finish_comparison(expected, *differences, out)
            }
        }
    }
}

/// Prints which lines no test has taken, and how many tests differ.
fn finish_comparison<W: Write>(
    expected: &Expectation<'_>,
    differences: Differences,
    out: &mut W,
) -> Result<u8, Refused>
    ensures printed { OnOk result (Appends (W.contents out.old) (W.contents out.new)
        (gone_text expected.now.lines.items ++ differences_text (with_gone expected.now differences))) }
    ensures status { IfOk result (λ status. status ≡ status_of_differences (with_gone expected.now differences)) }
    ensures refused { IfErr result (λ reason. reason ≡ Output) }
{
    let Ok(()) = expected.write_gone(out) else {
        return Err(Refused::Output);
    };
    let mut differences = differences;
    differences.gone = expected.count_gone();
    match differences.write(out) {
        Ok(()) => Ok(differences.status()),
        Err(_) => Err(Refused::Output),
    }
}

/// The exit status of a test of which this is said.
fn status_of(verdict: Verdict) -> u8
    ensures { result ≡ status_of verdict }
{
    match verdict {
        Verdict::Whole { .. } => 0,
        Verdict::NotComplete => 3,
    }
}
