//! The tests of a line that names several, read from their files one at a time.

ghost use Rattle.std.specs.Prelude.{◌≡◌, length};
ghost use Rattle.plain_commands.specs.Suite.{IsKnown};
ghost use Rattle.commands.specs.Suites.{suite_status_of};
ghost use Rattle.program_io.specs.Names.{owed, IsGiven, IsHeard};

use crate::files::read_file;
use crate::hinting::Hinting;
use crate::test_names::{Absent, TestNames};
use command_parts::{Inputs, Refused};
use commands::SuiteRefused;
use fault_hints::{FileFaults, LineFault};
use litmus_suites::NoTest;
use plain_commands::TestSource;
use shown_text::write_shown;
use sim_inputs::{Command, Line, LitmusCommand};
use std::alloc::{AllocError, Global};
use std::fmt::Display;
use std::io;
use std::io::Write;
use std::rt::Files;

/// The tests of a line. Why a name comes to none, and why a test is refused, is told on standard error: a line with the file
/// before the fault, and a hint behind it, as if the test were alone.
#[derive(Drop)]
pub(crate) struct TestFiles<'a, S: Files + Input, E: Write> {
    system: &'a S,
    line: &'a Line<'a>,
    litmus: LitmusCommand<'a>,
    names: TestNames<'a, S>,
    /// Whether the line names one file alone: its faults have no name before them.
    is_alone: bool,
    /// The path of the test that was given last.
    path: String,
    hinting: Hinting,
    err: &'a mut E,
}

impl<'a, S: Files + Input, E: Write> TestFiles<'a, S, E> {
    /// The tests of a line, whose names are these.
    pub(crate) fn new(
        system: &'a S,
        line: &'a Line<'a>,
        litmus: LitmusCommand<'a>,
        words: &'a [&'a str],
        is_alone: bool,
        hinting: Hinting,
        err: &'a mut E,
    ) -> Self
        ensures { owed result.names ≡ length words.now }
    {
        TestFiles {
            system,
            line,
            litmus,
            names: TestNames::new(system, words, hinting.alloc),
            is_alone,
            path: String::new(hinting.alloc),
            hinting,
            err,
        }
    }

    /// Says why the line isn't performed, or not to its end, with the hint behind it. Answers the exit status.
    pub(crate) fn refuse_line(
        &mut self,
        refused: SuiteRefused,
        inputs: Inputs<'_>,
        files: FileFaults,
    ) -> u8
        ensures status { result ≡ suite_status_of refused }
        ensures known { IsKnown result }
    {
        let _ = writeln!(self.err, "smtsim: {refused}");
        match refused {
            SuiteRefused::Line(reason) => {
                let fault = LineFault {
                    refused: reason,
                    line: self.line,
                    inputs,
                    files,
                };
                self.hinting.tell_line(&fault, self.err);
            }
            SuiteRefused::Summary(number) => {
                self.hinting
                    .tell_summary(number, self.line, &inputs, self.err);
            }
        }
        refused.exit_status()
    }

    /// Tells why a name comes to no test.
    fn tell_absent(&mut self, absent: &Absent)
        ensures { self.new.names ≡ self.old.names }
    {
        let why = absent.why;
        let mut place = absent.path.as_slice();
        if self.is_alone {
            place = &[];
        }
        let _ = write_place(place, self.err);
        let _ = writeln!(self.err, "{why}");
        if let Ok(said) = said_of(place, &why, self.hinting.alloc) {
            self.hinting
                .tell_absent(said.as_str(), absent, self.line, self.err);
        }
    }
}

impl<S: Files + Input, E: Write> TestSource for TestFiles<'_, S, E> {
    // Each name comes to a test, or to why it is none.
    ghost gives = { λ source given after. IsGiven (owed source.names) given (owed after.names) };

    ghost hears = { λ source refused after. IsHeard (owed source.names) refused (owed after.names) };

    fn next(&mut self) -> Option<Result<Vec<u8>, NoTest>> {
        let alloc = self.hinting.alloc;
        let absent = match self.names.next_path()? {
            Ok(path) => match read_file(self.system, path.as_str(), alloc) {
                Ok(text) => {
                    self.path = path;
                    return Some(Ok(text));
                }
                Err(refused) => Absent::unread(path.as_str(), refused, alloc),
            },
            Err(absent) => absent,
        };
        self.tell_absent(&absent);
        Some(Err(absent.why))
    }

    fn tell(&mut self, text: &[u8], refused: Refused) {
        let place = shown_place(self.is_alone, self.path.as_str());
        let _ = write_place(place.as_bytes(), self.err);
        let _ = writeln!(self.err, "{refused}");
        if let Ok(said) = said_of(place.as_bytes(), &refused, self.hinting.alloc) {
            tell_text(
                &self.hinting,
                said.as_str(),
                refused,
                self.line,
                &self.litmus,
                self.path.as_str(),
                text,
                self.err,
            );
        }
    }
}

/// What is told of the place of a fault: nothing where there is one file alone.
fn shown_place(is_alone: bool, path: &str) -> &str {
    if is_alone {
        return "";
    }
    path
}

/// Writes the hint of a text that is refused as the test of this path, which is said so.
fn tell_text<E: Write>(
    hinting: &Hinting,
    said: &str,
    refused: Refused,
    line: &Line<'_>,
    litmus: &LitmusCommand<'_>,
    path: &str,
    text: &[u8],
    err: &mut E,
) {
    tell_line_text(
        hinting,
        said,
        refused,
        &line_of(line, litmus, path),
        text,
        err,
    );
}

/// Writes the hint of a text that is refused as the test of a line, which is said so.
fn tell_line_text<E: Write>(
    hinting: &Hinting,
    said: &str,
    refused: Refused,
    line: &Line<'_>,
    text: &[u8],
    err: &mut E,
) {
    let fault = LineFault {
        refused,
        line,
        inputs: Inputs {
            config: Ok(&[]),
            program: Ok(text),
            second: Ok(&[]),
            lines: Ok(&[]),
        },
        files: FileFaults::NONE,
    };
    hinting.tell_test(said, &fault, err);
}

/// The line as if it named this test alone.
fn line_of<'a>(line: &Line<'a>, litmus: &LitmusCommand<'a>, path: &'a str) -> Line<'a> {
    let alone = LitmusCommand {
        test: path,
        states: litmus.states,
        why: litmus.why,
        image: litmus.image,
        svg: litmus.svg,
        outcome: litmus.outcome,
        witness: litmus.witness,
        script: litmus.script,
        story: litmus.story,
        story_svg: litmus.story_svg,
        theme: litmus.theme,
        all: litmus.all,
        run: litmus.run,
        summary: litmus.summary,
        expect: litmus.expect,
        several: litmus.several,
    };
    Line {
        config: line.config,
        harts: line.harts,
        hints: line.hints,
        command: Command::Litmus(alone),
    }
}

/// Writes what stands before a fault: the program, and the file of this path, where there is one.
fn write_place<E: Write>(path: &[u8], err: &mut E) -> io::Result<()> {
    err.write_all(b"smtsim: ")?;
    if path.is_empty() {
        return Ok(());
    }
    write_shown(path, err)?;
    err.write_all(b": ")
}

/// What is said of a fault, behind the program.
fn said_of<D: Display>(path: &[u8], fault: &D, alloc: Global) -> Result<String, AllocError> {
    let text = fault.to_string(alloc)?;
    if path.is_empty() {
        return Ok(text);
    }
    let mut said = Vec::new(alloc);
    if write_shown(path, &mut said).is_err() {
        return Err(AllocError);
    }
    said.extend_from_slice(b": ")?;
    said.extend_from_slice(text.as_bytes())?;
    match String::from_utf8(said) {
        Ok(said) => Ok(said),
        Err(_) => Ok(text),
    }
}
