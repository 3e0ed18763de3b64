//! A line that names several litmus tests, or asks for what they come to in lines.

ghost use Rattle.std.specs.Prelude.{◌≡◌, ◌⊎◌, IfOk, IfSome, None, false, length, map, true};
ghost use Rattle.sim_inputs.specs.declared.line.Command.TheVariants.{Litmus};
ghost use Rattle.plain_commands.specs.Suite.{IsKnown};
ghost use Rattle.sim_inputs.specs.SeveralTests.{tests_named};
ghost use Rattle.program_io.specs.Names.{owed};
ghost use Rattle.program_io.specs.Performed.{HasPerformed, HasTested, SuiteHasCome, SuiteIsRefused};
ghost use Rattle.program_io.specs.Performed.{has_several, may_be_several, read_of};

use crate::noting::Noting;
use crate::output_files::{OutputFiles, Places};
use crate::performing::{Performed, Program};
use crate::read_files::ReadFiles;
use crate::read_inputs::ReadInputs;
use crate::test_files::TestFiles;
use crate::test_names::is_folder;
use actors::Gate;
use command_parts::{Context, Refused, refuse};
use commands::perform_suite_line;
use event_text::Sink;
use sim_inputs::{Command, Line, LitmusCommand, tests_asked};
use smt_core::Predict;
use std::alloc::{AllocError, Global};
use std::io::Write;
use std::rt::Files;
use std::sync::Wait;
use std::thread::Threads;

impl<
    'a,
    S: Files + Input + Threads + Wait + Sync,
    G: Gate + Sync,
    P: Predict + Copy + Send,
> Program<'a, S, G, P> {
    /// Reads the files that a line names, which these words ask for, and performs its command.
    pub(crate) fn perform_asked<W: Write, E: Write>(
        &self,
        line: &Line<'_>,
        words: &[&str],
        out: Noting<W>,
        err: &mut E,
    ) -> Performed<Noting<W>>
        ensures known { IsKnown result.status }
        ensures performed { ((has_several line.now.command ≡ false)
            × HasPerformed ⟦<OutputFiles<'a, S> as Sink>⟧.has_failed P.predicts self.now line.now
            (W.contents out.writer) (W.contents result.out.writer) result.status)
            ⊎ HasTested (map (λ word. word.now) words.now) line.now (W.contents out.writer)
            (W.contents result.out.writer) result.status }
    {
        match suite_of(line, self.system) {
            Some(litmus) => self.read_and_test(line, litmus, words, out, err),
            None => self.read_and_perform(line, out, err),
        }
    }

    /// Reads the configuration and the summary that a line of several tests names, and makes its tests.
    fn read_and_test<W: Write, E: Write>(
        &self,
        line: &Line<'_>,
        litmus: LitmusCommand<'_>,
        words: &[&str],
        out: Noting<W>,
        err: &mut E,
    ) -> Performed<Noting<W>>
        requires is { line.now.command ≡ Litmus litmus }
        requires several { may_be_several litmus ≡ true }
        ensures { HasTested (map (λ word. word.now) words.now) line.now (W.contents out.writer)
            (W.contents result.out.writer) result.status }
    {
        let tests = match names_of(words, self.alloc) {
            Ok(tests) => tests,
            Err(AllocError) => {
                let status = refuse(Refused::Memory, err);
                return Performed { status, out };
            }
        };
        let mut files = line.files();
        files.program = None;
        let read = ReadInputs::of(self.system, &files, self.alloc);
        let places = Places {
            file: None,
            beside: None,
            folder: None,
            read: ReadFiles::of(&files),
        };
        let mut context = Context {
            rt: self.system,
            gate: self.gate,
            predict: self.predict,
            files: OutputFiles::new(self.system, places),
            out,
            refused: None,
            alloc: self.alloc,
        };
        let is_alone = !litmus.several && !is_folder(self.system, litmus.test);
        let mut source = TestFiles::new(
            self.system,
            line,
            litmus,
            tests.as_slice(),
            is_alone,
            self.hinting(),
            err,
        );
        let status = self.test_and_hint(&litmus, &read, &mut context, &mut source);
        Performed {
            status,
            out: context.out,
        }
    }

    /// Makes the tests of a line whose other files are read, with the hint of a fault of the line behind it.
    fn test_and_hint<W: Write, E: Write>(
        &self,
        litmus: &LitmusCommand<'_>,
        read: &ReadInputs,
        context: &mut Context<'_, S, G, P, OutputFiles<'_, S>, Noting<W>>,
        source: &mut TestFiles<'_, S, E>,
    ) -> u8
        ensures known { IsKnown result }
        ensures ended { SuiteIsRefused litmus.now (read_of read.now.config) (read_of read.now.second) result
            ⊎ SuiteHasCome litmus.now (owed source.old.names) (read_of read.now.config) (read_of read.now.second)
            (W.contents context.old.out.writer) (W.contents context.new.out.writer) result }
    {
        let inputs = read.lent();
        match perform_suite_line(context, litmus, &inputs, source) {
            Ok(status) => status,
            Err(refused) => {
                let files = read.faults_with(context.files.fault(), context.out.failure());
                source.refuse_line(refused, inputs, files)
            }
        }
    }
}

/// The command of a line whose tests are several, by its words or since the one is a folder; or which asks for lines in
/// place of states. A file is written of one test, which is read as it stands, and so is one that is run.
fn suite_of<'a, S: Files>(line: &Line<'a>, system: &S) -> Option<LitmusCommand<'a>>
    ensures is { IfSome result (λ litmus. line.now.command ≡ Litmus litmus) }
    ensures several { IfSome result (λ litmus. may_be_several litmus ≡ true) }
    ensures one { result ≡ None → has_several line.now.command ≡ false }
{
    let Command::Litmus(litmus) = line.command else {
        return None;
    };
    if litmus.several || litmus.is_summed() {
        return Some(litmus);
    }
    if litmus.written().is_some() || litmus.run.is_some() {
        return None;
    }
    if is_folder(system, litmus.test) {
        return Some(litmus);
    }
    None
}

/// The names of the tests that these words ask for, as they are written. Fails only for want of memory.
fn names_of<'a>(words: &'a [&'a str], alloc: Global) -> Result<Vec<&'a str>, AllocError>
    ensures { IfOk result (λ names. length names.items ≡ length (tests_named (map (λ word. word.now) words.entry.now))) }
{
    tests_asked(words, alloc)
}
