//! All that the program does with its words.

ghost use Rattle.std.specs.Prelude.{◌≡◌, [], IsTrue, IfErr, IfOk, Ok, Some, false, is_some, not, true};
ghost use Rattle.std.specs.Prelude.{map, string_bytes};
ghost use Rattle.std.specs.IoError.{error_kind};
ghost use Rattle.std.specs.Vec.Iter.{into_iter_items};
ghost use Rattle.sim_inputs.specs.declared.line.Command.TheVariants.{OfProgram};
ghost use Rattle.sim_inputs.specs.declared.line.ProgramCommand.TheVariants.{Step};
ghost use Rattle.command_parts.specs.Inputs.{as_read};
ghost use Rattle.command_parts.specs.Refused.{exit_status_of};
ghost use Rattle.command_parts.specs.declared.refused.Refused.{Refused as AnyRefused};
ghost use Rattle.commands.specs.Perform.{IsRefusal};
ghost use Rattle.report_lines.specs.Statuses.{says_harts};
ghost use Rattle.plain_commands.specs.Suite.{IsKnown};
ghost use Rattle.program_io.specs.Performed.{HasPerformed, LineHasCome, TypedHasCome, HaveEnded, read_of, typed_step};
ghost use Rattle.program_io.specs.Words.{words_refused, IsWordsStatus, HaveTold};

use crate::hinting::Hinting;
use crate::noting::Noting;
use crate::output_files::{OutputFiles, Places};
use crate::read_files::ReadFiles;
use crate::read_inputs::ReadInputs;
use crate::words::{fault_of, refuse_words, take_words, texts};
use actors::Gate;
use command_parts::{Context, Inputs, Refused, refuse};
use commands::{perform, perform_typed};
use event_text::Sink;
use fault_hints::{FileFault, FileFaults, LineFault, WordsFault};
use sim_inputs::{
    Command, Line, ProgramCommand, StepCommand, WordsRefused, is_standard_input, read_words,
};
use smt_core::Predict;
use std::alloc::{AllocError, Global};
use std::env::Args;
use std::io;
use std::io::Write;
use std::rt::Files;
use std::sync::Wait;
use std::thread::Threads;

/// What the program does its work with.
#[derive(Drop)]
pub struct Program<'a, S, G, P> {
    /// Where files are, and threads.
    pub system: &'a S,
    pub gate: &'a G,
    pub predict: P,
    /// Whether standard input is a terminal.
    pub at_terminal: bool,
    /// Whether standard error is a terminal.
    pub on_terminal: bool,
    pub alloc: Global,
}

/// What came of words or of a line: the exit status, and the output behind it.
#[derive(Drop)]
pub struct Performed<W> {
    pub status: u8,
    pub out: W,
}

/// Does all that the program does with its words, its own name first, and answers its exit status:
/// what the words ask for is printed on `out`, which is handed back, and why it isn't on `err`. 0 for help and the
/// version, 2 for a wrong command line, 5 for want of memory and where `out` fails; else that of the command that is
/// performed. Words that are no text are a wrong command line. A trace is written to the file that the
/// words name. The file named by a dash is standard input; a script is typed there, and asked as it comes,
/// where that is a terminal. Behind the line of a fault a hint stands, where `--hints` asks for one, and where
/// it says nothing of them if `err` is a terminal.
pub fn perform_words<
    'a,
    S: Files + Input + Threads + Wait + Sync,
    G: Gate + Sync,
    P: Predict + Copy + Send,
    W: Write,
    E: Write,
>(program: &Program<'a, S, G, P>, words: io::Result<Args>, out: W, err: &mut E) -> Performed<W>
    ensures known { IsKnown result.status }
    ensures unread { IfErr words (λ error. IsWordsStatus (words_refused (error_kind error)) result.status
        × HaveTold (words_refused (error_kind error)) (W.contents out) (W.contents result.out) result.status) }
    ensures read { IfOk words (λ args. HaveEnded ⟦<OutputFiles<'a, S> as Sink>⟧.has_failed P.predicts
        program.now (map string_bytes (into_iter_items args)) (W.contents out) (W.contents result.out) result.status) }
{
    let performed = program.answer_words(words, Noting::new(out), err);
    Performed {
        status: performed.status,
        out: performed.out.into_inner(),
    }
}

/// Says that there is no standard output to print on, for want of memory. Answers the exit status.
pub fn refuse_unopened<E: Write>(err: &mut E) -> u8
    ensures { result ≡ 5 }
{
    refuse(Refused::Memory, err)
}

impl<
    'a,
    S: Files + Input + Threads + Wait + Sync,
    G: Gate + Sync,
    P: Predict + Copy + Send,
> Program<'a, S, G, P> {
    /// Does what the words ask for, or says why it isn't done.
    fn answer_words<W: Write, E: Write>(
        &self,
        words: io::Result<Args>,
        out: Noting<W>,
        err: &mut E,
    ) -> Performed<Noting<W>>
        ensures known { IsKnown result.status }
        ensures unread { IfErr words (λ error. IsWordsStatus (words_refused (error_kind error)) result.status
            × HaveTold (words_refused (error_kind error)) (W.contents out.writer) (W.contents result.out.writer)
            result.status) }
        ensures read { IfOk words (λ args. HaveEnded ⟦<OutputFiles<'a, S> as Sink>⟧.has_failed
            P.predicts self.now (map string_bytes (into_iter_items args)) (W.contents out.writer)
            (W.contents result.out.writer) result.status) }
    {
        match take_words(words, self.alloc) {
            Ok(words) => self.answer_texts(words.as_slice(), out, err),
            Err(refused) => {
                let fault = fault_of(&refused, false);
                self.refuse_and_hint(refused, fault, &[], out, err)
            }
        }
    }

    /// Prints help, or says why words are refused, with the hint behind it that they ask for.
    fn refuse_and_hint<W: Write, E: Write>(
        &self,
        refused: WordsRefused,
        fault: WordsFault,
        words: &[String],
        out: Noting<W>,
        err: &mut E,
    ) -> Performed<Noting<W>>
        ensures known { IsKnown result.status }
        ensures status { IsWordsStatus refused result.status }
        ensures told { HaveTold refused (W.contents out.writer) (W.contents result.out.writer) result.status }
    {
        let mut out = out;
        let status = refuse_words(refused, &mut out, err);
        let fault = match fault {
            WordsFault::Output(_) => WordsFault::Output(out.failure()),
            other => other,
        };
        if status != 0 {
            self.hinting().tell_words(fault, words, err);
        }
        Performed { status, out }
    }

    pub(crate) fn hinting(&self) -> Hinting {
        Hinting {
            on_terminal: self.on_terminal,
            alloc: self.alloc,
        }
    }

    /// Does what words that were read ask for, or says why it isn't done.
    fn answer_texts<W: Write, E: Write>(
        &self,
        words: &[String],
        out: Noting<W>,
        err: &mut E,
    ) -> Performed<Noting<W>>
        ensures known { IsKnown result.status }
        ensures ended { HaveEnded ⟦<OutputFiles<'a, S> as Sink>⟧.has_failed
            P.predicts self.now (map string_bytes words.now) (W.contents out.writer) (W.contents result.out.writer)
            result.status }
    {
        let texts = match texts(words, self.alloc) {
            Ok(texts) => texts,
            Err(AllocError) => return self.refuse_read(WordsRefused::Memory, words, out, err),
        };
        match read_words(texts.as_slice(), self.alloc) {
            Ok(line) => self.perform_asked(&line, texts.as_slice(), out, err),
            Err(refused) => self.refuse_read(refused, words, out, err),
        }
    }

    /// Prints help, or says why words are refused that were read.
    fn refuse_read<W: Write, E: Write>(
        &self,
        refused: WordsRefused,
        words: &[String],
        out: Noting<W>,
        err: &mut E,
    ) -> Performed<Noting<W>>
        ensures known { IsKnown result.status }
        ensures status { IsWordsStatus refused result.status }
        ensures told { HaveTold refused (W.contents out.writer) (W.contents result.out.writer) result.status }
    {
        let fault = fault_of(&refused, true);
        self.refuse_and_hint(refused, fault, words, out, err)
    }

    /// Reads the files that a line names, and performs its command.
    pub(crate) fn read_and_perform<W: Write, E: Write>(
        &self,
        line: &Line<'_>,
        out: Noting<W>,
        err: &mut E,
    ) -> Performed<Noting<W>>
        ensures known { IsKnown result.status }
        ensures performed { HasPerformed ⟦<OutputFiles<'a, S> as Sink>⟧.has_failed P.predicts self.now line.now
            (W.contents out.writer) (W.contents result.out.writer) result.status }
    {
        if let Some(step) = typed_step(line, self.at_terminal) {
            return self.read_and_prompt(line, &step, out, err);
        }
        let files = line.files();
        let mut read = ReadInputs::of(self.system, &files, self.alloc);
        read.blank_comments(&line.command);
        let places = Places {
            file: files.written,
            beside: files.beside,
            folder: folder_of(line),
            read: ReadFiles::of(&files),
        };
        let mut context = Context {
            rt: self.system,
            gate: self.gate,
            predict: self.predict,
            files: OutputFiles::new(self.system, places),
            out,
            refused: None,
            alloc: self.alloc,
        };
        let status = self.perform_and_hint(line, &read, &mut context, err);
        Performed {
            status,
            out: context.out,
        }
    }

    /// Performs the command of a line whose files are read, with the hint of its fault behind it.
    fn perform_and_hint<W: Write, E: Write>(
        &self,
        line: &Line<'_>,
        read: &ReadInputs,
        context: &mut Context<'_, S, G, P, OutputFiles<'_, S>, Noting<W>>,
        err: &mut E,
    ) -> u8
        requires works { is_some context.old.files.fault ≡ false }
        requires finished { not (is_some context.old.files.current) ≡ true }
        ensures known { IsKnown result }
        ensures refused { says_harts result ≡ false → (reason : AnyRefused)
            × (exit_status_of reason ≡ result) × IsRefusal line.now.harts line.now.command (read_of read.now.config)
            (read_of read.now.program) (read_of read.now.second) (read_of read.now.lines) reason }
        ensures comes { IsTrue (says_harts result) → LineHasCome
            ⟦<OutputFiles<'a, S> as Sink>⟧.has_failed context.old.files line.now.harts line.now.command
            (read_of read.now.config) (read_of read.now.program) (read_of read.now.second) (read_of read.now.lines)
            (W.contents context.old.out.writer) (W.contents context.new.out.writer) result }
    {
        let inputs = read.lent();
        let status = perform(context, line, &inputs, err);
        context.files.discard();
        if let Some(refused) = context.refused {
            let mut files = read.faults_with(context.files.fault(), context.out.failure());
            files.is_beside = context.files.is_beside();
            self.hint_of_line(refused, line, inputs, files, err);
        } else {
            self.hinting().tell_nameless(line, &inputs, status, err);
        }
        status
    }

    /// Writes the hint of a fault of a line, where one is wanted.
    fn hint_of_line<E: Write>(
        &self,
        refused: Refused,
        line: &Line<'_>,
        inputs: Inputs<'_>,
        files: FileFaults,
        err: &mut E,
    ) {
        let fault = LineFault {
            refused,
            line,
            inputs,
            files,
        };
        self.hinting().tell_line(&fault, err);
    }

    /// Reads the files that a line of `step` names but its script, which is typed, and performs it.
    fn read_and_prompt<W: Write, E: Write>(
        &self,
        line: &Line<'_>,
        step: &StepCommand<'_>,
        out: Noting<W>,
        err: &mut E,
    ) -> Performed<Noting<W>>
        requires { typed_step self.now.at_terminal line.now.command ≡ Some step.now }
        ensures known { IsKnown result.status }
        ensures performed { HasPerformed ⟦<OutputFiles<'a, S> as Sink>⟧.has_failed P.predicts self.now line.now
            (W.contents out.writer) (W.contents result.out.writer) result.status }
    {
        let mut files = line.files();
        files.second = None;
        let read = ReadInputs::of(self.system, &files, self.alloc);
        let places = Places {
            file: files.written,
            beside: None,
            folder: None,
            read: ReadFiles::of(&files),
        };
        let mut context = Context {
            rt: self.system,
            gate: self.gate,
            predict: self.predict,
            files: OutputFiles::new(self.system, places),
            out,
            refused: None,
            alloc: self.alloc,
        };
        let status = self.prompt_and_hint(line, step, &read, &mut context, err);
        Performed {
            status,
            out: context.out,
        }
    }

    /// Performs `step` with a script that is typed, whose other files are read, with the hint of its fault behind it.
    fn prompt_and_hint<W: Write, E: Write>(
        &self,
        line: &Line<'_>,
        step: &StepCommand<'_>,
        read: &ReadInputs,
        context: &mut Context<'_, S, G, P, OutputFiles<'_, S>, Noting<W>>,
        err: &mut E,
    ) -> u8
        requires works { is_some context.old.files.fault ≡ false }
        requires finished { not (is_some context.old.files.current) ≡ true }
        ensures known { IsKnown result }
        ensures comes { IsTrue (says_harts result) → TypedHasCome
            ⟦<OutputFiles<'a, S> as Sink>⟧.has_failed P.predicts context.old.predict context.old.files line.now.harts
            step.now (read_of read.now.config) (read_of read.now.program) (read_of read.now.lines)
            (W.contents context.old.out.writer) (W.contents context.new.out.writer) result }
        ensures refused { says_harts result ≡ false → (reason : AnyRefused)
            × (exit_status_of reason ≡ result) × IsRefusal line.now.harts (OfProgram (Step step.now))
            (read_of read.now.config) (read_of read.now.program) (Ok []) (read_of read.now.lines) reason }
    {
        let mut reader = self.system.reader();
        let inputs = read.lent();
        let status = perform_typed(context, step, line.harts, &inputs, &mut reader, err);
        context.files.discard();
        if let Some(refused) = context.refused {
            let files = read.faults_with(context.files.fault(), context.out.failure());
            self.hint_of_line(refused, line, inputs, files, err);
        } else {
            self.hinting().tell_nameless(line, &inputs, status, err);
        }
        status
    }
}

/// The command of a line whose script is typed: in its place stands standard input, which is a
/// terminal.
fn typed_step<'a>(line: &Line<'a>, at_terminal: bool) -> Option<StepCommand<'a>>
    ensures { result ≡ typed_step at_terminal line.now.command }
{
    match line.command {
        Command::OfProgram(ProgramCommand::Step(step))
            if at_terminal && is_standard_input(step.script) => { Some(step) }
        _ => None,
    }
}

/// The folder that a line names for the files of ends.
fn folder_of<'a>(line: &Line<'a>) -> Option<&'a str> {
    match line.command {
        Command::OfProgram(ProgramCommand::Run(run)) => run.keep,
        _ => None,
    }
}
