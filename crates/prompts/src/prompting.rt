//! One line after another: read, answered, printed.

ghost use Rattle.std.specs.Prelude.{◌≡◌, [], IfOk, OnOk, true, false, Err};
ghost use Rattle.std.specs.Io.KnownBytes.{Appends};
ghost use Rattle.core_state.specs.Setup.{setup_of};
ghost use Rattle.smt_model.specs.Setup.{is_accepted};
ghost use Rattle.text_fields.specs.Printing.{Prints};
ghost use Rattle.prompts.specs.Kept.{Stands};
ghost use Rattle.prompts.specs.Printed.{complaint_text, sign};
ghost use Rattle.prompts.specs.Answers.{answer_text};
ghost use Rattle.prompts.specs.Session.{IsSession, IsTurn, standing_of};
ghost use Rattle.prompts.specs.Prompted.{HasTyped, IsPrompted};

use crate::command::{Command, read_command};
use crate::session::{Complaint, Session};
use crate::simulation::Simulation;
use crate::typed::next_line;
use arrayvec::ArrayString;
use numbers::sizes::MOST_ACTORS;
use smt_core::{Core, CoreRefused, Predict};
use std::io::{BufRead, Write};
use text_fields::{push_ascii, push_decimal};

/// What stands where a line is to be typed.
const SIGN: &[u8] = b"> ";

/// How the lines came to their end.
#[derive(Clone, Copy, PartialEq, Eq, Drop)]
pub enum Ended {
    /// One said so.
    Quit,
    /// The input had no more.
    Input,
    /// A line couldn't be read.
    Unread,
}

/// The core that was asked the words of all lines that were kept.
#[derive(Drop)]
pub struct Prompted {
    pub core: Core,
    /// How many asks of each actor were answered idle.
    pub idle: [u64; MOST_ACTORS],
    pub ended: Ended,
}

/// Why there is no such core.
#[derive(Clone, Copy, PartialEq, Eq, Drop)]
pub enum PromptRefused {
    /// The configuration and the limit are no core's.
    Config,
    /// There isn't enough memory for the core.
    Memory,
    /// The output took no more.
    Output,
}

/// The output took no more.
#[derive(Clone, Copy, PartialEq, Eq, Drop)]
struct Unwritten;

/// Reads lines and answers each, until one says `quit` or there are no more (docs/FORMATS.md). A line
/// of words is asked, and each of its asks answered as `run_script` does; with `why` its asks are
/// explained.
///
/// What is answered has the core that was asked the words of all lines that are kept, one after
/// another and nothing else: so it is the core of the script of these words. What is printed are the
/// answers of all lines, in order, each behind the sign of its line.
pub fn prompt<P: Predict + Copy, R: BufRead, W: Write>(
    simulation: &Simulation<'_, P>,
    why: bool,
    reader: &mut R,
    out: &mut W,
) -> Result<Prompted, PromptRefused>
    ensures prompted { IfOk result (λ prompted. Prints (W.contents out.old) (W.contents out.new)
        (IsPrompted P.predicts simulation.now.predict
        (setup_of simulation.now.image.now simulation.now.config.now) simulation.now.limit why
        (R.remaining reader.old) prompted.ended prompted.core prompted.idle)) }
    ensures accepted { OnOk result
        (is_accepted (setup_of simulation.now.image.now simulation.now.config.now)
        simulation.now.limit ≡ true) }
    ensures refused { result ≡ Err PromptRefused.Config
        → is_accepted (setup_of simulation.now.image.now simulation.now.config.now)
        simulation.now.limit ≡ false }
    ensures unwritten { result ≡ Err PromptRefused.Output
        → is_accepted (setup_of simulation.now.image.now simulation.now.config.now)
        simulation.now.limit ≡ true }
{
    let mut session = match Session::new(simulation) {
        Ok(session) => session,
        Err(CoreRefused::Config) => return Err(PromptRefused::Config),
        Err(CoreRefused::Memory) => return Err(PromptRefused::Memory),
    };
    match answer_all(&mut session, simulation, why, reader, out) {
        Ok(ended) => {
            let (core, idle) = session.into_asked();
            Ok(Prompted { core, idle, ended })
        }
        Err(Unwritten) => Err(PromptRefused::Output),
    }
}

/// Reads and answers all lines.
fn answer_all<P: Predict + Copy, R: BufRead, W: Write>(
    session: &mut Session,
    simulation: &Simulation<'_, P>,
    why: bool,
    reader: &mut R,
    out: &mut W,
) -> Result<Ended, Unwritten>
    requires session { IsSession P.predicts simulation.now.predict
        (setup_of simulation.now.image.now simulation.now.config.now) simulation.now.limit
        session.old }
    requires none { session.old.lines.items ≡ [] }
    ensures typed { IfOk result (λ ended. Prints (W.contents out.old) (W.contents out.new)
        (HasTyped (Stands P.predicts simulation.now.predict
        (setup_of simulation.now.image.now simulation.now.config.now) simulation.now.limit) why
        (R.remaining reader.old) (standing_of session.new) ended)) }
    ensures session { OnOk result (IsSession P.predicts simulation.now.predict
        (setup_of simulation.now.image.now simulation.now.config.now) simulation.now.limit
        session.new) }
{
    // Counted, so that it provably ends: nobody types 2^64 lines.
    for _turn in 0..u64::MAX {
        match answer_next(session, simulation, why, reader, out)? {
            Some(ended) => return Ok(ended),
            None => {}
        }
    }
    show_sign(out)?;
    complain(Complaint::Unread, out)?;
    Ok(Ended::Unread)
}

/// Reads the next line and answers it. Tells how the lines came to their end, if they did.
fn answer_next<P: Predict + Copy, R: BufRead, W: Write>(
    session: &mut Session,
    simulation: &Simulation<'_, P>,
    why: bool,
    reader: &mut R,
    out: &mut W,
) -> Result<Option<Ended>, Unwritten>
    requires { IsSession P.predicts simulation.now.predict
        (setup_of simulation.now.image.now simulation.now.config.now) simulation.now.limit
        session.old }
    ensures turn { IfOk result (λ ended. Prints (W.contents out.old) (W.contents out.new)
        (IsTurn why (R.remaining reader.old) (R.remaining reader.new) (standing_of session.old)
        (standing_of session.new) ended)) }
    ensures session { OnOk result (IsSession P.predicts simulation.now.predict
        (setup_of simulation.now.image.now simulation.now.config.now) simulation.now.limit
        session.new) }
{
    show_sign(out)?;
    let line = match next_line(reader, simulation.alloc) {
        Ok(Some(line)) => line,
        Ok(None) => {
            put(b"\n", out)?;
            return Ok(Some(Ended::Input));
        }
        Err(complaint) => {
            complain(complaint, out)?;
            return Ok(Some(Ended::Unread));
        }
    };
    if let Some(Command::Quit) = read_command(line.as_slice()) {
        return Ok(Some(Ended::Quit));
    }
    let answer = session.answer(simulation, why, line.as_slice());
    print_answer(answer, out)?;
    Ok(None)
}

/// Prints what a line is answered.
fn print_answer<W: Write>(answer: Result<Vec<u8>, Complaint>, out: &mut W) -> Result<(), Unwritten>
    ensures { OnOk result
        (Appends (W.contents out.old) (W.contents out.new) (answer_text answer)) }
{
    match answer {
        Ok(text) => put(text.as_slice(), out),
        Err(complaint) => complain(complaint, out),
    }
}

/// Shows that a line may be typed.
fn show_sign<W: Write>(out: &mut W) -> Result<(), Unwritten>
    ensures { OnOk result (Appends (W.contents out.old) (W.contents out.new) sign) }
{
    put(SIGN, out)?;
    match out.flush() {
        Ok(()) => Ok(()),
        Err(_) => Err(Unwritten),
    }
}

/// Says why a line does nothing.
fn complain<W: Write>(complaint: Complaint, out: &mut W) -> Result<(), Unwritten>
    ensures { OnOk result
        (Appends (W.contents out.old) (W.contents out.new) (complaint_text complaint)) }
{
    put(line_of(complaint).as_bytes(), out)
}

fn line_of(complaint: Complaint) -> ArrayString<64>
    ensures { result.bytes ≡ complaint_text complaint }
{
    let mut line = ArrayString::new();
    line.push_str("smtsim: ");
    match complaint {
        Complaint::Word(number) => {
            line.push_str("script word ");
            push_decimal(&mut line, number);
            line.push_str(" refused");
        }
        Complaint::TooLong => line.push_str("line of more than 4096 bytes"),
        Complaint::Memory => line.push_str("memory"),
        Complaint::Unread => line.push_str("file"),
    }
    push_ascii(&mut line, b'\n');
    line
}

fn put<W: Write>(text: &[u8], out: &mut W) -> Result<(), Unwritten>
    ensures { OnOk result (Appends (W.contents out.old) (W.contents out.new) text.now) }
{
    match out.write_all(text) {
        Ok(()) => Ok(()),
        Err(_) => Err(Unwritten),
    }
}
