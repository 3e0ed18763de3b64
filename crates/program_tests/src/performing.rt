//! Lines of the program, performed on files that are handed in.

ghost use Rattle.std.specs.Prelude.{◌≡◌, false, true};

use actors::{Open, StaticPredictor};
use command_parts::{Context, Inputs, Unread};
use commands::perform;
use event_text::Over;
use sim_inputs::Line;
use smt_core::Predict;
use std::alloc::Global;
use std::io::Write;
use std::sync::Wait;
use std::thread::Threads;
use stress_runs::EndFiles;

/// The exit status, and what was written to standard error.
#[derive(Drop)]
pub struct Ending {
    pub status: u8,
    pub err: Vec<u8>,
}

/// What a line is performed with whose files go into a sink, and that prints on an output.
pub fn context_of<'a, P, S, W, R>(
    rt: &'a R,
    predict: P,
    files: S,
    out: W,
    alloc: Global,
) -> Context<'a, R, Open, P, S, W>
    ensures { result.files ≡ files }
{
    Context {
        rt,
        gate: &Open,
        predict,
        files,
        out,
        refused: None,
        alloc,
    }
}

/// Performs a line with this.
pub fn perform_with<P: Predict + Copy + Send, S: EndFiles, W: Write, R: Threads + Wait + Sync>(
    context: &mut Context<'_, R, Open, P, S, W>,
    line: &Line<'_>,
    inputs: &Inputs<'_>,
) -> Ending
    requires works { S.has_failed context.old.files ≡ false }
    requires finished { S.is_finished context.old.files ≡ true }
{
    let mut err = Vec::new(context.alloc);
    let status = perform(context, line, inputs, &mut err);
    Ending { status, err }
}

/// Performs a line that writes no trace.
pub fn perform_line<P: Predict + Copy + Send, W: Write, R: Threads + Wait + Sync>(
    rt: &R,
    line: &Line<'_>,
    inputs: &Inputs<'_>,
    predict: P,
    out: &mut W,
    alloc: Global,
) -> Ending {
    let mut context = context_of(rt, predict, Over::new(Vec::new(alloc)), out, alloc);
    perform_with(&mut context, line, inputs)
}

/// The files of a line: those of its configuration and its image as they are, and the one that is a
/// script, an order or a trace as it was read.
pub fn inputs_of<'a>(
    config: &'a [u8],
    image: &'a [u8],
    second: Result<&'a [u8], Unread>,
) -> Inputs<'a> {
    Inputs {
        config: Ok(config),
        program: Ok(image),
        second,
        lines: Ok(b""),
    }
}

/// The files of a line, where all could be read.
pub fn read_inputs_of<'a>(config: &'a [u8], image: &'a [u8], second: &'a [u8]) -> Inputs<'a> {
    inputs_of(config, image, Ok(second))
}

/// All that a line comes to: its exit status, and what it wrote to standard output and to standard
/// error.
#[derive(Drop)]
pub struct Performed {
    pub status: u8,
    pub out: Vec<u8>,
    pub err: Vec<u8>,
}

/// Performs a line that writes no trace, under the program's own predictor, and takes what it prints.
pub fn perform_whole<R: Threads + Wait + Sync>(
    rt: &R,
    line: &Line<'_>,
    inputs: &Inputs<'_>,
    alloc: Global,
) -> Performed {
    let mut out = Vec::new(alloc);
    let Ending { status, err } = perform_line(rt, line, inputs, StaticPredictor, &mut out, alloc);
    Performed { status, out, err }
}
