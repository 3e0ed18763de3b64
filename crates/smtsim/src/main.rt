//! The program `smtsim`: hands its words, its files, standard output and standard error to
//! `perform_words`, with the gate that shows on a terminal how far a run is, and the static predictor.
//! Standard streams that are closed are held before.
#![tactic(auto)]

use actors::StaticPredictor;
use program_io::{Program, Progress, hold_closed_streams, perform_words, refuse_unopened};
use std::io::{BufWriter, IsTerminal};
use std::process::ExitCode;
use std::{env, io};

fn main(rt: HostRuntime) -> ExitCode {
    // Until the end no file that is opened is a standard stream, and so takes what is printed.
    let _held = hold_closed_streams(&rt);
    let mut err = rt.stderr();
    // Only on a terminal is it shown how far a run is, so standard error in a file stays as it is.
    let on_terminal = err.is_terminal();
    // Only from a terminal is a script typed a line at a time.
    let at_terminal = rt.stdin().is_terminal();
    let progress = Progress::new(&rt, err, on_terminal);
    let program = Program {
        system: &rt,
        gate: &progress,
        predict: StaticPredictor,
        at_terminal,
        on_terminal,
        alloc: rt.alloc(),
    };
    match BufWriter::new(rt.alloc(), io::writer(&rt)) {
        Ok(out) => {
            let performed = perform_words(&program, env::args(&rt), out, &mut err);
            ExitCode::from(performed.status)
        }
        Err(_) => ExitCode::from(refuse_unopened(&mut err)),
    }
}
