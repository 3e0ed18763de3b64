//! Why each hart that hasn't ended stands where it does, in words.

mod going;
mod stopped;

use going::write_going;
use smt_core::Core;
use smt_model::Status;
use std::io;
use std::io::Write;
use stopped::write_stop;

/// What has ended a run with a hart still going, where that isn't the limit of the history.
#[derive(Clone, Copy, PartialEq, Eq, Drop)]
pub enum RunEnd {
    /// The script has no more asks.
    Script,
    /// An actor has made its last turn.
    Turns,
    /// The trace has no more events.
    Trace,
}

/// Writes a line for each hart that has stopped: at which instruction and why. And a line for each
/// that is going: why the run has ended, and what it waits for. An error is the one that `out`
/// answered.
pub fn report_ends<W: Write>(core: &Core, end: RunEnd, out: &mut W) -> io::Result<()> {
    for hart in 0..core.harts() {
        match core.status(hart) {
            Some(Status::Going) => write_going(core, hart, end, out)?,
            Some(Status::Stopped(cause)) => write_stop(core, hart, cause, out)?,
            Some(Status::Ended(_)) | None => {}
        }
    }
    Ok(())
}
