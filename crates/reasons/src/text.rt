//! The words of a reason.

use crate::reason::{Progress, Reason};
use numbers::sizes::{MOST_ACCESSES, MOST_IN_FLIGHT};
use numbers::{Reg, Seq};
use rv_instr::{UnitKind, unit_name};
use std::fmt;

impl Reason {
    /// The words of a reason that names nothing.
    fn text(self) -> Option<&'static str> {
        match self {
            Reason::Full => Some("the history is full"),
            Reason::NoActor { .. } => Some("no such actor"),
            Reason::NoHartGoes => Some("no hart is going"),
            Reason::DecodeLatchesFull => Some("decode latch full of each hart that is going"),
            Reason::RenameLatchFull { .. } => Some("rename latch full"),
            Reason::QueueFull => Some("queue full"),
            Reason::NoFreeRegister => Some("no free register"),
            _ => None,
        }
    }
}

impl fmt::Display for Reason {
    fn fmt<W: fmt::Write>(&self, f: &mut fmt::Formatter<W>) -> fmt::Result {
        if let Some(text) = self.text() {
            return f.write_str(text);
        }
        match *self {
            Reason::NotReady {
                kind,
                seq,
                register,
                writer,
                progress,
            } => write_not_ready(f, kind, seq, register, writer, progress),
            Reason::NotCompleted { seq, progress } => write_not_completed(f, seq, progress),
            Reason::HasJob { actor, seq } => write_job(f, actor, seq),
            Reason::NothingQueued { kind } => write_kind(f, kind),
            Reason::FlightFull { .. } => write!(f, "{MOST_IN_FLIGHT} instructions in flight"),
            Reason::LoadsFull { .. } => write!(f, "{MOST_ACCESSES} loads in flight"),
            Reason::StoresFull { .. } => write!(f, "{MOST_ACCESSES} stores in flight"),
            reason => write_named(f, reason),
        }
    }
}

/// The words of a reason that names a hart or an actor.
fn write_named<W: fmt::Write>(f: &mut fmt::Formatter<W>, reason: Reason) -> fmt::Result {
    match reason {
        Reason::NoHart { hart } => write_around(f, "hart ", hart, " isn't there"),
        Reason::HartEnded { hart } => write_around(f, "hart ", hart, " has ended"),
        Reason::HartStopped { hart } => write_around(f, "hart ", hart, " has stopped"),
        Reason::NothingFetched { hart } => write_around(f, "nothing fetched of hart ", hart, ""),
        Reason::NothingDecoded { hart } => write_around(f, "nothing decoded of hart ", hart, ""),
        Reason::NothingInFlight { hart } => {
            write_around(f, "nothing in flight of hart ", hart, "")
        }
        Reason::NoUnit { actor } => write_around(f, "actor ", actor, " is no unit"),
        Reason::HasNoJob { actor } => write_around(f, "actor ", actor, " has no job"),
        _ => Ok(()),
    }
}

fn write_around<W: fmt::Write>(
    f: &mut fmt::Formatter<W>,
    before: &str,
    number: u8,
    behind: &str,
) -> fmt::Result {
    write!(f, "{before}{number}{behind}")
}

fn write_job<W: fmt::Write>(f: &mut fmt::Formatter<W>, actor: u8, seq: Seq) -> fmt::Result {
    write!(f, "actor {actor} has a job: number {seq}")
}

fn write_kind<W: fmt::Write>(f: &mut fmt::Formatter<W>, kind: UnitKind) -> fmt::Result {
    f.write_str("nothing in the queue for ")?;
    f.write_str(unit_name(&kind))
}

fn write_not_completed<W: fmt::Write>(
    f: &mut fmt::Formatter<W>,
    seq: Seq,
    progress: Progress,
) -> fmt::Result {
    let progress = progress_name(progress);
    write!(f, "oldest, number {seq}, is {progress} and not completed")
}

fn write_not_ready<W: fmt::Write>(
    f: &mut fmt::Formatter<W>,
    kind: UnitKind,
    seq: Seq,
    register: Reg,
    writer: Seq,
    progress: Progress,
) -> fmt::Result {
    f.write_str("nothing ready for ")?;
    f.write_str(unit_name(&kind))?;
    write_waiting(f, seq, register)?;
    let progress = progress_name(progress);
    write!(f, " of number {writer} ({progress})")
}

fn write_waiting<W: fmt::Write>(f: &mut fmt::Formatter<W>, seq: Seq, register: Reg) -> fmt::Result {
    write!(f, ": the oldest, number {seq}, waits for x{register}")
}

fn progress_name(progress: Progress) -> &'static str {
    match progress {
        Progress::Renamed => "renamed",
        Progress::Issued => "issued",
        Progress::Completed => "completed",
    }
}
