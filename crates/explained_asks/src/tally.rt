//! How often each reason came, of those for which no step was made and of those for which
//! instructions were squashed.

ghost use Rattle.std.specs.Prelude.{◌<◌};

use crate::squash::Cause;
use numbers::sizes::{MOST_ACCESSES, MOST_IN_FLIGHT};
use reasons::Reason;
use std::io;
use std::io::Write;

/// How many are told apart.
const KINDS: usize = 27;

// They stand in the names.
const _: () = prove!(MOST_IN_FLIGHT == 64);

const _: () = prove!(MOST_ACCESSES == 16);

/// What is told apart, in the order in which it is written.
fn names() -> [&'static str; KINDS] {
    [
        "the history is full",
        "no such actor",
        "no such hart",
        "the hart has ended",
        "the hart has stopped",
        "no hart is going",
        "decode latches full",
        "nothing fetched",
        "rename latch full",
        "nothing decoded",
        "queue full",
        "64 instructions in flight",
        "16 loads in flight",
        "16 stores in flight",
        "no free register",
        "nothing in flight",
        "the oldest is not completed",
        "the actor is no unit",
        "the actor has a job",
        "the actor has no job",
        "nothing in the queue for the unit",
        "nothing ready for the unit",
        "squash: mispredicted",
        "squash: replayed",
        "squash: refetched",
        "squash: hart ended",
        "squash: hart stopped",
    ]
}

/// How often each came.
#[derive(Drop)]
pub(crate) struct Tally {
    counts: [u64; KINDS],
}

impl Tally {
    /// Nothing came.
    pub(crate) fn new() -> Self {
        Tally { counts: [0; KINDS] }
    }

    /// A step wasn't made for this reason.
    pub(crate) fn count_reason(&mut self, reason: Reason) {
        self.count(place_of_reason(reason));
    }

    /// Instructions were squashed for this cause.
    pub(crate) fn count_cause(&mut self, cause: Cause) {
        self.count(place_of_cause(cause));
    }

    fn count(&mut self, place: usize)
        requires { place < 27 }
    {
        self.counts[place] = self.counts[place].saturating_add(1);
    }

    /// Writes a line for each that came: `why`, how often, and its name.
    pub(crate) fn write<W: Write>(&self, out: &mut W) -> io::Result<()> {
        let names = names();
        for place in 0..KINDS {
            write_count(self.counts[place], names[place], out)?;
        }
        Ok(())
    }
}

fn write_count<W: Write>(count: u64, name: &str, out: &mut W) -> io::Result<()> {
    if count == 0 {
        return Ok(());
    }
    write!(out, "why {count} {name}\n")
}

fn place_of_reason(reason: Reason) -> usize
    ensures { result < 27 }
{
    match reason {
        Reason::Full => 0,
        Reason::NoActor { .. } => 1,
        Reason::NoHart { .. } => 2,
        Reason::HartEnded { .. } => 3,
        Reason::HartStopped { .. } => 4,
        Reason::NoHartGoes => 5,
        Reason::DecodeLatchesFull => 6,
        Reason::NothingFetched { .. } => 7,
        Reason::RenameLatchFull { .. } => 8,
        Reason::NothingDecoded { .. } => 9,
        Reason::QueueFull => 10,
        Reason::FlightFull { .. } => 11,
        Reason::LoadsFull { .. } => 12,
        Reason::StoresFull { .. } => 13,
        Reason::NoFreeRegister => 14,
        Reason::NothingInFlight { .. } => 15,
        Reason::NotCompleted { .. } => 16,
        Reason::NoUnit { .. } => 17,
        Reason::HasJob { .. } => 18,
        Reason::HasNoJob { .. } => 19,
        Reason::NothingQueued { .. } => 20,
        Reason::NotReady { .. } => 21,
    }
}

fn place_of_cause(cause: Cause) -> usize
    ensures { result < 27 }
{
    match cause {
        Cause::Mispredicted { .. } => 22,
        Cause::Replayed { .. } => 23,
        Cause::Refetched { .. } => 24,
        Cause::HartEnded => 25,
        Cause::HartStopped => 26,
    }
}
