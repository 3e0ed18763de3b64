//! Why instructions are squashed.

ghost use Rattle.std.specs.Prelude.{◌≡◌};
ghost use Rattle.chart_rows.specs.Causes.{at_retirement, cause_as, goes_to};

use events::{Event, Next};

/// Why an event squashes the younger instructions of its hart.
#[derive(Clone, Copy, PartialEq, Eq, Drop)]
pub enum Cause {
    /// A completion found that its hart goes on at another pc than was predicted: they were fetched on a wrong path.
    Mispredicted { to: u32, predicted: u32 },
    /// A load retired with another number than it had completed with.
    Replayed,
    /// A retirement ended their hart.
    Ended,
    /// A retirement stopped their hart.
    Stopped,
    /// An instruction is fetched again, since another word stands at its pc now; it is squashed itself as well.
    Refetched,
}

/// Why an event of an instruction with this predicted pc squashes others, where it does. Of an event that squashes
/// none it says nothing.
pub(crate) fn cause_as(event: &Event, predicted: u32) -> Cause
    ensures { result ≡ cause_as event.now predicted }
{
    match *event {
        Event::Complete { outcome, .. } => Cause::Mispredicted {
            to: goes_to(outcome.next),
            predicted,
        },
        Event::Retire { effect, .. } => at_retirement(effect.next),
        _ => Cause::Refetched,
    }
}

/// Where a hart goes on; 0 where it doesn't.
fn goes_to(next: Next) -> u32
    ensures { result ≡ goes_to next }
{
    match next {
        Next::Pc(pc) => pc,
        Next::Ended(_) | Next::Stopped(_) => 0,
    }
}

/// Why a retirement squashes the younger ones: it is the last of its hart, or of a load that is replayed.
fn at_retirement(next: Next) -> Cause
    ensures { result ≡ at_retirement next }
{
    match next {
        Next::Pc(_) => Cause::Replayed,
        Next::Ended(_) => Cause::Ended,
        Next::Stopped(_) => Cause::Stopped,
    }
}
