//! Which store a load looks again for.

ghost use Rattle.std.specs.Prelude.{◌≡◌, IfSome, IfNone};
ghost use Rattle.smt_model.specs.Touched.{shares_byte, touches_access};
ghost use Rattle.chart_rows.specs.Looks.{HasNoWrite, IsLastWrite, IsStoreBetween, IsUntouched};
ghost use Rattle.chart_rows.specs.Looks.{address_of, writes_at, writes_into};

use crate::row::Row;
use events::{Event, Written};
use rv_decode::{Op, decode_op};
use rv_execute::access_size;

/// The place of the last write, between the completion of a row's load and its retirement, that shares a byte with what
/// it loads: for its sake the load looks again as it retires. None where there is no such write, so no need of a second
/// look, and of an instruction that isn't a load, or hasn't retired. The row is one of these events.
pub fn store_between(events: &[Event], row: &Row) -> Option<u32>
    ensures some { IfSome result (IsStoreBetween events.now row.now) }
    ensures none { IfNone result (IsUntouched events.now row.now) }
{
    let (Some(from), Some(to)) = (row.completed, row.retired) else {
        return None;
    };
    let address = address_of(events, row.completed);
    last_write(events, decode_op(row.word), address, from, to)
}

/// The last place between two of them at which such an access is written to.
fn last_write(events: &[Event], op: Op, address: Option<u32>, from: u32, to: u32) -> Option<u32>
    ensures some { IfSome result (IsLastWrite events.now op address from to) }
    ensures none { IfNone result (HasNoWrite events.now op address from to) }
{
    for later in from.saturating_add(1)..to {
        let place = to - (later - from);
        if writes_at(events, op, address, place) {
            return Some(place);
        }
    }
    None
}

/// What an instruction accesses, as the event says at which it completed.
fn address_of(events: &[Event], completed: Option<u32>) -> Option<u32>
    ensures { result ≡ address_of events.now completed }
{
    match events.get(completed? as usize)? {
        Event::Complete { outcome, .. } => outcome.addr,
        _ => None,
    }
}

/// Whether the event at a place writes into what is accessed by an instruction that loads.
fn writes_at(events: &[Event], op: Op, address: Option<u32>, place: u32) -> bool
    ensures { result ≡ writes_at events.now op address place }
{
    match events.get(place as usize) {
        Some(event) => writes_into(op, address, event),
        None => false,
    }
}

fn writes_into(op: Op, address: Option<u32>, event: &Event) -> bool
    ensures { result ≡ writes_into op address event.now }
{
    match *event {
        Event::Retire { effect, .. } => {
            op.kind().is_loading() && touches_access(effect.write, op, address)
        }
        _ => false,
    }
}

/// Whether a write shares a byte with an instruction's access at this address.
fn touches_access(write: Option<Written>, op: Op, address: Option<u32>) -> bool
    ensures { result ≡ touches_access write op address }
{
    match (write, address) {
        (Some(write), Some(address)) => {
            let (size, written) = (u64::from(access_size(op)), u64::from(write.n));
            let (first, start) = (u64::from(address), u64::from(write.addr));
            written > 0 && size > 0 && start < first + size && first < start + written
        }
        _ => false,
    }
}
