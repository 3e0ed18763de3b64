//! What is in which place of the pipeline.

use crate::past::{Past, is_live, op_of};
use chart_rows::Row;
use numbers::Seq;
use rv_instr::Op;
use std::io;
use std::io::Write;

/// A place of the pipeline that holds instructions.
#[derive(Clone, Copy, Drop)]
pub(crate) enum Holder {
    /// The decode latch of a hart.
    DecodeLatch(u8),
    RenameLatch(u8),
    /// The instructions in flight of a hart.
    Flight(u8),
    /// The loads among these.
    Loads(u8),
    /// The stores among these.
    Stores(u8),
    /// The issue queue of all harts.
    Queue,
    /// What a hart has in it.
    QueuedOf(u8),
}

/// Whether an instruction stands in a place.
pub(crate) fn stands_in(row: &Row, holder: Holder) -> bool {
    if !is_live(row) {
        return false;
    }
    match holder {
        Holder::DecodeLatch(hart) => row.hart == hart && row.decoded.is_none(),
        Holder::RenameLatch(hart) => {
            row.hart == hart && row.decoded.is_some() && row.renamed.is_none()
        }
        Holder::Flight(hart) => is_in_flight(row, hart),
        Holder::Loads(hart) => is_in_flight(row, hart) && is_load(op_of(row)),
        Holder::Stores(hart) => is_in_flight(row, hart) && is_store(op_of(row)),
        Holder::Queue => is_queued(row),
        Holder::QueuedOf(hart) => row.hart == hart && is_queued(row),
    }
}

fn is_in_flight(row: &Row, hart: u8) -> bool {
    row.hart == hart && row.renamed.is_some()
}

fn is_queued(row: &Row) -> bool {
    row.renamed.is_some() && row.issued.is_none()
}

fn is_load(op: Op) -> bool {
    op.kind().is_loading()
}

fn is_store(op: Op) -> bool {
    op.kind().is_storing()
}

/// The oldest instruction in a place.
pub(crate) fn oldest_in(past: &Past<'_>, holder: Holder) -> Option<Seq> {
    for (seq, row) in past.rows.iter().enumerate() {
        if stands_in(row, holder) {
            return u32::try_from(seq).ok();
        }
    }
    None
}

/// How many instructions there are in a place.
pub(crate) fn count_in(past: &Past<'_>, holder: Holder) -> usize {
    let mut count = 0usize;
    for row in past.rows {
        if stands_in(row, holder) {
            count = count.saturating_add(1);
        }
    }
    count
}

/// Writes the numbers of the instructions in a place that has room for so many.
pub(crate) fn write_holder<W: Write>(
    past: &Past<'_>,
    holder: Holder,
    room: usize,
    out: &mut W,
) -> io::Result<()> {
    write_name(holder, out)?;
    let count = count_in(past, holder);
    write!(out, ": {count} of {room}:")?;
    for (seq, row) in past.rows.iter().enumerate() {
        if stands_in(row, holder) {
            write!(out, " {seq}")?;
        }
    }
    out.write_all(b"\n")
}

fn write_name<W: Write>(holder: Holder, out: &mut W) -> io::Result<()> {
    match holder {
        Holder::DecodeLatch(hart) => write!(out, "decode latch of hart {hart}"),
        Holder::RenameLatch(hart) => write!(out, "rename latch of hart {hart}"),
        Holder::Flight(hart) => write!(out, "in flight of hart {hart}"),
        Holder::Loads(hart) => write!(out, "loads in flight of hart {hart}"),
        Holder::Stores(hart) => write!(out, "stores in flight of hart {hart}"),
        Holder::Queue => out.write_all(b"queue"),
        Holder::QueuedOf(hart) => write!(out, "queue of hart {hart}"),
    }
}
