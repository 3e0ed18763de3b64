//! Who has written what memory has, and who has reserved a word of it.

use crate::past::{Past, is_live, op_of};
use chart_rows::Row;
use events::{Event, Next, Outcome, Written};
use numbers::Seq;
use rv_execute::access_size;
use rv_instr::Kind;
use std::io;
use std::io::Write;

/// An instruction, and the place of the event of it that is meant.
#[derive(Clone, Copy, Drop)]
pub(crate) struct Doer {
    pub(crate) seq: Seq,
    pub(crate) place: usize,
}

/// The last retirement that wrote one of these bytes.
pub(crate) fn writer_of(past: &Past<'_>, addr: u32, size: u8) -> Option<Doer> {
    let mut found = None;
    for (place, event) in past.events.iter().enumerate() {
        if let Event::Retire { seq, effect, .. } = *event {
            if overlaps(effect.write, addr, size) {
                found = Some(Doer { seq, place });
            }
        }
    }
    found
}

fn overlaps(write: Option<Written>, addr: u32, size: u8) -> bool {
    let Some(write) = write else {
        return false;
    };
    u64::from(write.addr) < u64::from(addr) + u64::from(size)
        && u64::from(addr) < u64::from(write.addr) + u64::from(write.n)
}

/// Writes who has written these bytes last, behind a comma.
pub(crate) fn write_writer<W: Write>(
    past: &Past<'_>,
    addr: u32,
    size: u8,
    out: &mut W,
) -> io::Result<()> {
    match writer_of(past, addr, size) {
        Some(doer) => write_doer(past, ", written by", doer, out),
        None => out.write_all(b", from the image"),
    }
}

/// Writes who has done something, and by which event.
pub(crate) fn write_doer<W: Write>(
    past: &Past<'_>,
    what: &str,
    doer: Doer,
    out: &mut W,
) -> io::Result<()> {
    let Doer { seq, place } = doer;
    let hart = past.hart(seq).unwrap_or(0);
    write!(out, "{what} number {seq} of hart {hart} (event {place})")
}

/// The youngest store of a load's hart that is older than the load, in flight and completed, and shares a byte with its
/// access: what the first look sees of it goes over memory.
pub(crate) fn forwarding_store(past: &Past<'_>, load: Seq, addr: u32, size: u8) -> Option<Doer> {
    let hart = past.hart(load)?;
    let mut found = None;
    for seq in 0..load {
        if let Some(row) = past.row(seq) {
            if let Some(place) = stored_at(past, &row, hart, addr, size) {
                found = Some(Doer {
                    seq,
                    place: place as usize,
                });
            }
        }
    }
    found
}

/// The place of the completion of a store in flight that shares a byte with an access.
fn stored_at(past: &Past<'_>, row: &Row, hart: u8, addr: u32, size: u8) -> Option<u32> {
    let op = op_of(row);
    if row.hart != hart || !is_live(row) || !op.kind().is_storing() {
        return None;
    }
    let place = row.completed?;
    let outcome = completion_at(past, place)?;
    let write = Written {
        addr: outcome.addr?,
        n: access_size(op),
        datum: 0,
    };
    if overlaps(Some(write), addr, size) {
        Some(place)
    } else {
        None
    }
}

/// The outcome of the completion at a place.
pub(crate) fn completion_at(past: &Past<'_>, place: u32) -> Option<Outcome> {
    match past.event(place) {
        Some(Event::Complete { outcome, .. }) => Some(outcome),
        _ => None,
    }
}

/// What has become of the last word that a hart has reserved.
#[derive(Clone, Copy, Drop)]
enum Reservation {
    Never,
    /// It is reserved, by this LR.
    Held { addr: u32, by: Doer },
    /// It was, until this instruction.
    Ended { addr: u32, by: Doer },
}

fn reservation_of(past: &Past<'_>, hart: u8) -> Reservation {
    let mut reservation = Reservation::Never;
    for (place, event) in past.events.iter().enumerate() {
        if let Event::Retire { seq, effect, .. } = *event {
            if let Next::Pc(_) = effect.next {
                let by = Doer { seq, place };
                reservation = reserved_behind(past, hart, reservation, by, effect.write);
            }
        }
    }
    reservation
}

/// What a retirement that neither ends nor stops its hart leaves of a hart's reservation.
fn reserved_behind(
    past: &Past<'_>,
    hart: u8,
    before: Reservation,
    by: Doer,
    write: Option<Written>,
) -> Reservation {
    if past.hart(by.seq) == Some(hart) {
        match past.op(by.seq).kind() {
            Kind::Reserving => return reserved_by(past, by),
            Kind::Conditional => return ended(before, by),
            _ => {}
        }
    }
    match before {
        Reservation::Held { addr, .. } if overlaps(write, addr - addr % 4, 4) => ended(before, by),
        before => before,
    }
}

fn reserved_by(past: &Past<'_>, by: Doer) -> Reservation {
    match accessed_by(past, by.seq) {
        Some(addr) => Reservation::Held { addr, by },
        None => Reservation::Never,
    }
}

/// The address that a completed instruction accesses.
pub(crate) fn accessed_by(past: &Past<'_>, seq: Seq) -> Option<u32> {
    completion_at(past, past.row(seq)?.completed?)?.addr
}

fn ended(before: Reservation, by: Doer) -> Reservation {
    match before {
        Reservation::Held { addr, .. } => Reservation::Ended { addr, by },
        before => before,
    }
}

/// Writes what a hart has reserved, and since when.
pub(crate) fn write_reservation<W: Write>(
    past: &Past<'_>,
    hart: u8,
    out: &mut W,
) -> io::Result<()> {
    match reservation_of(past, hart) {
        Reservation::Never => write!(out, "hart {hart} has never reserved a word")?,
        Reservation::Held { addr, by } => {
            write!(out, "hart {hart} has reserved {addr:08x}")?;
            write_doer(past, ", by", by, out)?;
        }
        Reservation::Ended { addr, by } => {
            write!(out, "hart {hart} had reserved {addr:08x}")?;
            write_doer(past, ", until", by, out)?;
        }
    }
    out.write_all(b"\n")
}
