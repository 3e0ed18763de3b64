//! What is told of a fetch.

use crate::memory::write_writer;
use crate::past::Past;
use crate::places::{Holder, count_in};
use events::{Event, Next};
use numbers::Seq;
use numbers::sizes::LATCH_ROOM;
use std::io;
use std::io::Write;

/// Writes what a fetch of a hart breaks rule 2 by: which hart ICOUNT wants, and the counts of all.
pub(crate) fn write_choice<W: Write>(
    past: &Past<'_>,
    hart: u8,
    wanted: Option<Event>,
    out: &mut W,
) -> io::Result<()> {
    write!(out, "hart: the trace says {hart}, ")?;
    match wanted {
        Some(Event::Fetch { hart: chosen, .. }) => writeln!(out, "ICOUNT wants {chosen}")?,
        _ => out.write_all(b"no hart may be fetched\n")?,
    }
    for hart in 0..past.config.harts {
        write_count(past, hart, out)?;
    }
    write_last(past, out)
}

/// Writes how many instructions of a hart are before their issue, or how it stands.
fn write_count<W: Write>(past: &Past<'_>, hart: u8, out: &mut W) -> io::Result<()> {
    match last_next(past, hart) {
        Some(Next::Ended(_)) => writeln!(out, "hart {hart}: ended"),
        Some(Next::Stopped(_)) => writeln!(out, "hart {hart}: stopped"),
        _ => write_icount(past, hart, out),
    }
}

fn write_icount<W: Write>(past: &Past<'_>, hart: u8, out: &mut W) -> io::Result<()> {
    let fetched = count_in(past, Holder::DecodeLatch(hart));
    let decoded = count_in(past, Holder::RenameLatch(hart));
    let queued = count_in(past, Holder::QueuedOf(hart));
    let icount = fetched.saturating_add(decoded).saturating_add(queued);
    write!(out, "hart {hart}: {icount} in decode, rename and queue")?;
    if fetched >= LATCH_ROOM {
        out.write_all(b", decode latch full")?;
    }
    out.write_all(b"\n")
}

/// Where the retirement leads to that has ended or stopped a hart.
fn last_next(past: &Past<'_>, hart: u8) -> Option<Next> {
    for event in past.events {
        if let Event::Retire { seq, effect, .. } = *event {
            if effect.next.is_last() && past.hart(seq) == Some(hart) {
                return Some(effect.next);
            }
        }
    }
    None
}

fn write_last<W: Write>(past: &Past<'_>, out: &mut W) -> io::Result<()> {
    match past.rows.last() {
        Some(row) => {
            let (hart, place) = (row.hart, row.fetched);
            writeln!(out, "fetched last: hart {hart} (event {place})")
        }
        None => out.write_all(b"fetched last: none\n"),
    }
}

/// Writes what a fetch of a hart breaks rule 4 by: where the hart goes on, and what has sent it there.
pub(crate) fn write_pc<W: Write>(
    past: &Past<'_>,
    hart: u8,
    pc: u32,
    wanted: Option<Event>,
    out: &mut W,
) -> io::Result<()> {
    let Some(Event::Fetch { pc: next, .. }) = wanted else {
        return Ok(());
    };
    write!(out, "pc: the trace says {pc:08x}, ")?;
    write!(out, "hart {hart} goes on at {next:08x}, ")?;
    write_sender(past, hart, out)
}

/// What has said where a hart is fetched next.
#[derive(Clone, Copy, Drop)]
enum Sender {
    Entry,
    /// What the last fetch has predicted.
    Prediction { seq: Seq, place: usize },
    /// A squash.
    Squash { seq: Seq, place: usize },
}

fn sender_of(past: &Past<'_>, hart: u8) -> Sender {
    let mut sender = Sender::Entry;
    for (place, event) in past.events.iter().enumerate() {
        let seq = event.seq();
        if past.hart(seq) == Some(hart) {
            if let Event::Fetch { .. } = *event {
                sender = Sender::Prediction { seq, place };
            } else if sends(past, event) {
                sender = Sender::Squash { seq, place };
            }
        }
    }
    sender
}

/// Whether an event sends its hart elsewhere: a completion that finds another pc than the predicted one, the retirement
/// of a load with another number, or a refetch.
fn sends(past: &Past<'_>, event: &Event) -> bool {
    let Some(row) = past.row(event.seq()) else {
        return false;
    };
    match *event {
        Event::Complete { outcome, .. } => outcome.next.redirect_pc(row.predicted).is_some(),
        Event::Retire { .. } => row.replayed,
        Event::Refetch { .. } => true,
        _ => false,
    }
}

fn write_sender<W: Write>(past: &Past<'_>, hart: u8, out: &mut W) -> io::Result<()> {
    match sender_of(past, hart) {
        Sender::Entry => out.write_all(b"the entry of the image\n"),
        Sender::Prediction { seq, place } => {
            writeln!(out, "predicted by number {seq} (event {place})")
        }
        Sender::Squash { seq, place } => writeln!(
            out,
            "sent there by number {seq} (event {place})"
        ),
    }
}

/// Writes what a fetch breaks rule 5 by: the word that memory has, and who has written it.
pub(crate) fn write_word<W: Write>(
    past: &Past<'_>,
    pc: u32,
    word: Option<u32>,
    wanted: Option<Event>,
    out: &mut W,
) -> io::Result<()> {
    let Some(Event::Fetch { word: now, .. }) = wanted else {
        return Ok(());
    };
    out.write_all(b"word: the trace says ")?;
    write_optional(word, out)?;
    match now {
        Some(now) => {
            write!(out, ", memory has {now:08x}")?;
            write_writer(past, pc, 4, out)?;
        }
        None => out.write_all(b", there is no code")?,
    }
    out.write_all(b"\n")
}

/// Writes a word or none.
pub(crate) fn write_optional<W: Write>(word: Option<u32>, out: &mut W) -> io::Result<()> {
    match word {
        Some(word) => write!(out, "{word:08x}"),
        None => out.write_all(b"-"),
    }
}
