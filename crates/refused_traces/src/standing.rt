//! Where an instruction stands.

use crate::past::Past;
use chart_rows::Row;
use events::Event;
use numbers::Seq;
use std::io;
use std::io::Write;

/// Where an instruction stands, and since which event.
#[derive(Clone, Copy, Drop)]
enum Standing {
    Unknown,
    Fetched(u32),
    Decoded(u32),
    Renamed(u32),
    Issued(u32),
    Completed(u32),
    Retired(u32),
    Squashed { by: Seq, place: u32 },
}

fn standing_of(row: Option<Row>) -> Standing {
    let Some(row) = row else {
        return Standing::Unknown;
    };
    if let Some(squash) = row.squashed {
        return Standing::Squashed {
            by: squash.by,
            place: squash.place,
        };
    }
    if let Some(place) = row.retired {
        return Standing::Retired(place);
    }
    if let Some(place) = row.completed {
        return Standing::Completed(place);
    }
    standing_before_completion(&row)
}

fn standing_before_completion(row: &Row) -> Standing {
    if let Some(place) = row.issued {
        return Standing::Issued(place);
    }
    if let Some(place) = row.renamed {
        return Standing::Renamed(place);
    }
    match row.decoded {
        Some(place) => Standing::Decoded(place),
        None => Standing::Fetched(row.fetched),
    }
}

/// Writes where an instruction stands, and which event has brought it there.
pub(crate) fn write_standing<W: Write>(past: &Past<'_>, seq: Seq, out: &mut W) -> io::Result<()> {
    match standing_of(past.row(seq)) {
        Standing::Unknown => writeln!(out, "number {seq} isn't fetched"),
        Standing::Issued(place) => write_issued(past, seq, place, out),
        Standing::Squashed { by, place } => {
            writeln!(
                out,
                "number {seq} was squashed by number {by} (event {place})"
            )
        }
        Standing::Fetched(place) => write_moved(seq, "is fetched", place, out),
        Standing::Decoded(place) => write_moved(seq, "is decoded", place, out),
        Standing::Renamed(place) => write_moved(seq, "is renamed", place, out),
        Standing::Completed(place) => write_moved(seq, "is completed", place, out),
        Standing::Retired(place) => write_moved(seq, "has retired", place, out),
    }
}

fn write_moved<W: Write>(seq: Seq, what: &str, place: u32, out: &mut W) -> io::Result<()> {
    writeln!(out, "number {seq} {what} (event {place})")
}

fn write_issued<W: Write>(past: &Past<'_>, seq: Seq, place: u32, out: &mut W) -> io::Result<()> {
    let actor = match past.event(place) {
        Some(Event::Issue { actor, .. }) => actor,
        _ => 0,
    };
    writeln!(
        out,
        "number {seq} is issued to actor {actor} (event {place})"
    )
}

/// The name of how far an instruction in flight has come, and the place of the event that has brought it there.
pub(crate) fn progress_of(row: &Row) -> (&'static str, u32) {
    match standing_of(Some(*row)) {
        Standing::Completed(place) => ("completed", place),
        Standing::Issued(place) => ("issued", place),
        Standing::Renamed(place) => ("renamed", place),
        _ => ("fetched", row.fetched),
    }
}
