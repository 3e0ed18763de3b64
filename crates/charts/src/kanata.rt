//! The chart as a log for Konata.

mod lines;
mod waits;

use crate::chart::Chart;
use chart_rows::{Row, View};
use events::Event;
use lines::Log;
use std::alloc::{AllocError, Global};
use std::io;
use std::io::{Error, ErrorKind, Write};
use waits::write_waits;

/// Writes the log that Konata reads, Kanata 0004 (docs/FORMATS.md), of the instructions that the view of a chart
/// shows, each of them whole, with what is wanted beside its pc: a cycle is a column. An error is the one that `out`
/// answered, or want of memory.
pub fn write_kanata<W: Write>(chart: &Chart<'_>, out: &mut W, alloc: Global) -> io::Result<()> {
    let Ok(ids) = ids_of(chart.placed, &chart.view, alloc) else {
        return Err(Error::from(ErrorKind::OutOfMemory));
    };
    let first = first_column(chart.placed, &chart.view);
    let mut log = Log::new(first, chart.columns, &chart.labels);
    log.write_head(out)?;
    for place in 0..chart.events.len() {
        write_event(
            chart.rows,
            ids.as_slice(),
            &chart.events[place],
            u32::try_from(place).unwrap_or(u32::MAX),
            &mut log,
            out,
        )?;
    }
    Ok(())
}

/// What stands in the log in place of each instruction's number: how many with a lower one are shown,
/// or nothing where it isn't shown itself.
fn ids_of(placed: &[Row], view: &View, alloc: Global) -> Result<Vec<Option<u32>>, AllocError> {
    let mut ids = Vec::new(alloc);
    let mut next = 0_u32;
    for row in placed {
        if view.shows(row) {
            ids.push(Some(next))?;
            next = next.saturating_add(1);
        } else {
            ids.push(None)?;
        }
    }
    Ok(ids)
}

/// The column in which the first instruction that is shown was fetched; 0 where none is.
fn first_column(placed: &[Row], view: &View) -> u32 {
    for row in placed {
        if view.shows(row) {
            return row.fetched;
        }
    }
    0
}

/// Writes what an event says of its own instruction, where that is shown, and of those that it
/// squashes.
fn write_event<W: Write>(
    rows: &[Row],
    ids: &[Option<u32>],
    event: &Event,
    place: u32,
    log: &mut Log<'_>,
    out: &mut W,
) -> io::Result<()> {
    let seq = event.seq() as usize;
    let Some(row) = rows.get(seq) else {
        return Ok(());
    };
    if let Some(id) = id_of(ids, seq) {
        log.go_to(place, out)?;
        log.write_own(row, seq, id, event, out)?;
        if matches!(event, Event::Issue { .. }) {
            write_waits(rows, ids, seq, id, out)?;
        }
    }
    if row.cuts(event) {
        write_squashes(rows, ids, seq, place, log, out)?;
    }
    Ok(())
}

/// The id of an instruction that is shown.
pub(crate) fn id_of(ids: &[Option<u32>], seq: usize) -> Option<u32> {
    match ids.get(seq) {
        Some(id) => *id,
        None => None,
    }
}

/// Ends the instructions that the event at this place squashed: its own, which is fetched again,
/// and younger ones.
fn write_squashes<W: Write>(
    rows: &[Row],
    ids: &[Option<u32>],
    seq: usize,
    place: u32,
    log: &mut Log<'_>,
    out: &mut W,
) -> io::Result<()> {
    for younger in seq..rows.len() {
        let row = &rows[younger];
        if row.fetched > place {
            return Ok(());
        }
        if let Some(id) = id_of(ids, younger) {
            if row.is_squashed_at(place) {
                log.go_to(place, out)?;
                log.write_squash(row, id, out)?;
            }
        }
    }
    Ok(())
}
