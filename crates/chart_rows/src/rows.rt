ghost use Rattle.std.specs.Prelude.{◌≡◌, ◌<◌, ◌≤◌, length, reverse, IfOk, OnOk};
ghost use Rattle.numbers.specs.Sizes.{most_events};
ghost use Rattle.events.specs.Event.{seq_of};
ghost use Rattle.chart_rows.specs.Rows.{AreRows, AreHistory, TellSquashes};
ghost use Rattle.chart_rows.specs.Moves.{HaveMoved, AreCut};
ghost use Rattle.chart_rows.specs.Order.{AreByFetch};

use crate::row::{Row, Squash};
use events::Event;
use std::alloc::{AllocError, Global};

/// The rows of a legal history's instructions, by rising number. Errors: want of memory.
pub fn rows_of(events: &[Event], alloc: Global) -> Result<Vec<Row>, AllocError>
    requires history { AreHistory events.now }
    requires few { length events.now ≤ most_events }
    ensures rows { IfOk result (λ rows. AreRows (reverse events.now) rows.items) }
    ensures squashed { IfOk result (λ rows. TellSquashes (reverse events.now) rows.items) }
    ensures by_fetch { IfOk result (λ rows. AreByFetch rows.items) }
{
    let mut rows = Vec::new(alloc);
    for index in 0..events.len() {
        let event = events[index];
        match event {
            Event::Fetch {
                hart,
                pc,
                word,
                predicted,
                ..
            } => rows.push(Row::fetched(hart, pc, word, predicted, index as u32))?,
            _ => move_on(rows.as_mut_slice(), &event, index as u32),
        }
    }
    Ok(rows)
}

/// Has an event at a place move on the row of its instruction, and squash those that it squashes.
fn move_on(rows: &mut [Row], event: &Event, place: u32)
    requires { seq_of event.now < length rows.old }
    ensures { HaveMoved event.now place rows.old rows.new }
{
    let by = event.seq();
    let own = rows[by as usize];
    rows[by as usize] = own.moved(event, place);
    if own.cuts(event) {
        let cause = own.cause(event);
        cut_from(rows, by as usize + 1, own.hart, Squash { place, by, cause });
    }
}

/// Has a squash of a hart's instructions cut the rows from number `first` on.
fn cut_from(rows: &mut [Row], first: usize, hart: u8, by: Squash)
    ensures { AreCut first hart by rows.old rows.new }
{
    for seq in first..rows.len() {
        rows[seq] = rows[seq].cut(hart, by);
    }
}
