//! Under the rows of a band what is counted at each of its columns.

ghost use Rattle.std.specs.Prelude.{◌≡◌, ◌≤◌, ◌<◌, ◌^◌, ◌++◌, [], if◌then◌else◌, IfOk, OnOk, length, max, slice_get, slice_index_or};
ghost use Rattle.std.specs.{Fmt.decimal, List.range_with_len};
ghost use Rattle.chart_columns.specs.Tables.{head, last};
ghost use Rattle.std.specs.Io.KnownBytes.{Appends};
ghost use Rattle.chart_rows.specs.Views.{draws_hart};
ghost use Rattle.charts.specs.Drawings.{drawing_of};
ghost use Rattle.charts.specs.Text.{name_width, places};
ghost use Rattle.charts.specs.Counted.{
  blanks_behind,
  chosen_over,
  chosen_text,
  count_of,
  counted_text,
  counter_line,
  counter_text,
  counters_at,
  digit_text,
  digits_over,
  height_over,
  icounts_over,
  in_flight_over,
  name_in,
  name_of,
  number_in,
  number_text,
  places_between,
};

use crate::label::{Widths, write_spaces};
use crate::text::TextChart;
use arrayvec::ArrayString;
use chart_counters::Counters;
use chart_rows::Band;
use events::Event;
use std::io;
use std::io::Write;
use text_fields::{push_decimal, push_hex};

/// What is counted.
#[derive(Clone, Copy, Drop)]
enum Counter {
    Icount(u8),
    Chosen,
    Alu,
    Mul,
    Mem,
    InFlight(u8),
    Free,
}

/// Writes what is counted at the columns of a band, where it is wanted: of each hart that is drawn its ICOUNT, which
/// hart was chosen, how full the queue is, of each hart what is in flight, and how many registers are free.
#[tactic(auto, unfolding(crate::specs::Counted::counted_text))]
pub(crate) fn write_counters<W: Write>(
    chart: &TextChart<'_>,
    band: &Band,
    widths: &Widths,
    out: &mut W,
) -> io::Result<()>
    ensures { OnOk result (Appends (W.contents out.old) (W.contents out.new) (counted_text (drawing_of chart.now)
        (name_width widths.now) (places band.now.from band.now.to))) }
{
    if chart.counters.is_empty() {
        return out.write_all(b"");
    }
    let indent = indent_of(widths);
    write_icounts(chart, band, indent, out)?;
    write_counter(chart, Counter::Chosen, band, indent, out)?;
    write_counter(chart, Counter::Alu, band, indent, out)?;
    write_counter(chart, Counter::Mul, band, indent, out)?;
    write_counter(chart, Counter::Mem, band, indent, out)?;
    write_in_flight(chart, band, indent, out)?;
    write_counter(chart, Counter::Free, band, indent, out)
}

/// How many places stand before the first column.
fn indent_of(widths: &Widths) -> usize
    ensures value { result ≡ name_width widths.now }
    ensures few { result < 2 ^ 40 }
{
    same_widths(widths).name()
}

/// The same widths: as a result, each of them is known to be in its range.
fn same_widths(widths: &Widths) -> Widths
    ensures { result ≡ widths.now }
{
    *widths
}

/// ICOUNT of each hart that is drawn.
fn write_icounts<W: Write>(
    chart: &TextChart<'_>,
    band: &Band,
    indent: usize,
    out: &mut W,
) -> io::Result<()>
    requires { indent < 2 ^ 40 }
    ensures { OnOk result (Appends (W.contents out.old) (W.contents out.new) (icounts_over (drawing_of chart.now) indent
        (places band.now.from band.now.to) (range_with_len 0 chart.now.harts))) }
{
    for hart in 0..chart.harts {
        write_hart(chart, Counter::Icount(hart), hart, band, indent, out)?;
    }
    Ok(())
}

/// What is in flight of each hart that is drawn.
fn write_in_flight<W: Write>(
    chart: &TextChart<'_>,
    band: &Band,
    indent: usize,
    out: &mut W,
) -> io::Result<()>
    requires { indent < 2 ^ 40 }
    ensures { OnOk result (Appends (W.contents out.old) (W.contents out.new) (in_flight_over (drawing_of chart.now) indent
        (places band.now.from band.now.to) (range_with_len 0 chart.now.harts))) }
{
    for hart in 0..chart.harts {
        write_hart(chart, Counter::InFlight(hart), hart, band, indent, out)?;
    }
    Ok(())
}

/// Writes the lines of a counter of a hart, where that is drawn.
fn write_hart<W: Write>(
    chart: &TextChart<'_>,
    counter: Counter,
    hart: u8,
    band: &Band,
    indent: usize,
    out: &mut W,
) -> io::Result<()>
    requires { indent < 2 ^ 40 }
    ensures { OnOk result (Appends (W.contents out.old) (W.contents out.new) (if draws_hart chart.now.view.hart hart
        then counter_text (drawing_of chart.now) indent (places band.now.from band.now.to) counter else [])) }
{
    if draws_hart(chart.view.hart, hart) {
        return write_counter(chart, counter, band, indent, out);
    }
    out.write_all(b"")
}

/// Whether a hart is drawn, where this is the one that is, or all are.
fn draws_hart(one: Option<u8>, hart: u8) -> bool
    ensures { result ≡ draws_hart one hart }
{
    match one {
        Some(one) => one == hart,
        None => true,
    }
}

/// Writes the lines of a counter in a band: as many as its greatest number there has digits.
#[tactic(auto, unfolding(crate::specs::Counted::counter_text))]
fn write_counter<W: Write>(
    chart: &TextChart<'_>,
    counter: Counter,
    band: &Band,
    indent: usize,
    out: &mut W,
) -> io::Result<()>
    requires { indent < 2 ^ 40 }
    ensures { OnOk result (Appends (W.contents out.old) (W.contents out.new)
        (counter_text (drawing_of chart.now) indent (places band.now.from band.now.to) counter)) }
{
    let tall = height_of(chart, counter, band);
    for line in 0..tall {
        write_counter_line(chart, counter, band, tall - line, indent, out)?;
    }
    Ok(())
}

/// How many digits the greatest number of a counter in a band has; 1 where there is none.
fn height_of(chart: &TextChart<'_>, counter: Counter, band: &Band) -> usize
    ensures { result ≡ height_over (drawing_of chart.now) counter 1 (places band.now.from band.now.to) }
{
    let mut tall = 1;
    for column in band.from..=band.to {
        let number = number_in(chart, counter, column);
        tall = greater(tall, number.len());
    }
    tall
}

fn greater(one: usize, other: usize) -> usize
    ensures { result ≡ max one other }
{
    one.max(other)
}

/// Writes a line of a counter, with so many digits left; the last of them has its name.
#[tactic(auto, unfolding(crate::specs::Counted::counter_line))]
fn write_counter_line<W: Write>(
    chart: &TextChart<'_>,
    counter: Counter,
    band: &Band,
    left: usize,
    indent: usize,
    out: &mut W,
) -> io::Result<()>
    requires some { 1 ≤ left }
    requires few { indent < 2 ^ 40 }
    ensures { OnOk result (Appends (W.contents out.old) (W.contents out.new)
        (counter_line (drawing_of chart.now) counter indent (places band.now.from band.now.to) left)) }
{
    let name = name_in(counter, left);
    out.write_all(name.as_bytes())?;
    let blanks = indent.saturating_sub(name.len());
    write_digits(chart, counter, band, left, blanks, out)?;
    out.write_all(b"\n")
}

fn name_in(counter: Counter, left: usize) -> ArrayString<16>
    ensures { result.bytes ≡ name_in counter left }
{
    if left == 1 {
        return name_of(counter);
    }
    ArrayString::new()
}

/// Writes of each number of a counter in a band the digit from which so many are left, behind so many blanks.
fn write_digits<W: Write>(
    chart: &TextChart<'_>,
    counter: Counter,
    band: &Band,
    left: usize,
    blanks: usize,
    out: &mut W,
) -> io::Result<()>
    requires some { 1 ≤ left }
    requires few { blanks < 2 ^ 40 }
    ensures { OnOk result (Appends (W.contents out.old) (W.contents out.new)
        (digits_over (drawing_of chart.now) counter left blanks (places band.now.from band.now.to))) }
{
    let mut due = blanks;
    for column in band.from..=band.to {
        let number = number_in(chart, counter, column);
        due = write_digit(number.as_bytes(), left, due, out)?;
    }
    Ok(())
}

/// Writes the digit of a number from which so many are left, behind so many blanks, where it has so many. Answers how
/// many blanks are due then.
fn write_digit<W: Write>(
    number: &[u8],
    left: usize,
    blanks: usize,
    out: &mut W,
) -> io::Result<usize>
    requires some { 1 ≤ left }
    requires few { blanks < 2 ^ 41 }
    ensures { IfOk result (λ due. (due ≡ blanks_behind left blanks number.now)
        × Appends (W.contents out.old) (W.contents out.new) (digit_text left blanks number.now)) }
{
    if number.len() < left {
        return Ok(blanks + 1);
    }
    write_spaces(blanks, out)?;
    let digit = number[number.len() - left];
    out.write_all(&[digit])?;
    Ok(0)
}

fn name_of(counter: Counter) -> ArrayString<16>
    ensures { result.bytes ≡ name_of counter }
{
    match counter {
        Counter::Icount(hart) => hart_name("ICOUNT ", hart),
        Counter::Chosen => name("chosen"),
        Counter::Alu => name("queue alu"),
        Counter::Mul => name("queue mul"),
        Counter::Mem => name("queue mem"),
        Counter::InFlight(hart) => hart_name("in flight ", hart),
        Counter::Free => name("free"),
    }
}

fn name(words: &str) -> ArrayString<16>
    requires { length words.now ≤ 10 }
    ensures { result.bytes ≡ words.now }
{
    let mut name = ArrayString::new();
    name.push_str(words);
    name
}

fn hart_name(words: &str, hart: u8) -> ArrayString<16>
    requires { length words.now ≤ 10 }
    ensures { result.bytes ≡ words.now ++ decimal hart }
{
    let mut name = name(words);
    push_decimal(&mut name, hart);
    name
}

/// The number of a counter in a column: behind its last event; of the hart that was chosen a hexadecimal digit, where
/// one was.
#[tactic(auto, unfolding(crate::specs::Counted::number_in))]
fn number_in(chart: &TextChart<'_>, counter: Counter, column: u32) -> ArrayString<10>
    ensures { result.bytes ≡ number_in (drawing_of chart.now) counter column }
{
    if let Counter::Chosen = counter {
        return chosen_in(chart, column);
    }
    number_of(counter, counters_at(chart, chart.columns.last(column)))
}

/// What is counted behind the event at a place, where it is known.
fn counters_at(chart: &TextChart<'_>, place: u32) -> Option<Counters>
    ensures { result ≡ counters_at (drawing_of chart.now) place }
{
    let first = chart.columns.head(chart.view.from);
    if place < first {
        return None;
    }
    chart.counters.get((place - first) as usize).copied()
}

fn number_of(counter: Counter, counters: Option<Counters>) -> ArrayString<10>
    ensures { result.bytes ≡ number_text counter counters }
{
    let mut text = ArrayString::new();
    if let Some(counters) = counters {
        push_decimal(&mut text, count_of(counter, &counters));
    }
    text
}

fn count_of(counter: Counter, counters: &Counters) -> u32
    ensures { result ≡ count_of counter counters.now }
{
    match counter {
        Counter::Icount(hart) => number_at(&counters.icount, hart),
        Counter::Chosen => 0,
        Counter::Alu => counters.queue.alu,
        Counter::Mul => counters.queue.mul,
        Counter::Mem => counters.queue.mem,
        Counter::InFlight(hart) => number_at(&counters.in_flight, hart),
        Counter::Free => counters.free,
    }
}

fn number_at(numbers: &[u32], hart: u8) -> u32
    ensures { result ≡ slice_index_or numbers.now hart 0 }
{
    match numbers.get(usize::from(hart)) {
        Some(number) => *number,
        None => 0,
    }
}

/// The hart that was fetched last in a column, as a hexadecimal digit, where one was.
fn chosen_in(chart: &TextChart<'_>, column: u32) -> ArrayString<10>
    ensures { result.bytes ≡ chosen_over chart.now.events.now []
        (places_between (head chart.now.columns.now column) (last chart.now.columns.now column)) }
{
    let mut text = ArrayString::new();
    let from = chart.columns.head(column);
    let to = chart.columns.last(column);
    for place in from..=to {
        text = chosen_by(text, chart.events, place);
    }
    text
}

/// The hart that the event at a place fetches, as a hexadecimal digit; where it fetches none, what there was before.
fn chosen_by(before: ArrayString<10>, events: &[Event], place: u32) -> ArrayString<10>
    ensures { result.bytes ≡ chosen_text before.bytes (slice_get events.now place) }
{
    if let Some(Event::Fetch { hart, .. }) = events.get(place as usize) {
        let mut text = ArrayString::new();
        push_hex(&mut text, u32::from(*hart), 1);
        return text;
    }
    before
}
