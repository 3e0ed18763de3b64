//! Whole traces: read, printed, refused at a line, and written to writers that fail.

use super::{others, trace};
use crate::rows::{holds, holds_at, says};
use event_text::{Over, TraceHeader, TraceRefused, print_trace, read_trace};
use events::{Event, History, Role};
use std::alloc::{AllocError, Global};
use std::io;
use std::io::{ErrorKind, Write};
use std::test::Fail;

/// The lines with which a trace of version 3 of the core of `header` begins.
pub const HEAD: &str = "smt-trace 3\nconfig 2 64 16 fetch alu\n";

/// A core of two harts and two actors.
pub fn header() -> Option<TraceHeader> {
    TraceHeader::new(2, 64, 16, &[Role::Fetch, Role::Alu])
}

/// The text of a trace of version 3 of the 18 events, so many times.
fn trace_text(times: u32, alloc: Global) -> Result<Vec<u8>, AllocError> {
    let mut text = Vec::new(alloc);
    text.extend_from_slice(HEAD.as_bytes())?;
    for _ in 0..times {
        for (_, line) in &trace() {
            text.extend_from_slice(line.as_bytes())?;
            text.extend_from_slice(b"\n")?;
        }
    }
    Ok(text)
}

#[test]
fn a_trace_is_read_and_printed_again(rt: HostRuntime) -> Result<(), Fail> {
    let text = trace_text(1, rt.alloc())?;
    let read = read_trace(text.as_slice(), rt.alloc())?;
    for (event, (expected, line)) in read.events().iter().zip(&trace()) {
        holds(&rt, line, event == expected);
    }
    assert!(rt; read.events().len() == 18);
    let mut sink = Over::new(Vec::new(rt.alloc()));
    let header = read.header().expect(&rt, "a header");
    print_trace(header, &history_of(read.events(), rt.alloc())?, &mut sink)?;
    assert!(rt; sink.into_inner().as_slice() == text.as_slice());
    Ok(())
}

/// Whether a trace that begins so, of this line, and of the line again before others, is that of this
/// event, so that the line is read where other lines follow and where none does.
fn is_read(head: &str, event: &Event, line: &str, alloc: Global) -> Result<bool, Fail> {
    let mut text = Vec::new(alloc);
    for piece in [head, line, "\nD 0 1234567\n", line, "\n"] {
        text.extend_from_slice(piece.as_bytes())?;
    }
    let decode = Event::Decode {
        actor: 0,
        seq: 1_234_567,
    };
    let read = read_trace(text.as_slice(), alloc)?;
    Ok(read.events() == [*event, decode, *event].as_slice())
}

#[test]
fn each_kind_of_line_is_read_from_a_trace(rt: HostRuntime) -> Result<(), Fail> {
    for (event, line) in trace().iter().chain(&others()) {
        let first = is_read("smt-trace 1\n", event, line, rt.alloc())?;
        let second = is_read(HEAD, event, line, rt.alloc())?;
        holds(&rt, line, first && second);
    }
    Ok(())
}

/// Texts, each with the line and the rule that it is refused for.
static REFUSED: [(&str, usize, u8); 31] = [
    ("", 1, 2),
    ("smt-trace 1", 1, 2),
    ("smt-trace 2", 1, 2),
    ("smt-trace 4\n", 1, 1),
    ("smt-trace 1\r\n", 1, 1),
    ("smt-trace 4\nD 0 00\n", 1, 1),
    ("smt-trace 1\n\n", 2, 3),
    ("smt-trace 1\nd 0 0\n", 2, 3),
    ("smt-trace 1\n D 0 0\n", 2, 3),
    ("smt-trace 1\nD\t0 0\n", 2, 3),
    ("smt-trace 1\nD 0 0\nI 0 0\nQ 0 0\n", 4, 3),
    ("smt-trace 1\nD 0 0 \n", 2, 4),
    ("smt-trace 1\nD 0  0\n", 2, 4),
    ("smt-trace 1\nD 0\n", 2, 4),
    ("smt-trace 1\nF 0 0 0 80000000 00500513\n", 2, 4),
    ("smt-trace 1\nD 0 00\n", 2, 5),
    ("smt-trace 1\nD 00 16777216\n", 2, 5),
    ("smt-trace 1\nD 0 0\r\n", 2, 5),
    ("smt-trace 1\nX 0 -1\n", 2, 5),
    ("smt-trace 1\nF 0 0 0 8000000A - 80000004\n", 2, 5),
    ("smt-trace 1\nF 0 0 0 8000000 - 80000004\n", 2, 5),
    ("smt-trace 1\nC 0 0 - s9 - - -\n", 2, 5),
    ("smt-trace 1\nT 0 0 - p80000004 80001001 - -\n", 2, 5),
    ("smt-trace 1\nT 0 0 - p80000004 - aa -\n", 2, 5),
    ("smt-trace 1\nT 0 0 - p80000004 80001001 aaa -\n", 2, 5),
    ("smt-trace 1\nD 16 0\n", 2, 6),
    ("smt-trace 1\nD 16 00\n", 2, 6),
    ("smt-trace 1\nF 0 8 0 80000000 - 80000004\n", 2, 6),
    ("smt-trace 1\nR 0 0 504\n", 2, 6),
    ("smt-trace 1\nD 0 0\nD 0 16777216\n", 3, 6),
    ("smt-trace 1\nD 0 0\nD 0 16777216", 3, 2),
];

#[test]
fn the_first_line_that_breaks_a_rule_is_named(rt: HostRuntime) {
    for (text, line, rule) in &REFUSED {
        let expected = TraceRefused::Line {
            line: *line,
            rule: *rule,
        };
        let refused = read_trace(text.as_bytes(), rt.alloc()).err();
        holds(&rt, text, refused == Some(expected));
    }
}

#[test]
fn a_refused_trace_says_its_line_and_its_rule(rt: HostRuntime) {
    let refused = TraceRefused::Line { line: 2, rule: 5 };
    assert!(rt; says(&refused, "trace line 2 refused 5", rt.alloc()));
    assert!(rt; says(&TraceRefused::Memory, "memory", rt.alloc()));
}

/// A writer that takes three bytes at once and has room for some. Each fourth call is interrupted.
#[derive(Drop)]
struct Narrow {
    taken: Vec<u8>,
    room: usize,
    calls: u32,
    failures: u32,
}

impl Write for Narrow {
    fn write(&mut self, bytes: &[u8]) -> io::Result<usize> {
        self.calls = self.calls.wrapping_add(1);
        if self.calls % 4 == 0 {
            return Err(io::Error::from(ErrorKind::Interrupted));
        }
        let count = bytes.len().min(3).min(self.room);
        if count == 0 {
            self.failures = self.failures.wrapping_add(1);
            return if self.calls % 2 == 0 {
                Ok(0)
            } else {
                Err(io::Error::from(ErrorKind::StorageFull))
            };
        }
        self.room -= count;
        self.taken.extend_from_slice(&bytes[..count])?;
        Ok(count)
    }

    fn flush(&mut self) -> io::Result<()> {
        Ok(())
    }
}

/// Whether a writer with so much room takes a beginning of the text, and fails once where that
/// isn't all of it.
fn begins(
    header: &TraceHeader,
    history: &History,
    text: &[u8],
    room: usize,
    alloc: Global,
) -> bool {
    let mut sink = Over::new(Narrow {
        taken: Vec::new(alloc),
        room,
        calls: 0,
        failures: 0,
    });
    let whole = print_trace(header, history, &mut sink).is_ok();
    let writer = sink.into_inner();
    whole == (room >= text.len())
        && text.get(..room.min(text.len())) == Some(writer.taken.as_slice())
        && writer.failures == u32::from(!whole)
}

#[test]
fn printing_ends_where_the_sink_fails(rt: HostRuntime) -> Result<(), Fail> {
    let text = trace_text(1, rt.alloc())?;
    let read = read_trace(text.as_slice(), rt.alloc())?;
    let header = header().expect(&rt, "a header");
    let history = history_of(read.events(), rt.alloc())?;
    assert!(rt; text.len() < 600);
    for room in 0..600u32 {
        let is = begins(
            &header,
            &history,
            text.as_slice(),
            room as usize,
            rt.alloc(),
        );
        holds_at(&rt, room, is);
    }
    Ok(())
}

/// A writer that takes a byte a call and fails at one of its calls, which count from 1: it answers
/// an error, or that it took nothing.
#[derive(Drop)]
struct ByteByByte {
    taken: Vec<u8>,
    calls: usize,
    fails_at: usize,
    says_so: bool,
}

impl Write for ByteByByte {
    fn write(&mut self, bytes: &[u8]) -> io::Result<usize> {
        self.calls = self.calls.wrapping_add(1);
        if self.calls >= self.fails_at {
            return if self.says_so {
                Err(io::Error::from(ErrorKind::Other))
            } else {
                Ok(0)
            };
        }
        let count = bytes.len().min(1);
        self.taken.extend_from_slice(&bytes[..count])?;
        Ok(count)
    }

    fn flush(&mut self) -> io::Result<()> {
        Ok(())
    }
}

/// Whether a writer that fails at this call takes the bytes of the text before it, and is not
/// called again.
fn ends_at(
    header: &TraceHeader,
    history: &History,
    text: &[u8],
    fails_at: usize,
    says_so: bool,
    alloc: Global,
) -> bool {
    let mut sink = Over::new(ByteByByte {
        taken: Vec::new(alloc),
        calls: 0,
        fails_at,
        says_so,
    });
    let failed = print_trace(header, history, &mut sink).is_err();
    let writer = sink.into_inner();
    failed
        && writer.calls == fails_at
        && text.get(..fails_at.wrapping_sub(1)) == Some(writer.taken.as_slice())
}

#[test]
fn what_went_out_is_what_was_taken_before_the_call_that_failed(
    rt: HostRuntime,
) -> Result<(), Fail> {
    let text = trace_text(1, rt.alloc())?;
    let header = header().expect(&rt, "a header");
    let history = repeated(1, rt.alloc())?;
    assert!(rt; text.len() < 600);
    for call in 1..600u32 {
        let at = call as usize;
        let is = at > text.len()
            || ends_at(&header, &history, text.as_slice(), at, true, rt.alloc())
                && ends_at(&header, &history, text.as_slice(), at, false, rt.alloc());
        holds_at(&rt, call, is);
    }
    Ok(())
}

/// The 18 events, so many times.
fn repeated(times: u32, alloc: Global) -> Result<History, AllocError> {
    let mut events = Vec::new(alloc);
    for _ in 0..times {
        for (event, _) in &trace() {
            events.push(*event)?;
        }
    }
    history_of(events.as_slice(), alloc)
}

/// A history of these events, of which there are at most 1000.
fn history_of(events: &[Event], alloc: Global) -> Result<History, AllocError> {
    let mut history = History::with_limit(1000, alloc)?;
    for event in events {
        let _ = history.push(*event);
    }
    Ok(history)
}

/// A writer that counts its calls, and the bytes of the least piece that isn't the last, and of the
/// greatest.
#[derive(Drop)]
struct Counting {
    taken: Vec<u8>,
    calls: u32,
    last: usize,
    least: usize,
    greatest: usize,
}

impl Write for Counting {
    fn write(&mut self, bytes: &[u8]) -> io::Result<usize> {
        if self.calls > 0 {
            self.least = self.least.min(self.last);
        }
        self.calls = self.calls.wrapping_add(1);
        self.last = bytes.len();
        self.greatest = self.greatest.max(bytes.len());
        self.taken.extend_from_slice(bytes)?;
        Ok(bytes.len())
    }

    fn flush(&mut self) -> io::Result<()> {
        Ok(())
    }
}

#[test]
fn lines_go_out_in_large_pieces(rt: HostRuntime) -> Result<(), Fail> {
    let header = header().expect(&rt, "a header");
    let history = repeated(50, rt.alloc())?;
    let text = trace_text(50, rt.alloc())?;
    assert!(rt; text.len() > 16384);
    let mut sink = Over::new(Counting {
        taken: Vec::new(rt.alloc()),
        calls: 0,
        last: 0,
        least: usize::MAX,
        greatest: 0,
    });
    print_trace(&header, &history, &mut sink)?;
    let writer = sink.into_inner();
    assert!(rt; writer.taken.as_slice() == text.as_slice());
    assert!(rt; writer.greatest <= 4096);
    assert!(rt; writer.least > 4096 - 65);
    assert!(rt; writer.calls as usize <= text.len() / 4032 + 1);
    Ok(())
}

#[test]
fn printing_ends_in_the_piece_where_the_sink_fails(rt: HostRuntime) -> Result<(), Fail> {
    let header = header().expect(&rt, "a header");
    let history = repeated(50, rt.alloc())?;
    let text = trace_text(50, rt.alloc())?;
    let long = text.len();
    for room in [
        0,
        1,
        4031,
        4032,
        4095,
        4096,
        4097,
        8192,
        long.saturating_sub(1),
        long,
        long.saturating_add(1),
    ] {
        let is = begins(&header, &history, text.as_slice(), room, rt.alloc());
        holds_at(&rt, u32::try_from(room).unwrap_or(u32::MAX), is);
    }
    Ok(())
}
