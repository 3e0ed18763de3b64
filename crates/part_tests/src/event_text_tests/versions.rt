//! Traces of the later versions: of what core they say that they are, and the ranges of their events.

use super::traces::{HEAD, header};
use crate::rows::{holds, holds_at};
use event_text::{
    Over, TraceHeader, TraceRefused, names_core, print_trace, read_config_line, read_trace,
};
use events::{Event, History, Role};
use std::alloc::{AllocError, Global};
use std::test::Fail;

/// Lines of a core, each with the rule that it breaks.
static REFUSED: [(&str, u8); 34] = [
    ("", 3),
    ("confi 1 64 16 alu", 3),
    ("configs 1 64 16 alu", 3),
    ("Config 1 64 16 alu", 3),
    (" config 1 64 16 alu", 3),
    ("config\t1 64 16 alu", 3),
    ("D 0 0", 3),
    ("config", 4),
    ("config ", 4),
    ("config 1 64 16", 4),
    ("config 17 64 16", 4),
    ("config x y", 4),
    ("config 1 64 16 ", 5),
    ("config  1 64 16 alu", 5),
    ("config 01 64 16 alu", 5),
    ("config -1 64 16 alu", 5),
    ("config x 64 16 alu", 5),
    ("config 1 064 16 alu", 5),
    ("config 1 64 +16 alu", 5),
    ("config 1 64 16 add", 5),
    ("config 1 64 16 Alu", 5),
    ("config 1 64 16 alu ", 5),
    ("config 1 64 16 alu\r", 5),
    ("config 1 64 16 alu mem x", 5),
    ("config 1 x 65 alu", 5),
    ("config 0 64 16 alu", 6),
    ("config 17 64 16 alu", 6),
    ("config 17 x 16 alu", 6),
    ("config 257 64 16 alu", 6),
    ("config 1 0 16 alu", 6),
    ("config 1 529 16 alu", 6),
    ("config 1 64 3 alu", 6),
    ("config 1 64 65 add", 6),
    ("config 18446744073709551617 64 16 alu", 6),
];

fn broken_rule(line: &[u8]) -> Option<u8> {
    match read_config_line(line) {
        Ok(_) => None,
        Err(rule) => Some(rule.number()),
    }
}

#[test]
fn a_line_of_a_core_is_refused_for_the_first_rule_that_it_breaks(
    rt: HostRuntime,
) -> Result<(), Fail> {
    for (line, rule) in &REFUSED {
        let mut text = Vec::new(rt.alloc());
        for piece in ["smt-trace 3\n", line, "\nD 0 00\n"] {
            text.extend_from_slice(piece.as_bytes())?;
        }
        let refused = read_trace(text.as_slice(), rt.alloc()).err();
        let expected = TraceRefused::Line {
            line: 2,
            rule: *rule,
        };
        holds(&rt, line, broken_rule(line.as_bytes()) == Some(*rule));
        holds(&rt, line, refused == Some(expected));
    }
    Ok(())
}

/// A line of a core with so many roles.
fn line_with_roles(count: u32, alloc: Global) -> Result<Vec<u8>, AllocError> {
    let mut line = Vec::new(alloc);
    line.extend_from_slice(b"config 16 528 64")?;
    for _ in 0..count {
        line.extend_from_slice(b" retire")?;
    }
    Ok(line)
}

#[test]
fn a_core_has_at_most_32_roles(rt: HostRuntime) -> Result<(), Fail> {
    for count in 0..40u32 {
        let line = line_with_roles(count, rt.alloc())?;
        let rule = if (1..=32).contains(&count) {
            None
        } else {
            Some(4)
        };
        holds_at(&rt, count, broken_rule(line.as_slice()) == rule);
    }
    Ok(())
}

/// Whether a header is of these sizes.
fn is_of(header: &TraceHeader, harts: u8, extra: u16, queue: u8, roles: &[Role]) -> bool {
    header.harts() == harts
        && header.extra() == extra
        && header.queue() == queue
        && header.roles() == roles
}

/// Whether a line is of a core of these sizes.
fn is_read_as(line: &str, harts: u8, extra: u16, queue: u8, roles: &[Role]) -> bool {
    match read_config_line(line.as_bytes()) {
        Ok(header) => is_of(&header, harts, extra, queue, roles),
        Err(_) => false,
    }
}

#[test]
fn a_line_of_a_core_says_its_sizes(rt: HostRuntime) {
    let all = [
        Role::Fetch,
        Role::Front,
        Role::Retire,
        Role::Alu,
        Role::Mul,
        Role::Mem,
    ];
    assert!(rt; is_read_as("config 1 1 4 mem", 1, 1, 4, &[Role::Mem]));
    assert!(rt;
        is_read_as(
            "config 2 64 16 fetch front retire alu mul mem",
            2,
            64,
            16,
            &all
        )
    );
    let line = "config 16 528 64 alu alu fetch";
    assert!(rt; is_read_as(line, 16, 528, 64, &[Role::Alu, Role::Alu, Role::Fetch]));
}

/// Whether a header may be made of these sizes, and has them then.
fn is_made(harts: u8, extra: u16, queue: u8, roles: &[Role]) -> Option<bool> {
    let header = TraceHeader::new(harts, extra, queue, roles)?;
    Some(is_of(&header, harts, extra, queue, roles))
}

#[test]
fn a_header_has_the_sizes_of_a_core(rt: HostRuntime) {
    let most = [Role::Front; 32];
    assert!(rt; is_made(1, 1, 4, &[Role::Mul]) == Some(true));
    assert!(rt; is_made(16, 528, 64, &most) == Some(true));
    assert!(rt; is_made(0, 1, 4, &most).is_none());
    assert!(rt; is_made(17, 1, 4, &most).is_none());
    assert!(rt; is_made(1, 0, 4, &most).is_none());
    assert!(rt; is_made(1, 529, 4, &most).is_none());
    assert!(rt; is_made(1, 1, 3, &most).is_none());
    assert!(rt; is_made(1, 1, 65, &most).is_none());
    assert!(rt; is_made(1, 1, 4, &[]).is_none());
    assert!(rt; is_made(1, 1, 4, &[Role::Front; 33]).is_none());
}

/// Lines behind those of `HEAD`, with the line and the rule that the trace is refused for.
static BEHIND: [(&str, usize, u8); 11] = [
    ("\n", 3, 3),
    ("config 2 64 16 fetch alu\n", 3, 3),
    ("D 0 0 \n", 3, 4),
    ("D 0 00\n", 3, 5),
    ("D 32 0\n", 3, 6),
    ("F 0 16 0 80000000 - 80000004\n", 3, 6),
    ("R 0 0 1024\n", 3, 6),
    ("D 0 16777216\n", 3, 6),
    ("D 0 0", 3, 2),
    ("D 31 0\nD 0 0\nQ 0 0\n", 5, 3),
    ("D 31 0\nD 0 0\nD 0 0", 5, 2),
];

#[test]
fn the_first_line_behind_the_head_that_breaks_a_rule_is_named(rt: HostRuntime) -> Result<(), Fail> {
    for (lines, line, rule) in &BEHIND {
        let mut text = Vec::new(rt.alloc());
        text.extend_from_slice(HEAD.as_bytes())?;
        text.extend_from_slice(lines.as_bytes())?;
        let expected = TraceRefused::Line {
            line: *line,
            rule: *rule,
        };
        let refused = read_trace(text.as_slice(), rt.alloc()).err();
        holds(&rt, lines, refused == Some(expected));
    }
    Ok(())
}

/// The greatest numbers of a trace of a later version.
static GREATEST: &str = "D 31 0\nF 0 15 0 80000000 - 80000004\nR 0 0 1023\nX 0 16777215\n";

/// The events of `GREATEST`.
fn greatest() -> [Event; 4] {
    [
        Event::Decode { actor: 31, seq: 0 },
        Event::Fetch {
            actor: 0,
            hart: 15,
            seq: 0,
            pc: 0x8000_0000,
            word: None,
            predicted: 0x8000_0004,
        },
        Event::Rename {
            actor: 0,
            seq: 0,
            phys: Some(1023),
        },
        Event::Drop {
            actor: 0,
            seq: 16_777_215,
        },
    ]
}

/// `HEAD` and `GREATEST`.
fn greatest_text(alloc: Global) -> Result<Vec<u8>, AllocError> {
    let mut text = Vec::new(alloc);
    text.extend_from_slice(HEAD.as_bytes())?;
    text.extend_from_slice(GREATEST.as_bytes())?;
    Ok(text)
}

#[test]
fn a_trace_of_version_3_is_read_and_printed_again(rt: HostRuntime) -> Result<(), Fail> {
    let text = greatest_text(rt.alloc())?;
    let read = read_trace(text.as_slice(), rt.alloc())?;
    assert!(rt; read.events() == greatest().as_slice());
    let header = read.header().expect(&rt, "a header");
    assert!(rt; is_of(header, 2, 64, 16, &[Role::Fetch, Role::Alu]));
    let mut history = History::with_limit(4, rt.alloc())?;
    for event in read.events() {
        let _ = history.push(*event);
    }
    let mut sink = Over::new(Vec::new(rt.alloc()));
    print_trace(header, &history, &mut sink)?;
    assert!(rt; sink.into_inner().as_slice() == text.as_slice());
    Ok(())
}

#[test]
fn a_trace_of_version_2_has_no_refetches(rt: HostRuntime) -> Result<(), Fail> {
    let lines = b"config 2 64 16 fetch alu\nD 31 0\nG 31 0\n".as_slice();
    let mut second = Vec::new(rt.alloc());
    second.extend_from_slice(b"smt-trace 2\n")?;
    second.extend_from_slice(lines)?;
    let mut third = Vec::new(rt.alloc());
    third.extend_from_slice(b"smt-trace 3\n")?;
    third.extend_from_slice(lines)?;
    let refused = read_trace(second.as_slice(), rt.alloc()).err();
    assert!(rt; refused == Some(TraceRefused::Line { line: 4, rule: 3 }));
    let read = read_trace(third.as_slice(), rt.alloc())?;
    assert!(rt; read.events().last() == Some(&Event::Refetch { actor: 31, seq: 0 }));
    Ok(())
}

#[test]
fn a_trace_of_version_1_says_of_no_core(rt: HostRuntime) -> Result<(), Fail> {
    let read = read_trace(b"smt-trace 1\nD 15 0\n", rt.alloc())?;
    assert!(rt; read.header().is_none());
    assert!(rt; read.events() == [Event::Decode { actor: 15, seq: 0 }].as_slice());
    Ok(())
}

#[test]
fn the_longest_head_is_printed(rt: HostRuntime) -> Result<(), Fail> {
    let header = TraceHeader::new(16, 528, 64, &[Role::Retire; 32]).expect(&rt, "a header");
    let mut text = Vec::new(rt.alloc());
    text.extend_from_slice(b"smt-trace 3\n")?;
    text.extend_from_slice(line_with_roles(32, rt.alloc())?.as_slice())?;
    text.extend_from_slice(b"\n")?;
    let history = History::with_limit(1, rt.alloc())?;
    let mut sink = Over::new(Vec::new(rt.alloc()));
    print_trace(&header, &history, &mut sink)?;
    assert!(rt; sink.into_inner().as_slice() == text.as_slice());
    Ok(())
}

/// How many newlines a text has.
fn newlines(text: &[u8]) -> usize {
    let mut count = 0usize;
    for byte in text {
        if *byte == b'\n' {
            count = count.saturating_add(1);
        }
    }
    count
}

/// Whether a beginning of a trace is read as its events where it ends behind a line of an event or
/// behind the head, and is refused for the end of its last line elsewhere.
fn is_cut(text: &[u8], alloc: Global) -> bool {
    let lines = newlines(text);
    let read = read_trace(text, alloc);
    if lines >= 2 && text.ends_with(b"\n") {
        return match read {
            Ok(trace) => trace.events() == &greatest()[..(lines - 2).min(4)],
            Err(_) => false,
        };
    }
    let expected = TraceRefused::Line {
        line: lines.saturating_add(1),
        rule: 2,
    };
    read.err() == Some(expected)
}

#[test]
fn a_trace_may_end_behind_each_line_of_an_event_alone(rt: HostRuntime) -> Result<(), Fail> {
    let text = greatest_text(rt.alloc())?;
    assert!(rt; text.len() < 200);
    for end in 0..200u32 {
        let is = match text.get(..end as usize) {
            Some(cut) => is_cut(cut, rt.alloc()),
            None => true,
        };
        holds_at(&rt, end, is);
    }
    Ok(())
}

#[test]
fn the_header_of_these_tests_is_that_of_their_head(rt: HostRuntime) {
    let header = header().expect(&rt, "a header");
    assert!(rt; is_of(&header, 2, 64, 16, &[Role::Fetch, Role::Alu]));
}

/// Texts, and whether their first line is that of a version whose traces name their core.
static NAMING: [(&str, bool); 9] = [
    ("smt-trace 1\n", false),
    ("smt-trace 2\n", true),
    ("smt-trace 3\nconfig 17", true),
    ("smt-trace 2", true),
    ("smt-trace 4\n", false),
    ("smt-trace 3 \n", false),
    ("smt-trace 1\nsmt-trace 3\n", false),
    ("\nsmt-trace 3\n", false),
    ("", false),
];

#[test]
fn a_trace_of_a_later_version_names_its_core(rt: HostRuntime) {
    for (text, names) in &NAMING {
        holds(&rt, text, names_core(text.as_bytes()) == *names);
    }
}
