//! Traces of versions 1 and 2, migrated to version 3.

use super::traces::{HEAD, header};
use super::{others, trace};
use crate::rows::{holds, says};
use event_text::{MigrateRefused, migrate, read_trace};
use std::alloc::Global;
use std::test::Fail;

/// The lines of events of a trace of version 1.
static LINES: [&str; 3] = [
    "",
    "D 0 0\n",
    "F 15 7 0 80000000 - 80000004\nR 1 10 503\nX 15 16777215\nT 2 5 - p80000018 80001001 aa -\n",
];

/// Whether these lines stand behind the head of version 3 where they stood behind that of version 1.
fn is_migrated(lines: &str, alloc: Global) -> Result<bool, Fail> {
    let Some(header) = header() else {
        return Ok(false);
    };
    let mut old = Vec::new(alloc);
    old.extend_from_slice(b"smt-trace 1\n")?;
    old.extend_from_slice(lines.as_bytes())?;
    let mut expected = Vec::new(alloc);
    expected.extend_from_slice(HEAD.as_bytes())?;
    expected.extend_from_slice(lines.as_bytes())?;
    let new = migrate(old.as_slice(), &header, alloc)?;
    Ok(new.as_slice() == expected.as_slice())
}

#[test]
fn the_lines_of_events_stand_behind_the_new_head(rt: HostRuntime) -> Result<(), Fail> {
    for lines in &LINES {
        let is = is_migrated(lines, rt.alloc())?;
        holds(&rt, lines, is);
    }
    Ok(())
}

#[test]
fn what_is_migrated_has_the_same_events(rt: HostRuntime) -> Result<(), Fail> {
    let mut old = Vec::new(rt.alloc());
    old.extend_from_slice(b"smt-trace 1\n")?;
    for (_, line) in trace().iter().chain(&others()) {
        old.extend_from_slice(line.as_bytes())?;
        old.extend_from_slice(b"\n")?;
    }
    let header = header().expect(&rt, "a header");
    let new = migrate(old.as_slice(), &header, rt.alloc())?;
    let read = read_trace(new.as_slice(), rt.alloc())?;
    assert!(rt; read.header().is_some());
    assert!(rt; read.events().len() == 28);
    for (event, (expected, line)) in read.events().iter().zip(trace().iter().chain(&others())) {
        holds(&rt, line, event == expected);
    }
    Ok(())
}

#[test]
fn a_trace_of_version_2_keeps_its_core(rt: HostRuntime) -> Result<(), Fail> {
    let header = header().expect(&rt, "a header");
    let old = b"smt-trace 2\nconfig 1 528 4 mem alu\nD 1 0\n".as_slice();
    let new = migrate(old, &header, rt.alloc())?;
    let expected = b"smt-trace 3\nconfig 1 528 4 mem alu\nD 1 0\n".as_slice();
    assert!(rt; new.as_slice() == expected);
    Ok(())
}

/// Texts that name version 3 already.
static NEWEST: [&str; 5] = [
    "smt-trace 3",
    "smt-trace 3\n",
    "smt-trace 3\nconfig 2 64 16 fetch alu\n",
    "smt-trace 3\nconfig 2 64 16 fetch alu\nD 0 0\n",
    "smt-trace 3\nD 0 00\n",
];

/// Texts that are no trace, each with the line and the rule that it is refused for.
static NONE: [(&str, usize, u8); 12] = [
    ("", 1, 2),
    ("smt-trace 1", 1, 2),
    ("smt-trace 2", 1, 2),
    ("smt-trace 2\n", 2, 2),
    ("smt-trace 2\nconfig 2 64 16 fetch alu\nG 0 0\n", 3, 3),
    ("smt-trace 4\n", 1, 1),
    ("smt-trace 20\n", 1, 1),
    ("\nsmt-trace 3\n", 1, 1),
    ("smt-trace 1\nD 16 0\n", 2, 6),
    ("smt-trace 1\nD 0 0\nR 0 0 504\n", 3, 6),
    ("smt-trace 1\nD 0 0", 2, 2),
    ("smt-trace 1\nconfig 2 64 16 fetch alu\n", 2, 3),
];

/// Why a text isn't migrated, where it isn't.
fn refusal(text: &str, alloc: Global) -> Option<MigrateRefused> {
    migrate(text.as_bytes(), &header()?, alloc).err()
}

#[test]
fn a_trace_of_version_3_isnt_migrated(rt: HostRuntime) {
    for text in &NEWEST {
        let refused = refusal(text, rt.alloc());
        holds(&rt, text, refused == Some(MigrateRefused::Version));
    }
}

#[test]
fn what_is_no_trace_isnt_migrated(rt: HostRuntime) {
    for (text, line, rule) in &NONE {
        let expected = MigrateRefused::Line {
            line: *line,
            rule: *rule,
        };
        let refused = refusal(text, rt.alloc());
        holds(&rt, text, refused == Some(expected));
    }
}

#[test]
fn a_migration_that_is_refused_says_why(rt: HostRuntime) {
    let refused = MigrateRefused::Line { line: 2, rule: 5 };
    assert!(rt; says(&refused, "trace line 2 refused 5", rt.alloc()));
    assert!(rt;
        says(
            &MigrateRefused::Version,
            "trace version refused",
            rt.alloc()
        )
    );
    assert!(rt; says(&MigrateRefused::Memory, "memory", rt.alloc()));
}
