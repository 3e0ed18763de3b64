//! Why states of litmus tests can't come, against the cycles that the literature gives (Alglave, Maranget and
//! Tautschnig, "Herding Cats", 2014), and texts made by hand.

use crate::rows::holds;
use explained_cycles::{draw_explanation, write_explanation};
use litmus_cycles::explain_forbidden;
use litmus_tests::{
    Condition, INT, LitmusStep, LitmusTest, Location, Observed, Quantifier, RegisterStart, Term,
    Thread, Value, Width,
};
use rv_instr::{Instr, LoadOp, Ordering, StoreOp};
use rv_word::AmoKind;
use std::alloc::{AllocError, Global};

/// A test of the locations x and y: what each hart does, in words of three characters (`Rx5` reads x into x5,
/// `Wx1` writes 1 to it, `Ax5` adds 1 to it by an AMO, `Lx5` and `Sx5` are LR and SC of 2), a bar between two
/// harts; the numbers of registers and of locations at the end; and the two lines that are told first.
struct Row {
    harts: &'static str,
    registers: &'static [(u8, u8, u32)],
    locations: &'static [(usize, u32)],
    told: &'static str,
}

static ROWS: [Row; 9] = [
    // SB
    Row {
        harts: "Wx1Ry5|Wy1Rx5",
        registers: &[(0, 5, 0), (1, 5, 0)],
        locations: &[],
        told: "1 of 4 candidates fits the numbers; it has a cycle, all looked at\ncycle a po b fr c po d fr a\n",
    },
    // MP
    Row {
        harts: "Wx1Wy1|Ry5Rx6",
        registers: &[(1, 5, 1), (1, 6, 0)],
        locations: &[],
        told: "1 of 4 candidates fits the numbers; it has a cycle, all looked at\ncycle a po b rf c po d fr a\n",
    },
    // LB
    Row {
        harts: "Rx5Wy1|Ry5Wx1",
        registers: &[(0, 5, 1), (1, 5, 1)],
        locations: &[],
        told: "1 of 4 candidates fits the numbers; it has a cycle, all looked at\ncycle a po b rf c po d rf a\n",
    },
    // IRIW
    Row {
        harts: "Wx1|Wy1|Rx5Ry6|Ry5Rx6",
        registers: &[(2, 5, 1), (2, 6, 0), (3, 5, 1), (3, 6, 0)],
        locations: &[],
        told: "1 of 16 candidates fits the numbers; it has a cycle, all looked at\ncycle a rf c po d fr b rf e po f fr a\n",
    },
    // 2+2W
    Row {
        harts: "Wx1Wy2|Wy1Wx2",
        registers: &[],
        locations: &[(0, 1), (1, 1)],
        told: "1 of 4 candidates fits the numbers; it has a cycle, all looked at\ncycle a po b co c po d co a\n",
    },
    // CoRR
    Row {
        harts: "Wx1|Rx5Rx6",
        registers: &[(1, 5, 1), (1, 6, 0)],
        locations: &[],
        told: "none of 4 candidates fits the numbers; what has them breaks coherence, all looked at\ncycle a rf b po c fr a\n",
    },
    // SB, and what can come
    Row {
        harts: "Wx1Ry5|Wy1Rx5",
        registers: &[(0, 5, 1), (1, 5, 1)],
        locations: &[],
        told: "1 of 4 candidates fits the numbers; one has no cycle, all looked at\norder a c b d\n",
    },
    // two atomic additions that both find 0
    Row {
        harts: "Ax5|Ax5",
        registers: &[(0, 5, 0), (1, 5, 0)],
        locations: &[],
        told: "none of 8 candidates fits the numbers; what has them and is coherent breaks atomicity, all looked at\na lies between what b reads and what it writes\n",
    },
    // a store-conditional over another hart's write
    Row {
        harts: "Lx5Sx6|Wx1",
        registers: &[(0, 5, 0), (0, 6, 0)],
        locations: &[(0, 2)],
        told: "none of 6 candidates fits the numbers; what has them and is coherent breaks atomicity, all looked at\nc lies between a and b\n",
    },
];

/// What is told of SB, whose state is forbidden.
const STORE_BUFFERING: &str = "1 of 4 candidates fits the numbers; it has a cycle, all looked at
cycle a po b fr c po d fr a
a hart 0 W x 1 sw x1,0(x20)
b hart 0 R y 0 lw x5,0(x21)
c hart 1 W y 1 sw x1,0(x21)
d hart 1 R x 0 lw x5,0(x20)
a -po-> b
b -fr y-> c
c -po-> d
d -fr x-> a
";

const PLAIN: Ordering = Ordering {
    aq: false,
    rl: false,
};

/// The instruction of a word. x20 and x21 have the addresses of x and y.
fn instr_of(kind: u8, location: u8, digit: u8) -> Instr {
    let rs1 = if location == b'x' { 20 } else { 21 };
    let number = digit.saturating_sub(b'0');
    match kind {
        b'W' => Instr::Store {
            op: StoreOp::Sw,
            rs2: number,
            rs1,
            offset: 0,
        },
        b'A' => Instr::Amo {
            kind: AmoKind::Add,
            rd: number,
            rs1,
            rs2: 1,
            ordering: PLAIN,
        },
        b'L' => Instr::LoadReserved {
            rd: number,
            rs1,
            ordering: PLAIN,
        },
        b'S' => Instr::StoreConditional {
            rd: number,
            rs1,
            rs2: 2,
            ordering: PLAIN,
        },
        _ => Instr::Load {
            op: LoadOp::Lw,
            rd: number,
            rs1,
            offset: 0,
        },
    }
}

fn thread_of(text: &str, alloc: Global) -> Result<Thread, AllocError> {
    let mut starts = Vec::new(alloc);
    for (register, value) in [
        (1, Value::Number(1)),
        (2, Value::Number(2)),
        (20, Value::Address(0)),
        (21, Value::Address(4)),
    ] {
        starts.push(RegisterStart { register, value })?;
    }
    let mut steps = Vec::new(alloc);
    for word in text.as_bytes().chunks(3) {
        if let [kind, location, digit] = word {
            steps.push(LitmusStep::Straight(instr_of(*kind, *location, *digit)))?;
        }
    }
    Ok(Thread { starts, steps })
}

fn location_of(name: &[u8], byte: usize, alloc: Global) -> Result<Location, AllocError> {
    Ok(Location {
        name: name.to_vec(alloc)?,
        element: None,
        byte,
        begin: byte,
        number_type: INT,
    })
}

/// A condition, and that something has this number.
fn and(
    condition: Condition,
    observed: Observed,
    number: u32,
    alloc: Global,
) -> Result<Condition, AllocError> {
    let term = Condition::Holds(Term {
        observed,
        value: Value::Number(number),
        width: Width::Word,
    });
    let first = Box::new(alloc, condition)?;
    let second = Box::new(alloc, term)?;
    Ok(Condition::Both(first, second))
}

fn condition_of(row: &Row, alloc: Global) -> Result<Condition, AllocError> {
    let mut condition = Condition::Always;
    for (hart, register, number) in row.registers {
        let observed = Observed::Register {
            hart: *hart,
            register: *register,
        };
        condition = and(condition, observed, *number, alloc)?;
    }
    for (location, number) in row.locations {
        condition = and(condition, Observed::Location(*location), *number, alloc)?;
    }
    Ok(condition)
}

fn test_of(row: &Row, alloc: Global) -> Result<LitmusTest, AllocError> {
    let mut threads = Vec::new(alloc);
    for hart in row.harts.split('|') {
        threads.push(thread_of(hart, alloc)?)?;
    }
    let mut locations = Vec::new(alloc);
    locations.push(location_of(b"x", 0, alloc)?)?;
    locations.push(location_of(b"y", 4, alloc)?)?;
    let mut words = Vec::new(alloc);
    words.push(Value::Number(0))?;
    words.push(Value::Number(0))?;
    Ok(LitmusTest {
        name: b"row".to_vec(alloc)?,
        words,
        locations,
        threads,
        filter: Condition::Always,
        quantifier: Quantifier::NotExists,
        condition: condition_of(row, alloc)?,
        observed: Vec::new(alloc),
    })
}

/// What is told of a row; nothing where memory is wanting.
fn told(row: &Row, alloc: Global) -> Option<Vec<u8>> {
    let test = test_of(row, alloc).ok()?;
    let explanation = explain_forbidden(&test, &(), alloc).ok()?;
    let mut text = Vec::new(alloc);
    write_explanation(&test, &explanation, &mut text).ok()?;
    Some(text)
}

/// The picture of a row; nothing where memory is wanting.
fn drawn(row: &Row, alloc: Global) -> Option<Vec<u8>> {
    let test = test_of(row, alloc).ok()?;
    let explanation = explain_forbidden(&test, &(), alloc).ok()?;
    let mut text = Vec::new(alloc);
    draw_explanation(&test, &test, &explanation, &mut text, alloc).ok()?;
    Some(text)
}

fn has(text: Option<Vec<u8>>, part: &str) -> bool {
    match text {
        Some(text) => match str::from_utf8(text.as_slice()) {
            Ok(text) => text.contains(part),
            Err(_) => false,
        },
        None => false,
    }
}

#[test]
fn each_test_has_the_cycle_of_the_literature(rt: HostRuntime) {
    for row in &ROWS {
        holds(&rt, row.harts, has(told(row, rt.alloc()), row.told));
    }
}

#[test]
fn store_buffering_is_told_and_drawn(rt: HostRuntime) {
    let row = &ROWS[0];
    holds(&rt, row.harts, has(told(row, rt.alloc()), STORE_BUFFERING));
    let thick = "<path class=\"arrow thick fr\" marker-end=\"url(#to-fr)\"";
    holds(&rt, row.harts, has(drawn(row, rt.alloc()), thick));
}
