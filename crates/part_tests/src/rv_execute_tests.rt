//! What instructions compute from their operands, and what they do once memory was asked, by hand
//! from the ISA's chapters "RV32I" and "A".

use crate::rows::holds;
use events::{Effect, Next, Written};
use rv_execute::{
    access_size, atomic_result, effect_of, execute, last_effect, last_outcome, read_value,
    reads_memory,
};
use rv_instr::{Instr, Kind, LoadOp, Op, Ordering, StoreOp};
use rv_word::AmoKind;

const PC: u32 = 0x8000_0000;

const BEHIND: Next = Next::Pc(0x8000_0004);

// lw x5,-4(x6)
const LW: Op = Op::Known(Instr::Load {
    op: LoadOp::Lw,
    rd: 5,
    rs1: 6,
    offset: -4,
});

// sh x5,2(x6)
const SH: Op = Op::Known(Instr::Store {
    op: StoreOp::Sh,
    rs2: 5,
    rs1: 6,
    offset: 2,
});

// amoswap.w x5,x7,(x6)
const AMOSWAP: Op = Op::Known(Instr::Amo {
    kind: AmoKind::Swap,
    rd: 5,
    rs1: 6,
    rs2: 7,
    ordering: Ordering {
        aq: false,
        rl: false,
    },
});

// sc.w x5,x7,(x6)
const SC: Op = Op::Known(Instr::StoreConditional {
    rd: 5,
    rs1: 6,
    rs2: 7,
    ordering: Ordering {
        aq: false,
        rl: false,
    },
});

// lb x5,0(x6)
const LB: Op = Op::Known(Instr::Load {
    op: LoadOp::Lb,
    rd: 5,
    rs1: 6,
    offset: 0,
});

// lui x5,0x12345
const LUI: Op = Op::Known(Instr::Lui {
    rd: 5,
    imm: 0x1234_5000,
});

/// A value, what comes next, an address, what goes there, and a byte put out.
type Parts = (u32, Next, u32, u32, Option<u8>);

/// An instruction with its two numbers, and what it computes.
static ROWS: [(&str, Op, u32, u32, Parts); 6] = [
    ("lw", LW, 0x1000, 0, (0, BEHIND, 0x0ffc, 0, None)),
    ("lw wraps", LW, 0, 0, (0, BEHIND, 0xffff_fffc, 0, None)),
    (
        "sh",
        SH,
        0x1000,
        0x1234_5678,
        (0, BEHIND, 0x1002, 0x5678, None),
    ),
    ("amoswap", AMOSWAP, 0x1000, 7, (0, BEHIND, 0x1000, 7, None)),
    ("lui", LUI, 1, 2, (0x1234_5000, BEHIND, 0, 0, None)),
    (
        "illegal",
        Op::Illegal,
        1,
        2,
        (0, Next::Stopped(2), 0, 0, None),
    ),
];

fn parts_of(op: Op, first: u32, second: u32) -> Parts {
    let computed = execute(op, PC, first, second);
    (
        computed.value,
        computed.next,
        computed.addr,
        computed.datum,
        computed.out,
    )
}

#[test]
fn an_instruction_computes_from_its_two_numbers(rt: HostRuntime) {
    for (name, op, first, second, expected) in &ROWS {
        holds(&rt, name, parts_of(*op, *first, *second) == *expected);
    }
}

/// What it writes: the address, the bytes and the number.
type Write = Option<(u32, u8, u32)>;

/// An instruction with its two numbers, what its access reads and whether its word is reserved, and
/// the number that its register gets and what it writes.
static EFFECTS: [(&str, Op, (u32, u32), (u32, bool), (Option<u32>, Write)); 6] = [
    ("lw", LW, (0x1004, 0), (9, false), (Some(9), None)),
    (
        "sh",
        SH,
        (0x1000, 0x1234_5678),
        (9, true),
        (None, Some((0x1002, 2, 0x5678))),
    ),
    (
        "sc held",
        SC,
        (0x1000, 7),
        (9, true),
        (Some(0), Some((0x1000, 4, 7))),
    ),
    ("sc", SC, (0x1000, 7), (9, false), (Some(1), None)),
    (
        "amoswap",
        AMOSWAP,
        (0x1000, 7),
        (9, false),
        (Some(9), Some((0x1000, 4, 7))),
    ),
    ("lui", LUI, (1, 2), (9, true), (Some(0x1234_5000), None)),
];

/// The effect of an instruction that goes on behind.
fn going(value: Option<u32>, write: Write) -> Effect {
    Effect {
        value,
        next: BEHIND,
        write: write.map(|(addr, n, datum)| Written { addr, n, datum }),
        out: None,
    }
}

#[test]
fn an_instruction_does_what_its_kind_does(rt: HostRuntime) {
    for (name, op, (first, second), (now, held), (value, write)) in &EFFECTS {
        let computed = execute(*op, PC, *first, *second);
        let came = effect_of(*op, computed, *now, *held);
        holds(&rt, name, came == going(*value, *write));
    }
}

#[test]
fn what_ends_its_hart_says_no_more(rt: HostRuntime) {
    let ended = Next::Ended(5);
    let illegal = execute(Op::Illegal, PC, 1, 2);
    let stopped = effect_of(Op::Illegal, illegal, 9, true);
    assert!(rt; [ended.is_last(), BEHIND.is_last()] == [true, false]);
    assert!(rt; stopped == last_effect(Next::Stopped(2)));
    let outcome = last_outcome(ended);
    assert!(rt; outcome.next == ended && outcome.value.is_none() && outcome.addr.is_none());
}

#[test]
fn an_access_moves_its_bytes(rt: HostRuntime) {
    let sizes = [access_size(LB), access_size(SH), access_size(AMOSWAP)];
    assert!(rt; sizes == [1, 2, 4]);
    let numbers = [read_value(LB, 0x80), read_value(LW, 0x80)];
    assert!(rt; numbers == [0xffff_ff80, 0x80]);
    assert!(rt; atomic_result(AMOSWAP, 3, 4) == 4);
    let reads = [
        reads_memory(Kind::Loading),
        reads_memory(Kind::Atomic),
        reads_memory(Kind::Conditional),
    ];
    assert!(rt; reads == [true, true, false]);
}
