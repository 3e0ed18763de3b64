//! Litmus tests, read: texts as herd's catalogue and diy have them, and one refusal of each kind, whose lines and
//! columns are counted by hand.

use litmus_reading::{MOST_BYTES, ReadingRefused, read_litmus};
use litmus_tests::{
    AccessSet, Condition, Fence, LitmusStep, LitmusTest, Observed, Quantifier, RegisterStart, Term,
    Value, Width, beginning_at, narrowed, type_of,
};
use rv_instr::{BranchOp, ImmediateOp, Instr, LoadOp, Ordering, RegisterOp, StoreOp};
use rv_word::AmoKind;
use std::alloc::Global;

const SB: &str = "RISCV SB
\"PodWR Fre PodWR Fre\"
Cycle=Fre PodWR Fre PodWR
Relax=
Safe=Fre PodWR
Generator=diy7 (version 7.56)
Prefetch=0:x=F,0:y=T,1:y=F,1:x=T
Com=Fr Fr
Orig=PodWR Fre PodWR Fre
{
0:x5=1; 0:x6=x; 0:x8=y;
1:x5=1; 1:x6=y; 1:x8=x;
}
 P0          | P1          ;
 sw x5,0(x6) | sw x5,0(x6) ;
 lw x7,0(x8) | lw x7,0(x8) ;
exists
(0:x7=0 /\\ 1:x7=0)
";

const MP_FENCES: &str = "RISCV MP+fence.rw.rws
\"Fence.rw.rwdWW Rfe Fence.rw.rwdRR Fre\"
Cycle=Rfe Fence.rw.rwdRR Fre Fence.rw.rwdWW
Com=Rf Fr
{
0:x5=1; 0:x6=x; 0:x7=y;
1:x6=y; 1:x8=x
}
 P0          | P1          ;
 sw x5,0(x6) | lw x5,0(x6) ;
 fence rw,rw | fence r,rw  ;
 sw x5,0(x7) | lw x7,0(x8) ;
exists (1:x5=1 /\\ 1:x7=0)
";

const LB_ADDRS: &str = "RISCV LB+addrs (* loads before stores *)
{
int x; int y = -1; [z]=0x10;
0:a0=x; 0:x9=y; 1:a0=y; uint32_t 1:x9=x;
}
 P0            | P1            ;
 lw x5,0(x10)  | lw t0,0(a0)   ;
 xor x7,x5,x5  | xor x7,x5,x5  ;
 ori x8,x0,1   | ori x8,zero,1 ;
 add x11,x9,x7 | add x11,x9,x7 ;
 sw x8,0(x11)  | sw x8,-4(x11) ;
exists (0:x5=1 /\\ 1:x5=1 \\/ ~(x=2) /\\ true)
";

const LOCK: &str = "RISCV lock
{ 0:x6=m; 1:x6=m; 0:x8=1; }
 P0                    | P1                       ;
 L0: lr.w.aq x5,(x6)   | amoswap.w.aq.rl x5,x8,(x6) ;
 bnez x5,L0            |                          ;
 sc.w.rl x7,x8,0(x6)   | L1:                      ;
 bne x7,x0,L0          | beqz x0,L1               ;
 (* held *)            | li x9,-1                 ;
 fence.tso             | slli x9,x9,3             ;
forall (m=1 \\/ [m]=0)
";

const NEVER: &str = "RISCV never
{ x=0; 0:x6=x; }
 P0 ;
 mv x7,x6 ;
 nop ;
locations [0:x7; x;]
~exists (not (x=0) /\\ 0:x7=x)
";

/// The test of a text.
fn read(rt: &HostRuntime, text: &str) -> Option<LitmusTest> {
    match read_litmus(text.as_bytes(), rt.alloc()) {
        Ok(test) => Some(test),
        Err(refused) => {
            let _ = rt.println(&refused);
            None
        }
    }
}

fn straight(instr: Instr) -> LitmusStep {
    LitmusStep::Straight(instr)
}

/// Whether a hart does this.
fn does(test: &LitmusTest, hart: usize, steps: &[LitmusStep]) -> bool {
    match test.threads.get(hart) {
        Some(thread) => thread.steps.as_slice() == steps,
        None => false,
    }
}

/// Whether a hart starts so.
fn starts(test: &LitmusTest, hart: usize, starts: &[RegisterStart]) -> bool {
    match test.threads.get(hart) {
        Some(thread) => thread.starts.as_slice() == starts,
        None => false,
    }
}

/// Whether the location with this index is this one, and its word begins so.
fn is_location(test: &LitmusTest, index: usize, name: &str, initial: Value) -> bool {
    match (test.locations.get(index), test.words.get(index)) {
        (Some(location), Some(word)) => {
            location.name.as_slice() == name.as_bytes()
                && location.byte == 4 * index
                && *word == initial
        }
        _ => false,
    }
}

fn lw(rd: u8, rs1: u8) -> LitmusStep {
    straight(Instr::Load {
        op: LoadOp::Lw,
        rd,
        rs1,
        offset: 0,
    })
}

fn sw(rs2: u8, rs1: u8, offset: i32) -> LitmusStep {
    straight(Instr::Store {
        op: StoreOp::Sw,
        rs2,
        rs1,
        offset,
    })
}

fn register(hart: u8, register: u8) -> Observed {
    Observed::Register { hart, register }
}

#[test]
fn reads_store_buffering(rt: HostRuntime) {
    let Some(test) = read(&rt, SB) else {
        assert!(rt; false);
        return;
    };
    assert!(rt; test.name.as_slice() == b"SB".as_slice());
    assert!(rt; test.locations.len() == 2);
    assert!(rt; is_location(&test, 0, "x", Value::Number(0)));
    assert!(rt; is_location(&test, 1, "y", Value::Number(0)));
    let start = |register, value| RegisterStart { register, value };
    let (one, x, y) = (Value::Number(1), Value::Address(0), Value::Address(4));
    assert!(rt; starts(&test, 0, &[start(5, one), start(6, x), start(8, y)]));
    assert!(rt; starts(&test, 1, &[start(5, one), start(6, y), start(8, x)]));
    assert!(rt; test.threads.len() == 2);
    assert!(rt; does(&test, 0, &[sw(5, 6, 0), lw(7, 8)]));
    assert!(rt; does(&test, 1, &[sw(5, 6, 0), lw(7, 8)]));
    assert!(rt; test.quantifier == Quantifier::Exists);
    assert!(rt; test.observed.as_slice() == [register(0, 7), register(1, 7)].as_slice());
}

const READS: AccessSet = AccessSet {
    input: false,
    output: false,
    reads: true,
    writes: false,
};

const MEMORY: AccessSet = AccessSet {
    input: false,
    output: false,
    reads: true,
    writes: true,
};

const DEVICES: AccessSet = AccessSet {
    input: true,
    output: true,
    reads: false,
    writes: false,
};

const ALL: AccessSet = AccessSet {
    input: true,
    output: true,
    reads: true,
    writes: true,
};

fn fence(before: AccessSet, after: AccessSet) -> LitmusStep {
    LitmusStep::Fence(Fence::Sets { before, after })
}

#[test]
fn reads_message_passing_with_fences(rt: HostRuntime) {
    let Some(test) = read(&rt, MP_FENCES) else {
        assert!(rt; false);
        return;
    };
    assert!(rt; test.name.as_slice() == b"MP+fence.rw.rws".as_slice());
    assert!(rt; does(&test, 0, &[sw(5, 6, 0), fence(MEMORY, MEMORY), sw(5, 7, 0)]));
    assert!(rt; does(&test, 1, &[lw(5, 6), fence(READS, MEMORY), lw(7, 8)]));
    assert!(rt; test.observed.as_slice() == [register(1, 5), register(1, 7)].as_slice());
}

#[test]
fn keeps_the_sets_of_fences(rt: HostRuntime) {
    let text =
        "RISCV A\n{ }\nP0;\n fence;\n fence iorw,iorw;\n fence io,r;\n fence.tso;\nexists true";
    let Some(test) = read(&rt, text) else {
        assert!(rt; false);
        return;
    };
    let steps = [
        fence(ALL, ALL),
        fence(ALL, ALL),
        fence(DEVICES, READS),
        LitmusStep::Fence(Fence::TotalStoreOrder),
    ];
    assert!(rt; does(&test, 0, &steps));
}

fn of_registers(op: RegisterOp, rd: u8, rs1: u8, rs2: u8) -> LitmusStep {
    straight(Instr::Register { op, rd, rs1, rs2 })
}

fn immediate(op: ImmediateOp, rd: u8, rs1: u8, imm: i32) -> LitmusStep {
    straight(Instr::Immediate { op, rd, rs1, imm })
}

/// What hart 0 of `LB_ADDRS` does, with the offset of its store.
fn load_buffering(offset: i32) -> [LitmusStep; 5] {
    [
        lw(5, 10),
        of_registers(RegisterOp::Xor, 7, 5, 5),
        immediate(ImmediateOp::Ori, 8, 0, 1),
        of_registers(RegisterOp::Add, 11, 9, 7),
        sw(8, 11, offset),
    ]
}

#[test]
fn reads_load_buffering_with_addresses(rt: HostRuntime) {
    let Some(test) = read(&rt, LB_ADDRS) else {
        assert!(rt; false);
        return;
    };
    assert!(rt; is_location(&test, 0, "x", Value::Number(0)));
    assert!(rt; is_location(&test, 1, "y", Value::Number(0xffff_ffff)));
    assert!(rt; is_location(&test, 2, "z", Value::Number(16)));
    assert!(rt; does(&test, 0, &load_buffering(0)));
    assert!(rt; does(&test, 1, &load_buffering(-4)));
    let observed = [register(0, 5), register(1, 5), Observed::Location(0)];
    assert!(rt; test.observed.as_slice() == observed.as_slice());
    assert!(rt; is_of_loads(&test.condition));
}

fn holds(observed: Observed, value: u32, condition: &Condition) -> bool {
    let term = Term {
        observed,
        value: Value::Number(value),
        width: Width::Word,
    };
    match condition {
        Condition::Holds(found) => *found == term,
        _ => false,
    }
}

/// Whether it is `(0:x5=1 /\ 1:x5=1) \/ ((~ x=2) /\ true)`.
fn is_of_loads(condition: &Condition) -> bool {
    match condition {
        Condition::Either(left, right) => is_both_one(left) && is_not_two(right),
        _ => false,
    }
}

fn is_both_one(condition: &Condition) -> bool {
    match condition {
        Condition::Both(left, right) => {
            holds(register(0, 5), 1, left) && holds(register(1, 5), 1, right)
        }
        _ => false,
    }
}

fn is_not_two(condition: &Condition) -> bool {
    match condition {
        Condition::Both(left, right) => is_negated_two(left) && is_always(right),
        _ => false,
    }
}

fn is_negated_two(condition: &Condition) -> bool {
    match condition {
        Condition::Not(inner) => holds(Observed::Location(0), 2, inner),
        _ => false,
    }
}

fn is_always(condition: &Condition) -> bool {
    match condition {
        Condition::Always => true,
        _ => false,
    }
}

/// A branch where a register isn't 0.
fn branch(op: BranchOp, left: u8, target: usize) -> LitmusStep {
    LitmusStep::Branch {
        op,
        left,
        right: 0,
        target,
    }
}

fn order(aq: bool, rl: bool) -> Ordering {
    Ordering { aq, rl }
}

#[test]
fn reads_a_lock(rt: HostRuntime) {
    let Some(test) = read(&rt, LOCK) else {
        assert!(rt; false);
        return;
    };
    let reserved = Instr::LoadReserved {
        rd: 5,
        rs1: 6,
        ordering: order(true, false),
    };
    let conditional = Instr::StoreConditional {
        rd: 7,
        rs1: 6,
        rs2: 8,
        ordering: order(false, true),
    };
    let taking = [
        straight(reserved),
        branch(BranchOp::Bne, 5, 0),
        straight(conditional),
        branch(BranchOp::Bne, 7, 0),
        LitmusStep::Fence(Fence::TotalStoreOrder),
    ];
    assert!(rt; does(&test, 0, &taking));
    assert!(rt; test.quantifier == Quantifier::ForAll);
    assert!(rt; test.observed.as_slice() == [Observed::Location(0)].as_slice());
}

#[test]
fn reads_atomics_constants_and_shifts(rt: HostRuntime) {
    let Some(test) = read(&rt, LOCK) else {
        assert!(rt; false);
        return;
    };
    let swap = Instr::Amo {
        kind: AmoKind::Swap,
        rd: 5,
        rs1: 6,
        rs2: 8,
        ordering: order(true, true),
    };
    let shift = Instr::Shift {
        op: rv_instr::ShiftOp::Slli,
        rd: 9,
        rs1: 9,
        amount: 3,
    };
    let constant = LitmusStep::Constant {
        register: 9,
        value: 0xffff_ffff,
    };
    let steps = [
        straight(swap),
        branch(BranchOp::Beq, 0, 1),
        constant,
        straight(shift),
    ];
    assert!(rt; does(&test, 1, &steps));
}

#[test]
fn reads_what_never_is(rt: HostRuntime) {
    let Some(test) = read(&rt, NEVER) else {
        assert!(rt; false);
        return;
    };
    assert!(rt; test.quantifier == Quantifier::NotExists);
    let steps = [
        immediate(ImmediateOp::Addi, 7, 6, 0),
        immediate(ImmediateOp::Addi, 0, 0, 0),
    ];
    assert!(rt; does(&test, 0, &steps));
    let observed = [register(0, 7), Observed::Location(0)];
    assert!(rt; test.observed.as_slice() == observed.as_slice());
}

/// Texts that are refused, and how.
static REFUSED: [(&str, &str); 39] = [
    (
        "X86 SB\n",
        "line 1, column 1: a first word that isn't RISCV: X86",
    ),
    ("RISCV \n{ }", "line 1, column 1: no name behind RISCV"),
    (
        "RISCV A\n (* (* *)\n",
        "line 2, column 2: a comment that doesn't end",
    ),
    (
        "RISCV A\n\"doc\n{ }",
        "line 2, column 1: a string that doesn't end",
    ),
    (
        "RISCV A\n\"a\"\"b\"\n{ }",
        "line 2, column 4: neither Key=.. nor {: \"",
    ),
    (
        "RISCV A\nfoo bar\n{ }",
        "line 2, column 1: neither Key=.. nor {: foo",
    ),
    (
        "RISCV A\n{ x=1;",
        "line 2, column 7: an end where something is missing",
    ),
    (
        "RISCV A\n{ 0:x32=1; }",
        "line 2, column 5: a register that isn't one: x32",
    ),
    (
        "RISCV A\n{ 0:x0=1; }",
        "line 2, column 5: register x0, which always holds 0",
    ),
    (
        "RISCV A\n{ x=1; int x; }",
        "line 2, column 12: a second start of the same: x",
    ),
    (
        "RISCV A\n{ 0:x5=1; 0:t0=2 }",
        "line 2, column 11: a second start of the same: 0",
    ),
    (
        "RISCV A\n{ x=4294967296; }",
        "line 2, column 5: a number that doesn't fit: 4294967296",
    ),
    (
        "RISCV A\n{ x=-2147483649; }",
        "line 2, column 5: a number that doesn't fit: -",
    ),
    (
        "RISCV A\n{ x=0xg; }",
        "line 2, column 5: what stands there isn't of the subset: 0xg",
    ),
    (
        "RISCV A\n{ 1:x5=1; }\nP0;\nexists true",
        "line 2, column 3: a hart that isn't there: 1",
    ),
    (
        "RISCV A\n{ }\n P0 | P2 ;",
        "line 3, column 7: harts that aren't P0, P1 and so on: P2",
    ),
    (
        "RISCV A\n{ }\nP0|P1|P2|P3|P4|P5|P6|P7|P8|P9|P10|P11|P12|P13|P14|P15|P16;",
        "line 3, column 55: more than 16 harts",
    ),
    (
        "RISCV A\n{ }\nP0|P1;\n nop ;\n",
        "line 4, column 2: a row with 1 column where there are 2 harts",
    ),
    (
        "RISCV A\n{ }\nP0;\n nop|nop ;",
        "line 4, column 2: a row with 2 columns where there is 1 hart",
    ),
    (
        "RISCV A\n{ }\nP0;\n fld f0,0(x5) ;\nexists true",
        "line 4, column 2: what stands there isn't of the subset: fld",
    ),
    (
        "RISCV A\n{ }\nP0;\n fence.i ;\nexists true",
        "line 4, column 2: what stands there isn't of the subset: fence.i",
    ),
    (
        "RISCV A\n{ }\nP0;\n lr.w.rl.aq x5,(x6) ;\nexists true",
        "line 4, column 2: what stands there isn't of the subset: lr.w.rl.aq",
    ),
    (
        "RISCV A\n{ }\nP0;\n lw x5,0(y) ;\nexists true",
        "line 4, column 10: a register that isn't one: y",
    ),
    (
        "RISCV A\n{ }\nP0;\n addi x5,x5,2048 ;\nexists true",
        "line 4, column 13: a number that doesn't fit: 2048",
    ),
    (
        "RISCV A\n{ }\nP0;\n add x5,x5 ;\nexists true",
        "line 4, column 11: an end where something is missing",
    ),
    (
        "RISCV A\n{ }\nP0;\n bnez x5,L5 ;\nexists true",
        "line 4, column 10: a label that isn't there: L5",
    ),
    (
        "RISCV A\n{ }\nP0;\n L: ;\n L: ;\nexists true",
        "line 5, column 2: a label that is there twice: L",
    ),
    (
        "RISCV A\n{ }\nP0;\n nop ;\n",
        "line 5, column 1: no exists, ~exists or forall",
    ),
    (
        "RISCV A\n{ }\nP0;\nfilter true\nfilter true\nexists true",
        "line 5, column 1: no exists, ~exists or forall",
    ),
    (
        "RISCV A\n{ int x[2]; }\nP0;\nexists (x[2]=1)",
        "line 4, column 11: an element that isn't there: 2",
    ),
    (
        "RISCV A\n{ int x[2]; }\nP0;\nexists (x=1)",
        "line 4, column 9: an array where a number is wanted: x",
    ),
    (
        "RISCV A\n{ int8_t y=x; x; }\nP0;\nexists true",
        "line 2, column 12: an address in a byte or a half: x",
    ),
    (
        "RISCV A\n{ int8_t y; short *0:x5=y; }\nP0;\nexists true",
        "line 2, column 25: a pointer to numbers of another size: y",
    ),
    (
        "RISCV A\n{ }\nP0;\nexists (z=1)",
        "line 4, column 9: a location that is never declared: z",
    ),
    (
        "RISCV A\n{ }\nP0;\nexists 1:x5=1",
        "line 4, column 8: a hart that isn't there: 1",
    ),
    (
        "RISCV A\n{ }\nP0;\nexists true\nfilter true",
        "line 5, column 1: something behind the condition: filter",
    ),
    (
        "RISCV A\n{ }\nP0;\nexists (true",
        "line 4, column 13: an end where something is missing",
    ),
    (
        "RISCV A\n{ }\nP0;\nexists ~~~~~~~~~~~~~~~~~true",
        "line 4, column 24: more than 16 levels of not and parentheses",
    ),
    (
        "RISCV A\n{ x.y=1; }\nP0;\nexists true",
        "line 2, column 3: what stands there isn't of the subset: x.y",
    ),
];

#[test]
fn refuses_at_the_place(rt: HostRuntime) {
    for (text, want) in &REFUSED {
        assert!(rt; is_refused(text.as_bytes(), want, rt.alloc()));
    }
}

/// Whether a text is refused so.
fn is_refused(text: &[u8], want: &str, alloc: Global) -> bool {
    let Err(refused) = read_litmus(text, alloc) else {
        return false;
    };
    let told = format!(in alloc; "{refused}");
    told.is_ok_and(|told| told.as_str() == want)
}

/// A text with a part of it so many times.
fn repeated(
    before: &str,
    part: &str,
    times: usize,
    behind: &str,
    alloc: Global,
) -> Option<Vec<u8>> {
    let mut text = Vec::new(alloc);
    text.extend_from_slice(before.as_bytes()).ok()?;
    for _ in 0..times {
        text.extend_from_slice(part.as_bytes()).ok()?;
    }
    text.extend_from_slice(behind.as_bytes()).ok()?;
    Some(text)
}

/// Whether such a text is read, and one with a part more is refused so.
fn has_limit(
    before: &str,
    part: &str,
    most: usize,
    behind: &str,
    want: &str,
    alloc: Global,
) -> bool {
    let Some(text) = repeated(before, part, most, behind, alloc) else {
        return false;
    };
    let Some(longer) = repeated(before, part, most.saturating_add(1), behind, alloc) else {
        return false;
    };
    read_litmus(text.as_slice(), alloc).is_ok() && is_refused(longer.as_slice(), want, alloc)
}

/// Bytes stand in their word from the lowest on, and a location behind them begins the next one.
const TYPES: &str = "RISCV types
{ int8_t b[5]={1,-2,0x7f}; uint16_t h=65535; char *p=b[4]; 0:x6=h; }
 P0 ;
 la x7,b+2 ;
exists (b[1]=254)
";

#[test]
fn reads_types_and_arrays(rt: HostRuntime) {
    let Some(test) = read(&rt, TYPES) else {
        assert!(rt; false);
        return;
    };
    let words = [
        Value::Number(0x007f_fe01),
        Value::Number(0),
        Value::Number(0xffff),
        Value::Address(4),
    ];
    assert!(rt; test.words.as_slice() == words.as_slice());
    let start = RegisterStart {
        register: 6,
        value: Value::Address(8),
    };
    assert!(rt; starts(&test, 0, &[start]));
    let address = LitmusStep::Constant {
        register: 7,
        value: 0x8000_0002,
    };
    assert!(rt; does(&test, 0, &[address]));
    let second = Observed::Location(1);
    assert!(rt; test.observed.as_slice() == [second].as_slice());
    let byte = type_of(test.locations.as_slice(), second);
    assert!(rt; byte.width == Width::Byte && byte.is_signed);
    match beginning_at(test.locations.as_slice(), 4) {
        Some(last) => assert!(rt; last.name.as_slice() == b"b".as_slice() && last.begin == 0),
        None => assert!(rt; false),
    }
}

#[test]
fn narrows_as_a_store_does(rt: HostRuntime) {
    assert!(rt; narrowed(Width::Byte, 0xffff_fffe) == 0xfe);
    assert!(rt; narrowed(Width::Half, 0x1234_5678) == 0x5678);
    assert!(rt; narrowed(Width::Word, 0xffff_fffe) == 0xffff_fffe);
}

/// A test of sixteen harts, of which the last one has an instruction.
const SIXTEEN_HARTS: &str =
    "RISCV A\n{ x; }\nP0|P1|P2|P3|P4|P5|P6|P7|P8|P9|P10|P11|P12|P13|P14|P15;\n\
|||||||||||||||li x5,1;\nexists 15:x5=1";

#[test]
fn reads_sixteen_harts(rt: HostRuntime) {
    let Some(test) = read(&rt, SIXTEEN_HARTS) else {
        assert!(rt; false);
        return;
    };
    assert!(rt; test.threads.len() == 16);
    let constant = LitmusStep::Constant {
        register: 5,
        value: 1,
    };
    assert!(rt; does(&test, 14, &[]));
    assert!(rt; does(&test, 15, &[constant]));
    assert!(rt; test.observed.as_slice() == [register(15, 5)].as_slice());
}

#[test]
fn has_limits(rt: HostRuntime) {
    let alloc = rt.alloc();
    let rows = "RISCV A\n{ }\nP0;\n";
    assert!(rt;
        has_limit(
            rows,
            "nop;\n",
            500,
            "exists true",
            "line 504, column 1: more than 500 steps of a hart",
            alloc
        )
    );
    let terms = "RISCV A\n{ x; }\nP0;\nexists x=0";
    assert!(rt;
        has_limit(
            terms,
            "/\\x=0",
            31,
            "",
            "line 4, column 168: more than 32 terms",
            alloc
        )
    );
    let blanks = MOST_BYTES - 24;
    assert!(rt;
        has_limit(
            "RISCV A\n{}P0;exists true",
            " ",
            blanks,
            "",
            "line 2, column 65529: more than 65536 bytes",
            alloc
        )
    );
}
