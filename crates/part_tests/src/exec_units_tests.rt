//! What a unit computes of a job, by hand from the chapters "RV32I" and "M" of the ISA.

use crate::rows::holds;
use events::{Next, Outcome};
use exec_units::{Job, work};
use rv_instr::{BranchOp, ImmediateOp, Instr, LoadOp, MulDivOp, Op};

const PC: u32 = 0x8000_0000;

// addi x10,x0,5
const ADDI: Op = Op::Known(Instr::Immediate {
    op: ImmediateOp::Addi,
    rd: 10,
    rs1: 0,
    imm: 5,
});

// mul x5,x6,x7
const MUL: Op = Op::Known(Instr::MulDiv {
    op: MulDivOp::Mul,
    rd: 5,
    rs1: 6,
    rs2: 7,
});

// jal x5,2
const JAL_ASTRAY: Op = Op::Known(Instr::Jal { rd: 5, offset: 2 });

// beq x0,x0,8
const BEQ: Op = Op::Known(Instr::Branch {
    op: BranchOp::Beq,
    rs1: 0,
    rs2: 0,
    offset: 8,
});

// lw x5,0(x6)
const LW: Op = Op::Known(Instr::Load {
    op: LoadOp::Lw,
    rd: 5,
    rs1: 6,
    offset: 0,
});

const ECALL: Op = Op::Known(Instr::Ecall);

const EBREAK: Op = Op::Known(Instr::Ebreak);

const FENCE_I: Op = Op::Known(Instr::InstructionFence);

macro_rules! outcome {
    ($value:expr, $next:expr, $out:expr) => {
        Outcome {
            value: $value,
            next: $next,
            addr: None,
            datum: None,
            out: $out,
        }
    };
}

const BEHIND: Next = Next::Pc(0x8000_0004);

/// An instruction with its two numbers, and what it computes.
static ROWS: [(&str, Op, u32, u32, Outcome); 13] = [
    ("addi", ADDI, 0, 0, outcome!(Some(5), BEHIND, None)),
    (
        "addi wraps",
        ADDI,
        0xffff_fffd,
        0,
        outcome!(Some(2), BEHIND, None),
    ),
    ("exit", ECALL, 93, 5, outcome!(None, Next::Ended(5), None)),
    (
        "put a byte",
        ECALL,
        1,
        0x141,
        outcome!(None, BEHIND, Some(0x41)),
    ),
    (
        "unknown call",
        ECALL,
        7,
        0,
        outcome!(None, Next::Stopped(8), None),
    ),
    (
        "no word",
        Op::NoWord,
        0,
        0,
        outcome!(None, Next::Stopped(1), None),
    ),
    (
        "illegal",
        Op::Illegal,
        0,
        0,
        outcome!(None, Next::Stopped(2), None),
    ),
    ("product", MUL, 6, 7, outcome!(Some(42), BEHIND, None)),
    (
        "taken branch",
        BEQ,
        0,
        0,
        outcome!(None, Next::Pc(0x8000_0008), None),
    ),
    (
        "bad target",
        JAL_ASTRAY,
        0,
        0,
        outcome!(None, Next::Stopped(0), None),
    ),
    (
        "break",
        EBREAK,
        0,
        0,
        outcome!(None, Next::Stopped(3), None),
    ),
    ("fence.i", FENCE_I, 0, 0, outcome!(None, BEHIND, None)),
    (
        "load",
        LW,
        0x8000_1000,
        0,
        Outcome {
            value: None,
            next: BEHIND,
            addr: Some(0x8000_1000),
            datum: None,
            out: None,
        },
    ),
];

/// A job that is done: its outcome, its instruction, and its outcome again as it is handed back.
#[derive(Clone, Copy, Drop)]
struct Worked {
    outcome: Outcome,
    op: Op,
    handed_back: Outcome,
}

fn work_on(op: Op, first: u32, second: u32) -> Worked {
    let done = work(Job::new(3, op, PC, first, second));
    Worked {
        outcome: done.outcome(),
        op: done.job().op(),
        handed_back: done.into_outcome(),
    }
}

#[test]
fn a_unit_hands_back_what_the_instruction_computes(rt: HostRuntime) {
    for (name, op, first, second, expected) in &ROWS {
        let job = work_on(*op, *first, *second);
        holds(&rt, name, job.outcome == *expected);
        holds(&rt, name, job.op == *op);
        holds(&rt, name, job.handed_back == *expected);
    }
}

#[test]
fn a_job_keeps_its_parts_and_can_be_abandoned(rt: HostRuntime) {
    let job = Job::new(7, ADDI, PC, 11, 12);
    let parts = (job.seq(), job.op(), job.pc(), job.first(), job.second());
    assert!(rt; parts == (7, ADDI, PC, 11, 12));
    let done = work(job);
    assert!(rt; done.job().seq() == 7);
    done.abandon();
    Job::new(8, ECALL, PC, 93, 0).abandon();
}
