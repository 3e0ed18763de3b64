//! The registers and the unit of an instruction.

use crate::rows::holds_at;
use rv_decode::{decode, decode_op};
use rv_instr::{Op, Reg, UnitKind};

/// What an instruction names.
#[derive(Clone, Copy, PartialEq, Drop)]
struct Named {
    rd: Option<Reg>,
    rs1: Option<Reg>,
    rs2: Option<Reg>,
    unit: UnitKind,
}

macro_rules! named {
    ($rd:expr, $rs1:expr, $rs2:expr, $unit:expr) => {
        Named {
            rd: $rd,
            rs1: $rs1,
            rs2: $rs2,
            unit: $unit,
        }
    };
}

/// Those that the assembler's text names, and for ECALL the registers of a call's number and first
/// argument.
static NAMED: [(u32, Named); 19] = [
    (0x80001337, named!(Some(6), None, None, UnitKind::Alu)), // lui x6,0x80001
    (0xfffff897, named!(Some(17), None, None, UnitKind::Alu)), // auipc x17,0xfffff
    (0x001000ef, named!(Some(1), None, None, UnitKind::Alu)), // jal x1,.+2048
    (0x008280e7, named!(Some(1), Some(5), None, UnitKind::Alu)), // jalr x1,8(x5)
    (0xfe0e1ce3, named!(None, Some(28), Some(0), UnitKind::Alu)), // bne x28,x0,.-8
    (0x00032283, named!(Some(5), Some(6), None, UnitKind::Mem)), // lw x5,0(x6)
    (0x007300a3, named!(None, Some(6), Some(7), UnitKind::Mem)), // sb x7,1(x6)
    (0x00500513, named!(Some(10), Some(0), None, UnitKind::Alu)), // addi x10,x0,5
    (0x00251293, named!(Some(5), Some(10), None, UnitKind::Alu)), // slli x5,x10,2
    (0x404100b3, named!(Some(1), Some(2), Some(4), UnitKind::Alu)), // sub x1,x2,x4
    (0x027302b3, named!(Some(5), Some(6), Some(7), UnitKind::Mul)), // mul x5,x6,x7
    (
        0x020fff33,
        named!(Some(30), Some(31), Some(0), UnitKind::Mul),
    ), // remu x30,x31,x0
    (0x0ff0000f, named!(None, None, None, UnitKind::Alu)), // fence iorw,iorw
    (0x0000100f, named!(None, None, None, UnitKind::Alu)), // fence.i
    (0x00000073, named!(None, Some(17), Some(10), UnitKind::Alu)), // ecall
    (0x00100073, named!(None, None, None, UnitKind::Alu)), // ebreak
    (0x100322af, named!(Some(5), Some(6), None, UnitKind::Mem)), // lr.w x5,(x6)
    (0x187322af, named!(Some(5), Some(6), Some(7), UnitKind::Mem)), // sc.w x5,x7,(x6)
    (0x0053202f, named!(Some(0), Some(6), Some(5), UnitKind::Mem)), // amoadd.w x0,x5,(x6)
];

fn named_by(op: Op) -> Named {
    named!(op.rd(), op.rs1(), op.rs2(), op.unit())
}

/// What the instruction of a word names, if it is one.
fn named_by_word(word: u32) -> Option<Named> {
    let instr = decode(word)?;
    Some(named!(instr.rd(), instr.rs1(), instr.rs2(), instr.unit()))
}

#[test]
fn registers_and_units_are_those_that_the_text_names(rt: HostRuntime) {
    for (word, named) in &NAMED {
        holds_at(&rt, *word, named_by(decode_op(Some(*word))) == *named);
        holds_at(&rt, *word, named_by_word(*word) == Some(*named));
    }
    let none = named!(None, None, None, UnitKind::Alu);
    assert!(rt; named_by(decode_op(Some(0))) == none);
    assert!(rt; named_by(decode_op(None)) == none);
    assert!(rt; matches!(decode_op(None), Op::NoWord));
}
