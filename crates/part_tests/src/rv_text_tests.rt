//! Instructions as text, against another disassembler, and texts that are refused.

use crate::rows::{holds, instr_of, word_and_text};
use rv_instr::{Instr, ShiftOp};
use rv_text::{parse, print};

mod words;

use words::{BASE, WORDS, WRAPPING};

/// Whether a word is spelled as this text at this address, and the text read as what the word is
/// read as.
fn is_spelled(word: u32, pc: u32, text: &str) -> bool {
    match instr_of(word, pc, text) {
        Some(instr) => parse(text, pc) == Ok(instr),
        None => false,
    }
}

#[test]
fn each_row_is_spelled_and_read_as_another_disassembler_spells_it(rt: HostRuntime) {
    let (mut pc, mut rows) = (BASE, 0u32);
    for row in WORDS.lines() {
        let (word, text) = word_and_text(row).expect(&rt, row);
        holds(&rt, row, is_spelled(word, pc, text));
        pc = pc.wrapping_add(4);
        rows = rows.wrapping_add(1);
    }
    assert!(rt; rows == 218);
    for (word, pc, text) in &WRAPPING {
        holds(&rt, text, is_spelled(*word, *pc, text));
    }
}

/// The texts that are refused at pc 80000000, by the number of their reason, with how many they
/// are. A bar stands between two. Each text has the reason that comes first from the left.
static REFUSED: [(u8, u32, &str); 4] = [
    // no name of a row; the first text is empty, and the second a space
    (
        1,
        15,
        "| | add x5,x6,x7|addx x5,x6,x7|ADD x5,x6,x7|nop|add\tx5,x6,x7|ecall\n|lr x5,(x6)|lr.d x5,(x6)|\
lr.w.rlaq x5,(x6)|lr.w. x5,(x6)|add.w x5,x6,x7|amoadd x5,x7,(x6)|amosub.w x5,x7,(x6)",
    ),
    // a missing or misspelled operand
    (
        2,
        39,
        "add|add |add  x5,x6,x7|add x5|add x5,|add x5,x6|add x5, x6,x7|add x5 x6 x7|add x,x6,x7|add t0,x6,x7|\
add X5,x6,x7|add x05,x6,x7|add x00,x6,x7|add x-5,x6,x7|add x5x,x6,x7|add x5,x6,7|addi x5,x6,|addi x5,x6,-|\
addi x5,x6,-0|addi x5,x6,+1|addi x5,x6,01|addi x5,x6,-01|addi x5,x6,--1|addi x5,x6,x7|slli x5,x6,-0|lui x6,80001|\
lui x6,0x8000|lui x6,0x800010|lui x6,0x8000A|lui x6,0X80001|jal x1,0x8000001|jal x1,16|lw x5,4|lw x5,(x6)|lw x5,4(x6|\
lw x5,4(6)|lr.w x5,x6|lr.w x5,0(x6)|sc.w x5,(x6)",
    ),
    // a number that its field can't hold
    (
        3,
        14,
        "add x5,x6,x32|add x5,x6,x99999999999999999999|addi x99,y,1|addi x5,x6,2048|addi x5,x6,-2049|\
addi x5,x6,4294967296|slli x5,x6,32|slli x5,x6,-1|jal x1,0x80000011|jal x1,0x80100000|jal x1,0x7feffffe|\
beq x1,x2,0x80001000|beq x1,x2,0x7fffeffe|jal x1,0x80000011 ",
    ),
    // something behind the last operand
    (
        4,
        6,
        "addi x5,x6,1 |add x5,x6,x7x|ecall |fence iorw,iorw|lw x5,4(x6))|jal x1,0x80000010 ",
    ),
];

/// The number of the reason for which a text is refused, if it is.
fn refusal(text: &str) -> Option<u8> {
    match parse(text, BASE) {
        Ok(_) => None,
        Err(refused) => Some(refused.number()),
    }
}

#[test]
fn each_other_text_is_refused_for_its_first_fault(rt: HostRuntime) {
    for (number, count, texts) in &REFUSED {
        let mut found = 0u32;
        for text in texts.split('|') {
            holds(&rt, text, refusal(text) == Some(*number));
            found = found.wrapping_add(1);
        }
        assert!(rt; found == *count);
    }
}

#[test]
fn a_shift_has_a_decimal_amount(rt: HostRuntime) {
    let instr = Instr::Shift {
        op: ShiftOp::Srai,
        rd: 8,
        rs1: 9,
        amount: 31,
    };
    assert!(rt; print(instr, 0).as_str() == "srai x8,x9,31");
}
