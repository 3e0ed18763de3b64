//! Listings, against spellings from outside: those of a worked program, of GNU's disassembler and
//! of an ELF file's layout.

use crate::lines::LIST;
use crate::performing::{Performed, perform_whole, read_inputs_of};
use crate::rows::{ends, shows, text_of};
use std::alloc::Global;
use std::process::Abort;
use std::sync::Wait;
use std::thread::Threads;
use test_support::file_of;

/// Asserts that words with so many zeros behind them are listed as this text.
fn lists<R: Threads + Wait + Abort + Sync>(
    rt: &R,
    words: &[u32],
    zeros: u8,
    lines: &str,
    alloc: Global,
) {
    let Ok(file) = file_of(words, zeros, alloc) else {
        return shows(rt, "a list", "no memory", false);
    };
    let inputs = read_inputs_of(b"", &file, b"");
    let Performed { status, out, err } = perform_whole(rt, &LIST, &inputs, alloc);
    let is = status == 0 && err.is_empty() && text_of(&out) == lines;
    ends(rt, "a list", status, text_of(&out), is);
}

/// One hart stores, another may load from the same word in between.
static WORDS: [u32; 9] = [
    0x80001337, 0x00051863, 0x00032283, 0x00128393, 0x00100073, 0x00700293, 0x00532023, 0x00032023,
    0x00100073,
];

const LINES: &str = "80000000 80001337 lui x6,0x80001
80000004 00051863 bne x10,x0,0x80000014
80000008 00032283 lw x5,0(x6)
8000000c 00128393 addi x7,x5,1
80000010 00100073 ebreak
80000014 00700293 addi x5,x0,7
80000018 00532023 sw x5,0(x6)
8000001c 00032023 sw x0,0(x6)
80000020 00100073 ebreak
";

#[test]
fn each_word_of_the_code_has_a_line(rt: HostRuntime) {
    lists(&rt, &WORDS, 0, LINES, rt.alloc());
}

/// The second word is no instruction.
static STRANGE: [u32; 3] = [0x00500513, 0xFFFFFFFF, 0x00000073];

/// The code has two more words in memory than in the file.
const STRANGE_LINES: &str = "80000000 00500513 addi x10,x0,5
80000004 ffffffff .word
80000008 00000073 ecall
8000000c 00000000 .word
80000010 00000000 .word
";

#[test]
fn illegal_words_and_zeros_behind_the_file_are_listed(rt: HostRuntime) {
    lists(&rt, &STRANGE, 2, STRANGE_LINES, rt.alloc());
}
