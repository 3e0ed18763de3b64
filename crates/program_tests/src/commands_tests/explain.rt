//! Explanations, against texts by docs/FORMATS.md: of a worked program, and of refused inputs.

use super::{ENDING, TWO};
use crate::lines::{EXPLAIN, EXPLAIN_ORDER, EXPLAIN_SCRIPT};
use crate::performing::{Performed, perform_whole, read_inputs_of};
use crate::rows::{ends, says, shows, text_of};
use elf_image::LoadRefused;
use explanations::words_of_check;
use sim_inputs::Line;
use std::alloc::Global;
use std::process::Abort;
use std::sync::Wait;
use std::thread::Threads;
use test_support::file_of;

/// Asserts that a configuration and an image are explained by this text, with this exit status.
fn explains<R: Threads + Wait + Abort + Sync>(
    rt: &R,
    config: &[u8],
    image: &[u8],
    expected: (u8, &str, &str),
    alloc: Global,
) {
    let inputs = read_inputs_of(config, image, b"");
    let Performed { status, out, err } = perform_whole(rt, &EXPLAIN, &inputs, alloc);
    let is = (status, text_of(&out), text_of(&err)) == expected;
    ends(rt, "an explanation", status, text_of(&out), is);
}

/// Asserts that these words beside the accepted image are explained by this text behind what is said of the image, with
/// this exit status.
fn tells<R: Threads + Wait + Abort + Sync>(
    rt: &R,
    line: &Line<'_>,
    words: &str,
    expected: (u8, &str, &str),
    alloc: Global,
) {
    let Ok(image) = file_of(ENDING, 0, alloc) else {
        return shows(rt, "a file", "no memory", false);
    };
    let inputs = read_inputs_of(TWO, &image, words.as_bytes());
    let Performed { status, out, err } = perform_whole(rt, line, &inputs, alloc);
    let told = text_of(&out).strip_prefix(ACCEPTED).unwrap_or("");
    ends(
        rt,
        words,
        status,
        text_of(&out),
        (status, told, text_of(&err)) == expected,
    );
}

/// What is said of a script with two words that come to nothing.
const SCRIPT: &str = "script accepted
words 4
asks 4
steps 1
actor 0 fetch: F 1
actor 1 front: D 1
actor 2 retire: T 1
actor 3 alu: nothing
actor 4 mul: nothing
actor 5 mem: nothing
actor 9 not there: F 1
words that this core never follows 1
line 2, column 1: `F9`: no such actor
words without a step 2
line 2, column 4: `D1.1`: nothing fetched of hart 1
line 2, column 9: `T2.0`: nothing in flight of hart 0
";

/// What is said of one with a word that says nothing.
const WRONG_SCRIPT: &str = "script refused 2
line 1, column 4: `d1.0`
`d1.0`: did you mean `D1.0`?
expected: `F`, `I`, `C` or `U` and an actor, 0 to 31; or `D`, `R` or `T`, an actor, a point and a hart, 0 to 15; behind \
it perhaps `*` and how often, 1 to 100000
";

#[test]
fn a_script_is_told_beside_an_image(rt: HostRuntime) {
    let told = (0, SCRIPT, "");
    tells(&rt, &EXPLAIN_SCRIPT, "F0\nF9 D1.1 T2.0", told, rt.alloc());
    let refused = (2, WRONG_SCRIPT, "smtsim: script word 2 refused\n");
    tells(&rt, &EXPLAIN_SCRIPT, "F0 d1.0", refused, rt.alloc());
}

/// What is said of an order that the plain machine follows.
const ORDER: &str = "order accepted
words 3
hart 0: 2
hart 1: 1
words without a step 0
";

/// What is said of one that names a hart that isn't there.
const WRONG_ORDER: &str = "order refused 1 3
words 2
hart 0: 1
hart 1: 0
hart 2 not there: 1
words without a step 1
line 1, column 3: `2`: hart 2 isn't there
";

#[test]
fn an_order_is_told_beside_an_image(rt: HostRuntime) {
    tells(&rt, &EXPLAIN_ORDER, "0 1\n0", (0, ORDER, ""), rt.alloc());
    let refused = (2, WRONG_ORDER, "smtsim: order 1 refused 3\n");
    tells(&rt, &EXPLAIN_ORDER, "0 2", refused, rt.alloc());
}

/// What is said of two harts with room for a thousand events, and of three words of code.
const ACCEPTED: &str = "config accepted
harts 2
extra 64
queue 16
ram 8192
limit 1000
turns 1000000000
actor 0 fetch
actor 1 front
actor 2 retire
actor 3 alu
actor 4 mul
actor 5 mem
image accepted
ram 80000000 to 80001fff, 8192 bytes
segment 0 at 80000000 to 8000000b, 12 bytes in the file, 12 in memory, R X
entry 80000000
free behind the last segment 8180
";

#[test]
fn what_is_accepted_is_told(rt: HostRuntime) {
    let Ok(image) = file_of(ENDING, 0, rt.alloc()) else {
        return shows(&rt, "a file", "no memory", false);
    };
    explains(&rt, TWO, &image, (0, ACCEPTED, ""), rt.alloc());
}

/// What is said of seventeen harts, and of an image without a byte.
const REFUSED: &str = "config refused
line 1, column 1: key `harts`
expected: a whole number from 1 to 16
usually: it is beyond these bounds, stands in quotation marks or has a fraction
the image without a configuration:
image refused 1
the file is shorter than an ELF header
the file has 0 bytes
usually: an empty file, or another one than the linked program
";

#[test]
fn what_is_refused_is_told(rt: HostRuntime) {
    let expected = (2, REFUSED, "smtsim: config refused\n");
    explains(&rt, b"harts = 17\n", b"", expected, rt.alloc());
}

/// Each check that a file may fail.
const CHECKS: [LoadRefused; 18] = [
    LoadRefused::TooShort,
    LoadRefused::NotElf,
    LoadRefused::NotClass32,
    LoadRefused::NotLittleEndian,
    LoadRefused::WrongVersion,
    LoadRefused::NotExecutable,
    LoadRefused::NotRiscV,
    LoadRefused::WrongHeaderSize,
    LoadRefused::TableOutsideFile,
    LoadRefused::WrongSegmentCount,
    LoadRefused::SegmentOutsideFile,
    LoadRefused::WrongMemorySize,
    LoadRefused::SegmentOutsideRam,
    LoadRefused::SegmentsOverlap,
    LoadRefused::WrongCodeSegment,
    LoadRefused::MisalignedCode,
    LoadRefused::WrongEntry,
    LoadRefused::OutOfMemory,
];

#[test]
fn a_check_is_explained_in_its_own_words(rt: HostRuntime) {
    for check in &CHECKS {
        assert!(rt; says(check, words_of_check(*check), rt.alloc()));
    }
}
