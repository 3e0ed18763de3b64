//! Litmus tests, read: a text in the subset of herd's format for RISC-V that docs/FORMATS.md states ("Litmus tests")
//! becomes a test of `litmus_tests`, or is refused at the place at which its first fault begins.
//!
//! The subset: `RISCV NAME`; a string and lines `Key=..`, which are skipped; the start in braces (`0:x5=1; 0:x6=x;
//! int8_t y=2; [z]=1; int a[2]={1,2}; int *p=x`), whose names are the locations and the arrays; the harts (`P0 | P1
//! ;`); rows of cells with a label and an instruction or less (every one of RV32IMA behind which a hart goes on
//! wherever it stands, the atomics with their ordering bits; branches, also those against 0 or of swapped registers, j
//! and jal x0; li, la, mv, nop, fence with two sets or none, fence.tso); `locations [..]` and `filter C`; and `exists`,
//! `~exists` or `forall` with a condition of terms (with `=` or `!=`), `true`, `~`, `not`, `/\`, `\/`, `=>`, `<=>` and
//! parentheses. Comments `(* .. *)` may be nested.
//!
//! Proved: a test that is read is well formed, and is the one that its text says (`specs/Texts`): its name (`Heads`), the
//! locations and arrays that the braces declare and where they stand (`Declarations`, `Names`), what they and the
//! registers hold at the start (`Starts`, `Memory`) and that it fits there (`Fitting`), the instructions of each hart, with
//! the labels of its branches and the sets of its fences (`Rows`, `Threads`, `Instructions`, `Fences`), the filter and the
//! question (`Questions`, `Grammar`), and what is looked at (`Looked`). A text that is a well-formed test's is read as that
//! test (`Same`), unless there is no memory: so a text has one test, and is refused only where it has none. What is refused
//! is refused at a place of the text. Only tested: which fault is told, and that it is told at the first word that no test
//! has there.
//!
//! Read in this order, behind `litmus_words`: `head` (what stands before the braces), `declarations` (of which types
//! locations are), `locations` (which there are, and where), `fitting` (what fits in a type), `contents` (what an entry
//! gives), `start`, `memory` (what the words of the locations hold), `rows` (of the table of harts), `operands`, `fences`,
//! `instruction`, `thread` (what a hart does), `condition`, `question`, `observed`; `sound` (whether a test makes sense);
//! `test`; `faults` (what else is wrong with a text).
#![tactic(auto)]

mod condition;
mod contents;
mod declarations;
mod faults;
mod fences;
mod fitting;
mod head;
mod instruction;
mod locations;
mod memory;
mod observed;
mod operands;
mod question;
mod rows;
mod sound;
mod start;
mod test;
mod thread;

pub use faults::{FaultAt, MOST_FAULTS, faults_in};
pub use litmus_words::{Fault, MOST_BYTES, Place, ReadingRefused, Shown};
pub use test::read_litmus;
