//! Litmus tests, against the final states that herd's catalogue has of them under sequential consistency.

use super::is_like;
use crate::lines::litmus_line;
use crate::performing::{Performed, perform_whole, read_inputs_of};
use crate::rows::{ends, text_of};
use std::alloc::Global;
use std::process::Abort;
use std::sync::Wait;
use std::thread::Threads;

/// Store buffering.
const SB: &[u8] = b"RISCV SB
{
0:x6=x; 0:x8=y;
1:x6=y; 1:x8=x;
}
 P0          | P1          ;
 ori x5,x0,1 | ori x5,x0,1 ;
 sw x5,0(x6) | sw x5,0(x6) ;
 lw x7,0(x8) | lw x7,0(x8) ;
exists
(0:x7=0 /\\ 1:x7=0)
";

/// What herd says of it where each order is one of whole instructions.
const STATES: &str = "Test SB Allowed
States 3
0:x7=0; 1:x7=1;
0:x7=1; 1:x7=0;
0:x7=1; 1:x7=1;
No
Witnesses
Positive: 0 Negative: 3
Condition exists (0:x7=0 /\\ 1:x7=0)
Observation SB Never 0 3
always can end
";

/// A hart that waits for a store which no hart makes.
const WAITING: &[u8] = b"RISCV waits
{ 0:x6=x; }
 P0              ;
 L0: lw x5,0(x6) ;
 beqz x5,L0      ;
exists (0:x5=1)
";

/// Asserts that a test comes to an exit status, a text that is like this one, and a refusal.
fn comes_to<R: Threads + Wait + Abort + Sync>(
    rt: &R,
    test: &[u8],
    why: bool,
    expected: (u8, &str, &str),
    alloc: Global,
) {
    let inputs = read_inputs_of(b"", test, b"");
    let Performed { status, out, err } = perform_whole(rt, &litmus_line(why), &inputs, alloc);
    let (wanted, like, refusal) = expected;
    let is = status == wanted && is_like(&out, like) && text_of(&err) == refusal;
    ends(rt, "a litmus test", status, text_of(&out), is);
}

#[test]
fn store_buffering_has_three_states(rt: HostRuntime) {
    comes_to(&rt, SB, false, (0, STATES, ""), rt.alloc());
}

#[test]
fn a_test_that_waits_for_ever_is_stuck(rt: HostRuntime) {
    let like = "Test waits Allowed\nStates 0\n*Observation waits Never 0 0\nstuck\n";
    comes_to(&rt, WAITING, false, (0, like, ""), rt.alloc());
}

#[test]
fn why_it_has_no_fourth_is_told(rt: HostRuntime) {
    let like = "Test SB Allowed\n*Observation SB Never 0 3\nalways can end\n*it has a cycle*";
    comes_to(&rt, SB, true, (0, like, ""), rt.alloc());
}

#[test]
fn a_text_that_is_no_test_is_refused(rt: HostRuntime) {
    let refusal = "smtsim: litmus refused 1:1: a first word that isn't RISCV\n";
    comes_to(&rt, b"X86 SB\n", false, (2, "", refusal), rt.alloc());
}
