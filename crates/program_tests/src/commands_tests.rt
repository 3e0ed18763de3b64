//! Whole lines of the program: what each command prints and how it ends. Beside the modules of the
//! commands stand what is owed of each ask of a script (`script_lines`), traces that are written
//! (`trace_files`), which loads look again (`looks`), the story of a core (`stories_of_cores`), inputs
//! that are refused (`refusals`), how often runs are made (`counted_runs`), and actors that work side
//! by side (`meeting`).

mod chart;
mod check;
mod counted_runs;
mod explain;
mod list;
mod litmus;
mod looks;
mod meeting;
mod migrate;
mod plain;
mod refusals;
mod run;
mod schedule;
mod script;
mod script_lines;
mod script_rows;
mod several_tests;
mod step;
mod stories_of_cores;
mod stress;
mod trace_files;

use crate::rows::text_of;

/// The configuration of one hart and one actor, which is an arithmetic unit.
const SINGLE: &[u8] = b"actors = [\"alu\"]\n";

/// Two harts with room for a thousand events.
const TWO: &[u8] = b"harts = 2\nram = 8192\nlimit = 1000\n";

/// `addi x10,x0,5`, `addi x17,x0,93`, `ecall`.
const ENDING: &[u32] = &[0x00500513, 0x05D00893, 0x00000073];

/// The asks of these three instructions to their end, by one actor.
const TO_THE_END: &str = "F0*3 D0.0*3 R0.0*3 U0*3 T0.0*3";

/// `lui x6,0x80001`, `lr.w x5,(x6)`, `sc.w x7,x10,(x6)`, `ebreak`.
const RESERVING: &[u32] = &[0x80001337, 0x100322AF, 0x18A323AF, 0x00100073];

/// Whether what was printed is like a text in which a star stands for any text: it begins and ends
/// so, and has what is in between.
fn is_like(printed: &[u8], like: &str) -> bool {
    let printed = text_of(printed);
    let Some((start, others)) = like.split_once('*') else {
        return printed == like;
    };
    let (middle, end) = others.rsplit_once('*').unwrap_or(("", others));
    for part in middle.split('*') {
        if !printed.contains(part) {
            return false;
        }
    }
    printed.starts_with(start) && printed.ends_with(end)
}
