//! Orders of harts: the script that is printed for one, what a core retires by it, and why there is
//! none. The scripts are those of tools/expected/schedule.py.

use super::RESERVING;
use crate::lines::SCHEDULE;
use crate::performing::{Performed, perform_whole, read_inputs_of};
use crate::rows::{ends, holds, shows, text_of};
use core_commands::step_bytes;
use elf_image::load;
use plain_run::run_order;
use sim_inputs::read_config;
use std::alloc::Global;
use std::process::Abort;
use std::sync::Wait;
use std::thread::Threads;
use test_support::{Always, file_of};

/// An order of a configuration's harts, and its script.
#[derive(Clone, Copy, Drop)]
struct Row {
    config: &'static [u8],
    order: &'static str,
    harts: &'static [u8],
    script: &'static str,
}

/// An order in which hart 1 writes the word that both have reserved, with one actor of each role
/// and just the events that it may take; and one for two actors, none of them a multiplier.
fn rows() -> [Row; 2] {
    [
        Row {
            config: b"harts = 2\nram = 8192\nlimit = 38\n",
            order: "0 0 1 1 1 0\n",
            harts: &[0, 0, 1, 1, 1, 0],
            script: "F0*2
D0.0 R0.0 U3 U4 U5 T0.0 F0
D0.0 R0.0 U3 U4 U5 T0.0 F0
D0.1 R0.1 U3 U4 U5 T0.1 F0
D0.1 R0.1 U3 U4 U5 T0.1 F0
D0.1 R0.1 U3 U4 U5 T0.1 F0
D0.0 R0.0 U3 U4 U5 T0.0 F0
",
        },
        Row {
            config: b"harts = 2\nram = 8192\nactors = [\"mem\", \"alu\"]\n",
            order: "0 1",
            harts: &[0, 1],
            script: "F0*2
D0.0 R0.0 U1 U0 T0.0 F0
D0.1 R0.1 U1 U0 T0.1 F0
",
        },
    ]
}

/// What an order's line prints, or writes to standard error, and how it ends.
#[derive(Clone, Copy, Drop)]
struct Printing {
    config: &'static [u8],
    order: &'static str,
    script: &'static str,
    fault: &'static str,
    status: u8,
}

/// Asserts that an order's line prints just that, and ends so.
fn schedules<R: Threads + Wait + Abort + Sync>(rt: &R, row: &Printing, alloc: Global) {
    let Ok(file) = file_of(RESERVING, 0, alloc) else {
        return shows(rt, row.order, "no memory", false);
    };
    let inputs = read_inputs_of(row.config, &file, row.order.as_bytes());
    let Performed { status, out, err } = perform_whole(rt, &SCHEDULE, &inputs, alloc);
    let (out, err) = (text_of(&out), text_of(&err));
    let is = status == row.status && out == row.script && err == row.fault;
    ends(
        rt,
        row.order,
        status,
        if err.is_empty() { out } else { err },
        is,
    );
}

#[test]
fn an_order_has_its_script(rt: HostRuntime) {
    for row in &rows() {
        let printing = Printing {
            config: row.config,
            order: row.order,
            script: row.script,
            fault: "",
            status: 0,
        };
        schedules(&rt, &printing, rt.alloc());
    }
}

/// Whether a core retires by the script of an order what the plain machine does in it.
fn retires_in_order(row: &Row, alloc: Global) -> bool {
    let Ok(file) = file_of(RESERVING, 0, alloc) else {
        return false;
    };
    let Ok(settings) = read_config(row.config, alloc) else {
        return false;
    };
    let Ok(image) = load(alloc, &file, settings.ram) else {
        return false;
    };
    let Ok(ran) = run_order(&image, settings.config.harts, row.harts, alloc) else {
        return false;
    };
    let script = row.script.as_bytes();
    let mut lines = Vec::new(alloc);
    match step_bytes(&file, &settings, script, &mut Always(0), &mut lines, alloc) {
        Ok(finished) => finished.core.account().records == ran.records(),
        Err(_) => false,
    }
}

#[test]
fn a_core_retires_in_the_order_of_its_script(rt: HostRuntime) {
    for row in &rows() {
        holds(&rt, row.order, retires_in_order(row, rt.alloc()));
    }
}

/// A configuration and an order with no script, and what is written to standard error.
#[derive(Clone, Copy, Drop)]
struct Fault {
    config: &'static [u8],
    order: &'static str,
    fault: &'static str,
}

static FAULTS: [Fault; 5] = [
    Fault {
        config: b"ram = 8192\nactors = [\"mem\", \"mul\"]\n",
        order: "0",
        fault: "smtsim: no alu unit\n",
    },
    Fault {
        config: b"ram = 8192\nactors = [\"alu\"]\nlimit = 0\n",
        order: "0 0",
        fault: "smtsim: no mem unit\n",
    },
    Fault {
        config: b"harts = 2\nram = 8192\nlimit = 37\n",
        order: "0 0 1 1 1 0",
        fault: "smtsim: limit below 38\n",
    },
    Fault {
        config: b"ram = 8192\nactors = [\"mul\"]\n",
        order: "0 1",
        fault: "smtsim: order 1 refused 3\n",
    },
    Fault {
        config: b"ram = 8192\n",
        order: "0 256",
        fault: "smtsim: order 1 refused 4\n",
    },
];

#[test]
fn an_order_without_a_script_says_why(rt: HostRuntime) {
    for row in &FAULTS {
        let printing = Printing {
            config: row.config,
            order: row.order,
            script: "",
            fault: row.fault,
            status: 2,
        };
        schedules(&rt, &printing, rt.alloc());
    }
}
