//! Lines that are typed, against texts made by hand.

use crate::failing::Failing;
use crate::rows::{holds, shows, text_of};
use actors::StaticPredictor;
use prompts::{Ended, MOST_BYTES, PromptRefused, Prompted, Simulation, prompt};
use sim_inputs::read_config;
use std::alloc::Global;
use std::io::Write;
use std::process::Abort;
use test_support::{EXIT_WITH_5, image_of};

/// One hart, and one actor that does all.
const ONE_HART: &[u8] = b"actors = [\"alu\"]\n";

/// What comes of lines that are typed for the first program, with room for so many events.
fn typed<W: Write>(
    lines: &[u8],
    why: bool,
    limit: u32,
    out: &mut W,
    alloc: Global,
) -> Result<Prompted, PromptRefused> {
    let Ok(settings) = read_config(ONE_HART, alloc) else {
        return Err(PromptRefused::Memory);
    };
    let Some(image) = image_of(&EXIT_WITH_5, 8192, alloc) else {
        return Err(PromptRefused::Memory);
    };
    let simulation = Simulation {
        image: &image,
        config: &settings.config,
        limit,
        predict: StaticPredictor,
        alloc,
    };
    let mut reader = lines;
    prompt(&simulation, why, &mut reader, out)
}

/// Lines, what is printed of them, how they ended, and how many events the core has then.
#[derive(Drop)]
struct Row {
    typed: &'static str,
    why: bool,
    printed: &'static str,
    ended: Ended,
    events: usize,
}

static ROWS: [Row; 7] = [
    Row {
        typed: "",
        why: false,
        printed: "> \n",
        ended: Ended::Input,
        events: 0,
    },
    Row {
        typed: "F0\n D0.0 R0.0\nquit\nF0\n",
        why: false,
        printed: "> done F 0 0 0 80000000 00500513 80000004\n> done D 0 0\ndone R 0 0 31\n> ",
        ended: Ended::Quit,
        events: 3,
    },
    Row {
        typed: "F0\nF0 F\n\n\tundo\nundo\nD0.0",
        why: false,
        printed: "> done F 0 0 0 80000000 00500513 80000004\n> smtsim: script word 2 refused\n\
            > > > > idle\n> \n",
        ended: Ended::Input,
        events: 0,
    },
    Row {
        typed: "why\nF0 D0.0*2\nwhy\n",
        why: false,
        printed: "> > done F 0 0 0 80000000 00500513 80000004\ndone D 0 0\nidle\n\
            > F0 done F 0 0 0 80000000 00500513 80000004\nD0.0 done D 0 0\n\
            D0.0 idle: nothing fetched of hart 0\nwhy 1 nothing fetched\n> \n",
        ended: Ended::Input,
        events: 2,
    },
    Row {
        typed: "F0\nT0.0\n",
        why: true,
        printed: "> F0 done F 0 0 0 80000000 00500513 80000004\n\
            > T0.0 idle: nothing in flight of hart 0\nwhy 1 nothing in flight\n> \n",
        ended: Ended::Input,
        events: 1,
    },
    Row {
        typed: "chart\nF0*2 D0.0\nchart\n",
        why: false,
        printed: "> > done F 0 0 0 80000000 00500513 80000004\n\
            done F 0 0 1 80000004 05d00893 80000008\ndone D 0 0\n\
            >                             0\n\
            0 0 80000000 addi x10,x0,5  F.D\n0 1 80000004 addi x17,x0,93  F.\n> \n",
        ended: Ended::Input,
        events: 3,
    },
    Row {
        typed: "help\nquit",
        why: false,
        printed: "> words of a script are asked; beside them there are\n\
            show   the tables of the core\n\
            why    the asks of the last line of words again, explained\n\
            chart  the pipeline so far\n\
            undo   takes the last line of words back\n\
            help   these lines\n\
            quit   ends, with what `step` prints at its end\n> ",
        ended: Ended::Quit,
        events: 0,
    },
];

fn check_row(rt: &impl Abort, row: &Row, alloc: Global) {
    let mut text = Vec::new(alloc);
    let lines = row.typed.as_bytes();
    let came = typed(lines, row.why, 100, &mut text, alloc);
    let prompted = came.ok().expect(rt, "a core");
    let printed = text_of(&text);
    shows(rt, row.typed, printed, printed == row.printed);
    holds(rt, row.typed, prompted.ended == row.ended);
    holds(rt, row.typed, prompted.core.history().len() == row.events);
}

#[test]
fn each_line_is_answered_as_it_comes(rt: HostRuntime) {
    for row in &ROWS {
        check_row(&rt, row, rt.alloc());
    }
}

/// `D0.0`, which begins a line of so many bytes with its newline, and behind that a fetch.
fn long_line(bytes: usize, alloc: Global) -> Option<Vec<u8>> {
    let mut line = Vec::new(alloc);
    line.extend_from_slice(b"D0.0").ok()?;
    for _space in 5..bytes {
        line.push(b' ').ok()?;
    }
    line.extend_from_slice(b"\nF0\n").ok()?;
    Some(line)
}

#[test]
fn a_line_that_is_too_long_is_refused(rt: HostRuntime) {
    for (bytes, answer) in [
        (MOST_BYTES, "> idle\n"),
        (MOST_BYTES + 1, "> smtsim: line of more than 4096 bytes\n"),
    ] {
        let line = long_line(bytes, rt.alloc()).expect(&rt, "a line");
        let mut text = Vec::new(rt.alloc());
        let came = typed(line.as_slice(), false, 100, &mut text, rt.alloc());
        holds(&rt, answer, came.is_ok());
        let printed = text_of(&text);
        shows(&rt, answer, printed, printed.starts_with(answer));
        let fetched = "> done F 0 0 0 80000000 00500513 80000004\n> \n";
        shows(&rt, fetched, printed, printed.ends_with(fetched));
    }
}

#[test]
fn a_limit_and_an_output_are_refused(rt: HostRuntime) {
    let mut text = Vec::new(rt.alloc());
    let came = typed(b"F0\n", false, u32::MAX, &mut text, rt.alloc()).err();
    holds(&rt, "limit", came == Some(PromptRefused::Config));
    holds(&rt, "limit", text.is_empty());
    let came = typed(b"F0\n", false, 100, &mut Failing(1), rt.alloc()).err();
    holds(&rt, "output", came == Some(PromptRefused::Output));
}
