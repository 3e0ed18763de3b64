//! Inputs that are refused or unread, and an output that fails.

use super::SINGLE;
use crate::failing::Failing;
use crate::lines::{LIST, step_line};
use crate::performing::{Ending, Performed, inputs_of, perform_line, perform_whole};
use crate::rows::{ends, text_of};
use actors::StaticPredictor;
use command_parts::{Inputs, Unread};
use sim_inputs::Line;
use std::alloc::Global;
use std::process::Abort;
use std::sync::Wait;
use std::thread::Threads;
use test_support::EXIT_WITH_5;

/// A file as it was read.
type File = Result<&'static [u8], Unread>;

/// Of the first image the number of its program headers, and how many of its bytes there are.
#[derive(Clone, Copy, Drop)]
struct Part {
    headers: u8,
    length: usize,
}

/// A part of the first image as it was read.
type PartFile = Result<Part, Unread>;

/// Inputs, the line that is written to standard error, and the exit status.
#[derive(Clone, Copy, Drop)]
struct Refusal {
    list: bool,
    config: File,
    image: PartFile,
    second: File,
    fault: &'static str,
    status: u8,
}

macro_rules! refusal {
    ($list:expr, $config:expr, $image:expr, $second:expr, $fault:expr, $status:expr) => {
        Refusal {
            list: $list,
            config: $config,
            image: $image,
            second: $second,
            fault: $fault,
            status: $status,
        }
    };
}

const ONE_UNIT: File = Ok(SINGLE);

const MANY_HARTS: File = Ok(b"harts = 17");

const FETCH: File = Ok(b"F0");

const NOTHING: File = Ok(b"");

const MISSING: File = Err(Unread::File);

const TOO_LARGE: File = Err(Unread::Memory);

const WHOLE: PartFile = Ok(Part {
    headers: 1,
    length: 96,
});

const CUT: PartFile = Ok(Part {
    headers: 1,
    length: 51,
});

const EMPTY: PartFile = Ok(Part {
    headers: 0,
    length: 96,
});

const NO_IMAGE: PartFile = Err(Unread::File);

const LARGE_IMAGE: PartFile = Err(Unread::Memory);

static REFUSED: [Refusal; 22] = [
    refusal!(false, ONE_UNIT, CUT, FETCH, "smtsim: image refused 1\n", 2),
    refusal!(
        false,
        ONE_UNIT,
        EMPTY,
        FETCH,
        "smtsim: image refused 10\n",
        2
    ),
    refusal!(
        false,
        ONE_UNIT,
        WHOLE,
        Ok(b"F0*3 D0"),
        "smtsim: script word 2 refused\n",
        2
    ),
    refusal!(false, ONE_UNIT, NO_IMAGE, FETCH, "smtsim: file\n", 5),
    refusal!(false, ONE_UNIT, LARGE_IMAGE, FETCH, "smtsim: memory\n", 5),
    refusal!(false, ONE_UNIT, NO_IMAGE, TOO_LARGE, "smtsim: file\n", 5),
    refusal!(false, ONE_UNIT, LARGE_IMAGE, MISSING, "smtsim: memory\n", 5),
    refusal!(false, ONE_UNIT, WHOLE, MISSING, "smtsim: file\n", 5),
    refusal!(false, ONE_UNIT, WHOLE, TOO_LARGE, "smtsim: memory\n", 5),
    refusal!(
        false,
        ONE_UNIT,
        CUT,
        MISSING,
        "smtsim: image refused 1\n",
        2
    ),
    refusal!(
        false,
        ONE_UNIT,
        CUT,
        TOO_LARGE,
        "smtsim: image refused 1\n",
        2
    ),
    refusal!(false, MANY_HARTS, CUT, FETCH, "smtsim: config refused\n", 2),
    refusal!(
        false,
        MANY_HARTS,
        NO_IMAGE,
        FETCH,
        "smtsim: config refused\n",
        2
    ),
    refusal!(
        false,
        MANY_HARTS,
        LARGE_IMAGE,
        TOO_LARGE,
        "smtsim: config refused\n",
        2
    ),
    refusal!(false, MISSING, CUT, FETCH, "smtsim: file\n", 5),
    refusal!(false, TOO_LARGE, CUT, FETCH, "smtsim: memory\n", 5),
    refusal!(false, TOO_LARGE, NO_IMAGE, MISSING, "smtsim: memory\n", 5),
    refusal!(true, NOTHING, CUT, NOTHING, "smtsim: image refused 1\n", 2),
    refusal!(
        true,
        NOTHING,
        EMPTY,
        NOTHING,
        "smtsim: image refused 10\n",
        2
    ),
    refusal!(true, NOTHING, NO_IMAGE, NOTHING, "smtsim: file\n", 5),
    refusal!(true, NOTHING, LARGE_IMAGE, NOTHING, "smtsim: memory\n", 5),
    refusal!(
        true,
        MANY_HARTS,
        NO_IMAGE,
        NOTHING,
        "smtsim: config refused\n",
        2
    ),
];

fn file_with(headers: u8) -> [u8; 96] {
    let mut file = EXIT_WITH_5;
    file[44] = headers;
    file
}

fn line_of(list: bool) -> Line<'static> {
    if list {
        LIST
    } else {
        step_line(false, false, None)
    }
}

/// Asserts that inputs with this image are refused so, with nothing printed.
fn refuses_with<R: Threads + Wait + Abort + Sync>(
    rt: &R,
    refusal: &Refusal,
    image: Result<&[u8], Unread>,
    alloc: Global,
) {
    let inputs = Inputs {
        config: refusal.config,
        program: image,
        second: refusal.second,
        lines: Ok(b""),
    };
    let line = line_of(refusal.list);
    let Performed { status, out, err } = perform_whole(rt, &line, &inputs, alloc);
    let is = status == refusal.status && out.is_empty() && text_of(&err) == refusal.fault;
    ends(rt, refusal.fault, status, text_of(&err), is);
}

fn refuses<R: Threads + Wait + Abort + Sync>(rt: &R, refusal: &Refusal, alloc: Global) {
    match refusal.image {
        Ok(Part { headers, length }) => {
            let file = file_with(headers);
            refuses_with(rt, refusal, Ok(&file[..length.min(96)]), alloc)
        }
        Err(why) => refuses_with(rt, refusal, Err(why), alloc),
    }
}

#[test]
fn inputs_are_refused_by_name_and_number(rt: HostRuntime) {
    for refusal in &REFUSED {
        refuses(&rt, refusal, rt.alloc());
    }
}

/// Asserts that a line says that its output failed.
fn fails<R: Threads + Wait + Abort + Sync>(rt: &R, list: bool, alloc: Global) {
    let inputs = inputs_of(SINGLE, &EXIT_WITH_5, FETCH);
    let line = line_of(list);
    let mut out = Failing(0);
    let Ending { status, err } = perform_line(rt, &line, &inputs, StaticPredictor, &mut out, alloc);
    let is = status == 5 && text_of(&err) == "smtsim: file\n";
    ends(rt, "an output that fails", status, text_of(&err), is);
}

#[test]
fn an_output_that_fails_is_a_fault(rt: HostRuntime) {
    fails(&rt, false, rt.alloc());
    fails(&rt, true, rt.alloc());
}
