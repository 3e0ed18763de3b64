//! Several litmus tests, from a source that holds their texts.

use crate::performing::{context_of, read_inputs_of};
use crate::rows::{ends, text_of};
use actors::StaticPredictor;
use command_parts::{Inputs, Refused};
use commands::{SuiteRefused, perform_suite_line};
use event_text::Over;
use litmus_suites::NoTest;
use plain_commands::TestSource;
use sim_inputs::LitmusCommand;
use std::alloc::Global;
use std::process::Abort;
use std::sync::Wait;
use std::thread::Threads;

/// One hart writes 1: the condition holds of the one state.
const ONE: &str = "RISCV one\n{ 0:x6=x; }\n P0 ;\n li x5,1 ;\n sw x5,0(x6) ;\nexists (x=1)\n";

/// What herd says of it.
const ONE_STATES: &str = "Test one Allowed
States 1
[x]=1;
Ok
Witnesses
Positive: 1 Negative: 0
Condition exists ([x]=1)
Observation one Always 1 0
always can end
";

/// A hart that waits for a store which no hart makes.
const WAITING: &str =
    "RISCV waits\n{ 0:x6=x; }\n P0 ;\n L0: lw x5,0(x6) ;\n beqz x5,L0 ;\nexists (0:x5=1)\n";

/// Texts of tests, one behind the other, and how many were refused.
#[derive(Drop)]
struct Texts<'a> {
    texts: &'a [Option<&'static str>],
    taken: usize,
    refused: usize,
    alloc: Global,
}

impl TestSource for Texts<'_> {
    ghost gives = { λ source given after. Unit {0} };

    ghost hears = { λ source refused after. Unit {0} };

    fn next(&mut self) -> Option<Result<Vec<u8>, NoTest>> {
        let text = *self.texts.get(self.taken)?;
        self.taken = self.taken.saturating_add(1);
        let Some(text) = text else {
            return Some(Err(NoTest::Empty));
        };
        match Vec::from_slice(self.alloc, text.as_bytes()) {
            Ok(text) => Some(Ok(text)),
            Err(_) => Some(Err(NoTest::Memory)),
        }
    }

    fn tell(&mut self, _text: &[u8], _refused: Refused) {
        self.refused = self.refused.saturating_add(1);
    }
}

/// The command of several tests, whose lines are printed, or compared.
fn command(summary: bool, expect: Option<&'static str>) -> LitmusCommand<'static> {
    LitmusCommand {
        test: "test",
        states: 1_000_000,
        why: false,
        image: None,
        svg: None,
        outcome: None,
        witness: None,
        script: None,
        story: None,
        story_svg: None,
        theme: None,
        all: false,
        run: None,
        summary,
        expect,
        several: true,
    }
}

/// Makes the tests of a source for a line that prints on an output. Answers the exit status.
fn performed<R: Threads + Wait + Sync>(
    rt: &R,
    litmus: &LitmusCommand<'_>,
    inputs: &Inputs<'_>,
    source: &mut Texts<'_>,
    out: &mut Vec<u8>,
    alloc: Global,
) -> u8 {
    let mut context = context_of(rt, StaticPredictor, Over::new(Vec::new(alloc)), out, alloc);
    status_of(perform_suite_line(&mut context, litmus, inputs, source))
}

/// The exit status of a line.
fn status_of(ended: Result<u8, SuiteRefused>) -> u8 {
    match ended {
        Ok(status) => status,
        Err(refused) => refused.exit_status(),
    }
}

/// Asserts that tests come to an exit status and a text, and how many of them are refused.
fn come_to<R: Threads + Wait + Abort + Sync>(
    rt: &R,
    texts: &[Option<&'static str>],
    asked: (bool, Option<&'static str>),
    summary: &str,
    expected: (u8, &str, usize),
    alloc: Global,
) {
    let litmus = command(asked.0, asked.1);
    let mut out = Vec::new(alloc);
    let inputs = read_inputs_of(b"", b"", summary.as_bytes());
    let mut source = Texts {
        texts,
        taken: 0,
        refused: 0,
        alloc,
    };
    let status = performed(rt, &litmus, &inputs, &mut source, &mut out, alloc);
    let (wanted, text, refused) = expected;
    let is = status == wanted && text_of(&out) == text && source.refused == refused;
    ends(rt, "several tests", status, text_of(&out), is);
}

#[test]
fn the_states_of_one_stand_behind_those_of_the_other(rt: HostRuntime) {
    let twice = format!(in rt.alloc(); "{ONE_STATES}{ONE_STATES}").unwrap_or(String::new(
        rt.alloc(),
    ));
    let texts = [Some(ONE), Some("no test"), None, Some(ONE)];
    come_to(
        &rt,
        &texts,
        (false, None),
        "",
        (2, twice.as_str(), 1),
        rt.alloc(),
    );
}

#[test]
fn a_summary_has_a_line_each(rt: HostRuntime) {
    let lines =
        "one Always 1 0 Ok\nwaits Never 0 0 No stuck\ntests 2: Ok 1, No 1, not complete 0, refused 0\n";
    come_to(
        &rt,
        &[Some(ONE), Some(WAITING)],
        (true, None),
        "",
        (0, lines, 0),
        rt.alloc(),
    );
}

#[test]
fn what_differs_from_a_summary_is_told(rt: HostRuntime) {
    let before =
        "waits Never 0 0 No\none Always 1 0 Ok\ngone Never 0 3 No\ntests 3: Ok 1, No 2, not complete 0, refused 0\n";
    let differs =
        "waits: was Never 0 0 No, is Never 0 0 No stuck\ngone: was Never 0 3 No, is not there\ntests 2: the same 1, changed 1, new 0, not there 1, refused 0\n";
    let texts = [Some(ONE), Some(WAITING)];
    come_to(
        &rt,
        &texts,
        (false, Some("before")),
        before,
        (1, differs, 0),
        rt.alloc(),
    );
}
