//! Many runs of one image: the table of their ends, what these answer to a question, and what is kept of an end.

use super::ENDING;
use crate::lines::stress_line;
use crate::performing::{Ending, context_of, perform_with, read_inputs_of};
use crate::rows::{holds, text_of};
use actors::StaticPredictor;
use command_parts::Context;
use event_text::Over;
use sim_inputs::QuestionText;
use std::alloc::Global;
use std::process::Abort;
use std::sync::Wait;
use std::thread::Threads;
use test_support::file_of;

/// All of three runs end so.
const TABLE: &str = "times 3
end 1 came 3 times
hart 0 ended 5
output -
ends 1
";

/// The same, of which a register and the first word of its code are watched.
const WATCHED: &str = "times 3
end 1 came 3 times; a0@0=5, 80000000:4=5244179
hart 0 ended 5
output -
ends 1
";

/// What three runs of the first program print and keep, and how they end.
#[derive(Drop)]
struct Stressed {
    kept: Vec<u8>,
    out: Vec<u8>,
    ending: Ending,
}

fn perform_stress<R: Threads + Wait + Sync>(
    rt: &R,
    image: &[u8],
    watch: Option<&'static str>,
    question: Option<QuestionText<'static>>,
    alloc: Global,
) -> Stressed {
    let inputs = read_inputs_of(b"", image, b"");
    let kept = Over::new(Vec::new(alloc));
    let mut context = context_of(rt, StaticPredictor, kept, Vec::new(alloc), alloc);
    let ending = perform_with(&mut context, &stress_line(3, watch, question), &inputs);
    let Context { files, out, .. } = context;
    Stressed {
        kept: files.into_inner(),
        out,
        ending,
    }
}

#[test]
fn runs_of_one_end_are_counted_and_the_first_is_kept(rt: HostRuntime) {
    let image = file_of(ENDING, 0, rt.alloc()).expect(&rt, "an image");
    let Stressed { kept, out, ending } = perform_stress(&rt, &image, None, None, rt.alloc());
    assert!(rt; ending.status == 1);
    assert!(rt; text_of(&out) == TABLE);
    // A trace of the one end, and behind it its order, three instructions of hart 0, and their story, of which other
    // harts see the last. What a unit hands back of a squashed instruction may come behind the last retirement.
    let text = text_of(&kept);
    assert!(rt; text.starts_with("smt-trace 3\nconfig "));
    assert!(rt; text.contains("- e00000005 - - -\n"));
    assert!(rt; text.ends_with("\n0\n0\n0\n     h0\n     (2 steps)\n1    ended 5\n"));
}

/// What is answered to a question, and the exit status that goes with it.
const ANSWERS: [(QuestionText<'static>, &str, u8); 6] = [
    (
        QuestionText::Exists("h0=5 & a0@0=5"),
        "exists: yes, ends 1\n",
        0,
    ),
    (QuestionText::Exists("h0=4"), "exists: unknown\n", 3),
    (QuestionText::ForAll("h0=5"), "forall: unknown\n", 3),
    (QuestionText::ForAll("h0=4"), "forall: no, ends 1\n", 1),
    (QuestionText::Never("h*=stopped"), "never: unknown\n", 3),
    (QuestionText::Never("out= | h0=4"), "never: no, ends 1\n", 1),
];

/// Asserts that the ends of three runs answer so.
fn answers_so<R: Threads + Wait + Sync + Abort>(
    rt: &R,
    image: &[u8],
    asked: (QuestionText<'static>, &str, u8),
    alloc: Global,
) {
    let (question, answer, status) = asked;
    let Stressed { out, ending, .. } = perform_stress(rt, image, None, Some(question), alloc);
    holds(rt, answer, text_of(&out).ends_with(answer));
    holds(rt, answer, ending.status == status);
}

#[test]
fn ends_that_came_answer_a_question_and_those_that_did_not_none(rt: HostRuntime) {
    let image = file_of(ENDING, 0, rt.alloc()).expect(&rt, "an image");
    for asked in &ANSWERS {
        answers_so(&rt, &image, *asked, rt.alloc());
    }
}

/// Asserts that a condition is refused before any run.
fn is_refused<R: Threads + Wait + Sync + Abort>(
    rt: &R,
    image: &[u8],
    condition: &'static str,
    alloc: Global,
) {
    let question = Some(QuestionText::Never(condition));
    let Stressed { kept, out, ending } = perform_stress(rt, image, None, question, alloc);
    holds(rt, condition, ending.status == 2);
    holds(rt, condition, out.is_empty() && kept.is_empty());
}

#[test]
fn a_condition_that_asks_for_what_is_not_there_is_refused_before_any_run(rt: HostRuntime) {
    let image = file_of(ENDING, 0, rt.alloc()).expect(&rt, "an image");
    for condition in ["h1=0", "a0@1=0", "80000001:4=0", "nowhere=1", "h0="] {
        is_refused(&rt, &image, condition, rt.alloc());
    }
}

#[test]
fn what_is_watched_stands_in_the_line_of_an_end(rt: HostRuntime) {
    let image = file_of(ENDING, 0, rt.alloc()).expect(&rt, "an image");
    let watched = perform_stress(&rt, &image, Some("80000000:4,a0@0,x10@0"), None, rt.alloc());
    assert!(rt; watched.ending.status == 1);
    assert!(rt; text_of(&watched.out) == WATCHED);
}

#[test]
fn a_hart_or_a_word_that_is_not_there_is_refused_before_any_run(rt: HostRuntime) {
    let image = file_of(ENDING, 0, rt.alloc()).expect(&rt, "an image");
    for watch in ["80000001:4,a0@1", "a0@0,80000001:4", "a0@0,b1@0"] {
        let refused = perform_stress(&rt, &image, Some(watch), None, rt.alloc());
        assert!(rt; refused.ending.status == 2);
        assert!(rt; refused.out.is_empty() && refused.kept.is_empty());
    }
}
