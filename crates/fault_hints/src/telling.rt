//! All that is said of a fault.

use crate::asked::{
    add_absent_outcome, add_absent_word, add_condition, add_hart, add_limit, add_picture,
    add_two_cores, add_unit, add_watch,
};
use crate::chart_names::{
    add_never_fetched, add_nothing_named, add_several_named, add_source_line, add_turned,
};
use crate::explained::{add_config_fault, add_image_fault};
use crate::line_fault::LineFault;
use crate::litmus_faults::add_litmus;
use crate::named_files::{add_memory, add_second, add_unread, add_unwritten};
use crate::order_words::{add_order_word, add_step};
use crate::script_words::add_script_word;
use crate::trace_lines::{add_event, add_other_event, add_trace_line};
use command_parts::Refused;
use hints::{Hint, Part};
use std::alloc::{AllocError, Global};

/// Adds to a hint what there is to say of a fault of a line. Fails only for want of memory.
pub fn add_line_fault(
    fault: &LineFault<'_, '_>,
    hint: &mut Hint,
    alloc: Global,
) -> Result<(), AllocError> {
    match fault.refused {
        Refused::Image(_) => add_image_fault(fault, hint, alloc),
        Refused::Config => add_config_fault(fault, hint, alloc),
        Refused::Script(number) => add_script_word(number, fault, hint, alloc),
        Refused::Order(number) => add_order_word(number, fault, hint, alloc),
        Refused::Step { index, why } => add_step(index, why, fault, hint, alloc),
        Refused::Trace { .. }
        | Refused::Version
        | Refused::Event { .. }
        | Refused::Prediction(_)
        | Refused::Register(_) => add_trace_fault(fault, hint, alloc),
        Refused::Memory => add_memory(fault, hint, alloc),
        Refused::Thread => hint.add(Part::For, b"an actor: a run has a thread for each"),
        Refused::File => add_unread(fault, hint, alloc),
        Refused::Output => add_unwritten(fault, hint, alloc),
        _ => add_asked_fault(fault, hint, alloc),
    }
}

/// Adds what there is to say of a trace that is refused.
fn add_trace_fault(
    fault: &LineFault<'_, '_>,
    hint: &mut Hint,
    alloc: Global,
) -> Result<(), AllocError> {
    match fault.refused {
        Refused::Trace { line, rule } => add_trace_line(line, rule, fault, hint, alloc),
        Refused::Event { index, rule } => add_event(index, rule, fault, hint, alloc),
        Refused::Prediction(index) => {
            let expected = "as step predicts: a jump, and a branch backwards, as taken";
            add_other_event(index, expected, fault, hint, alloc)
        }
        Refused::Register(index) => {
            add_other_event(index, "the least free register", fault, hint, alloc)
        }
        _ => {
            add_second(fault, hint, alloc)?;
            hint.add(Part::Cause, b"it has version 3 already")
        }
    }
}

/// Adds what there is to say of what options ask for, and of a litmus test.
fn add_asked_fault(
    fault: &LineFault<'_, '_>,
    hint: &mut Hint,
    alloc: Global,
) -> Result<(), AllocError> {
    match fault.refused {
        Refused::NoUnit(kind) => add_unit(kind, fault, hint, alloc),
        Refused::Limit(least) => add_limit(least, fault, hint, alloc),
        Refused::NoHart(hart) => add_hart(hart, fault, hint, alloc),
        Refused::Harts => add_two_cores(fault, hint, alloc),
        Refused::Picture(last) => add_picture(last, hint, alloc),
        Refused::LongStory => hint.add(Part::Cause, b"more than 1000 rows are no picture any more"),
        Refused::Lines { line, fault: why } => add_source_line(line, why, fault, hint, alloc),
        Refused::NamesNothing(option) => add_nothing_named(option, fault, hint, alloc),
        Refused::NamesSeveral(option) => add_several_named(option, fault, hint, alloc),
        Refused::NeverFetched(option) => add_never_fetched(option, fault, hint, alloc),
        Refused::Turned { from, to } => add_turned(from, to, fault, hint, alloc),
        Refused::Watch(why) => add_watch(why, fault, hint, alloc),
        Refused::Condition(why) => add_condition(why, fault, hint, alloc),
        Refused::ManyWatched => hint.add(
            Part::Cause,
            b"the list and the condition name more than 64 registers and words",
        ),
        Refused::NoWord(bytes) => add_absent_word(bytes, fault, hint, alloc),
        Refused::NoOutcome(number) => add_absent_outcome(number, fault, hint, alloc),
        Refused::NotStuck => hint.add(
            Part::Cause,
            b"some order leads on to an end from wherever an order leads",
        ),
        Refused::NoAnswer => hint.add(
            Part::Cause,
            b"nothing that was found answers the question, so there is no order to write",
        ),
        Refused::Litmus(place, why) => add_litmus(place, why, fault, hint, alloc),
        Refused::NothingToDraw => hint.add(
            Part::Cause,
            b"no candidate of such a state is there to draw, or the condition holds of each state",
        ),
        _ => Ok(()),
    }
}
