//! The words of a hart's steps.

ghost use Rattle.std.specs.Prelude.{◌≡◌, ◌≤◌, ◌<◌, ◌*◌, ◌++◌, length, All, OnOk};
ghost use Rattle.litmus_tests.specs.WellFormed.{IsStep};
ghost use Rattle.litmus_tests.specs.Limits.{most_steps};
ghost use Rattle.litmus_images.specs.Steps.{step_place, words_at, steps_words};

use crate::constants::{distance, push_constant};
use litmus_tests::LitmusStep;
use rv_instr::Instr;
use std::alloc::AllocError;

/// How many words stand before the step with this index, the end of the steps among them.
#[tactic(auto, unfolding(crate::specs::Steps::step_place))]
pub(crate) fn step_place(steps: &[LitmusStep], index: usize) -> usize
    requires short { length steps.now ≤ most_steps }
    requires index { index ≤ length steps.now }
    ensures place { result ≡ step_place steps.now index }
    ensures small { result ≤ 2 * index }
{
    let mut place = 0;
    for step in &steps[..index] {
        place += step.length();
    }
    place
}

/// Appends the words of a step.
fn push_step(code: &mut Vec<Instr>, steps: &[LitmusStep], index: usize) -> Result<(), AllocError>
    requires short { length steps.now ≤ most_steps }
    requires sound { All (IsStep (length steps.now)) steps.now }
    requires index { index < length steps.now }
    ensures { OnOk result (code.new.items ≡ code.old.items ++ words_at steps.now index) }
{
    match steps[index] {
        LitmusStep::Straight(instruction) => code.push(instruction)?,
        LitmusStep::Constant { register, value } => push_constant(code, register, value)?,
        LitmusStep::Branch {
            op,
            left,
            right,
            target,
        } => code.push(Instr::Branch {
            op,
            rs1: left,
            rs2: right,
            offset: distance(step_place(steps, index), step_place(steps, target)),
        })?,
        LitmusStep::Fence(_) => code.push(Instr::Fence)?,
    }
    Ok(())
}

/// Appends the words of all steps of a hart.
#[tactic(auto, unfolding(crate::specs::Steps::steps_words))]
pub(crate) fn push_steps(code: &mut Vec<Instr>, steps: &[LitmusStep]) -> Result<(), AllocError>
    requires short { length steps.now ≤ most_steps }
    requires sound { All (IsStep (length steps.now)) steps.now }
    ensures { OnOk result (code.new.items ≡ code.old.items ++ steps_words steps.now) }
{
    for index in 0..steps.len() {
        push_step(code, steps, index)?;
    }
    Ok(())
}
