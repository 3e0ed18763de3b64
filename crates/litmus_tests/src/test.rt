ghost use Rattle.std.specs.Prelude.{◌≡◌, ◌≤◌, ◌*◌, length, sum_by};
ghost use Rattle.litmus_tests.specs.WellFormed.{step_length, thread_length};
ghost use Rattle.litmus_tests.specs.Limits.{most_steps, most_thread_words};

use crate::condition::{Condition, Observed, Quantifier};
use crate::location::Location;
use crate::step::LitmusStep;
use crate::value::Value;
use numbers::Reg;

// Each limit of a proof has the same name in `specs/Limits`.

/// How many steps a hart has at most: each branch then reaches (a branch spans 4 KiB, and a step has two
/// instructions at most).
pub const MOST_STEPS: usize = 500;

/// How many words of code all harts have together at most: they stand in the RAM of a test's image. No text
/// that is short enough to be read has so many.
pub const MOST_WORDS: usize = 16_000;

/// How many words of memory the locations of a test have at most, each of them and each array its own.
pub const MOST_LOCATIONS: usize = 64;

/// How many registers, and how many locations, are looked at in a final state at most.
pub const MOST_OBSERVED: usize = 64;

/// How many terms a condition has at most, and how deep `not` and parentheses are nested at most: what
/// follows a condition by recursion then has a small stack.
pub const MOST_TERMS: usize = 32;

pub const MOST_NESTED: usize = 16;

/// A register and what it holds at the start. The others hold 0.
#[derive(Clone, Copy, Debug, PartialEq, Eq, Drop)]
pub struct RegisterStart {
    /// x1 to x31.
    pub register: Reg,
    pub value: Value,
}

/// What one hart does.
#[derive(Drop)]
pub struct Thread {
    pub starts: Vec<RegisterStart>,
    pub steps: Vec<LitmusStep>,
}

impl Thread {
    /// How many words of code it has.
    pub fn length(&self) -> usize
        requires few { length self.now.starts.items ≤ 31 }
        requires short { length self.now.steps.items ≤ most_steps }
        ensures value { result ≡ thread_length self.now }
        ensures small { result ≤ most_thread_words }
    {
        2 + 2 * self.starts.len() + steps_length(&self.steps)
    }
}

/// How many words steps come to.
fn steps_length(steps: &[LitmusStep]) -> usize
    requires { length steps.now ≤ most_steps }
    ensures value { result ≡ sum_by step_length steps.now }
    ensures small { result ≤ 2 * length steps.now }
{
    let mut words = 0;
    for step in steps {
        words += step.length();
    }
    words
}

/// A litmus test. That it makes sense, `specs/WellFormed` says.
#[derive(Drop)]
pub struct LitmusTest {
    /// What stands behind `RISCV`.
    pub name: Vec<u8>,
    /// What the words of the locations hold at the start, one behind the other.
    pub words: Vec<Value>,
    /// In the order in which the test names them first, the elements of an array one behind the other.
    pub locations: Vec<Location>,
    /// One for each hart, hart 0 first.
    pub threads: Vec<Thread>,
    pub quantifier: Quantifier,
    pub condition: Condition,
    /// Which states are the test's final states: those of which it holds. `true` where the text has no filter.
    pub filter: Condition,
    /// What tells final states apart: what the condition, the filter and `locations` name, each once,
    /// first the registers by hart and number, then the locations by index.
    pub observed: Vec<Observed>,
}
