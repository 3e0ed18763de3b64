//! Who looks on at rounds.

use sc_machine::Plain;

/// Who sees how far rounds are: it is shown the machine before each step.
pub trait StepObserver {
    /// The machine before its next step, if it makes one.
    fn before_step(&mut self, machine: &Plain);
}

/// Nobody looks on.
#[derive(Clone, Copy, PartialEq, Eq, Drop)]
pub struct Unobserved;

impl StepObserver for Unobserved {
    fn before_step(&mut self, _machine: &Plain) {}
}
