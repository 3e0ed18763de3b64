ghost use Rattle.std.specs.Prelude.{◌≡◌, true, false};

use arrayvec::ArrayVec;
use numbers::sizes::HART_ROOM;
use smt_model::Status;
use std::marker::Model;

/// One way in which a program ends: how each hart stands, what the watched registers and words hold, in the
/// order of the watch, and what was put out.
#[derive(Drop)]
pub struct Outcome {
    pub statuses: ArrayVec<Status, HART_ROOM>,
    pub registers: Vec<u32>,
    pub words: Vec<u32>,
    pub output: Vec<u8>,
}

impl Model for Outcome {
    ghost use Rattle.watched_outcomes.specs.Endings.{Ending};

    ghost Value = { Ending };

    ghost view = { λ a. record {
      statuses = a.statuses.items;
      registers = a.registers.items;
      words = a.words.items;
      output = a.output.items;
    } };
}

impl Outcome {
    /// Whether another one says the same.
    pub fn is_same(&self, other: &Outcome) -> bool
        ensures same { result ≡ true → self.now ≡ other.now }
        ensures different { result ≡ false → self.now ≡ other.now → ⊥ }
    {
        let same_statuses = self.statuses.as_slice() == other.statuses.as_slice();
        let same_registers = self.registers.as_slice() == other.registers.as_slice();
        let same_words = self.words.as_slice() == other.words.as_slice();
        let same_output = self.output.as_slice() == other.output.as_slice();
        same_statuses && same_registers && same_words && same_output
    }
}
