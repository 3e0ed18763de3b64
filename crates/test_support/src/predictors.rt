//! Predictors that always guess alike.

ghost use Rattle.std.specs.Prelude.{◌≡◌, ◌+◌, ◌%◌, ◌^◌};

use smt_core::Predict;

/// A predictor that guesses one address.
#[derive(Clone, Copy, Drop)]
pub struct Always(pub u32);

impl Predict for Always {
    ghost predicts = { λ before hart pc word guess after. (guess ≡ before.0) × (after ≡ before) };

    fn predict(&mut self, _hart: u8, _pc: u32, _word: u32) -> u32 {
        self.0
    }
}

/// A predictor that guesses the pc behind.
#[derive(Drop)]
pub struct Behind;

impl Predict for Behind {
    ghost predicts = { λ before hart pc word guess after. guess ≡ (pc + 4) % 2 ^ 32 };

    fn predict(&mut self, _hart: u8, pc: u32, _word: u32) -> u32 {
        pc.wrapping_add(4)
    }
}
