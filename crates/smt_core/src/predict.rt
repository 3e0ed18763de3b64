/// A branch predictor: any value that guesses where hart `hart` goes on after the word at `pc`.
/// Every guess is taken; a wrong one costs work that is thrown away, and never changes what
/// retires.
pub trait Predict {
    ghost use Rattle.std.specs.Prelude.{ℕ};

    /// What a guess is and leaves: the predictor before, the hart, the pc, the word there, the
    /// guess, and the predictor after.
    ghost predicts: { Self → ℕ → ℕ → ℕ → ℕ → Self → Type 0 };

    /// Where hart `hart` goes on after `word`, which stands at `pc`.
    fn predict(&mut self, hart: u8, pc: u32, word: u32) -> u32
        ensures { predicts self.old hart pc word result self.new };
}
