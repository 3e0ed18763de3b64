ghost use Rattle.std.specs.Prelude.{◌≡◌, true};

use watched_outcomes::Outcome;

/// Which outcomes a search is for: it ends with the first of them.
pub trait Until {
    ghost use Rattle.watched_outcomes.specs.Endings.{Ending};

    /// An outcome is one of these.
    ghost Asks: { Self → Ending → Type 0 };

    /// Whether an outcome is one of these.
    fn is_asked(&self, outcome: &Outcome) -> bool
        ensures { result ≡ true → Asks self.now outcome.now };
}

/// No outcome is one of them: the search is for all.
impl Until for () {
    ghost Asks = { λ _ _. ⊥ };

    fn is_asked(&self, _outcome: &Outcome) -> bool {
        false
    }
}
