//! What a search for all outcomes may leave out, as each end is reached without it.

ghost use Rattle.std.specs.Prelude.{◌≡◌};
ghost use Rattle.reductions.specs.Names.{name_of};

/// A way in which a search visits fewer states.
#[derive(Clone, Copy, PartialEq, Eq, Drop)]
pub enum Reduction {
    /// An SC of a hart that is known to have no reservation fails, and is followed as a local step; and a reservation
    /// that nothing can use any more is dropped.
    Conditional,
    /// A JALR goes on only where it was seen to go: in passes, by a table of its targets.
    Jumps,
}

impl Reduction {
    /// Its name on the command line.
    pub fn name(self) -> &'static str
        ensures { result.now ≡ name_of self }
    {
        match self {
            Reduction::Conditional => "RX",
            Reduction::Jumps => "J",
        }
    }
}
