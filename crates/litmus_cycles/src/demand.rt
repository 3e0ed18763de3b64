//! What is asked of a candidate beside that it ends as the condition says.

ghost use Rattle.std.specs.Prelude.{◌≡◌};
ghost use Rattle.litmus_cycles.specs.Refusals.{orders_writes, orders_all, asks_whole};

/// What a candidate has to be, of least to most: each asks for what those before it ask for too.
#[derive(Clone, Copy, PartialEq, Eq, Drop)]
pub(crate) enum Demand {
    /// Each read's number is that of the write that it reads.
    Numbers,
    /// The writes of one hart to one location are in program order.
    Writes,
    /// Each hart sees each location in one order.
    Coherent,
    /// AMOs and store-conditionals are whole too.
    Whole,
}

impl Demand {
    /// Whether it asks for the order of a hart's writes.
    pub fn orders_writes(self) -> bool
        ensures { result ≡ orders_writes self }
    {
        match self {
            Demand::Numbers => false,
            Demand::Writes | Demand::Coherent | Demand::Whole => true,
        }
    }

    /// Whether it asks for coherence.
    pub fn orders_all(self) -> bool
        ensures { result ≡ orders_all self }
    {
        match self {
            Demand::Numbers | Demand::Writes => false,
            Demand::Coherent | Demand::Whole => true,
        }
    }

    /// Whether it asks for whole AMOs and store-conditionals.
    pub fn is_whole(self) -> bool
        ensures { result ≡ asks_whole self }
    {
        match self {
            Demand::Numbers | Demand::Writes | Demand::Coherent => false,
            Demand::Whole => true,
        }
    }
}
