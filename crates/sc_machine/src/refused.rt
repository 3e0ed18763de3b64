ghost use Rattle.std.specs.Prelude.{◌≡◌};
ghost use Rattle.sc_machine.specs.Refusals.{number_of};

/// Why there is no machine.
#[derive(Clone, Copy, PartialEq, Eq, Drop)]
pub enum PlainRefused {
    /// There are not 1 to `MOST_HARTS` harts.
    Harts,
    /// There isn't enough memory.
    Memory,
}

/// Why a hart makes no step.
#[derive(Clone, Copy, Debug, PartialEq, Eq, Drop)]
pub enum Stopped {
    /// The hart has ended or stopped.
    NotGoing,
    /// The instruction puts a byte out, and there is no room for it.
    OutputFull,
    /// There is no such hart.
    NoHart,
}

impl Stopped {
    /// The number of the reason, 1 to 3.
    pub fn number(self) -> u8
        ensures { result ≡ number_of self }
    {
        match self {
            Stopped::NotGoing => 1,
            Stopped::OutputFull => 2,
            Stopped::NoHart => 3,
        }
    }
}

/// The first step of an order that isn't made, and why.
#[derive(Clone, Copy, PartialEq, Eq, Drop)]
pub struct StoppedAt {
    /// The place of the step in the order; the steps before it are done.
    pub index: usize,
    pub why: Stopped,
}
