ghost use Rattle.std.specs.Prelude.{◌≡◌, ◌≤◌};
ghost use Rattle.core_lock.specs.Reasons.{number_of};

/// Why the threads of a run stop.
#[derive(Clone, Copy, PartialEq, Eq, Drop)]
pub enum Reason {
    /// No hart is going any more.
    Ended,
    /// An actor has made as many turns as it may.
    Turns,
    /// The history has as many events as it may have.
    Full,
    /// Somebody asked for it.
    Asked,
}

impl Reason {
    /// The number of the reason in the stop word, 1 to 4. Of two reasons the greater one stays.
    pub fn number(self) -> u64
        ensures number { result ≡ number_of self }
        ensures least { 1 ≤ result }
        ensures most { result ≤ 4 }
    {
        match self {
            Reason::Ended => 1,
            Reason::Turns => 2,
            Reason::Full => 3,
            Reason::Asked => 4,
        }
    }
}
