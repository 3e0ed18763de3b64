ghost use Rattle.std.specs.Prelude.{◌≡◌, true};

use core_lock::BoardView;

/// Where an actor asks its gate.
#[derive(Clone, Copy, PartialEq, Eq, Drop)]
pub enum Point {
    /// Before each turn.
    Turn,
    /// With a job in hand, and the lock not held.
    Job,
}

/// What every actor of a run asks whether it may go on. A gate is given no leave to wait: it may
/// look, keep what it sees, and give its processor away for a while.
pub trait Gate {
    /// So many runs begin, one after another. Where this isn't called there is one.
    fn begin_all(&self, _times: u32) {}

    /// A run begins whose history has room for so many events. No actor has asked yet.
    fn begin(&self, _limit: u32) {}

    /// Rounds of the plain machine begin, which has no actors.
    fn begin_rounds(&self) {}

    /// So many steps of the rounds were made, and so many harts go. It comes every so many steps.
    fn at_step(&self, _steps: u64, _going: usize) {}

    /// A search of the plain machine's states begins.
    fn begin_search(&self) {}

    /// So many states of the search were found, and so many of them swept. It comes every so many states.
    fn at_states(&self, _states: u32, _swept: u32) {}

    /// So many choices were tried of what reads read and of the orders of writes, in a search for executions. It comes
    /// every so many choices.
    fn at_choices(&self, _choices: u32) {}

    /// Whether actor `actor` may go on. `seen` is what it read of the board before this turn.
    /// Where it may not, it asks all actors to stop.
    fn at(&self, actor: u8, point: Point, seen: &BoardView) -> bool;

    /// The run that began, the rounds or the search are over: all threads are joined, and nobody asks any more.
    fn end(&self) {}

    /// The runs that began are over, or no other is made since one was refused.
    fn end_all(&self) {}
}

/// The gate that lets all pass.
#[derive(Clone, Copy, PartialEq, Eq, Drop)]
pub struct Open;

impl Gate for Open {
    fn at(&self, _actor: u8, _point: Point, _seen: &BoardView) -> bool
        ensures { result ≡ true }
    {
        true
    }
}
