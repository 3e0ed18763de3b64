/// Why there was no run.
#[derive(Clone, Copy, PartialEq, Eq, Drop)]
pub enum RunRefused {
    /// The configuration or the limit isn't one of a core.
    Config,
    /// There isn't enough memory.
    Memory,
    /// The configuration has no actor of some role.
    Roles,
    /// A thread couldn't be started. Those that had been were stopped and joined.
    Thread,
}
