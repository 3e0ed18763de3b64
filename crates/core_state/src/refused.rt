/// Why there is no core.
#[derive(Clone, Copy, PartialEq, Eq, Drop)]
pub enum CoreRefused {
    /// The configuration or the limit isn't one of a core.
    Config,
    /// There isn't enough memory.
    Memory,
}
