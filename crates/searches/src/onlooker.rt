/// One who is told how far a search is.
pub trait Onlooker {
    /// So many states were found, and so many of them swept: the steps of all their harts were
    /// looked at.
    fn see(&self, states: u32, swept: u32);
}

/// Nobody looks on.
impl Onlooker for () {
    fn see(&self, _states: u32, _swept: u32) {}
}
