/// Who is shown how far a search for executions is.
pub trait ChoiceOnlooker {
    /// So many choices were tried so far: of ways, of what reads read, and of the places of writes.
    fn see(&self, choices: u32);
}

/// Nobody.
impl ChoiceOnlooker for () {
    fn see(&self, _choices: u32) {}
}
