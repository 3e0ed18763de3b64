/// How far a search has come.
#[derive(Clone, Copy, Debug, PartialEq, Eq, Drop)]
pub enum Extent {
    /// All states were found.
    Whole,
    /// There are more states than were to be visited, so that only some were found.
    Beyond,
    /// An end was found that meets the goal, and nothing was looked for behind it.
    First,
}
