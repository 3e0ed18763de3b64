use numbers::sizes::MOST_ACTORS;

/// The words of a board, each as it stood when it was loaded.
#[derive(Clone, Copy, PartialEq, Eq, Drop)]
pub struct BoardView {
    /// What each actor has posted last; 0 for an actor that has posted nothing.
    pub counts: [u64; MOST_ACTORS],
    /// The number of the greatest reason for which somebody has asked to stop, 1 to 4; 0 where
    /// nobody has.
    pub stop: u64,
}
