use numbers::sizes::HART_ROOM;

/// How many harts stand in a state by their own numbers. Most searches are of no more, and their states are no
/// larger for the harts that there may be beyond.
pub(crate) const NEAR_HARTS: usize = 4;

/// How many harts stand in a state together, by one number.
pub(crate) const FAR_HARTS: usize = HART_ROOM - NEAR_HARTS;

/// A state, by the numbers of its parts. Only the machine that has numbered them knows what they stand for.
#[derive(Clone, Copy, PartialEq, Eq, Hash, Drop)]
pub struct State {
    /// The numbers of the first harts, 0 for those that aren't there.
    pub(crate) near: [u32; NEAR_HARTS],
    /// The number of the numbers of all other harts.
    pub(crate) far: u32,
    /// The number of what the harts share.
    pub(crate) shared: u32,
}
