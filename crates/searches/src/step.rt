/// A step of a hart: the state that it leads to, and what it was.
#[derive(Clone, Copy, Drop)]
pub struct Step<S, W> {
    pub state: S,
    pub way: W,
}
