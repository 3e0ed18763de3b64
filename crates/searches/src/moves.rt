/// A move to a state: the hart that made a step, and what the step was.
#[derive(Clone, Copy, Drop)]
pub struct Move<W> {
    pub hart: u8,
    pub way: W,
}
