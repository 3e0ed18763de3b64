/// How a state was found: the place of the state of which it is a step, the hart that made the step,
/// and what it was. The start has none.
#[derive(Clone, Copy, Drop)]
pub struct Origin<W> {
    pub parent: u32,
    pub hart: u8,
    pub way: W,
}
