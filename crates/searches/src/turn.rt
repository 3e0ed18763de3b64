use crate::step::Step;

/// A step, and the hart that makes it.
#[derive(Clone, Copy, Drop)]
pub(crate) struct Turn<S, W> {
    pub(crate) hart: u8,
    pub(crate) step: Step<S, W>,
}
