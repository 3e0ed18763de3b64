/// What says whose turns there are.
#[derive(Clone, Copy, Drop)]
pub struct Rounds {
    /// How many instructions a hart makes in its turn.
    pub each: u32,
    /// How many steps are made at most, those of all harts together.
    pub steps: u64,
    /// What the harts are drawn from; none where they come in turn.
    pub seed: Option<u32>,
}
