/// A turn of a hart in a script: one instruction of the hart goes its way.
#[derive(Clone, Copy, Drop)]
pub struct Turn {
    pub hart: u8,
    /// Whether one more is fetched behind it.
    pub fetches: bool,
}
