/// What an access does with memory: loads and LR only read, all others write.
#[derive(Clone, Copy, PartialEq, Eq, Drop)]
pub enum AccessKind {
    Load,
    Store,
}
