use events::{Seq, Written};

/// A store in flight: its number, and what it will write once it is resolved.
#[derive(Clone, Copy, PartialEq, Eq, Default, Drop)]
pub struct Store {
    pub seq: Seq,
    pub write: Option<Written>,
}
