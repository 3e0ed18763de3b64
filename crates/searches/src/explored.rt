use crate::extent::Extent;
use crate::search::Search;
use std::hash::Hash;

/// What a search has found, and how far it has come.
#[derive(Drop)]
pub struct Explored<S: Copy + Eq + Hash, W: Copy> {
    pub search: Search<S, W>,
    pub extent: Extent,
}
