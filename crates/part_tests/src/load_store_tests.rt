//! The two looks of a load, and what accesses complete and retire as.

mod accesses;
mod looks;
