//! The program of three instructions that the tests run on one hart: its cores, its asks with their
//! events, and how it ends.

use crate::asking::{Step, config, first_other};
use elf_image::Image;
use events::Next;
use smt_core::{Config, Core, Status};
use std::alloc::Global;
use test_support::{Behind, EXIT_WITH_5, image_of};

/// Its image, with 65536 bytes of RAM.
pub fn first_image(alloc: Global) -> Option<Image> {
    image_of(&EXIT_WITH_5, 65536, alloc)
}

/// A core for it.
pub fn first_core(sizes: Config, limit: u32, alloc: Global) -> Option<Core> {
    let image = first_image(alloc)?;
    Core::new(&image, sizes, limit, alloc).ok()
}

/// The run of the first program on one hart, to its end: 18 events.
static FIRST_RUN: [(Step, &str); 15] = [
    (Step::Fetch(0), "F 0 0 0 80000000 00500513 80000004"),
    (Step::Fetch(0), "F 0 0 1 80000004 05d00893 80000008"),
    (Step::Fetch(0), "F 0 0 2 80000008 00000073 8000000c"),
    (Step::Decode(0, 0), "D 0 0"),
    (Step::Decode(0, 0), "D 0 1"),
    (Step::Decode(0, 0), "D 0 2"),
    (Step::Rename(0, 0), "R 0 0 31"),
    (Step::Rename(0, 0), "R 0 1 32"),
    (Step::Rename(0, 0), "R 0 2 -"),
    (Step::Execute(0), "C 0 0 00000005 p80000004 - - -"),
    (Step::Execute(0), "C 0 1 0000005d p80000008 - - -"),
    (Step::Execute(0), "C 0 2 - e00000005 - - -"),
    (Step::Retire(0, 0), "T 0 0 00000005 p80000004 - - -"),
    (Step::Retire(0, 0), "T 0 1 0000005d p80000008 - - -"),
    (Step::Retire(0, 0), "T 0 2 - e00000005 - - -"),
];

/// A core of one hart that has run the first program to its end.
pub fn ended_core(alloc: Global) -> Option<Core> {
    let mut core = first_core(config(1, 64, 16, 1), 18, alloc)?;
    match first_other(&mut core, &mut Behind, &FIRST_RUN) {
        None => Some(core),
        Some(_) => None,
    }
}

/// How many records an account has, how the last one went on, and whether its one hart has ended
/// with 5.
#[derive(Clone, Copy, PartialEq, Drop)]
pub struct End {
    records: usize,
    last: Option<Next>,
    ended: bool,
}

pub fn end_of(core: &Core) -> End {
    let account = core.account();
    End {
        records: account.records.len(),
        last: account.records.last().map(|record| record.effect.next),
        ended: account.statuses.as_slice() == [Status::Ended(5)].as_slice(),
    }
}

/// The end of the first program.
pub const FIRST_END: End = End {
    records: 3,
    last: Some(Next::Ended(5)),
    ended: true,
};
