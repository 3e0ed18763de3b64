ghost use Rattle.std.specs.Prelude.{◌<◌, IfOk};
ghost use Rattle.numbers.specs.Sizes.{most_harts};
ghost use Rattle.core_parts.specs.First.{IsNew};

use crate::slot::Slot;
use arrayvec::ArrayVec;
use numbers::sizes::LATCH_ROOM;
use rename_map::HartMaps;
use retire_squash::ActiveList;
use smt_model::Status;
use std::alloc::{AllocError, Global};

/// What a hart has of its own.
#[derive(Drop)]
pub struct HartState {
    /// Fetched instructions, in order.
    pub decode_latch: ArrayVec<Slot, LATCH_ROOM>,
    /// Decoded instructions, in order.
    pub rename_latch: ArrayVec<Slot, LATCH_ROOM>,
    /// Renamed instructions that are neither retired nor squashed, in order.
    pub active: ActiveList,
    pub maps: HartMaps,
    /// How many of its instructions are in decode, rename and the issue queue (ICOUNT; Tullsen and
    /// others, ISCA 1996).
    pub icount: u32,
    pub fetch_pc: u32,
    pub status: Status,
}

impl HartState {
    /// Hart `hart` as it begins, at the entry of the program.
    pub(crate) fn new(hart: u8, entry: u32, alloc: Global) -> Result<Self, AllocError>
        requires { hart < most_harts }
        ensures { IfOk result (IsNew hart entry) }
    {
        Ok(HartState {
            decode_latch: ArrayVec::new(),
            rename_latch: ArrayVec::new(),
            active: ActiveList::new(alloc)?,
            maps: HartMaps::new(hart),
            icount: 0,
            fetch_pc: entry,
            status: Status::Going,
        })
    }
}
