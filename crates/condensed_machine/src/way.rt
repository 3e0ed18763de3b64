//! What a step was, beside the hart that made it: the local steps that followed.

ghost use Rattle.std.specs.Prelude.{◌≡◌, [], IfOk, slice_index_or};
ghost use Rattle.condensed_machine.specs.Machine.{Keeps};
ghost use Rattle.condensed_machine.specs.Steps.{no_turns};
ghost use Rattle.condensed_machine.specs.Tables.{HasNumber};

use crate::tables::number_of;
use indexmap::IndexSet;
use numbers::sizes::HART_ROOM;
use std::alloc::{AllocError, Global};
use std::marker::Model;

/// The number of the row of no local steps of others, which is the first one.
const NO_OTHERS: u32 = 0;

/// The local steps behind a step: how many the hart itself made, and the number of the row of those that others made
/// behind them, as they had lost their reservations.
#[derive(Clone, Copy, Drop)]
pub struct Way {
    pub own: u16,
    pub others: u32,
}

/// How many local steps each hart in turn has made behind a step of another: rows, by their numbers. The first is
/// that of none.
#[derive(Drop)]
pub struct Rows {
    rows: IndexSet<[u16; HART_ROOM]>,
}

impl Model for Rows {
    ghost use Rattle.std.specs.Prelude.{◌≡◌, ℕ, List, Some, slice_get};
    ghost use Rattle.condensed_machine.specs.Steps.{no_turns};

    ghost Value = { List (List ℕ) };

    ghost view = { λ a. a.rows.keys };

    ghost invariant = { λ a. slice_get a.rows.keys 0 ≡ Some no_turns };
}

impl Rows {
    /// The row of none. Errors: want of memory.
    pub(crate) fn new(alloc: Global) -> Result<Rows, AllocError> {
        let mut rows = IndexSet::new(alloc);
        rows.insert_full([0; HART_ROOM])?;
        Ok(Rows { rows })
    }

    /// The number of the row of none.
    pub(crate) fn no_others(&self) -> u32
        ensures { HasNumber self.now no_turns result }
    {
        let _rows = &self.rows;
        NO_OTHERS
    }

    /// The number of a row: its place, which is the last where it wasn't there. Errors: want of memory.
    pub(crate) fn number(&mut self, row: [u16; HART_ROOM]) -> Result<u32, AllocError>
        ensures kept { Keeps self.old self.new }
        ensures number { IfOk result (HasNumber self.new row) }
    {
        let (place, _) = self.rows.insert_full(row)?;
        number_of(place)
    }

    /// The row with a number: no turns where there is none.
    pub fn row(&self, number: u32) -> &[u16]
        ensures { result.now ≡ slice_index_or self.now number [] }
    {
        match self.rows.get_index(number as usize) {
            Some(row) => row.as_slice(),
            None => &[],
        }
    }
}
