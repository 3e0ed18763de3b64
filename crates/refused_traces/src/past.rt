//! The events before the one that is refused, and the rows of their instructions.

use chart_rows::Row;
use events::{Event, Role};
use numbers::Seq;
use rv_decode::decode_op;
use rv_instr::Op;
use smt_model::Config;

/// The events before the one that is refused, the rows of the instructions that they have fetched, by number, and the
/// core's sizes.
#[derive(Clone, Copy, Drop)]
pub(crate) struct Past<'a> {
    pub(crate) events: &'a [Event],
    pub(crate) rows: &'a [Row],
    pub(crate) config: &'a Config,
}

impl<'a> Past<'a> {
    /// The row of an instruction; none where it isn't fetched.
    pub(crate) fn row(&self, seq: Seq) -> Option<Row> {
        self.rows.get(seq as usize).copied()
    }

    /// The hart of an instruction that was fetched.
    pub(crate) fn hart(&self, seq: Seq) -> Option<u8> {
        Some(self.row(seq)?.hart)
    }

    /// What an instruction is.
    pub(crate) fn op(&self, seq: Seq) -> Op {
        match self.row(seq) {
            Some(row) => op_of(&row),
            None => Op::NoWord,
        }
    }

    /// The role of an actor of the core.
    pub(crate) fn role(&self, actor: u8) -> Option<Role> {
        self.config
            .roles
            .as_slice()
            .get(usize::from(actor))
            .copied()
    }

    /// The event at a place.
    pub(crate) fn event(&self, place: u32) -> Option<Event> {
        self.events.get(place as usize).copied()
    }
}

/// What stands in a row.
pub(crate) fn op_of(row: &Row) -> Op {
    decode_op(row.word)
}

/// Whether an instruction is neither retired nor squashed.
pub(crate) fn is_live(row: &Row) -> bool {
    row.squashed.is_none() && row.retired.is_none()
}
