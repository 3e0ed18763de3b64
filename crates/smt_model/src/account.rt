use crate::config::Status;
use arrayvec::ArrayVec;
use events::Record;
use numbers::sizes::HART_ROOM;

/// What a history comes to.
#[derive(Drop)]
pub struct Account<'a> {
    /// The retired instructions, in the order of retirement.
    pub records: &'a [Record],
    /// The bytes that they put out, in order.
    pub output: &'a [u8],
    /// How each hart stands.
    pub statuses: ArrayVec<Status, HART_ROOM>,
    /// How many jobs are with units.
    pub lent: u32,
    /// How many events there are.
    pub events: u32,
}
