use rv_instr::{UnitKind, unit_name};
use sc_machine::Stopped;
use thiserror::Error;

/// Why an order of harts has no schedule.
#[derive(Clone, Copy, Debug, PartialEq, Eq, Drop, Error)]
pub enum ScheduleRefused {
    /// The sizes and the limit aren't those of a core.
    #[error("config refused")]
    Config,
    /// There isn't enough memory.
    #[error("memory")]
    Memory,
    /// The step at this place of the order, from 0, is the first that the plain machine doesn't
    /// make.
    #[error("order {index} refused {}", .why.number())]
    Step { index: usize, why: Stopped },
    /// The first instruction for which there is no unit is for one of this kind.
    #[error("no {} unit", unit_name(.0))]
    Unit(UnitKind),
    /// The limit is below the number of events that the schedule may make.
    #[error("limit below {0}")]
    Limit(u64),
}
