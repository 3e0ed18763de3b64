ghost use Rattle.std.specs.Prelude.{◌≡◌, ◌≤◌, length};
ghost use Rattle.numbers.specs.Sizes.{most_harts};

use arrayvec::ArrayVec;
use events::Record;
use numbers::sizes::HART_ROOM;
use sc_machine::Plain;
use smt_model::Status;
use std::marker::Model;

/// What a run of the plain machine leaves.
#[derive(Drop)]
pub struct PlainRun {
    pub(crate) records: Vec<Record>,
    pub(crate) statuses: ArrayVec<Status, HART_ROOM>,
    pub(crate) machine: Plain,
}

impl Model for PlainRun {
    ghost use Rattle.plain_run.specs.Left.{Left};

    ghost Value = { Left };

    ghost use Rattle.plain_run.specs.LeftInside.{left_of, IsSound};

    ghost view = { left_of };

    ghost invariant = { IsSound };
}

impl PlainRun {
    /// The records of its steps, the first step first.
    pub fn records(&self) -> &[Record]
        ensures { result.now ≡ self.now.records }
    {
        self.records.as_slice()
    }

    /// The bytes that were put out, in order.
    pub fn output(&self) -> &[u8]
        ensures { result.now ≡ self.now.machine.output }
    {
        self.machine.output()
    }

    /// How each hart stands, hart 0 first.
    pub fn statuses(&self) -> ArrayVec<Status, HART_ROOM>
        ensures { result.items ≡ self.now.statuses }
    {
        copy_of(self.statuses.as_slice())
    }

    /// The machine as it stands.
    pub fn machine(&self) -> &Plain
        ensures { result.now ≡ self.now.machine }
    {
        &self.machine
    }
}

fn copy_of(statuses: &[Status]) -> ArrayVec<Status, HART_ROOM>
    requires { length statuses.now ≤ most_harts }
    ensures { result.items ≡ statuses.now }
{
    let mut copy = ArrayVec::new();
    for status in statuses {
        copy.push(*status);
    }
    copy
}
