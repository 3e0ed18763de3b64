use numbers::{Reg, Seq};
use rv_instr::UnitKind;

/// How far an instruction in flight has come.
#[derive(Clone, Copy, PartialEq, Eq, Drop)]
pub enum Progress {
    /// It waits for its operands, or for a unit.
    Renamed,
    /// A unit works on it.
    Issued,
    /// It waits to retire.
    Completed,
}

/// Why a core can't make a step that is asked of it.
#[derive(Clone, Copy, PartialEq, Eq, Drop)]
pub enum Reason {
    /// The history has as many events as it may have.
    Full,
    /// There is no such actor.
    NoActor {
        actor: u8,
    },
    /// There is no such hart.
    NoHart {
        hart: u8,
    },
    HartEnded {
        hart: u8,
    },
    HartStopped {
        hart: u8,
    },
    /// Every hart has ended or stopped.
    NoHartGoes,
    /// No hart that is going has room in its decode latch.
    DecodeLatchesFull,
    NothingFetched {
        hart: u8,
    },
    RenameLatchFull {
        hart: u8,
    },
    NothingDecoded {
        hart: u8,
    },
    /// The issue queue has no room.
    QueueFull,
    /// The hart has as many instructions in flight as it may have.
    FlightFull {
        hart: u8,
    },
    /// Its oldest decoded instruction is a load, and it has as many loads in flight as it may have.
    LoadsFull {
        hart: u8,
    },
    /// The same of a store.
    StoresFull {
        hart: u8,
    },
    /// Its oldest decoded instruction writes a register, and no physical register is free.
    NoFreeRegister,
    NothingInFlight {
        hart: u8,
    },
    /// The oldest instruction in flight hasn't completed.
    NotCompleted {
        seq: Seq,
        progress: Progress,
    },
    /// The actor is no unit.
    NoUnit {
        actor: u8,
    },
    /// The actor has this job.
    HasJob {
        actor: u8,
        seq: Seq,
    },
    HasNoJob {
        actor: u8,
    },
    /// No instruction in the issue queue is for a unit of this kind.
    NothingQueued {
        kind: UnitKind,
    },
    /// None of those in the issue queue for a unit of this kind is ready: the oldest, `seq`, waits
    /// for `register` of instruction `writer`, which has come this far.
    NotReady {
        kind: UnitKind,
        seq: Seq,
        register: Reg,
        writer: Seq,
        progress: Progress,
    },
}
