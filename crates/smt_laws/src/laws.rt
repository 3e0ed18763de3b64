//! The functions do nothing: each is there for its contract, which ranges over all setups and all
//! histories that the rules allow, or over all runs of the plain machine.
ghost use Rattle.smt_laws.specs.Chain.{FollowsTheProgram};
ghost use Rattle.smt_laws.specs.Code.{HistoriesKeepCode, StepsKeepCode};
ghost use Rattle.smt_laws.specs.Execution.{ExecutionsAreRuns, RetiresAnExecution};
ghost use Rattle.smt_laws.specs.Execution.{RunsAreExecutions};
ghost use Rattle.smt_laws.specs.PlainLaws.{EndsReservations, ReadsZero, StepsAlone};
ghost use Rattle.smt_laws.specs.PlainLaws.{StopsWithoutWriting, StoresWhereHeld, WritesAsSaid};
ghost use Rattle.smt_laws.specs.Sequential.{EachIsSequential};
ghost use Rattle.smt_laws.specs.Writes.{WritesAtMostAWord};

/// The headline. The retirements of every legal history, in their order, are a run of the plain
/// machine: it leaves the same records, registers, pcs, statuses, reservations, memory and output.
/// And no physical register is claimed twice.
pub fn refines_the_plain_machine()
    ensures sequential { EachIsSequential }
{}

/// What a hart has on its way is a path through its program, from where it has retired to, to where
/// it fetches next.
pub fn follows_the_program()
    ensures chain { FollowsTheProgram }
{}

/// Code that may not be written stays as the image has it, in every legal history and from each
/// step of the plain machine to the next.
pub fn keeps_code()
    ensures histories { HistoriesKeepCode }
    ensures steps { StepsKeepCode }
{}

/// In the plain machine x0 reads as 0, and is never written.
pub fn reads_zero()
    ensures zero { ReadsZero }
{}

/// A step of the plain machine leaves the registers, pcs and statuses of all other harts, and sets
/// none of their reservations.
pub fn steps_alone()
    ensures alone { StepsAlone }
{}

/// A step of the plain machine leaves one record, and what the record says was written is all that
/// changes in memory.
pub fn writes_as_said()
    ensures said { WritesAsSaid }
    ensures stops { StopsWithoutWriting }
{}

/// In the plain machine a store-conditional writes its word where its hart has it reserved, and
/// else writes nothing; and no reservation outlives a write to its word.
pub fn guards_words()
    ensures stores { StoresWhereHeld }
    ensures ends { EndsReservations }
{}

/// What every legal history retires is an execution, told by its records alone: each does what its
/// instruction does to what was written last before it. The plain machine's runs leave just the
/// executions.
pub fn retires_an_execution()
    ensures histories { RetiresAnExecution }
    ensures runs { RunsAreExecutions }
    ensures executions { ExecutionsAreRuns }
{}

/// No instruction that a legal history retires writes more than a word.
pub fn writes_at_most_a_word()
    ensures short { WritesAtMostAWord }
{}
