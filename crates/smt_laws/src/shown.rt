//! The converse of the headline: what a core can show, what it needs for that, and that what it
//! answers is decided. The functions do nothing: each is there for its contract.
ghost use Rattle.smt_laws.specs.Scripts.{RepliesAreOne, ScriptsShowRuns, TurnsShowRuns};
ghost use Rattle.smt_laws.specs.Shown.{AcceptedCoresCanShow, AsksHaveOneAnswer};
ghost use Rattle.smt_laws.specs.Shown.{EachExecutionIsShown, EachRunIsShown};
ghost use Rattle.smt_laws.specs.Shown.{EachRunIsShownInTwelve, NeedsItsUnits};
ghost use Rattle.smt_laws.specs.Shown.{TakesSixEach};

/// The converse of the headline. Every run of the plain machine, in any order of harts, is what
/// some legal history retires in this order, whatever the predictor: of at most six events an
/// instruction and one a hart, where the core has a register to spare, a place in its queue, an
/// actor, and a unit of each kind that the run uses. This is of images whose code may not be
/// written.
pub fn shows_every_run()
    ensures runs { EachRunIsShown }
    ensures executions { EachExecutionIsShown }
    ensures accepted { AcceptedCoresCanShow }
{}

/// The converse for every image: where the code may be written, what a hart has on its way may be
/// stale when its turn comes, and is then refetched first. So a history has at most twelve events
/// an instruction, and the core needs a unit of each kind.
pub fn shows_every_run_in_twelve()
    ensures runs { EachRunIsShownInTwelve }
{}

/// A core has the units that it needs: each record that a legal history retires has an actor of the
/// kind that executes its instruction.
pub fn needs_its_units()
    ensures needs { NeedsItsUnits }
{}

/// A legal history has at least six events for each instruction that it retires.
pub fn takes_six_events_each()
    ensures least { TakesSixEach }
{}

/// Two events that answer the same ask on the same legal history are one, where both predict what
/// the predictor says and take the least free register: these are all that the rules leave open.
/// So a core has one history after some asks.
pub fn asks_have_one_answer()
    ensures one { AsksHaveOneAnswer }
    ensures replies { RepliesAreOne }
{}

/// The run in an order of harts is what a core has after the script of this order, which knows the
/// number of harts and the roles of the actors, and nothing of the program.
pub fn scripts_show_runs()
    ensures scripts { ScriptsShowRuns }
{}

/// The run in an order of harts, whether or not the code may be written, is what a core with a unit
/// of each kind has after the script of the order's turns: two of a hart whose next word was
/// written over since it was fetched, the first of them to refetch it, and else one. So this
/// script knows the plain machine's run, and nothing of the predictor.
pub fn turns_show_runs()
    ensures turns { TurnsShowRuns }
{}
