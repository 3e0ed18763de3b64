//! What holds in every legal history. The functions do nothing: each is there for its contract,
//! which ranges over all setups, all histories that the rules allow, and all events that may come
//! next.
ghost use Rattle.smt_laws.specs.Histories.{ClaimedOnce, CommittedHold, FlightsHold, GoesInOrder};
ghost use Rattle.smt_laws.specs.Histories.{LeavesNothing, MovesByStep, OneOfAKind, ResultsAreRules};
ghost use Rattle.smt_laws.specs.Histories.{SourcesAreClaimed, SourcesStay, ValuesStay};
ghost use Rattle.smt_laws.specs.Untouched.{CompletionsAreUntouched, LoadsOfNothingKeep};
ghost use Rattle.smt_laws.specs.Untouched.{LooksAreOfLoads, SharesWhereOneIs, UntouchedLoadsKeep};
ghost use Rattle.smt_laws.specs.Untouched.{UntouchedLoadsReadTheSame};

/// Each instruction moves by eight steps alone (fetched, decoded, renamed, issued, completed,
/// retired or halted, and squashed while it is live), and has at most one event of each kind.
pub fn moves_by_steps()
    ensures steps { MovesByStep }
    ensures once { OneOfAKind }
{}

/// The instructions of a hart go down the pipeline in order, and a hart that has ended or stopped
/// has none on its way.
pub fn goes_in_order()
    ensures order { GoesInOrder }
    ensures left { LeavesNothing }
{}

/// The register that an instruction finds for a source stays the same while it is in flight, and is
/// claimed all the while: by the committed map or by an older instruction in flight.
pub fn sources_stay()
    ensures same { SourcesStay }
    ensures claimed { SourcesAreClaimed }
{}

/// Each claimed physical register belongs to its claimant alone.
pub fn claims_are_unique()
    ensures once { ClaimedOnce }
    ensures flights { FlightsHold }
    ensures committed { CommittedHold }
{}

/// The number that a source's register holds stays, once it is there, as long as the reader is in
/// flight.
pub fn values_stay()
    ensures same { ValuesStay }
{}

/// What a completed instruction said is what the rules compute of its operands.
pub fn results_are_rules()
    ensures says { ResultsAreRules }
{}

/// A load whose bytes no retirement has written since its completion finds in memory, as it
/// retires, the number that its first look gave: it retires with what its completion said. So does
/// one that gives no register a number.
pub fn untouched_loads_keep()
    ensures same { UntouchedLoadsReadTheSame }
    ensures keep { UntouchedLoadsKeep }
    ensures nothing { LoadsOfNothingKeep }
{}

/// What touches an access is a write that shares an address with it, after its completion; and no
/// more loads look again than retire.
pub fn touched_loads_look_again()
    ensures shares { SharesWhereOneIs }
    ensures fresh { CompletionsAreUntouched }
    ensures least { LooksAreOfLoads }
{}
