//! How an actor waits that finds nothing to do.

ghost use Rattle.std.specs.Prelude.{◌≡◌, ◌+◌, ◌-◌, nat_lt};
ghost use Rattle.actors.specs.Waiting.{idle_behind, last_behind, longer, pause_behind, turns_of_round};
ghost use Rattle.actors.specs.declared.patience.Pause.TheVariants as pause;

use smt_core::Role;

/// So many turns an actor takes without a rest. Most runs of litmus tests end within them, and show
/// fewer ends where actors come late.
const EAGER_TURNS: u64 = 200;

/// The first rest of a row, in microseconds: a system takes some fifty to wake a thread, so a shorter
/// one would be no shorter.
const FIRST_REST: u64 = 10;

/// The longest rest, in microseconds. In it the others make some hundred events; behind a longer one an
/// actor is missed more than its asks disturb.
const LONGEST_REST: u64 = 160;

/// What an actor does behind a turn, before it asks again.
#[derive(Clone, Copy, Drop)]
pub(crate) enum Pause {
    /// It asks at once: it has made an event, or goes round the harts.
    Nothing,
    /// It watches the board, and gives its processor away between two looks.
    Watch,
    /// It does so for two looks alone.
    Glance,
    /// It rests for so many microseconds.
    Rest(u64),
}

impl Pause {
    /// What it does behind the next round, where that is idle and the actor isn't eager any more.
    fn longer(self) -> Pause
        ensures { result ≡ longer self }
    {
        match self {
            Pause::Nothing | Pause::Watch => Pause::Glance,
            Pause::Glance => Pause::Rest(FIRST_REST),
            Pause::Rest(micros) => Pause::Rest(micros.saturating_mul(2).min(LONGEST_REST)),
        }
    }
}

/// How an actor has waited so far.
#[derive(Drop)]
pub(crate) struct Patience {
    /// How many turns it still takes without a rest.
    eager: u64,
    /// How many of its turns go round.
    round: u8,
    /// How many idle turns of a round it has taken in a row.
    idle: u8,
    /// What it did behind its last round, or its last turn where that made an event.
    last: Pause,
}

/// How many turns of an actor go round: one for each hart, where a turn is of one hart.
pub(crate) fn turns_of_round(role: Role, harts: u8) -> u8
    ensures { result ≡ turns_of_round role harts }
{
    match role {
        Role::Front | Role::Retire => harts,
        Role::Fetch | Role::Alu | Role::Mul | Role::Mem => 1,
    }
}

impl Patience {
    /// That of an actor that has taken no turn, so many of which go round.
    pub(crate) fn new(round: u8) -> Patience
        ensures eager { result.eager ≡ 200 }
        ensures round { result.round ≡ round }
        ensures idle { result.idle ≡ 0 }
        ensures last { result.last ≡ pause.Nothing }
    {
        Patience {
            eager: EAGER_TURNS,
            round,
            idle: 0,
            last: Pause::Nothing,
        }
    }

    /// Notes a turn that made an event.
    pub(crate) fn note_advance(&mut self)
        ensures eager { self.new.eager ≡ self.old.eager - 1 }
        ensures round { self.new.round ≡ self.old.round }
        ensures idle { self.new.idle ≡ 0 }
        ensures last { self.new.last ≡ pause.Nothing }
    {
        self.eager = self.eager.saturating_sub(1);
        self.idle = 0;
        self.last = Pause::Nothing;
    }

    /// Notes an idle turn, and answers what the actor does behind it.
    pub(crate) fn note_idle(&mut self) -> Pause
        ensures eager { self.new.eager ≡ self.old.eager - 1 }
        ensures round { self.new.round ≡ self.old.round }
        ensures idle { self.new.idle ≡ idle_behind self.old.eager self.old.idle self.old.round }
        ensures pause { result
            ≡ pause_behind self.old.eager self.old.idle self.old.round self.old.last }
        ensures last { self.new.last
            ≡ last_behind self.old.eager self.old.idle self.old.round self.old.last }
    {
        if self.eager > 0 {
            self.eager -= 1;
            self.last = Pause::Watch;
            return Pause::Watch;
        }
        if self.goes_round_on() {
            self.idle += 1;
            return Pause::Nothing;
        }
        self.idle = 0;
        self.last = self.last.longer();
        self.last
    }

    /// Whether the round goes on behind one more idle turn.
    fn goes_round_on(&self) -> bool
        ensures { result ≡ nat_lt (self.now.idle + 1) self.now.round }
    {
        u32::from(self.idle) + 1 < u32::from(self.round)
    }
}
