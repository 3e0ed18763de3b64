//! An event as a history keeps it: numbers, and beside them tags that say which of them are there.
//! So it is smaller than the event that it gives back.

ghost use Rattle.std.specs.Prelude.{◌≡◌};
ghost use Rattle.events.specs.Event.{actor_of};
ghost use Rattle.events.specs.Packed.{number_in, next_in, write_in, outcome_in, effect_in, event_in};

use crate::effect::{Cause, Effect, Next, Outcome, Written};
use crate::event::{Event, Phys, Seq};

/// A packed event.
#[derive(Clone, Copy, Drop)]
pub(super) enum Packed {
    Fetch {
        actor: u8,
        hart: u8,
        seq: Seq,
        pc: u32,
        word: Option<u32>,
        predicted: u32,
    },
    Decode {
        actor: u8,
        seq: Seq,
    },
    Rename {
        actor: u8,
        seq: Seq,
        phys: Option<Phys>,
    },
    Issue {
        actor: u8,
        seq: Seq,
    },
    Complete {
        actor: u8,
        seq: Seq,
        outcome: PackedOutcome,
    },
    Drop {
        actor: u8,
        seq: Seq,
    },
    Retire {
        actor: u8,
        seq: Seq,
        effect: PackedEffect,
    },
    Refetch {
        actor: u8,
        seq: Seq,
    },
}

// A history of ten million events is to have room in a third of a gigabyte.
const _: () = prove!(size_of::<Packed>() <= 32);

/// A packed outcome.
#[derive(Clone, Copy, Drop)]
pub(super) struct PackedOutcome {
    value: u32,
    next: u32,
    addr: u32,
    datum: u32,
    out: Option<u8>,
    next_kind: NextKind,
    has_value: bool,
    has_addr: bool,
    has_datum: bool,
}

/// A packed effect.
#[derive(Clone, Copy, Drop)]
pub(super) struct PackedEffect {
    value: u32,
    next: u32,
    addr: u32,
    datum: u32,
    out: Option<u8>,
    next_kind: NextKind,
    /// How many bytes are written, where there is a write.
    n: Option<u8>,
    has_value: bool,
}

/// Which of a `Next` the number beside it is. A cause has no need of it.
#[derive(Clone, Copy, Drop)]
enum NextKind {
    Pc,
    Ended,
    Stopped(Cause),
}

/// Packs an event.
#[inline(always)]
pub(super) fn pack(event: Event) -> Packed
    ensures { event_in result ≡ event }
{
    match event {
        Event::Fetch {
            actor,
            hart,
            seq,
            pc,
            word,
            predicted,
        } => Packed::Fetch {
            actor,
            hart,
            seq,
            pc,
            word,
            predicted,
        },
        Event::Decode { actor, seq } => Packed::Decode { actor, seq },
        Event::Rename { actor, seq, phys } => Packed::Rename { actor, seq, phys },
        Event::Issue { actor, seq } => Packed::Issue { actor, seq },
        Event::Complete {
            actor,
            seq,
            outcome,
        } => Packed::Complete {
            actor,
            seq,
            outcome: pack_outcome(outcome),
        },
        Event::Drop { actor, seq } => Packed::Drop { actor, seq },
        Event::Retire { actor, seq, effect } => Packed::Retire {
            actor,
            seq,
            effect: pack_effect(effect),
        },
        Event::Refetch { actor, seq } => Packed::Refetch { actor, seq },
    }
}

impl Packed {
    /// The actor of the event that was packed.
    #[inline]
    pub(super) fn actor(&self) -> u8
        ensures { result ≡ actor_of (event_in self.now) }
    {
        match *self {
            Packed::Fetch { actor, .. }
            | Packed::Decode { actor, .. }
            | Packed::Rename { actor, .. }
            | Packed::Issue { actor, .. }
            | Packed::Complete { actor, .. }
            | Packed::Drop { actor, .. }
            | Packed::Retire { actor, .. }
            | Packed::Refetch { actor, .. } => actor,
        }
    }

    /// The event that was packed.
    pub(super) fn event(&self) -> Event
        ensures { result ≡ event_in self.now }
    {
        match *self {
            Packed::Fetch {
                actor,
                hart,
                seq,
                pc,
                word,
                predicted,
            } => Event::Fetch {
                actor,
                hart,
                seq,
                pc,
                word,
                predicted,
            },
            Packed::Decode { actor, seq } => Event::Decode { actor, seq },
            Packed::Rename { actor, seq, phys } => Event::Rename { actor, seq, phys },
            Packed::Issue { actor, seq } => Event::Issue { actor, seq },
            Packed::Complete {
                actor,
                seq,
                outcome,
            } => Event::Complete {
                actor,
                seq,
                outcome: outcome_in(outcome),
            },
            Packed::Drop { actor, seq } => Event::Drop { actor, seq },
            Packed::Retire { actor, seq, effect } => Event::Retire {
                actor,
                seq,
                effect: effect_in(effect),
            },
            Packed::Refetch { actor, seq } => Event::Refetch { actor, seq },
        }
    }
}

#[inline]
fn pack_outcome(outcome: Outcome) -> PackedOutcome
    ensures { outcome_in result ≡ outcome }
{
    let (has_value, value) = pack_number(outcome.value);
    let (next_kind, next) = pack_next(outcome.next);
    let (has_addr, addr) = pack_number(outcome.addr);
    let (has_datum, datum) = pack_number(outcome.datum);
    PackedOutcome {
        value,
        next,
        addr,
        datum,
        out: outcome.out,
        next_kind,
        has_value,
        has_addr,
        has_datum,
    }
}

fn outcome_in(packed: PackedOutcome) -> Outcome
    ensures { result ≡ outcome_in packed }
{
    Outcome {
        value: number_in(packed.has_value, packed.value),
        next: next_in(packed.next_kind, packed.next),
        addr: number_in(packed.has_addr, packed.addr),
        datum: number_in(packed.has_datum, packed.datum),
        out: packed.out,
    }
}

#[inline]
fn pack_effect(effect: Effect) -> PackedEffect
    ensures { effect_in result ≡ effect }
{
    let (has_value, value) = pack_number(effect.value);
    let (next_kind, next) = pack_next(effect.next);
    let (n, addr, datum) = pack_write(effect.write);
    PackedEffect {
        value,
        next,
        addr,
        datum,
        out: effect.out,
        next_kind,
        n,
        has_value,
    }
}

fn effect_in(packed: PackedEffect) -> Effect
    ensures { result ≡ effect_in packed }
{
    Effect {
        value: number_in(packed.has_value, packed.value),
        next: next_in(packed.next_kind, packed.next),
        write: write_in(packed.n, packed.addr, packed.datum),
        out: packed.out,
    }
}

#[inline]
fn pack_number(number: Option<u32>) -> (bool, u32)
    ensures { number_in result.0 result.1 ≡ number }
{
    match number {
        Some(number) => (true, number),
        None => (false, 0),
    }
}

fn number_in(is_there: bool, number: u32) -> Option<u32>
    ensures { result ≡ number_in is_there number }
{
    if is_there { Some(number) } else { None }
}

#[inline]
fn pack_next(next: Next) -> (NextKind, u32)
    ensures { next_in result.0 result.1 ≡ next }
{
    match next {
        Next::Pc(pc) => (NextKind::Pc, pc),
        Next::Ended(status) => (NextKind::Ended, status),
        Next::Stopped(cause) => (NextKind::Stopped(cause), 0),
    }
}

fn next_in(kind: NextKind, number: u32) -> Next
    ensures { result ≡ next_in kind number }
{
    match kind {
        NextKind::Pc => Next::Pc(number),
        NextKind::Ended => Next::Ended(number),
        NextKind::Stopped(cause) => Next::Stopped(cause),
    }
}

#[inline]
fn pack_write(write: Option<Written>) -> (Option<u8>, u32, u32)
    ensures { write_in result.0 result.1 result.2 ≡ write }
{
    match write {
        Some(Written { addr, n, datum }) => (Some(n), addr, datum),
        None => (None, 0, 0),
    }
}

fn write_in(n: Option<u8>, addr: u32, datum: u32) -> Option<Written>
    ensures { result ≡ write_in n addr datum }
{
    Some(Written { addr, n: n?, datum })
}
