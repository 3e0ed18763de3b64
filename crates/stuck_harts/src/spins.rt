//! What a hart shows again and again.

ghost use Rattle.std.specs.Prelude.{◌≡◌, ◌<◌, IfOk, OnOk};
ghost use Rattle.std.specs.List.{list_any};
ghost use Rattle.sc_machine.specs.Machine.{Agrees, InEachState};
ghost use Rattle.stuck_harts.specs.Turns.{turn};
ghost use Rattle.stuck_harts.specs.Spins.{is_at, is_new, kept, settled, shown_by, shown_in, spins};

use crate::turns::{go_up_to, goes, take_turns};
use arrayvec::ArrayVec;
use sc_machine::Plain as Machine;
use std::alloc::AllocError;
use stories::{Deed, step_of};

/// The turns that the harts take before it is looked what one of them shows: until then each is where it stays.
const TURNS_BEFORE: u32 = 1000;

/// The turns in which it is looked.
const TURNS_WATCHED: u32 = 1000;

/// How many places of a hart's loop are told at the most.
pub const MOST_SPINS: usize = 4;

/// What a hart shows to others at a pc of its loop, the first time that it is looked.
#[derive(Clone, Copy, PartialEq, Eq, Drop)]
pub struct Spin {
    pub pc: u32,
    pub deed: Deed,
}

// What stands in room that isn't taken: never told.
impl Default for Spin {
    fn default() -> Spin {
        Spin {
            pc: 0,
            deed: Deed::Out(0),
        }
    }
}

/// What a hart shows while all harts go on in turns, 1,000 of them behind 1,000 in which nobody looks: for each of its
/// pcs what it shows there first, for the first four of these pcs. The machine stands behind all of these turns then.
/// Errors: there is no memory for what is put out.
pub fn spins_of(machine: &mut Machine, hart: u8) -> Result<ArrayVec<Spin, MOST_SPINS>, AllocError>
    ensures shown { IfOk result (λ shown. InEachState machine.old
        (λ setup s. hart < setup.harts → shown.items ≡ spins setup hart s)) }
    ensures turned { OnOk result (InEachState machine.old
        (λ setup s. hart < setup.harts → Agrees setup (settled setup s) machine.new)) }
{
    take_turns(machine, TURNS_BEFORE)?;
    let mut shown = ArrayVec::new();
    for turn in 0..TURNS_WATCHED {
        let spin = watch_turn(machine, hart)?;
        keep(spin, &mut shown);
    }
    Ok(shown)
}

/// All harts take a turn, and it is told what one of them shows in it.
fn watch_turn(machine: &mut Machine, hart: u8) -> Result<Option<Spin>, AllocError>
    ensures shown { IfOk result (λ spin. InEachState machine.old (λ setup s. spin ≡ shown_in setup hart s)) }
    ensures turned { OnOk result (InEachState machine.old
        (λ setup s. hart < setup.harts → Agrees setup (turn setup s) machine.new)) }
{
    go_up_to(machine, 0, hart)?;
    let spin = shown_by(machine, hart);
    let harts = machine.harts();
    go_up_to(machine, hart, harts)?;
    Ok(spin)
}

/// What a hart shows in its next step, where it goes.
fn shown_by(machine: &Machine, hart: u8) -> Option<Spin>
    ensures { InEachState machine.now (λ setup s. result ≡ shown_by setup hart s) }
{
    if !goes(machine, hart) {
        return None;
    }
    let step = step_of(machine, hart);
    let deed = step.deed?;
    Some(Spin { pc: step.pc, deed })
}

/// Keeps what is shown at a pc for the first time, while there is room.
fn keep(spin: Option<Spin>, past: &mut ArrayVec<Spin, MOST_SPINS>)
    ensures { past.new.items ≡ kept past.old.items spin }
{
    let Some(spin) = spin else {
        return;
    };
    if is_new(past.as_slice(), &spin) {
        past.push(spin);
    }
}

/// Whether something is shown at its pc for the first time, and there is room.
fn is_new(past: &[Spin], spin: &Spin) -> bool
    ensures { result ≡ is_new past.now spin.now }
{
    past.len() < MOST_SPINS && !is_told(past, spin.pc)
}

/// Whether something is told of a pc.
fn is_told(past: &[Spin], pc: u32) -> bool
    ensures { result ≡ list_any (is_at pc) past.now }
{
    past.iter().any(|one| one.pc == pc)
}
