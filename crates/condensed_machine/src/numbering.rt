//! The numbers of a state's harts: those of the first ones stand in the state, those of the others in a table.

ghost use Rattle.std.specs.Prelude.{◌≡◌, ◌<◌, IfOk, length, slice_index};
ghost use Rattle.numbers.specs.Sizes.{most_harts};
ghost use Rattle.condensed_machine.specs.Machine.{Keeps};
ghost use Rattle.condensed_machine.specs.Numbering.{numbers_in, HasNumbers, HasMoved};
ghost use Rattle.condensed_machine.specs.Tables.{HasNumber};

use crate::state::{FAR_HARTS, NEAR_HARTS, State};
use crate::tables::number_of;
use indexmap::IndexSet;
use numbers::sizes::HART_ROOM;
use std::alloc::AllocError;

/// The number of a hart in a state.
pub(crate) fn number_in(far_harts: &IndexSet<[u32; FAR_HARTS]>, state: State, hart: u8) -> u32
    requires hart { hart < most_harts }
    requires known { state.far < length far_harts.now.keys }
    ensures { result ≡ slice_index (numbers_in far_harts.now.keys state) hart }
{
    let place = usize::from(hart);
    if place < NEAR_HARTS {
        return state.near[place];
    }
    far_harts.as_slice()[state.far as usize][place - NEAR_HARTS]
}

/// The state whose harts have these numbers, and what they share this one. Errors: want of memory.
pub(crate) fn state_of(
    far_harts: &mut IndexSet<[u32; FAR_HARTS]>,
    numbers: [u32; HART_ROOM],
    shared: u32,
) -> Result<State, AllocError>
    requires { length numbers ≡ most_harts }
    ensures kept { Keeps far_harts.old.keys far_harts.new.keys }
    ensures numbered { IfOk result (HasNumbers far_harts.new.keys numbers shared) }
{
    let mut near = [0; NEAR_HARTS];
    near.copy_from_slice(&numbers[..NEAR_HARTS]);
    let mut others = [0; FAR_HARTS];
    others.copy_from_slice(&numbers[NEAR_HARTS..]);
    let far = number_far(far_harts, others)?;
    Ok(State { near, far, shared })
}

/// The state with another number of a hart, and of what the harts share. Errors: want of memory.
pub(crate) fn moved(
    far_harts: &mut IndexSet<[u32; FAR_HARTS]>,
    state: State,
    hart: u8,
    number: u32,
    shared: u32,
) -> Result<State, AllocError>
    requires hart { hart < most_harts }
    requires known { state.far < length far_harts.old.keys }
    ensures kept { Keeps far_harts.old.keys far_harts.new.keys }
    ensures moved { IfOk result
        (HasMoved far_harts.old.keys far_harts.new.keys state hart number shared) }
{
    let place = usize::from(hart);
    let State { near, far, .. } = state;
    if place < NEAR_HARTS {
        let mut near = near;
        near[place] = number;
        return Ok(State { near, far, shared });
    }
    let mut others = far_harts.as_slice()[far as usize];
    others[place - NEAR_HARTS] = number;
    let far = number_far(far_harts, others)?;
    Ok(State { near, far, shared })
}

/// The number of the numbers of the harts behind the first ones. Errors: want of memory.
fn number_far(
    far_harts: &mut IndexSet<[u32; FAR_HARTS]>,
    others: [u32; FAR_HARTS],
) -> Result<u32, AllocError>
    ensures kept { Keeps far_harts.old.keys far_harts.new.keys }
    ensures number { IfOk result (HasNumber far_harts.new.keys others) }
{
    let (place, _) = far_harts.insert_full(others)?;
    number_of(place)
}
