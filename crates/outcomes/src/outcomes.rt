ghost use Rattle.std.specs.Prelude.{◌≡◌, ◌<◌, ◌++◌, IfOk, OnOk, Some, length, replicate, option_map};
ghost use Rattle.std.specs.Prelude.{false, slice_index_or};
ghost use Rattle.searches.specs.declared.extent.Extent.TheVariants.{Whole};
ghost use Rattle.condensed_machine.specs.Steps.{turns};
ghost use Rattle.outcomes.specs.Told.{ending_listed, order_listed, order_at, moved};

use crate::listed::Listed;
use condensed_machine::{Rows, State, Way};
use numbers::sizes::HART_ROOM;
use searches::{Extent, Move, Search};
use std::alloc::{AllocError, Global};
use std::marker::Model;
use watched_outcomes::Outcome;

/// Outcomes of a program, sorted, each once and each with an order of harts that leads to it: all of them where the
/// extent is whole, else some.
#[derive(Drop)]
pub struct Outcomes {
    pub(crate) harts: u8,
    /// By how many local steps each hart in turn has come to the first state.
    pub(crate) ways: [u16; HART_ROOM],
    /// By how many local steps the others have gone on behind a step.
    pub(crate) rows: Rows,
    pub(crate) search: Search<State, Way>,
    pub(crate) extent: Extent,
    pub(crate) listed: Vec<Listed>,
    /// The place of a state that has no way to an end, where the search was whole.
    pub(crate) stuck: Option<u32>,
    /// Of each place in memory that was watched, whether 0 is there in all states; of none where there are others.
    pub(crate) unwritten: Vec<bool>,
}

impl Model for Outcomes {
    ghost use Rattle.outcomes.specs.Found.{Found};
    ghost use Rattle.outcomes.specs.Told.{found_of, IsInside};

    ghost Value = { Found };

    ghost view = { found_of };

    ghost invariant = { IsInside };
}

impl Outcomes {
    /// How many outcomes there are.
    pub fn count(&self) -> usize
        ensures { result ≡ length self.now.listed }
    {
        self.listed.len()
    }

    /// An outcome by its index.
    pub fn outcome(&self, index: usize) -> Option<&Outcome>
        ensures { option_map (λ outcome. outcome.now) result ≡ ending_listed self.now.listed index }
    {
        match self.listed.get(index) {
            Some(listed) => Some(&listed.outcome),
            None => None,
        }
    }

    /// Whether these are all outcomes.
    pub fn extent(&self) -> Extent
        ensures { result ≡ self.now.extent }
    {
        self.extent
    }

    /// How many states of the plain machine were found.
    pub fn states(&self) -> u64
        ensures { result ≡ self.now.states }
    {
        self.search.states() as u64
    }

    /// An order of harts that leads to an outcome, the first step first: of those that the search has seen
    /// one with the fewest steps that other harts can see. Errors: want of memory.
    pub fn witness(&self, index: usize, alloc: Global) -> Result<Vec<u8>, AllocError>
        requires { index < length self.now.listed }
        ensures { IfOk result (λ order. order_listed self.now.listed index ≡ Some order.items) }
    {
        let place = self.listed[index].place;
        let order = order_to(
            self.harts,
            &self.ways,
            &self.rows,
            &self.search,
            place,
            alloc,
        )?;
        Ok(order)
    }

    /// An order of harts that leads to where no order leads on to an end; none where some order does from
    /// every state. A part of the states tells neither. Errors: want of memory.
    pub fn stuck(&self, alloc: Global) -> Result<Option<Vec<u8>>, AllocError>
        requires { self.now.extent ≡ Whole }
        ensures { IfOk result (λ order. option_map (λ it. it.items) order ≡ self.now.stuck) }
    {
        match self.stuck {
            Some(place) => {
                let order = order_to(
                    self.harts,
                    &self.ways,
                    &self.rows,
                    &self.search,
                    place,
                    alloc,
                )?;
                Ok(Some(order))
            }
            None => Ok(None),
        }
    }

    /// Whether the place in memory that was watched with this index holds 0 in whatever state an order leads to, from
    /// the start on; false where none has the index. A part of the states doesn't tell it.
    pub fn is_unwritten(&self, index: usize) -> bool
        requires { self.now.extent ≡ Whole }
        ensures { result ≡ slice_index_or self.now.unwritten index false }
    {
        match self.unwritten.get(index) {
            Some(is_unwritten) => *is_unwritten,
            None => false,
        }
    }
}

/// The order of harts by which the state at a place was found: the local steps of each hart in turn, and then
/// the moves. Errors: want of memory.
fn order_to(
    harts: u8,
    ways: &[u16; HART_ROOM],
    rows: &Rows,
    search: &Search<State, Way>,
    place: u32,
    alloc: Global,
) -> Result<Vec<u8>, AllocError>
    requires { place < length search.now.states }
    ensures { IfOk result (λ order. order.items
        ≡ order_at rows.now ways.now harts search.now.origins place) }
{
    let mut order = Vec::new(alloc);
    push_row(&mut order, harts, ways)?;
    let moves = search.moves_to(place, alloc)?;
    push_moves(&mut order, harts, rows, moves.as_slice())?;
    Ok(order)
}

/// Each move's hart, that again for each local step behind it, and then the local steps of the others. Errors: want of
/// memory.
fn push_moves(
    order: &mut Vec<u8>,
    harts: u8,
    rows: &Rows,
    moves: &[Move<Way>],
) -> Result<(), AllocError>
    ensures { OnOk result (order.new.items ≡ order.old.items ++ moved rows.now harts moves.now) }
{
    for step in moves {
        order.push(step.hart)?;
        push_turns(order, step.hart, step.way.own)?;
        push_row(order, harts, rows.row(step.way.others))?;
    }
    Ok(())
}

/// The turns of each hart in turn, as many as stand in a row, and none where nothing stands there. Errors: want of memory.
fn push_row(order: &mut Vec<u8>, harts: u8, row: &[u16]) -> Result<(), AllocError>
    ensures { OnOk result (order.new.items ≡ order.old.items ++ turns row.now harts) }
{
    for hart in 0..harts {
        let turns = row.get(usize::from(hart)).copied().unwrap_or(0);
        push_turns(order, hart, turns)?;
    }
    Ok(())
}

/// A hart's turn, so many times. Errors: want of memory.
fn push_turns(order: &mut Vec<u8>, hart: u8, turns: u16) -> Result<(), AllocError>
    ensures { OnOk result (order.new.items ≡ order.old.items ++ replicate turns hart) }
{
    for _turn in 0..turns {
        order.push(hart)?;
    }
    Ok(())
}
