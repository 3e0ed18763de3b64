//! The search for all outcomes, and who is shown how far it is.

ghost use Rattle.std.specs.Prelude.{IfOk, IfErr, OnOk};
ghost use Rattle.outcomes.specs.{Found.IsOnce, Parts.IsAskedFor, Parts.IsListing, Searched.IsSearchedFor};
ghost use Rattle.outcomes.specs.Refusals.{IsRefusedFor, AreWords};
ghost use Rattle.watched_outcomes.specs.Watching.{AreThere};

use actors::Gate;
use elf_image::Image;
use litmus_cycles::ChoiceOnlooker;
use outcomes::{Onlooker, Outcomes, OutcomesRefused, Until, find_outcomes};
use reductions::Without;
use std::alloc::Global;
use watched_outcomes::Watch;

/// Shows a gate how far a search is.
#[derive(Drop)]
struct Shown<'a, G: Gate> {
    gate: &'a G,
}

impl<G: Gate> Onlooker for Shown<'_, G> {
    fn see(&self, states: u32, swept: u32) {
        self.gate.at_states(states, swept);
    }
}

/// Shows a gate how many choices were tried in a search for executions.
#[derive(Drop)]
pub(crate) struct Tried<'a, G: Gate> {
    pub(crate) gate: &'a G,
}

impl<G: Gate> ChoiceOnlooker for Tried<'_, G> {
    fn see(&self, choices: u32) {
        self.gate.at_choices(choices);
    }
}

/// Finds outcomes of a program, as `find_outcomes` does, without these reductions; `gate` is shown how far it is.
pub fn find_shown<G: Gate, U: Until>(
    image: &Image,
    harts: u8,
    watch: &Watch,
    budget: u32,
    without: Without,
    gate: &G,
    until: &U,
    alloc: Global,
) -> Result<Outcomes, OutcomesRefused>
    ensures asked { IfOk result (IsAskedFor (U.Asks until.now)) }
    ensures found { IfOk result (IsListing image.now harts watch.now budget) }
    ensures searched { IfOk result (IsSearchedFor image.now harts without budget) }
    ensures once { IfOk result IsOnce }
    ensures present { OnOk result (AreThere harts watch.now × AreWords image.now watch.now) }
    ensures refused { IfErr result (IsRefusedFor image.now harts watch.now) }
{
    gate.begin_search();
    let found = find_outcomes(
        image,
        harts,
        watch,
        budget,
        without,
        &Shown { gate },
        until,
        alloc,
    );
    gate.end();
    found
}
