//! What a chart tells beside its rows: how full the core is, and the registers of the instructions.

ghost use Rattle.std.specs.Prelude.{◌≡◌, IfOk, IfErr};
ghost use Rattle.core_state.specs.Setup.{setup_of};
ghost use Rattle.elf_image.specs.Image.{ProgramImage};
ghost use Rattle.command_parts.specs.declared.refused.Refused.TheVariants.{Memory};
ghost use Rattle.core_commands.specs.Check.{AreHistory, setup_by};
ghost use Rattle.core_commands.specs.Chart.{AreCountersIf, AreRegistersIf, are_counted};
ghost use Rattle.core_commands.specs.Drawing.{setup_in};

use crate::chart_columned::Columned;
use crate::check::config_by;
use chart_counters::{Counters, counters_of};
use chart_registers::{Registers, registers_of};
use chart_rows::View;
use command_parts::Refused;
use elf_image::Image;
use event_text::Trace;
use sim_inputs::{ChartCommand, Settings};
use smt_model::Config;
use std::alloc::{AllocError, Global};

/// A trace, and what tells of which core it is.
#[derive(Clone, Copy, Drop)]
pub(crate) struct Traced<'a> {
    pub image: &'a Image,
    pub settings: &'a Settings,
    pub trace: &'a Trace,
}

/// What is told beside the rows.
#[derive(Drop)]
pub(crate) struct Told {
    /// How many harts the core has.
    pub harts: u8,
    /// The numbers behind each event of the columns that are drawn; nothing where they aren't wanted.
    pub counters: Vec<Counters>,
    /// The registers of each instruction of the history; nothing where they aren't wanted.
    pub registers: Vec<Option<Registers>>,
}

/// What is told of the history of a trace.
pub(crate) fn tell_beside(
    traced: &Traced<'_>,
    columned: &Columned,
    chart: &ChartCommand<'_>,
    alloc: Global,
) -> Result<Told, Refused>
    requires history { AreHistory (setup_in traced.now) traced.now.trace.now.events }
    ensures harts { IfOk result (λ told. told.harts ≡ (setup_in traced.now).harts) }
    ensures counters { IfOk result (λ told. AreCountersIf (are_counted chart.now columned.now.view) (setup_in traced.now)
        traced.now.trace.now.events columned.now.columns columned.now.view told.counters.items) }
    ensures registers { IfOk result
        (λ told. AreRegistersIf chart.now.registers traced.now.trace.now.events told.registers.items) }
    ensures refused { IfErr result (λ refused. refused ≡ Memory) }
{
    let counters = counters_where(chart, traced, columned, alloc)?;
    let registers = registers_where(chart, traced, alloc)?;
    Ok(Told {
        harts: traced.config().harts,
        counters,
        registers,
    })
}

impl Traced<'_> {
    /// The sizes of the core.
    fn config(&self) -> Config
        ensures { (image : ProgramImage)
            → setup_of image result ≡ setup_by self.now.settings.now image self.now.trace.now.head }
    {
        config_by(self.settings, self.trace.head())
    }
}

/// The numbers behind each event of the columns that are drawn, where they are wanted.
fn counters_where(
    chart: &ChartCommand<'_>,
    traced: &Traced<'_>,
    columned: &Columned,
    alloc: Global,
) -> Result<Vec<Counters>, Refused>
    requires history { AreHistory (setup_in traced.now) traced.now.trace.now.events }
    ensures counters { IfOk result (λ counters. AreCountersIf (are_counted chart.now columned.now.view)
        (setup_in traced.now) traced.now.trace.now.events columned.now.columns columned.now.view counters.items) }
    ensures refused { IfErr result (λ refused. refused ≡ Memory) }
{
    let (from, to) = (columned.view.from, columned.view.to);
    if !are_counted(chart, &columned.view) {
        return Ok(Vec::new(alloc));
    }
    let (from, to) = (columned.columns.head(from), columned.columns.last(to));
    let events = traced.trace.events();
    match counters_of(traced.image, traced.config(), events, from, to, alloc) {
        Ok(counters) => Ok(counters),
        Err(AllocError) => Err(Refused::Memory),
    }
}

/// Whether numbers are wanted, and there is a column for one.
fn are_counted(chart: &ChartCommand<'_>, view: &View) -> bool
    ensures { result ≡ are_counted chart.now view.now }
{
    chart.counters && view.from <= view.to
}

/// The registers of each instruction of the history, where they are wanted.
fn registers_where(
    chart: &ChartCommand<'_>,
    traced: &Traced<'_>,
    alloc: Global,
) -> Result<Vec<Option<Registers>>, Refused>
    requires history { AreHistory (setup_in traced.now) traced.now.trace.now.events }
    ensures registers { IfOk result
        (λ registers. AreRegistersIf chart.now.registers traced.now.trace.now.events registers.items) }
    ensures refused { IfErr result (λ refused. refused ≡ Memory) }
{
    if !chart.registers {
        return Ok(Vec::new(alloc));
    }
    match registers_of(traced.image, traced.config(), traced.trace.events(), alloc) {
        Ok(registers) => Ok(registers),
        Err(AllocError) => Err(Refused::Memory),
    }
}
