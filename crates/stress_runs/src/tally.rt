ghost use Rattle.std.specs.Prelude.{◌≡◌, [], map, max, IfOk, OnOk};
ghost use Rattle.std.specs.List.{list_any};
ghost use Rattle.report_lines.specs.Lines.{status_number};
ghost use Rattle.outcomes.specs.Refusals.{AreWords};
ghost use Rattle.watched_outcomes.specs.Watching.{AreThere};
ghost use Rattle.stress_runs.specs.Ends.{end_of, has_end, counting, tally_of, Counts, next_number, same_end};

use crate::end::end_of;
use report_lines::status_of;
use smt_core::Core;
use std::alloc::{AllocError, Global};
use std::marker::Model;
use watched_outcomes::{Outcome, Watch};

/// An end, and how many runs have ended so.
#[derive(Drop)]
pub struct Row {
    pub end: Outcome,
    pub count: u32,
}

/// The ends of some runs, each once, in the order in which they came first, and the worst exit
/// status of the runs.
#[derive(Drop)]
pub struct Tally {
    rows: Vec<Row>,
    status: u8,
}

impl Model for Tally {
    ghost use Rattle.stress_runs.specs.Ends.{TallyView};

    ghost Value = { TallyView };

    ghost view = { λ tally. record { rows = tally.rows.items; status = tally.status } };
}

impl Tally {
    /// The tally of no run.
    pub fn new(alloc: Global) -> Tally
        ensures { result ≡ tally_of [] }
    {
        Tally {
            rows: Vec::new(alloc),
            status: 0,
        }
    }

    /// Its rows.
    pub fn rows(&self) -> &[Row]
        ensures { result.now ≡ self.now.rows }
    {
        self.rows.as_slice()
    }

    /// The worst exit status of the runs, and 0 of none.
    pub fn status(&self) -> u8
        ensures { result ≡ self.now.status }
    {
        self.status
    }

    /// Counts one more run, which has left this core, and of which this is watched. Answers the number of its
    /// end, from 1, where no run before has ended so. Fails for want of memory.
    pub fn count(
        &mut self,
        core: &Core,
        watch: &Watch,
        alloc: Global,
    ) -> Result<Option<u64>, AllocError>
        requires registers { AreThere core.now.setup.harts watch.now }
        requires words { AreWords core.now.setup.image watch.now }
        ensures counted { OnOk result (Counts (end_of watch.now core.now) self.old self.new) }
        ensures first { IfOk result
            (λ number. number ≡ next_number (end_of watch.now core.now) self.old.rows) }
    {
        let end = end_of(core, watch, alloc)?;
        self.status = worse(self.status, status_in(&end));
        if count_in(self.rows.as_mut_slice(), &end) {
            return Ok(None);
        }
        self.rows.push(Row { end, count: 1 })?;
        Ok(Some(self.rows.len() as u64))
    }
}

/// The exit status of a run that has ended so.
fn status_in(end: &Outcome) -> u8
    ensures { result ≡ status_number end.now.statuses }
{
    status_of(end.statuses.as_slice())
}

/// Counts a run that has ended so in the row of its end. Answers whether there is one.
fn count_in(rows: &mut [Row], end: &Outcome) -> bool
    ensures counted { rows.new ≡ map (counting end.now) rows.old }
    ensures there { result ≡ list_any (has_end end.now) rows.old }
{
    let mut there = false;
    for row in rows.iter_mut() {
        if is_one_end(&row.end, end) {
            row.count = row.count.wrapping_add(1);
            there = true;
        }
    }
    there
}

fn is_one_end(one: &Outcome, other: &Outcome) -> bool
    ensures { result ≡ same_end one.now other.now }
{
    one.is_same(other)
}

/// The worse of two exit statuses: a hart that is still going is worse than one that has ended
/// badly.
fn worse(one: u8, other: u8) -> u8
    ensures { result ≡ max one other }
{
    if one < other { other } else { one }
}
