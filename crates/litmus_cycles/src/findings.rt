//! What a search has found.

ghost use Rattle.std.specs.Prelude.{◌≡◌, ◌<◌, ◌+◌, ◌-◌, ◌^◌, min, ◌∷◌, [], OnOk, false, true, filter};
ghost use Rattle.litmus_cycles.specs.declared.explanation.Shown.TheVariants.{Nothing};
ghost use Rattle.litmus_cycles.specs.Explained.{shows_execution, unless_execution};
ghost use Rattle.litmus_cycles.specs.Searched.{IsFound, Stays, Keeps, Searches, meets_demand};

use crate::demand::Demand;
use crate::event::MemoryEvent;
use crate::explanation::Shown;
use crate::related::Cost;
use crate::showing::{Judged, judge};
use litmus_tests::LitmusTest;
use std::alloc::{AllocError, Global};

/// How many choices are tried of which something may come.
const MOST_TRIED: u32 = 1_000_000;

/// How many choices of ways are looked at, of some harts or of all.
const MOST_WAYS: u32 = 2_000_000;

/// How many candidates that fit are explained.
const MOST_FITTING: u64 = 10_000;

/// What a search for candidates that meet a demand has found so far.
#[derive(Drop)]
pub(crate) struct Findings {
    /// How many candidates the ways have that were chosen.
    pub candidates: u64,
    /// How many of them meet the demand.
    pub fitting: u64,
    /// Whether all are looked at, so far.
    pub is_whole: bool,
    /// Whether no more are looked for.
    pub is_over: bool,
    /// What is shown of one that meets it, and what that costs.
    pub shown: Shown,
    cost: Option<Cost>,
    /// How many more choices are tried.
    left: u32,
    /// How many more choices of ways are looked at.
    ways_left: u32,
}

impl Findings {
    pub fn new(is_whole: bool) -> Findings
        ensures shown { result.shown ≡ Nothing }
        ensures over { result.is_over ≡ false }
        ensures whole { result.is_whole ≡ is_whole }
        ensures fitting { result.fitting ≡ 0 }
        ensures counts { result.candidates ≡ 0 }
    {
        Findings {
            candidates: 0,
            fitting: 0,
            is_whole,
            is_over: false,
            shown: Shown::Nothing,
            cost: None,
            left: MOST_TRIED,
            ways_left: MOST_WAYS,
        }
    }

    /// How many choices were tried.
    pub fn tried(&self) -> u32 {
        let ways = MOST_WAYS.saturating_sub(self.ways_left);
        ways.saturating_add(MOST_TRIED.saturating_sub(self.left))
    }

    /// Counts ways that the registers rule out; where there are too many, the search is over, and not whole.
    pub fn rule_out(&mut self, test: &LitmusTest)
        requires { IsFound test.now self.old }
        ensures found { IsFound test.now self.new }
        ensures stays { Stays self.old self.new }
        ensures counts { self.new.candidates ≡ self.old.candidates }
    {
        self.ways_left = self.ways_left.saturating_sub(1);
        if self.ways_left == 0 {
            self.is_whole = false;
            self.is_over = true;
        }
    }

    /// Counts candidates of ways that are chosen, and these; where there are too many, the search is over, and not whole.
    pub fn count(&mut self, test: &LitmusTest, candidates: u64)
        requires { IsFound test.now self.old }
        ensures found { IsFound test.now self.new }
        ensures stays { Stays self.old self.new }
        ensures counts { self.new.candidates ≡ min (self.old.candidates + candidates) (2 ^ 64 - 1) }
    {
        self.candidates = self.candidates.saturating_add(candidates);
        self.rule_out(test);
    }

    /// Counts a choice; where there are too many, the search is over, and not whole.
    pub fn try_one(&mut self, test: &LitmusTest)
        requires { IsFound test.now self.old }
        ensures found { IsFound test.now self.new }
        ensures stays { Stays self.old self.new }
        ensures counts { self.new.candidates ≡ self.old.candidates }
    {
        self.left = self.left.saturating_sub(1);
        if self.left == 0 {
            self.is_whole = false;
            self.is_over = true;
        }
    }

    /// Leaves something out.
    pub fn leave_out(&mut self, test: &LitmusTest)
        requires { IsFound test.now self.old }
        ensures found { IsFound test.now self.new }
        ensures stays { Stays self.old self.new }
        ensures whole { self.new.is_whole ≡ false }
    {
        self.is_whole = false;
    }

    /// Takes a candidate of which all is decided: of those that fit the first without a cycle is kept, else the first
    /// with the least cycle; of another demand the first.
    pub fn take(
        &mut self,
        test: &LitmusTest,
        demand: Demand,
        events: &[MemoryEvent],
        alloc: Global,
    ) -> Result<(), AllocError>
        requires { IsFound test.now self.old }
        ensures found { IsFound test.now self.new }
        ensures searches { OnOk result (Searches demand (filter (meets_demand demand test.now) (events.now ∷ []))
            self.old self.new) }
        ensures counts { OnOk result (self.new.candidates ≡ self.old.candidates) }
    {
        let Some(judged) = judge(test, demand, events, self.cost, alloc)? else {
            return Ok(());
        };
        self.keep(judged);
        Ok(())
    }

    /// One more is counted. What is shown from here on is what was, or what this one shows.
    fn keep(&mut self, judged: Judged)
        ensures keeps { Keeps judged self.old self.new }
        ensures counts { self.new.candidates ≡ self.old.candidates }
    {
        match judged {
            Judged::Less(shown, cost) => {
                self.show(shown);
                self.cost = Some(cost);
            }
            Judged::More => {}
            Judged::Allowed(shown) => self.show(shown),
            Judged::Last(shown) => {
                self.show(shown);
                self.is_over = true;
            }
            Judged::Untold => self.is_whole = false,
        }
        self.count_one();
    }

    /// Shows this, unless an execution is shown that can come.
    fn show(&mut self, shown: Shown)
        ensures shown { self.new.shown ≡ unless_execution self.old.shown shown }
        ensures whole { self.new.is_whole ≡ self.old.is_whole }
        ensures over { self.new.is_over ≡ self.old.is_over }
        ensures fitting { self.new.fitting ≡ self.old.fitting }
        ensures counts { self.new.candidates ≡ self.old.candidates }
    {
        if !shows_execution(&self.shown) {
            self.shown = shown;
        }
    }

    fn count_one(&mut self)
        ensures shown { self.new.shown ≡ self.old.shown }
        ensures whole { self.new.is_whole ≡ true → self.old.is_whole ≡ true }
        ensures over { self.new.is_whole ≡ true → self.new.is_over ≡ self.old.is_over }
        ensures fitting { self.new.is_whole ≡ true → self.new.fitting ≡ self.old.fitting + 1 }
        ensures some { 0 < self.new.fitting }
        ensures counts { self.new.candidates ≡ self.old.candidates }
    {
        self.fitting = self.fitting.saturating_add(1);
        if self.fitting >= MOST_FITTING {
            self.is_over = true;
            self.is_whole = false;
        }
    }
}

fn shows_execution(shown: &Shown) -> bool
    ensures { result ≡ shows_execution shown.now }
{
    matches!(shown, Shown::Execution { .. })
}
