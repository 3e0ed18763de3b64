//! Two harts that each count up to a limit. Where the second waits, it stays at 1 once the first has
//! begun: it goes on making steps then, and never comes to an end.
ghost use Rattle.std.specs.Prelude.{◌≡◌, ◌<◌, IfErr};
ghost use Rattle.searches.specs.Unmade.{MayBeUnmade};
ghost use Rattle.part_tests.specs.Counters.{first_after, second_after};

use searches::{Machine, Step, Unmade};

/// The machine of two such harts. Its state is the two counts.
#[derive(Drop)]
pub struct Counters {
    pub limit: u8,
    pub waits: bool,
    /// The highest count that it knows of: a step to a higher one is refused.
    pub highest: u8,
    /// How many steps it was asked for. This is all that it learns.
    pub asked: u32,
}

fn first_after(limit: u8, own: u8) -> Option<u8>
    ensures { result ≡ first_after limit own }
{
    if own < limit { Some(own + 1) } else { None }
}

fn second_after(limit: u8, waits: bool, first: u8, own: u8) -> Option<u8>
    ensures { result ≡ second_after limit waits first own }
{
    if waits && own == 1 && 0 < first {
        Some(own)
    } else {
        first_after(limit, own)
    }
}

impl Counters {
    /// Refuses a step to a count that the machine doesn't know of.
    fn admit(&self, count: u8) -> Result<(), Unmade<u8>>
        ensures { IfErr result (MayBeUnmade (λ lacked. self.now.highest < lacked)) }
    {
        if self.highest < count {
            return Err(Unmade::Lacks(count));
        }
        Ok(())
    }
}

impl Machine for Counters {
    ghost use Rattle.std.specs.Prelude.{◌≡◌, ◌<◌, refl};
    ghost use Rattle.std.proofs.Common.{◌∙◌, ap};
    ghost use Rattle.part_tests.specs.Counters.{step_of, same_counts};

    type State = (u8, u8);

    type Way = u8;

    /// A count.
    type Lack = u8;

    ghost harts = { λ _. 2 };

    ghost Knows = { λ _ _. Unit {0} };

    ghost Steps = { λ m s h next. next ≡ step_of m.limit m.waits s h };

    ghost Grows = { λ m n. (m.limit ≡ n.limit) × (m.waits ≡ n.waits) };

    ghost MayLack = { λ m count. m.highest < count };

    fn harts(&self) -> u8 {
        2
    }

    fn step(
        &mut self,
        state: (u8, u8),
        hart: u8,
    ) -> Result<Option<Step<(u8, u8), u8>>, Unmade<u8>> {
        self.asked = self.asked.wrapping_add(1);
        let (first, second) = state;
        if hart == 0 {
            match first_after(self.limit, first) {
                Some(count) => {
                    self.admit(count)?;
                    Ok(Some(Step {
                        state: (count, second),
                        way: count,
                    }))
                }
                None => Ok(None),
            }
        } else {
            match second_after(self.limit, self.waits, first, second) {
                Some(count) => {
                    self.admit(count)?;
                    Ok(Some(Step {
                        state: (first, count),
                        way: count,
                    }))
                }
                None => Ok(None),
            }
        }
    }

    ghost learns_nothing = { λ _. (refl, refl) };

    ghost learns_more = { λ _ _ _ a b. (a.0 ∙ b.0, a.1 ∙ b.1) };

    ghost same_harts = { λ _ _ _. refl };

    ghost still_known = { λ _ _ _ _ _. tt };

    ghost still_true = { λ m n s h next same _ _ is.
        is ∙ ap (λ limit. step_of limit m.waits s h) same.0
        ∙ ap (λ waits. step_of n.limit waits s h) same.1 };

    ghost same = { same_counts };
}
