ghost use Rattle.std.specs.Prelude.{◌≡◌, Some, None, replicate, slice_index_or, slice_set};
ghost use Rattle.numbers.specs.Sizes.{most_actors};

use numbers::sizes::MOST_ACTORS;
use smt_core::Done;
use std::mem;

/// What each actor holds: a job that it has worked and not handed back.
pub struct Hands {
    held: [Option<Done>; MOST_ACTORS],
}

// `Hands::abandon_all` names what each of so many actors holds: no loop by value goes over what
// can't be let go.
const _: () = prove!(MOST_ACTORS == 32);

impl Hands {
    /// No actor holds anything.
    pub fn empty() -> Hands
        ensures { result.held ≡ replicate most_actors None }
    {
        Hands {
            held: Default::default(),
        }
    }

    /// Gives actor `actor` a job that it has worked. What it held before, or what no actor can
    /// hold, is given up.
    pub fn put(&mut self, actor: u8, done: Done)
        ensures { self.new.held ≡ slice_set self.old.held actor (Some done) }
    {
        if usize::from(actor) < MOST_ACTORS {
            abandon(mem::replace(&mut self.held[usize::from(actor)], Some(done)));
        } else {
            done.abandon();
        }
    }

    /// Takes what actor `actor` holds.
    pub fn take(&mut self, actor: u8) -> Option<Done>
        ensures taken { result ≡ slice_index_or self.old.held actor None }
        ensures left { self.new.held ≡ slice_set self.old.held actor None }
    {
        if usize::from(actor) < MOST_ACTORS {
            mem::replace(&mut self.held[usize::from(actor)], None)
        } else {
            None
        }
    }

    /// Gives up all that is held.
    pub fn abandon_all(self) {
        let Hands { held } = self;
        let [
            d0,
            d1,
            d2,
            d3,
            d4,
            d5,
            d6,
            d7,
            d8,
            d9,
            d10,
            d11,
            d12,
            d13,
            d14,
            d15,
            d16,
            d17,
            d18,
            d19,
            d20,
            d21,
            d22,
            d23,
            d24,
            d25,
            d26,
            d27,
            d28,
            d29,
            d30,
            d31,
        ] = held;
        abandon_eight([d0, d1, d2, d3, d4, d5, d6, d7]);
        abandon_eight([d8, d9, d10, d11, d12, d13, d14, d15]);
        abandon_eight([d16, d17, d18, d19, d20, d21, d22, d23]);
        abandon_eight([d24, d25, d26, d27, d28, d29, d30, d31]);
    }
}

fn abandon_eight(held: [Option<Done>; 8]) {
    let [a, b, c, d, e, f, g, h] = held;
    abandon(a);
    abandon(b);
    abandon(c);
    abandon(d);
    abandon(e);
    abandon(f);
    abandon(g);
    abandon(h);
}

fn abandon(done: Option<Done>) {
    if let Some(done) = done {
        done.abandon();
    }
}
