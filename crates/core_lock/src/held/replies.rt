ghost use Rattle.std.specs.Prelude.{◌≡◌, true};
ghost use Rattle.core_lock.specs.Asks.{is_reply};

use crate::ask::{Asked, Said};
use crate::held::Reply;
use std::sync::ledger::Ledger;

impl<L: Ledger> Reply<L> {
    /// The actor that asked.
    pub fn actor(&self) -> u8
        ensures { result ≡ self.now.actor }
    {
        self.actor
    }

    /// What was asked.
    pub fn asked(&self) -> Asked
        ensures { result ≡ self.now.asked }
    {
        self.asked
    }

    /// How many harts were going after the step.
    pub fn going(&self) -> u8
        ensures { result ≡ self.now.going }
    {
        self.going
    }

    /// Spends the reply for what was said.
    pub fn said(self) -> Said
        ensures said { result ≡ self.said }
        ensures own { is_reply self.actor self.asked result ≡ true }
    {
        let Reply {
            actor: _,
            asked: _,
            going: _,
            said,
            of: _,
        } = self;
        said
    }
}
