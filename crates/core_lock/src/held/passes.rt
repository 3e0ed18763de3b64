ghost use Rattle.std.specs.Prelude.{◌≡◌};

use crate::held::Pass;
use events::Event;
use std::sync::ledger::Ledger;

impl<L: Ledger> Pass<L> {
    /// The actor that asks through it.
    pub fn actor(&self) -> u8
        ensures { result ≡ self.now.actor }
    {
        self.actor
    }

    /// How many events it has made.
    pub fn count(&self) -> u64
        ensures { result ≡ self.now.count }
    {
        self.count
    }

    /// The last event that it has made.
    pub fn last(&self) -> Option<Event>
        ensures { result ≡ self.now.last }
    {
        self.last
    }
}
