use std::marker::Brand;
use std::sync::ledger::Ledger;

/// Which core stands behind a lock: what it was made of, and how many events its history may have.
/// Nothing is known of what other threads have asked of it, but that it is this core.
pub trait Origin: Ledger {
    ghost use Rattle.std.specs.Prelude.{ℕ};
    ghost use Rattle.smt_model.specs.Setup.{Setup};

    ghost setup: { Setup };

    ghost limit: { ℕ };
}

impl Origin for Brand {
    ghost use Rattle.core_lock.specs.Origin.{no_setup};

    ghost setup = { no_setup };

    ghost limit = { 0 };
}
