//! The settings of a line: those of its configuration, with the harts that the line gives.

ghost use Rattle.std.specs.Prelude.{◌≡◌};
ghost use Rattle.sim_inputs.specs.Configuration.{AreInRange, with_harts};

use sim_inputs::{HartCount, Settings};

/// Settings with so many harts in place of their own, where that is given.
pub(crate) fn settings_with(own: Settings, harts: &Option<HartCount>) -> Settings
    ensures value { result ≡ with_harts harts.now own }
    ensures in_range { AreInRange own → AreInRange result }
{
    own.with_harts(*harts)
}
