use smt_core::Core;

/// What looks at a core under its lock, once.
pub trait CoreReader {
    ghost use Rattle.std.specs.Prelude.{Bool};
    ghost use Rattle.core_state.specs.View.{CoreView};

    /// What a look leaves: the reader before, the core, whether the pass was told all of its actor,
    /// and the reader after.
    ghost reads: { Self → CoreView → Bool → Self → Type 0 };

    /// Looks at the core. `told` says whether the history holds of the pass's actor just what the
    /// pass has counted.
    fn read(&mut self, core: &Core, told: bool)
        ensures { reads self.old core.now told self.new };
}
