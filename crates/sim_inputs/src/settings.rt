ghost use Rattle.std.specs.Prelude.{◌≡◌};
ghost use Rattle.sim_inputs.specs.Configuration.{AreInRange, with_harts};

use crate::hart_count::HartCount;
use crate::roles::every_role;
use arrayvec::ArrayVec;
use elf_image::RamSize;
use smt_model::{Config, Role};

/// What a simulation is made with, beside its image.
#[derive(Drop)]
pub struct Settings {
    /// The sizes of the core.
    pub config: Config,
    /// The size of the memory.
    pub ram: RamSize,
    /// The most events that the history may have; a core takes 0 to `MOST_EVENTS`.
    pub limit: u32,
    /// The most turns that each actor makes; a configuration has 0 to 10^18.
    pub turns: u64,
}

impl Settings {
    /// These settings, with so many harts in place of their own where that is given. A core that may be made of these
    /// may be made of those.
    pub fn with_harts(self, harts: Option<HartCount>) -> Settings
        ensures value { result ≡ with_harts harts self }
        ensures in_range { AreInRange self → AreInRange result }
    {
        let mut settings = self;
        if let Some(harts) = harts {
            settings.config.harts = harts.count();
        }
        settings
    }

    /// A copy of the settings.
    pub fn copied(&self) -> Settings
        ensures { result ≡ self.now }
    {
        Settings {
            config: self.config.copied(),
            ram: self.ram,
            limit: self.limit,
            turns: self.turns,
        }
    }
}

/// The settings where a configuration says nothing: one hart, one actor of each role, 64 extra
/// registers, a queue of 16 entries, 65,536 bytes of memory, room for a million events, and a
/// billion turns.
impl Default for Settings {
    ghost use Rattle.sim_inputs.specs.Configuration.{IsDefault};

    ghost is_default = { IsDefault };

    fn default() -> Settings {
        Settings {
            config: Config {
                harts: 1,
                extra: 64,
                queue: 16,
                roles: every_role(),
            },
            ram: RamSize::new(65536).unwrap(),
            limit: 1_000_000,
            turns: 1_000_000_000,
        }
    }
}
