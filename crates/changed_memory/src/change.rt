ghost use Rattle.changed_memory.specs.Same.{writes_of_change};
ghost use Rattle.changed_memory.specs.SameLaws.{same_change_writes};

use std::hash::{Hash, Hasher};

/// A byte of memory that isn't as the image has it.
#[derive(Clone, Copy, PartialEq, Eq, Drop)]
pub struct Change {
    pub addr: u32,
    pub byte: u8,
}

// By hand, so that it is one write.
impl Hash for Change {
    ghost hash_input = { writes_of_change };

    ghost respects_eq = { same_change_writes };

    fn hash<H: Hasher>(&self, state: &mut H) {
        state.write_u64(0x100 * u64::from(self.addr) + u64::from(self.byte));
    }
}
