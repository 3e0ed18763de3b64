ghost use Rattle.std.specs.Prelude.{◌≡◌};
ghost use Rattle.load_store.specs.Queues.{looking, touched_look, touched_load, was_touched};

use events::{Seq, Written};
use shared_memory::touches;

/// A load in flight: its number, and its first look once it has had one.
#[derive(Clone, Copy, PartialEq, Eq, Default, Drop)]
pub struct Load {
    pub seq: Seq,
    pub look: Option<FirstLook>,
}

/// Where a load has looked: the `n` bytes from an address, and whether a write has touched one of
/// them since.
#[derive(Clone, Copy, PartialEq, Eq, Default, Drop)]
pub struct FirstLook {
    pub addr: u32,
    pub n: u8,
    pub touched: bool,
}

impl Load {
    /// Whether it has looked, and a write has touched one of its bytes since.
    pub(crate) fn was_touched(&self) -> bool
        ensures { result ≡ was_touched self.now.look }
    {
        match self.look {
            Some(look) => look.touched,
            None => false,
        }
    }
}

/// The load once that of number `seq` has looked.
pub(crate) fn after_look(load: Load, seq: Seq, look: FirstLook) -> Load
    ensures { result ≡ looking seq look load }
{
    if load.seq != seq {
        return load;
    }
    Load {
        seq,
        look: Some(look),
    }
}

/// The load once this has been written.
pub(crate) fn after_write(load: Load, write: Written) -> Load
    ensures { result ≡ touched_load write load }
{
    let Some(look) = load.look else {
        return load;
    };
    Load {
        seq: load.seq,
        look: Some(touched_by(look, write)),
    }
}

/// The first look once this has been written.
fn touched_by(look: FirstLook, write: Written) -> FirstLook
    ensures { result ≡ touched_look write look }
{
    FirstLook {
        touched: look.touched || touches(write.addr, write.n, look.addr, look.n),
        ..look
    }
}
