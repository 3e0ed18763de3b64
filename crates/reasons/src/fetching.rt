//! Why no hart can be fetched.

ghost use Rattle.std.specs.Prelude.{◌≡◌};
ghost use Rattle.reasons.specs.Reasons.{fetch_reasons, first_named};

use crate::looks::{fetchable, no_actor};
use crate::reason::Reason;
use smt_core::Core;

/// Why actor `actor` can't fetch.
pub(crate) fn no_fetch(core: &Core, actor: u8) -> Option<Reason>
    ensures { result ≡ first_named (fetch_reasons core.now.setup core.now.past actor) }
{
    if let Some(reason) = no_actor(core, actor) {
        return Some(reason);
    }
    if core.going() == 0 {
        return Some(Reason::NoHartGoes);
    }
    if fetchable(core) == 0 {
        return Some(Reason::DecodeLatchesFull);
    }
    None
}
