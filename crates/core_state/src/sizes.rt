ghost use Rattle.std.specs.Prelude.{◌≡◌, ◌≤◌, IsTrue, ◌↔◌};
ghost use Rattle.numbers.specs.Sizes.{most_harts, most_extra, most_queued, most_events};
ghost use Rattle.core_state.specs.Setup.{accepts};

use events::{History, Role};
use numbers::sizes::are_core_sizes;
use smt_model::Config;

/// Whether a core may have these sizes and this limit on its history, by `numbers::sizes`. It has
/// at least one hart, one extra register and one actor.
pub fn is_core(config: &Config, limit: u32) -> bool
    ensures accepted { result ≡ accepts config.now limit }
    ensures harts { IsTrue result → config.now.harts ≤ most_harts }
    ensures extra { IsTrue result → config.now.extra ≤ most_extra }
    ensures queue { IsTrue result → config.now.queue ≤ most_queued }
    ensures limit { IsTrue result → limit ≤ most_events }
{
    are_core_sizes(config.harts, config.extra, config.queue, config.roles.len())
        && limit <= History::MAX_LIMIT
}

/// Whether two configurations are the same.
pub fn is_same_config(config: &Config, other: &Config) -> bool
    ensures { IsTrue result ↔ (config.now.harts ≡ other.now.harts)
        × (config.now.extra ≡ other.now.extra) × (config.now.queue ≡ other.now.queue)
        × (config.now.roles.items ≡ other.now.roles.items) }
{
    config.harts == other.harts
        && config.extra == other.extra
        && config.queue == other.queue
        && have_same_roles(config.roles.as_slice(), other.roles.as_slice())
}

fn have_same_roles(roles: &[Role], others: &[Role]) -> bool
    ensures { IsTrue result ↔ (roles.now ≡ others.now) }
{
    roles == others
}
