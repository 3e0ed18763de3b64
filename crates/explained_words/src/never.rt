//! What no core of a configuration follows, whatever has come before.

use reasons::Reason;
use scripts::Action;
use smt_model::{Config, Role};

/// Why no core of this configuration ever makes a step of an action; none where one may.
pub(crate) fn never_followed(action: Action, config: &Config) -> Option<Reason> {
    match action {
        Action::Fetch { actor } => no_actor(actor, config),
        Action::Decode { actor, hart }
        | Action::Rename { actor, hart }
        | Action::Retire { actor, hart } => no_hart(actor, hart, config),
        Action::Issue { actor } | Action::Complete { actor } | Action::Unit { actor } => {
            no_unit(actor, config)
        }
    }
}

fn no_actor(actor: u8, config: &Config) -> Option<Reason> {
    match config.roles.as_slice().get(usize::from(actor)) {
        Some(_) => None,
        None => Some(Reason::NoActor { actor }),
    }
}

fn no_hart(actor: u8, hart: u8, config: &Config) -> Option<Reason> {
    match no_actor(actor, config) {
        None if hart >= config.harts => Some(Reason::NoHart { hart }),
        reason => reason,
    }
}

fn no_unit(actor: u8, config: &Config) -> Option<Reason> {
    match no_actor(actor, config) {
        None if !is_unit(actor, config) => Some(Reason::NoUnit { actor }),
        reason => reason,
    }
}

/// Whether an actor is a unit.
pub(crate) fn is_unit(actor: u8, config: &Config) -> bool {
    matches!(
        config.roles.as_slice().get(usize::from(actor)),
        Some(Role::Alu | Role::Mul | Role::Mem)
    )
}
