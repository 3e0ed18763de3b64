ghost use Rattle.std.specs.Prelude.{◌≡◌, ◌↔◌, IsTrue};
ghost use Rattle.std.specs.List.{list_all};
ghost use Rattle.actors.specs.Roles.{HaveEveryRole, has_role};

use smt_core::{Config, Role};

/// Whether there is an actor of each role.
pub(crate) fn has_every_role(config: &Config) -> bool
    ensures { IsTrue result ↔ HaveEveryRole config.now.roles.items }
{
    contain_all(
        config.roles.as_slice(),
        &[
            Role::Fetch,
            Role::Front,
            Role::Retire,
            Role::Alu,
            Role::Mul,
            Role::Mem,
        ],
    )
}

/// Whether each of the wanted roles is there.
fn contain_all(roles: &[Role], wanted: &[Role]) -> bool
    ensures { result ≡ list_all (has_role roles.now) wanted.now }
{
    wanted.iter().all(|role| contain(roles, *role))
}

/// Whether this role is there.
fn contain(roles: &[Role], role: Role) -> bool
    ensures { result ≡ has_role roles.now role }
{
    roles.contains(&role)
}
