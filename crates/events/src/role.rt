ghost use Rattle.std.specs.Prelude.{◌≡◌, ◌≤◌, Some, IfSome, length};
ghost use Rattle.numbers.specs.Sizes.{most_actors};
ghost use Rattle.events.specs.declared.role.Role.{Role as AnyRole};
ghost use Rattle.events.specs.Roles.{role_name, role_of_name, unit_of_role};

use arrayvec::ArrayVec;
use numbers::sizes::MOST_ACTORS;
use rv_instr::UnitKind;

/// What an actor does in its turns. Only `Alu`, `Mul` and `Mem` issue instructions, each for its
/// own kind of unit; every other step may be made by any actor.
#[derive(Clone, Copy, Debug, PartialEq, Eq, Default, Drop)]
pub enum Role {
    #[default]
    Fetch,
    Front,
    Retire,
    Alu,
    Mul,
    Mem,
}

impl Role {
    /// Its name, as a configuration and a trace spell it.
    pub fn name(self) -> &'static str
        ensures { result.now ≡ role_name self }
    {
        match self {
            Role::Fetch => "fetch",
            Role::Front => "front",
            Role::Retire => "retire",
            Role::Alu => "alu",
            Role::Mul => "mul",
            Role::Mem => "mem",
        }
    }

    /// The kind of unit that an actor of this role is, where it is one.
    pub fn unit(self) -> Option<UnitKind>
        ensures { result ≡ unit_of_role self }
    {
        match self {
            Role::Fetch | Role::Front | Role::Retire => None,
            Role::Alu => Some(UnitKind::Alu),
            Role::Mul => Some(UnitKind::Mul),
            Role::Mem => Some(UnitKind::Mem),
        }
    }

    /// The role of this name, if there is one.
    pub fn named(name: &[u8]) -> Option<Role>
        ensures named { result ≡ role_of_name name.now }
        ensures found { IfSome result (λ role. name.now ≡ role_name role) }
        ensures only { (role : AnyRole) → name.now ≡ role_name role → result ≡ Some role }
    {
        Some(if name == b"fetch".as_slice() {
            Role::Fetch
        } else if name == b"front".as_slice() {
            Role::Front
        } else if name == b"retire".as_slice() {
            Role::Retire
        } else if name == b"alu".as_slice() {
            Role::Alu
        } else if name == b"mul".as_slice() {
            Role::Mul
        } else if name == b"mem".as_slice() {
            Role::Mem
        } else {
            return None;
        })
    }
}

/// A copy of the roles of a core's actors.
pub fn copied_roles(roles: &[Role]) -> ArrayVec<Role, MOST_ACTORS>
    requires { length roles.now ≤ most_actors }
    ensures { result.items ≡ roles.now }
{
    let mut copy = ArrayVec::new();
    for role in roles {
        copy.push(*role);
    }
    copy
}
