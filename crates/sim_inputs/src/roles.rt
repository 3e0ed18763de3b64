ghost use Rattle.std.specs.Prelude.{◌≡◌, ◌≤◌, ◌∷◌, [], List, length, map, Some, IfSome, IfNone};
ghost use Rattle.numbers.specs.Sizes.{most_actors};
ghost use Rattle.toml.specs.Data.{string};
ghost use Rattle.toml.specs.View.{view, items_of, array_view};
ghost use Rattle.events.specs.declared.role.Role.{Role as AnyRole};
ghost use Rattle.events.specs.declared.role.Role.TheVariants.{Fetch, Front, Retire, Alu, Mul};
ghost use Rattle.events.specs.declared.role.Role.TheVariants.{Mem};
ghost use Rattle.events.specs.Roles.{role_name};

use arrayvec::ArrayVec;
use events::Role;
use numbers::sizes::MOST_ACTORS;
use toml::Value;
use toml::value::Array;

/// One actor of each role.
pub fn every_role() -> ArrayVec<Role, MOST_ACTORS>
    ensures { result.items ≡ Fetch ∷ Front ∷ Retire ∷ Alu ∷ Mul ∷ Mem ∷ [] }
{
    let mut roles = ArrayVec::new();
    roles.push(Role::Fetch);
    roles.push(Role::Front);
    roles.push(Role::Retire);
    roles.push(Role::Alu);
    roles.push(Role::Mul);
    roles.push(Role::Mem);
    roles
}

/// The roles that the texts of a list name, 1 to `MOST_ACTORS` of them.
pub fn roles_of(names: &Array) -> Option<ArrayVec<Role, MOST_ACTORS>>
    ensures found { IfSome result
        (λ roles. array_view names.now ≡ items_of (map (λ r. string (role_name r)) roles.items)) }
    ensures count { IfSome result
        (λ roles. (1 ≤ length roles.items) × (length roles.items ≤ most_actors)) }
    ensures none { IfNone result ((roles : List AnyRole)
        → array_view names.now ≡ items_of (map (λ r. string (role_name r)) roles) → 1 ≤ length roles
        → length roles ≤ most_actors → ⊥) }
{
    if !(1..=MOST_ACTORS).contains(&names.len()) {
        return None;
    }
    let mut roles = ArrayVec::new();
    for name in names {
        let Some(role) = role_of(name) else {
            return None;
        };
        roles.push(role);
    }
    Some(roles)
}

/// The role that a value names, if it names one.
fn role_of(value: &Value) -> Option<Role>
    ensures found { IfSome result (λ role. view value.now ≡ string (role_name role)) }
    ensures none { IfNone result ((role : AnyRole) → view value.now ≡ string (role_name role) → ⊥) }
{
    match value.as_str() {
        Some(name) => Role::named(name.as_bytes()),
        None => None,
    }
}
