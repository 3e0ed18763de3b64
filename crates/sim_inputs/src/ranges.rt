ghost use Rattle.std.specs.Prelude.{◌≡◌, ℕ, ◌≤◌, pos, IfSome, IfNone, option_map};
ghost use Rattle.toml.specs.Data.{integer, get_member};
ghost use Rattle.toml.specs.View.{view, table_view};
ghost use Rattle.sim_inputs.specs.Configuration.{IsNumber};

use toml::{Table, Value};

/// The number at a key of a document, or the default where the key is absent; none where something
/// else stands there, or a number that isn't `least` to `greatest`.
pub fn number_setting(
    table: &Table,
    key: &str,
    default: u64,
    least: u64,
    greatest: u64,
) -> Option<u64>
    ensures found { IfSome result (IsNumber default (get_member key.now (table_view table.now))) }
    ensures in_range { IfSome result (λ number. (least ≤ number) × (number ≤ greatest)) }
    ensures none { IfNone result
        ((number : ℕ) → IsNumber default (get_member key.now (table_view table.now)) number
        → least ≤ number → number ≤ greatest → ⊥) }
{
    let number = match value_at(table, key) {
        Some(value) => whole_number(value)?,
        None => default,
    };
    if least <= number && number <= greatest {
        Some(number)
    } else {
        None
    }
}

/// The value at a key of a document.
pub fn value_at<'a>(table: &'a Table, key: &str) -> Option<&'a Value>
    ensures { option_map (λ value. view value.now) result
        ≡ get_member key.now (table_view table.now) }
{
    table.get(key)
}

/// The whole number that a value is, if it is one.
fn whole_number(value: &Value) -> Option<u64>
    ensures found { IfSome result (λ number. view value.now ≡ integer (pos number)) }
    ensures none { IfNone result ((number : ℕ) → view value.now ≡ integer (pos number) → ⊥) }
{
    match value.as_integer() {
        Some(number) if number >= 0 => Some(number as u64),
        _ => None,
    }
}
