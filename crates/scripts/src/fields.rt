ghost use Rattle.std.specs.Prelude.{◌≡◌, ℕ, ◌≤◌, ◌<◌, ◌==◌, ◌&&◌, ◌||◌, nat_lt, ◌∷◌, ◌++◌, length};
ghost use Rattle.std.specs.Prelude.{slice_index, Some, IfSome};
ghost use Rattle.std.specs.Fmt.{decimal};
ghost use Rattle.numbers.specs.Sizes.{most_actors, most_harts};
ghost use Rattle.scripts.specs.Order.{SpellsHart};

use crate::splitting::split_at_byte;
use numbers::sizes::{MOST_ACTORS, MOST_HARTS};
use text_fields::laws::decimal_law;
use text_fields::read_decimal;

const LAST_ACTOR: u32 = MOST_ACTORS as u32 - 1;

const LAST_HART: u32 = MOST_HARTS as u32 - 1;

/// An actor, below `MOST_ACTORS`.
pub fn read_actor(text: &[u8]) -> Option<u8>
    ensures found { IfSome result (λ actor. (actor < most_actors) × (text.now ≡ decimal actor)) }
    ensures only { (actor : ℕ) → actor < most_actors → text.now ≡ decimal actor
        → result ≡ Some actor }
{
    read_number(text, LAST_ACTOR).map(|number| number as u8)
}

/// A hart of an order, 0 to 255. Whether there is such a hart is for the machine to say.
pub fn read_hart(text: &[u8]) -> Option<u8>
    ensures found { IfSome result (SpellsHart text.now) }
    ensures only { (hart : ℕ) → SpellsHart text.now hart → result ≡ Some hart }
{
    if let [digit @ b'0'..=b'9'] = text {
        return Some(*digit - b'0');
    }
    read_number(text, 255).map(|number| number as u8)
}

/// An actor, a point, and a hart, below `MOST_HARTS`.
pub fn read_actor_and_hart(text: &[u8]) -> Option<(u8, u8)>
    ensures found { IfSome result
        (λ p. (p.0 < most_actors) × (p.1 < most_harts)
        × (text.now ≡ decimal p.0 ++ 46 ∷ decimal p.1)) }
    ensures only { (actor hart : ℕ) → actor < most_actors → hart < most_harts
        → text.now ≡ decimal actor ++ 46 ∷ decimal hart →
        result ≡ Some (actor, hart) }
{
    let (actor, hart) = split_at_byte(text, b'.')?;
    Some((read_actor(actor)?, read_number(hart, LAST_HART)? as u8))
}

/// A decimal number of at most `max`, without leading zeros.
pub fn read_number(text: &[u8], max: u32) -> Option<u32>
    ensures found { IfSome result (λ n. (n ≤ max) × (text.now ≡ decimal n)) }
    ensures only { (n : ℕ) → n ≤ max → text.now ≡ decimal n → result ≡ Some n }
{
    decimal_law();
    match read_decimal(text, max) {
        Ok(number) => Some(number),
        Err(_) => None,
    }
}
