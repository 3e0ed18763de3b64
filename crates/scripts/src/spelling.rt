ghost use Rattle.std.specs.Prelude.{◌≡◌, ◌≢◌, ◌<◌, ◌∷◌, ◌++◌, Some, IfSome, IfNone};
ghost use Rattle.std.specs.Fmt.{decimal};
ghost use Rattle.numbers.specs.Sizes.{most_actors, most_harts};
ghost use Rattle.scripts.specs.declared.actions.Action.{Action as AnyAction};
ghost use Rattle.scripts.specs.declared.actions.ScriptWord.{ScriptWord as AnyWord};
ghost use Rattle.scripts.specs.Script.{IsInRange, SpellsAction, SpellsWord, action_text};

use crate::actions::{Action, ScriptWord};
use crate::fields::{read_actor, read_actor_and_hart, read_number};
use crate::splitting::split_at_byte;

/// The word that the text spells, if it spells one.
pub fn read_word(text: &[u8]) -> Option<ScriptWord>
    ensures found { IfSome result (SpellsWord text.now) }
    ensures only { (word : AnyWord) → SpellsWord text.now word → result ≡ Some word }
{
    match split_at_byte(text, b'*') {
        Some((action, repeat)) => {
            let action = read_action(action)?;
            match read_number(repeat, 100_000)? {
                0 => None,
                repeat => Some(ScriptWord { action, repeat }),
            }
        }
        None => Some(ScriptWord {
            action: read_action(text)?,
            repeat: 1,
        }),
    }
}

/// The action that the text spells, if it spells one.
fn read_action(text: &[u8]) -> Option<Action>
    ensures found { IfSome result (SpellsAction text.now) }
    ensures only { (action : AnyAction) → SpellsAction text.now action → result ≡ Some action }
{
    let (letter, numbers) = text.split_first()?;
    match letter {
        b'D' | b'R' | b'T' => {
            let (actor, hart) = read_actor_and_hart(numbers)?;
            action_for_hart(*letter, actor, hart)
        }
        _ => action_of_actor(*letter, read_actor(numbers)?),
    }
}

/// The action of this letter that is made for a hart.
fn action_for_hart(letter: u8, actor: u8, hart: u8) -> Option<Action>
    ensures found { IfSome result
        (λ action. action_text action ≡ letter ∷ (decimal actor ++ 46 ∷ decimal hart)) }
    ensures in_range { actor < most_actors → hart < most_harts → IfSome result IsInRange }
    ensures none { IfNone result ((letter ≢ 68) × (letter ≢ 82) × (letter ≢ 84)) }
{
    match letter {
        b'D' => Some(Action::Decode { actor, hart }),
        b'R' => Some(Action::Rename { actor, hart }),
        b'T' => Some(Action::Retire { actor, hart }),
        _ => None,
    }
}

/// The action of this letter that is made for none.
fn action_of_actor(letter: u8, actor: u8) -> Option<Action>
    ensures found { IfSome result (λ action. action_text action ≡ letter ∷ decimal actor) }
    ensures in_range { actor < most_actors → IfSome result IsInRange }
    ensures none { IfNone result
        ((letter ≢ 70) × (letter ≢ 73) × (letter ≢ 67) × (letter ≢ 85)) }
{
    match letter {
        b'F' => Some(Action::Fetch { actor }),
        b'I' => Some(Action::Issue { actor }),
        b'C' => Some(Action::Complete { actor }),
        b'U' => Some(Action::Unit { actor }),
        _ => None,
    }
}
