//! A list of reductions, as a command line has it.

ghost use Rattle.std.specs.Prelude.{◌≡◌, true, None, IfSome};
ghost use Rattle.reductions.specs.Lists.{IsListed, IsNoList};
ghost use Rattle.reductions.specs.Names.{has};

use crate::reduction::Reduction;
use crate::without::Without;

/// What a list leaves out: names of reductions with commas between them, each at most once, and one at least. None where
/// the text is no such list.
pub fn read_list(text: &str) -> Option<Without>
    ensures read { IfSome result (IsListed text.now) }
    ensures unread { result ≡ None → IsNoList text.now }
{
    match text {
        "RX" => Some(Without::none().and(Reduction::Conditional)),
        "J" => Some(Without::none().and(Reduction::Jumps)),
        "RX,J" => Some(both()),
        "J,RX" => Some(both()),
        _ => None,
    }
}

/// Each of them is left out.
fn both() -> Without
    ensures { (reduction : Reduction) → has result reduction ≡ true }
{
    Without::none()
        .and(Reduction::Conditional)
        .and(Reduction::Jumps)
}
