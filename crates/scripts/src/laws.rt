//! The laws of scripts. The functions do nothing: each is there for its contract.

ghost use Rattle.scripts.specs.Lines.{LinesAreScripts};
ghost use Rattle.scripts.specs.Unambiguous.{ScriptsAreUnambiguous};

/// Lines of words, one behind another, are read as these words again.
pub fn lines_are_scripts()
    ensures lines { LinesAreScripts }
{}

/// A text says one thing: who has read it has read the words that anyone else reads.
pub fn scripts_are_unambiguous()
    ensures one { ScriptsAreUnambiguous }
{}
