//! The words of the prompt itself.

ghost use Rattle.prompts.specs.Typed.{IsRead, Names};

/// What a line asks of the prompt, where it isn't words of a script.
#[derive(Clone, Copy, PartialEq, Eq, Drop)]
pub enum Command {
    /// The tables of the core.
    Show,
    /// The asks of the last line of words again, explained.
    Why,
    /// The pipeline so far.
    Chart,
    /// Takes the last line of words back.
    Undo,
    Help,
    Quit,
}

/// The command that a line says, whatever spaces stand about it.
pub(crate) fn read_command(line: &[u8]) -> Option<Command>
    ensures { IsRead line.now result }
{
    command_of(line.trim_ascii())
}

/// The command of this word.
fn command_of(word: &[u8]) -> Option<Command>
    ensures { Names word.now result }
{
    match word {
        b"show" => Some(Command::Show),
        b"why" => Some(Command::Why),
        b"chart" => Some(Command::Chart),
        b"undo" => Some(Command::Undo),
        b"help" => Some(Command::Help),
        b"quit" => Some(Command::Quit),
        _ => None,
    }
}
