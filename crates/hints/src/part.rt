ghost use Rattle.std.specs.Prelude.{◌≡◌};
ghost use Rattle.hints.specs.Parts.{name_of};

/// What a part of a hint says.
#[derive(Clone, Copy, Debug, PartialEq, Eq, Drop)]
pub enum Part {
    /// What is wrong with the command line.
    Error,
    /// What usually mends it.
    Tip,
    /// How the command is called.
    Usage,
    /// Where there is more to read.
    More,
    /// Which file it is, and whether it is read or written, as what.
    File,
    /// Where in it.
    Place,
    /// The word there.
    Word,
    /// The line there.
    Line,
    /// Why it is refused.
    Cause,
    /// What else is refused, and where.
    Further,
    /// What may stand there.
    Expected,
    /// What was meant, probably.
    Meant,
    /// What mostly stands behind it.
    Usually,
    /// What memory, or a thread, was wanted for.
    For,
    /// The command that says more.
    See,
}

impl Part {
    /// The word by which a hint names the part: letters in lower case.
    pub fn name(self) -> &'static str
        ensures { result.now ≡ name_of self }
    {
        match self {
            Part::Error => "error",
            Part::Tip => "tip",
            Part::Usage => "usage",
            Part::More => "more",
            Part::File => "file",
            Part::Place => "place",
            Part::Word => "word",
            Part::Line => "line",
            Part::Cause => "cause",
            Part::Further => "further",
            Part::Expected => "expected",
            Part::Meant => "meant",
            Part::Usually => "usually",
            Part::For => "for",
            Part::See => "see",
        }
    }
}
