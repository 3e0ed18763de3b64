ghost use Rattle.std.specs.Prelude.{◌≡◌, ◌≤◌, IfSome};
ghost use Rattle.events.specs.declared.kind.EventKind.{EventKind};
ghost use Rattle.events.specs.Kind.{letter_of, fields_after, kind_of_letter};

/// What an event does to its instruction.
#[derive(Clone, Copy, PartialEq, Eq, Drop)]
pub enum EventKind {
    Fetch,
    Decode,
    Rename,
    Issue,
    Complete,
    Drop,
    Retire,
    Refetch,
}

impl EventKind {
    /// The letter that its line begins with.
    pub fn letter(self) -> u8
        ensures { result ≡ letter_of self }
    {
        match self {
            EventKind::Fetch => b'F',
            EventKind::Decode => b'D',
            EventKind::Rename => b'R',
            EventKind::Issue => b'I',
            EventKind::Complete => b'C',
            EventKind::Drop => b'X',
            EventKind::Retire => b'T',
            EventKind::Refetch => b'G',
        }
    }

    /// The kind whose lines begin with a letter, if there is one.
    pub fn from_letter(letter: u8) -> Option<EventKind>
        ensures named { result ≡ kind_of_letter letter }
        ensures found { IfSome result (λ kind. letter ≡ letter_of kind) }
        ensures only { (kind : EventKind) → letter ≡ letter_of kind → result ≡ Some kind }
    {
        Some(match letter {
            b'F' => EventKind::Fetch,
            b'D' => EventKind::Decode,
            b'R' => EventKind::Rename,
            b'I' => EventKind::Issue,
            b'C' => EventKind::Complete,
            b'X' => EventKind::Drop,
            b'T' => EventKind::Retire,
            b'G' => EventKind::Refetch,
            _ => return None,
        })
    }

    /// How many fields stand after the letter on its lines.
    pub fn fields_after(self) -> usize
        ensures { result ≡ fields_after self }
    {
        match self {
            EventKind::Fetch => 6,
            EventKind::Decode | EventKind::Issue | EventKind::Drop | EventKind::Refetch => 2,
            EventKind::Rename => 3,
            EventKind::Complete | EventKind::Retire => 7,
        }
    }
}
