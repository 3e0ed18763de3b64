/// What an actor, below `MOST_ACTORS`, is asked to do, some of it for one hart, below `MOST_HARTS`.
#[derive(Clone, Copy, Drop)]
pub enum Action {
    Fetch { actor: u8 },
    Decode { actor: u8, hart: u8 },
    Rename { actor: u8, hart: u8 },
    Retire { actor: u8, hart: u8 },
    Issue { actor: u8 },
    Complete { actor: u8 },
    /// To issue and then, where a job came, to complete it.
    Unit { actor: u8 },
}

/// An action, and how often it is made, 1 to 100000 times.
#[derive(Clone, Copy, Drop)]
pub struct ScriptWord {
    pub action: Action,
    pub repeat: u32,
}

/// A fetch by actor 0, made once.
impl Default for ScriptWord {
    fn default() -> Self {
        ScriptWord {
            action: Action::Fetch { actor: 0 },
            repeat: 1,
        }
    }
}
